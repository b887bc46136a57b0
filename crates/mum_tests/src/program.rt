//! `mum_server`: reads and writes that fail in mid-stream.

use mum_base::Octets;
use mum_io::{MemSink, MemSource};
use mum_server::run_plain;
use std::alloc::Global;
use std::process::Abort;

const INPUT: &str = "recording 1\nworkers 1\nconfig -\nopen 1 0\npublish\nend\n";

const TRANSCRIPT: &str = "opened 1 0\npublished 0\ntotals looks 0 copies 0 full 0 stale 0\n";

const JOURNAL: &str = "journal 1\nworkers 1\nconfig -\nc 1 - leave ignored 8\nworker 0\nend\n";

// These words, written with a space between two of them.
fn words_of(rt: &impl Abort, alloc: Global, spelled: &str) -> Vec<String> {
    let mut words = Vec::new(alloc);
    for word in spelled.split(' ') {
        let word = String::from_str(alloc, word).expect(rt, "memory");
        words.push(word).expect(rt, "memory");
    }
    words
}

// An input whose read with this number fails.
fn source(rt: &impl Abort, alloc: Global, input: &[u8], read: u64) -> MemSource {
    let bytes = Octets::of(alloc, input).expect(rt, "memory");
    let failing = Vec::from_slice(alloc, &[read]).expect(rt, "memory");
    MemSource::new(bytes, failing)
}

// Runs these words over this input, whose read and write with these numbers fail. Compares the status, what it wrote
// and what it said.
fn compare(
    rt: &impl Abort,
    alloc: Global,
    spelled: &str,
    input: &[u8],
    (read, write): (u64, u64),
    (status, written, said): (u8, &str, &str),
) {
    let words = words_of(rt, alloc, spelled);
    let mut source = source(rt, alloc, input, read);
    let failing = Vec::from_slice(alloc, &[write]).expect(rt, "memory");
    let mut output = MemSink::new(alloc, failing);
    let mut errors = MemSink::new(alloc, Vec::new(alloc));
    let ended = run_plain(alloc, &words, &mut source, &mut output, &mut errors);
    drop(words);
    drop(source);
    assert_eq!(rt; ended, status, "read {read}, write {write} of {spelled}");
    assert_eq!(rt;
        output.bytes(),
        written.as_bytes(),
        "read {read}, write {write} of {spelled}"
    );
    assert_eq!(rt;
        errors.bytes(),
        said.as_bytes(),
        "read {read}, write {write} of {spelled}"
    );
    drop(output);
    drop(errors);
}

#[test]
fn failing_streams_leave_a_front(rt: HostRuntime) {
    // the read and the write that fail; the status, what is written, what is said
    let cases = [
        ((1, 0), (3, "", "murmur: 3 ReadFault\n")),
        // the end after the last line is looked for
        ((2, 0), (3, TRANSCRIPT, "murmur: 3 ReadFault\n")),
        ((0, 1), (4, "", "murmur: 4 WriteFault\n")),
        ((0, 2), (4, "opened 1 0\n", "murmur: 4 WriteFault\n")),
    ];
    for (failing, expected) in cases {
        compare(
            &rt,
            rt.alloc(),
            "replay",
            INPUT.as_bytes(),
            failing,
            expected,
        );
    }
}

#[test]
fn an_exercise_reads_nothing_and_tells_a_failing_write(rt: HostRuntime) {
    // the read and the write that fail; the status, what is written, what is said
    let line =
        "exercise seed 7 steps 0 accepted 16 lacks 0 refused 0 ignored 0 looks 0 copies 0 full 0 stale 0\n";
    let cases = [
        ((1, 0), (0, line, "")),
        ((0, 1), (4, "", "murmur: 4 WriteFault\n")),
    ];
    for (failing, expected) in cases {
        compare(
            &rt,
            rt.alloc(),
            "exercise 7 0",
            INPUT.as_bytes(),
            failing,
            expected,
        );
    }
}

#[test]
fn an_audit_tells_failing_streams(rt: HostRuntime) {
    // the read and the write that fail; the status, what is written, what is said
    let line = "legal controls 1 voices 0 copies 0 full 0\n";
    let cases = [
        ((0, 0), (0, line, "")),
        ((1, 0), (3, "", "murmur: 3 ReadFault\n")),
        ((2, 0), (3, "", "murmur: 3 ReadFault\n")),
        ((0, 1), (4, "", "murmur: 4 WriteFault\n")),
    ];
    for (failing, expected) in cases {
        compare(
            &rt,
            rt.alloc(),
            "audit",
            JOURNAL.as_bytes(),
            failing,
            expected,
        );
    }
}

// A line, and this many zero bytes after it.
fn padded(rt: &impl Abort, alloc: Global, line: &str, zeros: u32) -> Vec<u8> {
    let mut input = Vec::from_slice(alloc, line.as_bytes()).expect(rt, "memory");
    for _ in 0..zeros {
        input.push(0).expect(rt, "memory");
    }
    input
}

#[test]
fn nothing_is_read_behind_a_fault(rt: HostRuntime) {
    // a line and the zero bytes after it, of which the second read fails: the status and what is said
    let cases = [
        ("audio 1\n", 200_000, 2, "murmur: 2 BadRecording line 1\n"),
        ("", 131_201, 10, "murmur: 10 TooLong line 1\n"),
        ("", 131_200, 3, "murmur: 3 ReadFault\n"),
    ];
    for (line, zeros, status, errors) in cases {
        let input = padded(&rt, rt.alloc(), line, zeros);
        compare(
            &rt,
            rt.alloc(),
            "replay",
            &input,
            (2, 0),
            (status, "", errors),
        );
    }
}
