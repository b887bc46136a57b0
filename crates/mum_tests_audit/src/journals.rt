//! Journals of two logins, a packet and two ends, and what is found where one line of them is changed.

use mum_audit::laws::read_journals_are_auditable;
use mum_audit::{Audited, audit};
use mum_opening::document_edits;
use mum_record::read_journal;
use std::alloc::Global;
use std::process::Abort;

// What is found in a journal, which is read from its text.
fn audited(rt: &impl Abort, alloc: Global, text: &str) -> Audited {
    read_journals_are_auditable();
    let journal = read_journal(alloc, text.as_bytes()).expect(rt, "it is a journal");
    let edits = document_edits(alloc, journal.config.as_slice());
    drop(edits.expect(rt, "its document has no fault"));
    let found = audit(alloc, &journal).expect(rt, "memory");
    drop(journal);
    found
}

// Compares what is found in a legal journal: the counts of its control entries, voice entries and copies, and of full
// boxes.
fn compare_legal(rt: &impl Abort, alloc: Global, text: &str, counts: (u64, u64, u64, u64)) {
    match audited(rt, alloc, text) {
        Audited::Legal {
            controls,
            voices,
            copies,
            full,
        } => assert_eq!(rt; (controls, voices, copies, full), counts),
        Audited::Wrong { .. } => panic!(rt; "no line is wrong"),
    }
}

// Compares the first wrong line of a journal.
fn compare_wrong(rt: &impl Abort, alloc: Global, text: &str, wrong: (u64, &str, &str)) {
    match audited(rt, alloc, text) {
        Audited::Legal { .. } => panic!(rt; "a line is wrong"),
        Audited::Wrong {
            line,
            given,
            defined,
        } => {
            assert_eq!(rt; line, wrong.0);
            assert_eq!(rt; given.as_str(), wrong.1);
            assert_eq!(rt; defined.as_str(), wrong.2);
        }
    }
}

#[test]
fn legal_journals_are_counted(rt: HostRuntime) {
    let cases = [
        // Two users, of whom one talks.
        (
            "journal 1\nworkers 1\nconfig -\nc 1 - 0002000000050a03616e6e accepted 1\nc 2 - 0002000000050a03626f62 accepted 2\nworker 0\nv 1 2 800103aabbcc 1 2/0/s\nx 1 end\nx 2 end\nend\n",
            (2, 1, 1, 0),
        ),
        // A look at the first edit alone: nobody else is there yet. At the second, the box was full.
        (
            "journal 1\nworkers 1\nconfig -\nc 1 - 0002000000050a03616e6e accepted 1\nc 2 - 0002000000050a03626f62 accepted 2\nworker 0\nv 1 1 800103aabbcc 0\nv 1 2 800103aabbcc 1 2/0/f\nend\n",
            (2, 2, 0, 1),
        ),
        // A leave of a connection that never logged in, with greater limits and an empty document.
        (
            "journal 2\nworkers 4\nlimits 512 2048\nconfig 7b7d\nc 1 - leave ignored 8\nworker 0\nx 1 toolong\nworker 1\nworker 2\nworker 3\nend\n",
            (1, 0, 0, 0),
        ),
        // A leave, and what a connection whose session is gone asks: a Ping, and a login.
        (
            "journal 1\nworkers 1\nconfig -\nc 1 - 0002000000050a03616e6e accepted 1\nc 1 - leave accepted 2\nc 1 - 000300000000 ignored 8\nc 1 - 0002000000050a03616e6e ignored 8\nc 2 - 000300000000 ignored 1\nc 2 - 000900000000 ignored 3\nworker 0\nend\n",
            (6, 0, 0, 0),
        ),
    ];
    for (text, counts) in cases {
        compare_legal(&rt, rt.alloc(), text, counts);
    }
}

#[test]
fn first_wrong_line_is_named(rt: HostRuntime) {
    let cases = [
        // A verdict.
        (
            "journal 1\nworkers 1\nconfig -\nc 1 - 0002000000050a03616e6e accepted 1\nc 2 - 0002000000050a03626f62 accepted 3\nworker 0\nv 1 2 800103aabbcc 1 2/0/s\nx 1 end\nx 2 end\nend\n",
            (5, "accepted 3", "accepted 2"),
        ),
        // The same in version 2, whose entries begin one line below.
        (
            "journal 2\nworkers 1\nlimits 128 1024\nconfig -\nc 1 - 0002000000050a03616e6e accepted 1\nc 2 - 0002000000050a03626f62 ignored 8\nworker 0\nend\n",
            (6, "ignored 8", "accepted 2"),
        ),
        // An audience.
        (
            "journal 1\nworkers 1\nconfig -\nc 1 - 0002000000050a03616e6e accepted 1\nc 2 - 0002000000050a03626f62 accepted 2\nworker 0\nv 1 2 800103aabbcc 0\nx 1 end\nx 2 end\nend\n",
            (7, "0", "1 2/0"),
        ),
        // A copy for one who joins by a later edit.
        (
            "journal 1\nworkers 1\nconfig -\nc 1 - 0002000000050a03616e6e accepted 1\nc 2 - 0002000000050a03626f62 accepted 2\nworker 0\nv 1 1 800103aabbcc 1 2/0/s\nend\n",
            (7, "1 2/0", "0"),
        ),
        // A revision that falls, and one above all accepted edits.
        (
            "journal 1\nworkers 1\nconfig -\nc 1 - 0002000000050a03616e6e accepted 1\nc 2 - 0002000000050a03626f62 accepted 2\nworker 0\nv 1 2 800103aabbcc 1 2/0/s\nv 1 1 800103aabbcc 0\nx 1 end\nx 2 end\nend\n",
            (8, "1", "2"),
        ),
        (
            "journal 1\nworkers 1\nconfig -\nc 1 - 0002000000050a03616e6e accepted 1\nworker 0\nv 1 2 800103aabbcc 0\nend\n",
            (6, "2", "1"),
        ),
        // A packet without its audio.
        (
            "journal 1\nworkers 1\nconfig -\nc 1 - 0002000000050a03616e6e accepted 1\nc 2 - 0002000000050a03626f62 accepted 2\nworker 0\nv 1 2 8001 0\nx 1 end\nx 2 end\nend\n",
            (7, "8001", "23"),
        ),
        // A connection that is not logged in.
        (
            "journal 1\nworkers 1\nconfig -\nworker 0\nv 7 0 800103aabbcc 0\nend\n",
            (5, "7", "0"),
        ),
        // A second closing entry, at the same worker and at another one.
        (
            "journal 1\nworkers 1\nconfig -\nc 1 - 0002000000050a03616e6e accepted 1\nc 2 - 0002000000050a03626f62 accepted 2\nworker 0\nv 1 2 800103aabbcc 1 2/0/s\nx 1 end\nx 1 end\nx 2 end\nend\n",
            (9, "1", "8"),
        ),
        (
            "journal 1\nworkers 2\nconfig -\nworker 0\nx 3 end\nworker 1\nx 3 fault\nend\n",
            (7, "3", "5"),
        ),
    ];
    for (text, wrong) in cases {
        compare_wrong(&rt, rt.alloc(), text, wrong);
    }
}
