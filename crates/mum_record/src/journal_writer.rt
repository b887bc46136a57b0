//! Writing a journal.

ghost use Rattle.std.specs.Prelude.{◌≡◌, ◌++◌, ◌∷◌, [], Ok, IfOk, OnOk, map, string_bytes};
ghost use Rattle.hex.specs.Hex.{IsBytes};
ghost use Rattle.mum_record.specs.Head.{journal_line, limits_lines, head_lines};
ghost use Rattle.mum_record.specs.Journal.{control_line, entry_line, end_line, lines_from, lines_of, ended_lines, Each, FitsControl, FitsEntry, IsWritableJournal};
ghost use Rattle.mum_record.specs.JournalReading.{journal_of};

use crate::control::push_control;
use crate::entry::push_entry;
use crate::head::{Limits, Version, push_config_line, push_limits_line};
use crate::journal::{ControlEntry, Journal, WorkerEntry};
use crate::line::{Word, byte_word, push_line};
use mum_base::{Items, Octets, OutOfMemory};
use std::alloc::Global;

// The first line of a journal of a version.
fn first_line(version: Version) -> &'static str
    ensures { result.now ≡ journal_line version }
{
    match version {
        Version::One => "journal 1",
        Version::Two => "journal 2",
    }
}

// Appends the line of the limits, where there are any.
fn push_limits(alloc: Global, text: &mut String, limits: &Option<Limits>) -> Result<(), OutOfMemory>
    ensures { IfOk result
        (λ _. string_bytes text.new ≡ string_bytes text.old ++ ended_lines (limits_lines limits.now)) }
{
    let Some(limits) = limits else {
        return Ok(());
    };
    push_limits_line(alloc, text, limits)?;
    text.push_str("\n")
}

// Appends the lines above the entries.
fn push_head(
    alloc: Global,
    text: &mut String,
    workers: u8,
    limits: &Option<Limits>,
    config: &[u8],
) -> Result<(), OutOfMemory>
    ensures text { IfOk result (λ _. string_bytes text.new ≡ string_bytes text.old
        ++ ended_lines (head_lines journal_line workers limits.now config.now)) }
    ensures fits { OnOk result (IsBytes config.now) }
{
    text.push_str(first_line(Version::with_limits(limits)))?;
    text.push_str("\n")?;
    push_line(alloc, text, "workers", &[byte_word(workers)])?;
    text.push_str("\n")?;
    push_limits(alloc, text, limits)?;
    push_config_line(alloc, text, config)?;
    text.push_str("\n")
}

// Appends the lines of control entries.
fn push_controls(
    alloc: Global,
    text: &mut String,
    controls: &[ControlEntry],
) -> Result<(), OutOfMemory>
    ensures text { IfOk result
        (λ _. string_bytes text.new ≡ string_bytes text.old ++ ended_lines (map control_line controls.now)) }
    ensures fits { OnOk result (Each FitsControl controls.now) }
{
    for entry in controls {
        push_control(alloc, text, entry)?;
        text.push_str("\n")?;
    }
    Ok(())
}

// Appends the lines of the entries of a worker.
fn push_entries(
    alloc: Global,
    text: &mut String,
    entries: &[WorkerEntry],
) -> Result<(), OutOfMemory>
    ensures text { IfOk result
        (λ _. string_bytes text.new ≡ string_bytes text.old ++ ended_lines (map entry_line entries.now)) }
    ensures fits { OnOk result (Each FitsEntry entries.now) }
{
    for entry in entries {
        push_entry(alloc, text, entry)?;
        text.push_str("\n")?;
    }
    Ok(())
}

// Appends the lines of all workers, each below the line of its number.
fn push_workers(
    alloc: Global,
    text: &mut String,
    by_worker: &[Items<WorkerEntry>],
) -> Result<(), OutOfMemory>
    ensures text { IfOk result
        (λ _. string_bytes text.new ≡ string_bytes text.old ++ ended_lines (lines_from 0 by_worker.now)) }
    ensures fits { OnOk result (Each (Each FitsEntry) by_worker.now) }
{
    for (number, entries) in by_worker.iter().enumerate() {
        push_line(alloc, text, "worker", &[Word::Number(number as u64)])?;
        text.push_str("\n")?;
        push_entries(alloc, text, entries.as_slice())?;
    }
    Ok(())
}

/// The text of a journal, each line ended by a line feed. `read_journal` reads it back as this
/// journal.
pub fn write_journal(alloc: Global, journal: &Journal) -> Result<Octets, OutOfMemory>
    requires { IsWritableJournal journal.now }
    ensures written { IfOk result (λ text. text ≡ ended_lines (lines_of journal.now)) }
    ensures read_back { IfOk result (λ text. journal_of text ≡ Ok journal.now) }
{
    let mut text = String::new(alloc);
    push_head(
        alloc,
        &mut text,
        journal.workers,
        &journal.limits,
        journal.config.as_slice(),
    )?;
    push_controls(alloc, &mut text, journal.controls.as_slice())?;
    push_workers(alloc, &mut text, journal.by_worker.as_slice())?;
    text.push_str("end\n")?;
    Ok(Octets::from_vec(text.into_bytes()))
}
