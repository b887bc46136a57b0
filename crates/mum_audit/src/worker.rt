//! The entries of the workers.

ghost use Rattle.std.specs.Prelude.{◌≡◌, ◌++◌, ◌∷◌, [], IfOk, None};
ghost use Rattle.mum_history.specs.View.{IsViewOf};
ghost use Rattle.mum_audit.specs.Audit.{first_wrong};
ghost use Rattle.mum_audit.specs.Workers.{after_entries, after_entry, closing_finding, entry_finding, entry_findings, next_line, worker_findings};
ghost use Rattle.mum_audit.specs.Voice.{voice_finding};

use crate::finding::{Finding, numbers_differ};
use crate::hearing::Hearing;
use crate::past::Past;
use crate::trail::Trail;
use crate::voice::{VoiceEntry, check_voice};
use mum_base::{Items, OutOfMemory};
use mum_record::WorkerEntry;
use std::alloc::Global;

// What is wrong with a voice entry.
fn check_said(
    alloc: Global,
    past: &Past,
    hearing: &mut Hearing,
    trail: &mut Trail,
    entry: &VoiceEntry<'_>,
) -> Result<Option<Finding>, OutOfMemory>
    requires { IsViewOf past.now.opening past.now.accepted hearing.old.view }
    ensures view { IsViewOf past.now.opening past.now.accepted hearing.new.view }
    ensures finding { IfOk result (λ found. found
        ≡ voice_finding past.now trail.old.least entry.now.connection entry.now.revision entry.now.packet.now entry.now.copies.now) }
    ensures trail { trail.new ≡ record trail.old { line = next_line trail.old.line; least = entry.now.revision } }
{
    let least = trail.least();
    trail.pass_voice(entry.revision);
    check_voice(alloc, past, hearing, least, entry)
}

// What is wrong with a closing entry of a connection; the first one is noted.
fn check_closing(
    alloc: Global,
    trail: &mut Trail,
    connection: u32,
) -> Result<Option<Finding>, OutOfMemory>
    ensures finding { IfOk result (λ found. found ≡ closing_finding trail.old connection) }
    ensures trail { IfOk result (λ found. found ≡ None → trail.new ≡ record trail.old {
      line = next_line trail.old.line;
      closed = trail.old.closed ++ (connection, trail.old.line) ∷ [];
    }) }
{
    if let Some(first) = trail.closed(connection) {
        return Ok(Some(numbers_differ(alloc, u64::from(connection), first)?));
    }
    trail.pass_closing(connection)?;
    Ok(None)
}

// What is wrong with an entry. Where nothing is, the trail goes past it.
fn check_entry(
    alloc: Global,
    past: &Past,
    hearing: &mut Hearing,
    trail: &mut Trail,
    entry: &WorkerEntry,
) -> Result<Option<Finding>, OutOfMemory>
    requires { IsViewOf past.now.opening past.now.accepted hearing.old.view }
    ensures view { IsViewOf past.now.opening past.now.accepted hearing.new.view }
    ensures finding { IfOk result (λ found. found ≡ entry_finding past.now trail.old entry.now) }
    ensures trail { IfOk result (λ found. found ≡ None → trail.new ≡ after_entry trail.old entry.now) }
{
    match *entry {
        WorkerEntry::Voice {
            connection,
            revision,
            ref packet,
            ref copies,
        } => {
            let voice = VoiceEntry {
                connection,
                revision,
                packet: packet.as_slice(),
                copies: copies.as_slice(),
            };
            check_said(alloc, past, hearing, trail, &voice)
        }
        WorkerEntry::Closed { connection, .. } => check_closing(alloc, trail, connection),
    }
}

// The first wrong entry with its line. Where none is wrong the trail goes past all.
fn check_entries(
    alloc: Global,
    past: &Past,
    hearing: &mut Hearing,
    trail: &mut Trail,
    entries: &[WorkerEntry],
) -> Result<Option<(u64, Finding)>, OutOfMemory>
    requires { IsViewOf past.now.opening past.now.accepted hearing.old.view }
    ensures view { IsViewOf past.now.opening past.now.accepted hearing.new.view }
    ensures wrong { IfOk result (λ found. found
        ≡ first_wrong trail.old.line (entry_findings past.now trail.old entries.now)) }
    ensures trail { IfOk result (λ found. found ≡ None → trail.new ≡ after_entries trail.old entries.now) }
{
    for entry in entries {
        let line = trail.line();
        if let Some(finding) = check_entry(alloc, past, hearing, trail, entry)? {
            return Ok(Some((line, finding)));
        }
    }
    Ok(None)
}

// The first wrong line of the workers with its number, where the trail is before the line of the first.
pub(crate) fn check_workers(
    alloc: Global,
    past: &Past,
    hearing: &mut Hearing,
    trail: &mut Trail,
    by_worker: &[Items<WorkerEntry>],
) -> Result<Option<(u64, Finding)>, OutOfMemory>
    requires { IsViewOf past.now.opening past.now.accepted hearing.old.view }
    ensures { IfOk result (λ found. found
        ≡ first_wrong trail.old.line (worker_findings past.now trail.old by_worker.now)) }
{
    for entries in by_worker {
        trail.begin_worker();
        let entries = entries.as_slice();
        if let Some(wrong) = check_entries(alloc, past, hearing, trail, entries)? {
            return Ok(Some(wrong));
        }
    }
    Ok(None)
}
