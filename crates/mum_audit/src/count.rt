//! The counts of a legal journal.

ghost use Rattle.std.specs.Prelude.{◌≡◌, filter, length};
ghost use Rattle.mum_audit.specs.Audit.{counts_of, is_full, is_sent};
ghost use Rattle.mum_audit.specs.Counts.{no_counts, with_entries, with_entry, with_workers};

use crate::audited::Audited;
use mum_base::Items;
use mum_record::{Journal, Marked, WorkerEntry};

// Counts of the entries of the workers, each up to the greatest number of 64 bits.
#[derive(Clone, Copy)]
struct Counts {
    voices: u64,
    copies: u64,
    full: u64,
}

// How many copies were sent.
fn sent_among(copies: &[Marked]) -> u64
    ensures { result ≡ length (filter is_sent copies.now) }
{
    copies.iter().filter(|copy| copy.sent).count() as u64
}

// How many copies found a box full.
fn full_among(copies: &[Marked]) -> u64
    ensures { result ≡ length (filter is_full copies.now) }
{
    copies.iter().filter(|copy| !copy.sent).count() as u64
}

// One entry more.
fn with_entry(counts: Counts, entry: &WorkerEntry) -> Counts
    ensures { result ≡ with_entry counts entry.now }
{
    match entry {
        WorkerEntry::Voice { copies, .. } => Counts {
            voices: counts.voices.saturating_add(1),
            copies: counts.copies.saturating_add(sent_among(copies.as_slice())),
            full: counts.full.saturating_add(full_among(copies.as_slice())),
        },
        WorkerEntry::Closed { .. } => counts,
    }
}

// The entries of a worker more.
fn with_entries(counts: Counts, entries: &[WorkerEntry]) -> Counts
    ensures { result ≡ with_entries counts entries.now }
{
    let mut sum = counts;
    for entry in entries {
        sum = with_entry(sum, entry);
    }
    sum
}

// The counts of the entries of all workers.
fn counts_in(by_worker: &[Items<WorkerEntry>]) -> Counts
    ensures { result ≡ with_workers no_counts by_worker.now }
{
    let mut sum = Counts {
        voices: 0,
        copies: 0,
        full: 0,
    };
    for entries in by_worker {
        sum = with_entries(sum, entries.as_slice());
    }
    sum
}

// The counts of a journal in which no line is wrong.
pub(crate) fn counts_of(journal: &Journal) -> Audited
    ensures { result ≡ counts_of journal.now }
{
    let Counts {
        voices,
        copies,
        full,
    } = counts_in(journal.by_worker.as_slice());
    Audited::Legal {
        controls: journal.controls.as_slice().len() as u64,
        voices,
        copies,
        full,
    }
}
