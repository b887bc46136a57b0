//! What the roles of a server came to.

ghost use Rattle.std.specs.Prelude.{◌≡◌};
ghost use Rattle.mum_record.specs.Journal.{Each, IsWritableEntry};
ghost use Rattle.mum_serve.specs.Journals.{entries_of};
ghost use Rattle.mum_serve.specs.Totals.{nothing, totals_of, with_worker};

use mum_base::Items;
use mum_crew::Gate;
use mum_io::Link;
use mum_published::Naming;
use mum_record::WorkerEntry;
use mum_worker::{Worker, WorkerEnd};
use std::sync::Wait;

/// The totals of a server that has ended: what its owner counted, and sums over its workers. A sum above the last
/// number of its type is that number.
#[derive(Clone, Copy)]
pub struct Totals {
    /// How many connections the door gave.
    pub connections: u32,
    /// How many edits were accepted.
    pub accepted: u64,
    /// How many packets were routed.
    pub looks: u64,
    /// How many copies of packets were put into boxes.
    pub copies: u64,
    /// How many were not, since their box was full.
    pub full: u64,
    /// How many parcels a port took that were for another session of its slot.
    pub stale: u64,
}

// What workers came to.
#[derive(Clone, Copy)]
pub(crate) struct WorkerTotals {
    pub(crate) looks: u64,
    pub(crate) copies: u64,
    pub(crate) full: u64,
    pub(crate) stale: u64,
    /// Memory ran out in one of them.
    pub(crate) no_memory: bool,
}

impl WorkerTotals {
    pub(crate) fn nothing() -> WorkerTotals
        ensures { result ≡ nothing }
    {
        WorkerTotals {
            looks: 0,
            copies: 0,
            full: 0,
            stale: 0,
            no_memory: false,
        }
    }

    // Ends a worker, and adds what it came to. Its entries are handed on.
    pub(crate) fn add<L: Link, G: Gate, N: Naming, R: Wait + Copy>(
        &mut self,
        worker: Worker<L, G, N, R>,
    ) -> Items<WorkerEntry>
        ensures totals { self.new ≡ with_worker worker self.old }
        ensures entries { result ≡ entries_of worker }
        ensures writable { Each IsWritableEntry result }
    {
        let WorkerEnd {
            looks,
            copies,
            full,
            stale,
            entries,
            no_memory,
        } = worker.finish();
        self.looks = self.looks.saturating_add(looks);
        self.copies = self.copies.saturating_add(copies);
        self.full = self.full.saturating_add(full);
        self.stale = self.stale.saturating_add(stale);
        self.no_memory = self.no_memory || no_memory;
        Items::from_vec(entries)
    }
}

impl Totals {
    // Those of a server whose owner counted this many connections and edits.
    pub(crate) fn of(connections: u32, accepted: u64, workers: WorkerTotals) -> Totals
        ensures { result ≡ totals_of connections accepted workers }
    {
        Totals {
            connections,
            accepted,
            looks: workers.looks,
            copies: workers.copies,
            full: workers.full,
            stale: workers.stale,
        }
    }
}
