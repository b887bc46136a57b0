//! What the roles of a server wrote down for its journal.

ghost use Rattle.std.specs.Prelude.{◌≡◌, ◌<◌};
ghost use Rattle.mum_serve.specs.Journals.{closing_room, journal_of};

use mum_base::{Items, Octets};
use mum_record::{ControlEntry, Journal, Limits, WorkerEntry};

/// The entries of a journal; none where no journal was asked for.
#[derive(Drop)]
pub struct Entries {
    /// What was decided, in the order of the control owner.
    pub controls: Items<ControlEntry>,
    /// What each worker did, in its order: a list for each worker.
    pub by_worker: Items<Items<WorkerEntry>>,
}

// For how many connections a worker takes the room of closing entries, where a journal is asked for: n of
// all connections may come to one worker.
pub(crate) fn closing_room(journal: bool, connections: u32, workers: u8) -> Option<u32>
    requires { 0 < workers }
    ensures { result ≡ closing_room journal connections workers }
{
    if journal {
        Some(connections.div_ceil(u32::from(workers)))
    } else {
        None
    }
}

// The journal of a server that read this document.
pub(crate) fn journal_of(workers: u8, document: Octets, entries: Entries) -> Journal
    ensures { result ≡ journal_of workers document entries }
{
    let Entries {
        controls,
        by_worker,
    } = entries;
    Journal {
        workers,
        limits: Some(Limits::greatest()),
        config: document,
        controls,
        by_worker,
    }
}
