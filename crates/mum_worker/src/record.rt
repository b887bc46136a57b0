//! What a worker keeps of what it did: its journal, where one is kept, and what it counts.

ghost use Rattle.std.specs.Prelude.{◌≡◌, ◌≤◌, [], IfOk, IsTrue, OnOk, length, vec_capacity, vec_len};
ghost use Rattle.mum_record.specs.Journal.{Each, IsWritableEntry};
ghost use Rattle.mum_worker.specs.Record.{after_close, after_step, first_record, may_take_in, taking_in, without_room};
ghost use Rattle.mum_worker.specs.Routing.{RoutesPacket};

use crate::routing::route_bytes;
use mum_base::{Cause, Items, Octets, OutOfMemory, SLOTS, SessionId};
use mum_port::Step;
use mum_published::Naming;
use mum_record::{Marked, WorkerEntry};
use mum_router::Router;
use std::alloc::Global;
use std::marker::Model;
use std::mem::replace;
use std::sync::Wait;

// What a worker keeps of what it did. Where a journal is kept, the room of all closing entries that may
// still come is kept too.
#[derive(Drop)]
pub(crate) struct Record {
    journal: bool,
    entries: Vec<WorkerEntry>,
    // Whether the room of a voice entry is kept, and of its marks.
    voice_room: bool,
    // Room for the marks of a voice entry.
    marks: Vec<Marked>,
    // How many connections may still be taken in, where a journal is kept.
    left: u32,
    // How many closing entries may still come.
    owed: u32,
    stale: u64,
    no_memory: bool,
}

impl Model for Record {
    ghost use Rattle.std.specs.Prelude.{◌≡◌, ◌+◌, ◌≤◌, ◌||◌, [], IsTrue, not, vec_capacity, vec_len};
    ghost use Rattle.mum_base.specs.declared.number.TheConstants.{SLOTS};
    ghost use Rattle.mum_record.specs.Journal.{Each, IsWritableEntry};
    ghost use Rattle.mum_worker.specs.Record.{RecordFacts, count_of};

    ghost Value = { RecordFacts };

    ghost view = { λ r. record {
      journal = r.journal;
      entries = r.entries.items;
      has_room = not r.journal || r.voice_room;
      left = r.left;
      owed = r.owed;
      stale = r.stale;
      no_memory = r.no_memory;
    } };

    ghost invariant = { λ r. (vec_len r.entries + (r.owed + count_of r.voice_room) ≤ vec_capacity r.entries)
        × (r.marks.items ≡ []) × (vec_len r.marks ≡ 0)
        × (IsTrue r.voice_room → SLOTS ≤ vec_capacity r.marks) × Each IsWritableEntry r.entries.items };
}

// The marks as a list of their own: an exact copy where there is memory for it, and else in the room that was
// taken for them.
fn copies_of(alloc: Global, room: &mut Vec<Marked>, marks: &[Marked]) -> Items<Marked>
    requires empty { (room.old.items ≡ []) × (vec_len room.old ≡ 0) }
    requires few { length marks.now ≤ vec_capacity room.old }
    ensures copies { result ≡ marks.now }
    ensures empty { (room.new.items ≡ []) × (vec_len room.new ≡ 0) }
{
    if let Ok(copy) = Vec::from_slice(alloc, marks) {
        return Items::from_vec(copy);
    }
    let Ok(()) = room.extend_from_slice(marks) else {
        unreachable!()
    };
    Items::from_vec(replace(room, Vec::new(alloc)))
}

impl Record {
    // Nothing was done yet. A journal is of at most n connections.
    pub(crate) fn open(alloc: Global, journal: Option<u32>) -> Result<Record, OutOfMemory>
        ensures { IfOk result (λ kept. kept ≡ first_record journal) }
    {
        let count = journal.unwrap_or(0);
        let entries = Vec::with_capacity(alloc, count as usize)?;
        Ok(Record {
            journal: journal.is_some(),
            entries,
            voice_room: false,
            marks: Vec::new(alloc),
            left: count,
            owed: count,
            stale: 0,
            no_memory: false,
        })
    }

    // Takes the room of a voice entry and of its marks, where a journal is kept and the room is not.
    pub(crate) fn reserve(&mut self) -> Result<(), OutOfMemory>
        ensures room { OnOk result (IsTrue self.new.has_room) }
        ensures same { without_room self.new ≡ without_room self.old }
    {
        if self.journal && !self.voice_room {
            self.entries.reserve(self.owed as usize + 1)?;
            self.marks.reserve(SLOTS)?;
            self.voice_room = true;
        }
        Ok(())
    }

    // Routes what a connection says, where its bytes are a packet. Its entry is kept, where a journal is.
    pub(crate) fn route<N: Naming, W: Wait>(
        &mut self,
        rt: &W,
        alloc: Global,
        router: &mut Router<N>,
        connection: u32,
        speaker: SessionId,
        packet: Octets,
    )
        requires { IsTrue self.old.has_room }
        ensures { RoutesPacket N.opening
            (record { router = router.old; kept = without_room self.old }) connection speaker packet
            (record { router = router.new; kept = without_room self.new }) }
    {
        let Some(routed) = route_bytes(rt, router, speaker, packet.as_slice()) else {
            drop(packet);
            return;
        };
        if !self.journal {
            drop(packet);
            return;
        }
        let copies = copies_of(alloc, &mut self.marks, router.marks());
        self.voice_room = false;
        self.entries.push_reserved(WorkerEntry::Voice {
            connection,
            revision: routed.revision,
            packet,
            copies,
        });
    }

    // What a port closed for, if it did.
    pub(crate) fn closed(&mut self, connection: u32, closed: Option<Cause>)
        ensures { self.new ≡ after_close connection closed self.old }
    {
        let Some(cause) = closed else {
            return;
        };
        self.no_memory = self.no_memory || matches!(cause, Cause::Memory);
        if self.journal && 0 < self.owed {
            self.owed -= 1;
            self.entries
                .push_reserved(WorkerEntry::Closed { connection, cause });
        }
    }

    // What the step of a port came to.
    pub(crate) fn stepped(&mut self, connection: u32, step: Step)
        ensures { self.new ≡ after_step connection step self.old }
    {
        self.stale = self.stale.saturating_add(u64::from(step.stale));
        self.closed(connection, step.closed);
    }

    // Whether a connection more may be taken in: where a journal is kept, its closing entry has room.
    pub(crate) fn may_take_in(&self) -> bool
        ensures { result ≡ may_take_in self.now }
    {
        !self.journal || 0 < self.left
    }

    // A connection more is taken in.
    pub(crate) fn taken_in(&mut self)
        ensures { self.new ≡ taking_in self.old }
    {
        self.left = self.left.saturating_sub(1);
    }

    // How many parcels were taken for other sessions.
    pub(crate) fn stale(&self) -> u64
        ensures { result ≡ self.now.stale }
    {
        self.stale
    }

    // Whether a port closed because memory ran out.
    pub(crate) fn no_memory(&self) -> bool
        ensures { result ≡ self.now.no_memory }
    {
        self.no_memory
    }

    // The entries of the journal, in order.
    pub(crate) fn into_entries(self) -> Vec<WorkerEntry>
        ensures entries { result.items ≡ self.entries }
        ensures writable { Each IsWritableEntry result.items }
    {
        self.entries
    }
}
