//! What is counted and written down of the commands.

ghost use Rattle.std.specs.Prelude.{◌≡◌, ◌<◌, ◌||◌, ◌++◌, true, false, [], None, is_none, IfSome, IsSome, OnErr, OnOk};
ghost use Rattle.std.specs.Vec.{vec_capacity, vec_len};
ghost use Rattle.mum_record.specs.Journal.{Each, IsWritableControl};
ghost use Rattle.mum_owner.specs.Written.{IsWritableDraft, accepted_by, entries_by, prepared, recorded, refused};

use crate::entry::{Draft, entry_of};
use mum_base::{Mark, OutOfMemory};
use mum_record::ControlEntry;
use mum_session::Command;
use std::alloc::Global;
use std::marker::Model;

// The entries of a journal, where one was asked for; how many edits were accepted; and whether memory ran out.
#[derive(Drop)]
pub(crate) struct Scribe {
    alloc: Global,
    is_asked: bool,
    // What is prepared of the next entry. There is room for that entry.
    draft: Option<Draft>,
    entries: Vec<ControlEntry>,
    accepted: u64,
    no_memory: bool,
}

impl Model for Scribe {
    ghost use Rattle.std.specs.Prelude.{◌<◌, IfSome, IsSome};
    ghost use Rattle.std.specs.Vec.{vec_capacity, vec_len};
    ghost use Rattle.mum_owner.specs.Written.{IsWritableDraft};
    ghost use Rattle.mum_record.specs.Journal.{Each, IsWritableControl};
    ghost use Rattle.mum_owner.specs.Facts.{ScribeFacts};

    ghost Value = { ScribeFacts };

    ghost view = { λ s. record {
      is_asked = s.is_asked;
      draft = s.draft;
      entries = s.entries.items;
      accepted = s.accepted;
      no_memory = s.no_memory;
    } };

    ghost invariant = { λ s. (IsSome s.draft → vec_len s.entries < vec_capacity s.entries)
        × IfSome s.draft IsWritableDraft × Each IsWritableControl s.entries.items };
}

// How many edits were accepted, after a command of this outcome.
fn accepted_by(mark: Option<Mark>, accepted: u64) -> u64
    ensures { result ≡ accepted_by mark accepted }
{
    match mark {
        Some(Mark::Accepted { revision }) => revision,
        _ => accepted,
    }
}

// Writes an entry, where one is prepared and the command has an outcome.
fn write(entries: &mut Vec<ControlEntry>, connection: u32, draft: Option<Draft>, mark: Option<Mark>)
    requires room { IsSome draft → vec_len entries.old < vec_capacity entries.old }
    requires draft { IfSome draft IsWritableDraft }
    requires writable { Each IsWritableControl entries.old.items }
    ensures entries { entries.new.items ≡ entries.old.items ++ entries_by connection draft mark }
    ensures writable { Each IsWritableControl entries.new.items }
{
    let Some(Draft { version, frame }) = draft else {
        return;
    };
    let Some(verdict) = mark else {
        return;
    };
    entries.push_reserved(ControlEntry {
        connection,
        version,
        frame,
        verdict,
    });
}

impl Scribe {
    pub(crate) fn open(alloc: Global, is_asked: bool) -> Scribe
        ensures { result ≡ record { is_asked = is_asked; draft = None; entries = []; accepted = 0; no_memory = false } }
    {
        Scribe {
            alloc,
            is_asked,
            draft: None,
            entries: Vec::new(alloc),
            accepted: 0,
            no_memory: false,
        }
    }

    // Takes the memory for what is to be written down of a command, before it is decided. There is nothing to
    // take where no journal was asked for.
    pub(crate) fn prepare(&mut self, command: &Command) -> Result<(), OutOfMemory>
        ensures ok { OnOk result (self.new ≡ record self.old { draft = prepared self.old.is_asked command.now }) }
        ensures err { OnErr result (self.new ≡ record self.old { draft = None }) }
        ensures asked { OnErr result (self.old.is_asked ≡ true) }
    {
        self.draft = None;
        if !self.is_asked {
            return Ok(());
        }
        self.entries.reserve(1)?;
        self.draft = Some(entry_of(self.alloc, command)?);
        Ok(())
    }

    // Memory ran out before a command was decided.
    pub(crate) fn refuse(&mut self)
        ensures { self.new ≡ refused self.old }
    {
        self.draft = None;
        self.no_memory = true;
    }

    // A command for which this is prepared had this outcome, and memory ran out for its reply or did not.
    pub(crate) fn settle(&mut self, connection: u32, mark: Option<Mark>, no_memory: bool)
        ensures { self.new ≡ recorded connection mark no_memory self.old }
    {
        let draft = self.draft.take();
        write(&mut self.entries, connection, draft, mark);
        self.accepted = accepted_by(mark, self.accepted);
        self.no_memory = self.no_memory || (no_memory || mark.is_none());
    }

    // The number of accepted edits, the entries, and whether memory ran out.
    pub(crate) fn close(self) -> (u64, Vec<ControlEntry>, bool)
        ensures accepted { result.0 ≡ self.accepted }
        ensures entries { result.1.items ≡ self.entries }
        ensures writable { Each IsWritableControl result.1.items }
        ensures no_memory { result.2 ≡ self.no_memory }
    {
        let Scribe {
            alloc: _,
            is_asked: _,
            draft: _,
            entries,
            accepted,
            no_memory,
        } = self;
        (accepted, entries, no_memory)
    }
}
