//! How far a port has come, and how a part of its step ended.

ghost use Rattle.std.specs.Prelude.{◌≡◌};
ghost use Rattle.mum_port.specs.Stage.{after_word, closed_for, has_worked, is_closed, is_gone, is_live, parting_cause, settled_where, stage_after_reply, stage_by};

use mum_base::{Cause, ReplyEnd};

/// What the desk is still owed by a port that closed.
#[derive(Clone, Copy, Debug, PartialEq, Eq)]
pub enum Farewell {
    /// The Leave of the connection, and then that the port closed.
    Leave,
    /// That the port closed.
    LastWord,
    /// Nothing: the port is gone.
    Done,
}

/// Why a port writes what it keeps and does nothing else.
#[derive(Clone, Copy, Debug, PartialEq, Eq)]
pub enum Parting {
    /// Its login was rejected.
    Rejected,
    /// It took the last parcel of its session.
    Kicked,
}

impl Parting {
    // The cause for which the port closes then.
    pub(crate) fn cause(self) -> Cause
        ensures { result ≡ parting_cause self }
    {
        match self {
            Parting::Rejected => Cause::Rejected,
            Parting::Kicked => Cause::Kicked,
        }
    }
}

/// How far a port has come.
#[derive(Clone, Copy, Debug, PartialEq, Eq)]
pub enum Stage {
    /// It reads, handles, takes and writes.
    Live,
    /// It writes what it keeps, and then closes.
    Ending(Parting),
    /// It closed, and its link is shut.
    Closed { cause: Cause, farewell: Farewell },
}

// How a part of a step that uses the link or memory ended.
#[derive(Clone, Copy)]
pub(crate) enum Went {
    /// There was nothing that it might do.
    NotDue,
    /// It might, and the link was not ready.
    Stalled,
    Worked,
    /// The port is to close for this cause.
    Closes(Cause),
}

impl Went {
    // Whether it did something.
    pub(crate) fn worked(self) -> bool
        ensures { result ≡ has_worked self }
    {
        matches!(self, Went::Worked | Went::Closes(_))
    }
}

impl Stage {
    pub(crate) fn is_live(self) -> bool
        ensures { result ≡ is_live self }
    {
        matches!(self, Stage::Live)
    }

    pub(crate) fn is_closed(self) -> bool
        ensures { result ≡ is_closed self }
    {
        matches!(self, Stage::Closed { .. })
    }

    pub(crate) fn is_gone(self) -> bool
        ensures { result ≡ is_gone self }
    {
        matches!(
            self,
            Stage::Closed {
                farewell: Farewell::Done,
                ..
            }
        )
    }

    // The stage after a part of a step: a port that is open closes for the cause that it met.
    pub(crate) fn by(self, went: Went) -> Stage
        ensures { result ≡ stage_by went self }
    {
        match (self, went) {
            (Stage::Live | Stage::Ending(_), Went::Closes(cause)) => closed(cause),
            _ => self,
        }
    }

    // The stage after a reply: a login that was rejected is the end of a live port.
    pub(crate) fn answered(self, end: ReplyEnd) -> Stage
        ensures { result ≡ stage_after_reply end self }
    {
        match (self, end) {
            (Stage::Live, ReplyEnd::Rejected) => Stage::Ending(Parting::Rejected),
            _ => self,
        }
    }

    // A port that ends closes once it has nothing to write.
    pub(crate) fn settled(self, nothing_unwritten: bool) -> Stage
        ensures { result ≡ settled_where nothing_unwritten self }
    {
        match self {
            Stage::Ending(parting) if nothing_unwritten => closed(parting.cause()),
            _ => self,
        }
    }

    // The stage once the desk has the next word of the farewell.
    pub(crate) fn after_word(self) -> Stage
        ensures { result ≡ after_word self }
    {
        match self {
            Stage::Closed {
                cause,
                farewell: Farewell::Leave,
            } => Stage::Closed {
                cause,
                farewell: Farewell::LastWord,
            },
            Stage::Closed { cause, .. } => Stage::Closed {
                cause,
                farewell: Farewell::Done,
            },
            _ => self,
        }
    }
}

// A port that has just closed owes the whole farewell.
pub(crate) fn closed(cause: Cause) -> Stage
    ensures { result ≡ closed_for cause }
{
    Stage::Closed {
        cause,
        farewell: Farewell::Leave,
    }
}
