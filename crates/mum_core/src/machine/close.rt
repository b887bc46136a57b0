//! The step `close`: a connection ends.

ghost use Rattle.std.specs.Prelude.{◌≡◌, ◌++◌, OnOk, false, reverse, string_bytes, true};
ghost use Rattle.std.specs.List.{list_any};
ghost use Rattle.std.specs.Option.{option_map_or};
ghost use Rattle.mum_base.specs.Refusal.{Settles};
ghost use Rattle.mum_core.specs.Case.{Passes, first_that_stands, named_cause};
ghost use Rattle.mum_core.specs.Connection.{session_of};
ghost use Rattle.mum_core.specs.Core.{connection_at, is_opened};
ghost use Rattle.mum_core.specs.Line.{joined};
ghost use Rattle.mum_core.specs.steps.Close.{does, forbids, has_cause, kicks, lines, was_kicked};

use super::{Machine, StepFault, illegal};
use crate::connection::{Connection, close_at};
use mum_base::{Cause, SessionId};
use mum_record::{Word, cause_name, push_line};
use mum_state::Edit;

// Whether an edit puts a session out.
fn kicks(session: SessionId, edit: &Edit) -> bool
    ensures { result ≡ kicks session edit.now }
{
    match *edit {
        Edit::Kick {
            session: kicked,
            ..
        } => kicked.0 == session.0,
        _ => false,
    }
}

// Whether one of the edits puts a session out. The last is looked at first, since a connection ends
// soon after its session was kicked.
fn one_kicks(edits: &[Edit], session: SessionId) -> bool
    ensures { result ≡ list_any (kicks session) (reverse edits.now) }
{
    edits.iter().rev().any(|edit| kicks(session, edit))
}

impl Machine {
    // Whether an accepted edit put a session out.
    fn was_kicked(&self, session: SessionId) -> bool
        ensures { result ≡ was_kicked self.now session }
    {
        one_kicks(self.history.accepted(), session)
    }

    // Whether the session of a connection was kicked.
    fn is_kicked(&self, found: &Connection) -> bool
        ensures { result ≡ option_map_or (was_kicked self.now) (session_of found.now) false }
    {
        match found.session() {
            Some(session) => self.was_kicked(session),
            None => false,
        }
    }

    // Whether a connection may end for a cause.
    fn has_cause(&self, connection: u32, found: &Connection, cause: Cause) -> bool
        requires { found.now ≡ connection_at self.now connection }
        ensures { result ≡ has_cause self.now connection cause }
    {
        match cause {
            Cause::Rejected => found.rejected,
            Cause::Kicked => self.is_kicked(found),
            Cause::Lagged => found.lagged,
            _ => true,
        }
    }

    // Refuses a close that is not allowed.
    fn check_close(&self, connection: u32, cause: Cause) -> Result<(), StepFault>
        ensures passes { Passes (first_that_stands (forbids self.now connection cause)) result }
        ensures opened { OnOk result (is_opened self.now connection ≡ true) }
    {
        let Some(found) = self.connection(connection) else {
            return Err(self.unopened(connection));
        };
        if let Some(line) = found.closed {
            return Err(illegal(u64::from(connection), line));
        }
        if !self.has_cause(connection, found, cause) {
            return Err(illegal(u64::from(connection), 0));
        }
        Ok(())
    }

    pub(super) fn take_close(
        &mut self,
        connection: u32,
        cause: Cause,
        text: &mut String,
    ) -> Result<(), StepFault>
        ensures settled { Settles named_cause (first_that_stands (forbids self.old connection cause)) (does self.old connection) self.old result self.new }
        ensures told { OnOk result (string_bytes text.new ≡ string_bytes text.old ++ joined (lines connection cause)) }
    {
        self.check_close(connection, cause)?;
        let words = [
            Word::Number(u64::from(connection)),
            Word::Name(cause_name(cause)),
        ];
        push_line(self.alloc, text, "closed", &words)?;
        let line = self.line.saturating_add(1);
        close_at(&mut self.connections, connection as usize - 1, line);
        Ok(())
    }
}
