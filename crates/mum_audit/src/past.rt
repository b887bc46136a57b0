//! What the control entries so far leave.

ghost use Rattle.std.specs.Prelude.{◌≡◌, ◌++◌, IfOk, IfSome, OnOk};
ghost use Rattle.mum_frame.specs.Frame.{IsOneFrame};
ghost use Rattle.mum_history.specs.History as of_history;
ghost use Rattle.mum_rules_tree.specs.Decision.{FitsWhereAccepted};
ghost use Rattle.mum_session.specs.Verdict.{edits_of};
ghost use Rattle.mum_audit.specs.Controls.{after_entry, mark_on};
ghost use Rattle.mum_audit.specs.Past.{after_verdict, begun, current, next_revision, with_login};
ghost use Rattle.mum_audit.specs.Past as spec;

use crate::decision::decided;
use indexmap::IndexMap;
use mum_base::{Mark, Octets, OutOfMemory, ReplyEnd, SessionId};
use mum_history::History;
use mum_record::ControlEntry;
use mum_session::{end_of, mark_of};
use mum_state::{State, Verdict};
use std::alloc::Global;
use std::marker::Model;

/// What the control entries of a journal leave, up to one of them: the accepted edits with the state after
/// them, and the session of each connection that logged in.
#[derive(Drop)]
pub struct Past {
    history: History,
    logins: IndexMap<u32, SessionId>,
}

impl Model for Past {
    ghost use Rattle.mum_audit.specs.Past.{Past as PastValue};

    ghost Value = { PastValue };

    ghost view = { λ p. record { opening = p.history.opening; accepted = p.history.accepted; logins = p.logins.entries } };
}

// Appends the edit of a verdict, if there is one.
fn accept(history: &mut History, verdict: Verdict) -> Result<(), OutOfMemory>
    requires { FitsWhereAccepted (of_history.current history.old) verdict }
    ensures { OnOk result (history.new ≡ record history.old { accepted = history.old.accepted ++ edits_of verdict }) }
{
    match verdict {
        Verdict::Accepted(edit) => history.accept(edit),
        _ => Ok(()),
    }
}

// Enters the session that an accepted login gave its connection.
fn enter(
    logins: &mut IndexMap<u32, SessionId>,
    connection: u32,
    end: ReplyEnd,
) -> Result<(), OutOfMemory>
    ensures { OnOk result (logins.new.entries ≡ with_login connection end logins.old.entries) }
{
    if let ReplyEnd::Joined(session, _) = end {
        logins.insert(connection, session)?;
    }
    Ok(())
}

impl Past {
    /// Before all entries, at the history of a state that no edit changed yet.
    pub fn new(alloc: Global, history: History) -> Past
        requires { history ≡ of_history.begun history.opening }
        ensures { result ≡ begun history.opening }
    {
        Past {
            history,
            logins: IndexMap::new(alloc),
        }
    }

    /// The accepted edits.
    pub fn history(&self) -> &History
        ensures opening { result.now.opening ≡ self.now.opening }
        ensures accepted { result.now.accepted ≡ self.now.accepted }
    {
        &self.history
    }

    /// The state after all accepted edits.
    pub fn state(&self) -> &State
        ensures { result.now ≡ current self.now }
    {
        self.history.current()
    }

    /// The session that a connection got by its login.
    pub fn session(&self, connection: u32) -> Option<SessionId>
        ensures { result ≡ spec.session_of self.now connection }
    {
        self.logins.get(&connection).copied()
    }

    // The revision of the next accepted edit.
    fn next_revision(&self) -> u64
        ensures { result ≡ next_revision self.now }
    {
        self.history.accepted().len() as u64 + 1
    }

    /// Decides the command of the next entry at the state after the entries before it, and takes in what is
    /// decided, which is answered as a journal has it. What the entry itself says was decided is not looked
    /// at.
    pub fn decide(&mut self, alloc: Global, entry: &ControlEntry) -> Result<Mark, OutOfMemory>
        requires { IfSome entry.now.frame IsOneFrame }
        ensures mark { IfOk result (λ mark. mark ≡ mark_on self.old entry.now) }
        ensures past { OnOk result (self.new ≡ after_entry self.old entry.now) }
    {
        let frame = entry.frame.as_ref().map(Octets::as_slice);
        let actor = self.session(entry.connection);
        let verdict = decided(alloc, self.state(), actor, entry.version, frame)?;
        let mark = mark_of(self.next_revision(), &verdict);
        self.take(entry.connection, verdict)?;
        Ok(mark)
    }

    // Takes in the verdict on an entry of a connection.
    fn take(&mut self, connection: u32, verdict: Verdict) -> Result<(), OutOfMemory>
        requires { FitsWhereAccepted (current self.old) verdict }
        ensures { OnOk result (self.new ≡ after_verdict self.old connection verdict) }
    {
        let end = end_of(&verdict);
        accept(&mut self.history, verdict)?;
        enter(&mut self.logins, connection, end)
    }
}
