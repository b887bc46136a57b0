//! The step `edit`: the control owner decides the command of a connection that waits.

ghost use Rattle.std.specs.Prelude.{◌≡◌, ◌++◌, ◌-◌, ◌<◌, ◌∷◌, [], IfOk, IfSome, MatchResult, None, OnErr, OnOk, decimal, is_some, length, string_bytes, take, true};
ghost use Rattle.mum_base.specs.Refusal.{Settles};
ghost use Rattle.std.specs.List.{AllByRecursion};
ghost use Rattle.std.specs.Prelude.{IsTrue};
ghost use Rattle.mum_history.specs.History.{current, with_edit};
ghost use Rattle.mum_state.specs.Applied.{applied};
ghost use Rattle.mum_state.specs.Fits.{fits};
ghost use Rattle.mum_state.specs.declared.verdict.Verdict.TheVariants.{Accepted};
ghost use Rattle.mum_rules_tree.specs.Decision.{FitsWhereAccepted};
ghost use Rattle.mum_core.specs.Case.{first_that_stands, named_cause};
ghost use Rattle.mum_core.specs.Connection.{next_command};
ghost use Rattle.mum_core.specs.Core.{connection_at, current as core_current, is_opened};
ghost use Rattle.mum_core.specs.Line.{joined, said_of};
ghost use Rattle.mum_session.specs.Reply.{mark};
ghost use Rattle.mum_session.specs.Verdict.{edits_of};
ghost use Rattle.mum_core.specs.Reply.{reply, seat_of};
ghost use Rattle.mum_base.specs.declared.number.TheConstants.{SLOTS as slots};
ghost use Rattle.mum_core.specs.steps.Edit.{forbids, does, lines, next_revision, noticed, with_reply};
ghost use Rattle.mum_notify.specs.Notices.{FitsFrame, notices as edit_notices};
ghost use Rattle.mum_record.specs.Journal.{verdict_words};

use super::{Machine, StepFault, illegal};
use crate::connection::{Connection, Reply, answer_at};
use crate::reply::{decide_next, reply};
use mum_base::{Mark, OutOfMemory, SessionId};
use mum_history::History;
use mum_notify::{NoticeQueue, accept_edit};
use mum_record::{Word, push_line};
use mum_session::mark_of;
use mum_state::{Edit, State, Verdict};
use std::alloc::Global;
use std::mem::drop;

// Appends a line of a word, the connection and one more number.
fn push_number(
    alloc: Global,
    text: &mut String,
    verb: &str,
    connection: u32,
    number: u64,
) -> Result<(), OutOfMemory>
    ensures { IfOk result (λ _. string_bytes text.new ≡ string_bytes text.old
        ++ joined ((verb.now ∷ decimal connection ∷ decimal number ∷ []) ∷ [])) }
{
    let words = [Word::Number(u64::from(connection)), Word::Number(number)];
    push_line(alloc, text, verb, &words)
}

// Appends the line that reports what was decided of a connection's command.
fn push_mark(
    alloc: Global,
    text: &mut String,
    connection: u32,
    mark: &Mark,
) -> Result<(), OutOfMemory>
    ensures { IfOk result (λ _. string_bytes text.new ≡ string_bytes text.old
        ++ joined (said_of connection (verdict_words mark.now) ∷ [])) }
{
    match *mark {
        Mark::Accepted { revision } => push_number(alloc, text, "accepted", connection, revision),
        Mark::Lacks { perm, channel } => {
            let words = [
                Word::Number(u64::from(connection)),
                Word::Number(u64::from(perm.0)),
                Word::Number(u64::from(channel.0)),
            ];
            push_line(alloc, text, "lacks", &words)
        }
        Mark::Refused { kind } => push_number(alloc, text, "refused", connection, u64::from(kind)),
        Mark::Rejected { kind } => {
            push_number(alloc, text, "rejected", connection, u64::from(kind))
        }
        Mark::Answer => {
            let number = Word::Number(u64::from(connection));
            push_line(alloc, text, "answer", &[number])
        }
        Mark::Ignored { why } => push_number(alloc, text, "ignored", connection, u64::from(why)),
    }
}

// Appends the line that reports a verdict, and gives what the connection is answered.
fn tell_verdict(
    alloc: Global,
    text: &mut String,
    connection: u32,
    revision: u64,
    session: Option<SessionId>,
    verdict: &Verdict,
) -> Result<Reply, OutOfMemory>
    requires { IfSome (seat_of verdict.now) (λ seat. seat.slot.0 < slots) }
    ensures reply { IfOk result (λ answered. answered ≡ reply revision session verdict.now) }
    ensures told { IfOk result (λ _. string_bytes text.new ≡ string_bytes text.old
        ++ joined (said_of connection (verdict_words (mark revision verdict.now)) ∷ [])) }
{
    push_mark(alloc, text, connection, &mark_of(revision, verdict))?;
    reply(alloc, revision, session, verdict)
}

// Appends the edit of a verdict, if it is one, and the notices that report it.
fn accept(
    alloc: Global,
    history: &mut History,
    pending: &mut NoticeQueue,
    verdict: Verdict,
) -> Result<(), OutOfMemory>
    requires fits { FitsWhereAccepted (current history.old) verdict }
    requires frame { AllByRecursion FitsFrame (edits_of verdict) }
    ensures ok { OnOk result
        (history.new ≡ record history.old { accepted = history.old.accepted ++ edits_of verdict }) }
    ensures told { OnOk result (pending.new ≡ pending.old ++ noticed (current history.old) verdict) }
    ensures err { OnErr result (history.new ≡ history.old) }
    ensures none_told { OnErr result (pending.new ≡ pending.old) }
{
    match verdict {
        Verdict::Accepted(edit) => accept_edit(alloc, history, pending, edit),
        _ => Ok(()),
    }
}

impl Machine {
    // The connection whose next command this step decides.
    fn actor_from(&self, connection: u32) -> Result<&Connection, StepFault>
        ensures opened { OnOk result (is_opened self.now connection ≡ true) }
        ensures asks { MatchResult result
            (λ found. (first_that_stands (forbids self.now connection) ≡ None)
            × (connection_at self.now connection ≡ found.now)
            × (is_some (next_command found.now) ≡ true))
            (λ fault. first_that_stands (forbids self.now connection) ≡ named_cause fault) }
    {
        let Some(found) = self.connection(connection) else {
            return Err(self.unopened(connection));
        };
        if !found.has_command() {
            return Err(illegal(u64::from(connection), 0));
        }
        Ok(found)
    }

    // The revision of the next edit that is accepted.
    fn next_revision(&self) -> u64
        ensures { result ≡ next_revision self.now }
    {
        self.history.accepted().len() as u64 + 1
    }

    // The next command of a connection is decided so, and answered by this reply.
    #[tactic(auto, using(mum_history::proofs::Fronts::all_views_stay))]
    fn settle(&mut self, connection: u32, verdict: Verdict, reply: Reply) -> Result<(), OutOfMemory>
        requires opened { is_opened self.old connection ≡ true }
        requires fits { FitsWhereAccepted (core_current self.old) verdict }
        requires frame { AllByRecursion FitsFrame (edits_of verdict) }
        ensures ok { OnOk result
            (self.new ≡ with_reply self.old connection (edits_of verdict)
            (noticed (core_current self.old) verdict) reply) }
        ensures err { OnErr result (self.new ≡ self.old) }
    {
        accept(self.alloc, &mut self.history, &mut self.pending, verdict)?;
        answer_at(&mut self.connections, connection as usize - 1, reply);
        Ok(())
    }

    pub(super) fn take_edit(&mut self, connection: u32, text: &mut String) -> Result<(), StepFault>
        ensures settled { Settles named_cause (first_that_stands (forbids self.old connection)) (does self.old connection) self.old result self.new }
        ensures told { OnOk result
            (string_bytes text.new ≡ string_bytes text.old ++ joined (lines self.old connection)) }
    {
        let actor_from = self.actor_from(connection)?;
        let session = actor_from.session();
        let verdict = decide_next(self.alloc, self.history.current(), actor_from)?;
        let revision = self.next_revision();
        match tell_verdict(self.alloc, text, connection, revision, session, &verdict) {
            Ok(reply) => Ok(self.settle(connection, verdict, reply)?),
            Err(error) => {
                drop(verdict);
                Err(StepFault::from(error))
            }
        }
    }
}
