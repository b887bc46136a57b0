//! The accepted edits, with the state after all of them.

ghost use Rattle.std.specs.Prelude.{◌≡◌, ◌≢◌, [], IfOk, MatchOption, OnErr, OnOk, IsTrue, length};
ghost use mathlib.Core.List.{IsPrefix};
ghost use Rattle.mum_state.specs.Fits.{fits};
ghost use Rattle.mum_published.specs.Calls.{all_published, appended, latest, note_published};
ghost use Rattle.mum_control.specs.Commanded.{Publishes, note_of, with_edit, with_login};

use mum_base::{OutOfMemory, ReplyEnd};
use mum_history::{EditList, Twin};
use mum_published::{Login, Note, Pass, Publisher, Roll};
use mum_state::{Edit, State};
use std::alloc::Global;
use std::marker::Model;
use std::mem::drop;
use std::sync::Wait;

// The publisher of the accepted edits, with the state after all that it has appended.
#[derive(Drop)]
pub(crate) struct Edits<'a> {
    publisher: &'a mut Publisher,
    twin: Twin,
}

impl<'a> Model for Edits<'a> {
    ghost use Rattle.std.specs.Prelude.{◌≡◌};
    ghost use Rattle.mum_published.specs.Calls.{latest};
    ghost use Rattle.mum_published.specs.Facts.{PublisherFacts};

    ghost Value = { PublisherFacts };

    ghost view = { λ e. e.publisher.now };

    ghost invariant = { λ e. e.twin ≡ latest e.publisher.now };
}

// Appends an edit, for which room is taken first.
fn append(publisher: &mut Publisher, edit: Edit) -> Result<(), OutOfMemory>
    requires { IsTrue (fits (latest publisher.old) edit) }
    ensures ok { OnOk result (publisher.new ≡ with_edit publisher.old edit) }
    ensures err { OnErr result (publisher.new ≡ publisher.old) }
{
    match publisher.reserve() {
        Ok(()) => publisher.append(edit),
        Err(error) => {
            drop(edit);
            Err(error)
        }
    }
}

impl<'a> Edits<'a> {
    // Takes a publisher, and the state after all that it has appended.
    pub(crate) fn open(
        alloc: Global,
        state: State,
        publisher: &'a mut Publisher,
    ) -> Result<Edits<'a>, OutOfMemory>
        requires { state ≡ latest publisher.old }
        ensures { IfOk result (λ edits. edits ≡ publisher.old) }
    {
        let twin = Twin::open(alloc, state)?;
        Ok(Edits { publisher, twin })
    }

    // How many edits were accepted.
    pub(crate) fn revision(&self) -> u64
        ensures { result ≡ length (appended self.now) }
    {
        self.publisher.revision()
    }

    // How many of them are not published.
    pub(crate) fn unpublished(&self) -> u64
        ensures { result ≡ length self.now.pending }
    {
        self.publisher.pending()
    }

    // Publishes all of them. After a refusal they are as they were.
    pub(crate) fn publish<R: Wait>(&mut self, rt: &R) -> Result<Note, OutOfMemory>
        ensures ok { OnOk result (self.new ≡ all_published self.old) }
        ensures err { OnErr result (self.new ≡ self.old) }
        ensures note { IfOk result (λ note. note ≡ note_of self.old) }
    {
        self.publisher.publish(rt)
    }

    // The same. There is no note where memory runs out.
    pub(crate) fn publish_noted<R: Wait>(&mut self, rt: &R) -> Option<Note>
        ensures { Publishes self.old result self.new }
    {
        self.publish(rt).ok()
    }

    // A note of what is published, where that is all of them.
    pub(crate) fn shown(&self) -> Option<Note>
        ensures { MatchOption result (self.now.pending ≢ [])
            (λ note. (self.now.pending ≡ []) × (note ≡ note_published self.now)) }
    {
        self.publisher.shown()
    }

    // Puts the login that a reply with this end reports on the roll, if it reports one.
    pub(crate) fn admit<R: Wait>(&mut self, rt: &R, connection: u32, end: ReplyEnd)
        ensures { self.new ≡ with_login self.old connection end }
    {
        if let ReplyEnd::Joined(session, _) = end {
            let login = Login {
                connection,
                session,
            };
            self.publisher.admit(rt, login);
        }
    }

    // The logins that were accepted.
    pub(crate) fn roll(&self) -> Roll
        ensures book { result.book ≡ self.now.opening.roll }
        ensures log { result.log ≡ self.now.roll }
    {
        self.publisher.roll()
    }

    // Compares what a pass has seen and learnt with what is published and accepted.
    pub(crate) fn has_shown<R: Wait>(&self, rt: &R, pass: &Pass)
        requires { pass.now.opening ≡ self.now.opening }
        ensures known { IsPrefix pass.now.known self.now.published }
        ensures seen { IsPrefix pass.now.seen self.now.published }
        ensures roll { IsPrefix pass.now.roll self.now.roll }
    {
        self.publisher.has_shown(rt, pass);
    }

    // The state after all of them, of which nothing else is kept.
    pub(crate) fn into_state(self) -> State
        ensures { result ≡ latest self.entry }
    {
        let Edits { publisher: _, twin } = self;
        twin.into_state()
    }
}

impl<'a> EditList for Edits<'a> {
    ghost latest = { latest };

    ghost appends = { λ old edit new. new ≡ with_edit old edit };

    fn latest(&self) -> &State {
        self.twin.current()
    }

    /// That no state is copied for it, but where memory ran out or a next state was given up before, is not
    /// proved.
    fn next_state(&mut self, edit: &Edit) -> Result<State, OutOfMemory> {
        self.twin.next(edit)
    }

    fn append(&mut self, edit: Edit, next: State) -> Result<(), OutOfMemory> {
        match append(self.publisher, edit) {
            Ok(()) => {
                self.twin.go_on(self.publisher.last_appended(), next);
                Ok(())
            }
            Err(error) => {
                drop(next);
                Err(error)
            }
        }
    }
}
