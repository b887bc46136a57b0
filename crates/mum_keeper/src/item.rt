//! What the bell of a store carries.

ghost use Rattle.std.specs.Prelude.{◌≡◌};
ghost use Rattle.mum_published.specs.Calls.{Learnt};
ghost use Rattle.std.specs.Option.{option_map};
ghost use Rattle.mum_keeper.specs.Bell.{TakesRing, new_bell, ring_of};

use mum_outbox::{Bell, BoxPass};
use mum_published::{Naming, Note, Pass};
use std::marker::{Model, PhantomData};
use std::sync::Wait;

/// That edits are published, of the `open` that is named.
#[derive(Drop)]
pub struct StoreNote<N: Naming> {
    pub note: Note,
    of: PhantomData<N>,
}

impl<N: Naming> Model for StoreNote<N> {
    ghost use Rattle.std.specs.Prelude.{◌≡◌};
    ghost use Rattle.mum_published.specs.Facts.{NoteFacts};

    ghost Value = { NoteFacts };

    ghost view = { λ n. n.note };

    ghost invariant = { λ n. n.note.book ≡ N.opening.book };
}

impl<N: Naming> StoreNote<N> {
    pub fn new(note: Note) -> StoreNote<N>
        requires { note.book ≡ N.opening.book }
        ensures { result ≡ note }
    {
        StoreNote {
            note,
            of: PhantomData,
        }
    }

    // A pass of the same `open` learns it.
    pub(crate) fn teach(&self, pass: &mut Pass)
        requires { pass.old.opening ≡ N.opening }
        ensures { Learnt pass.old self.now.edits pass.new }
    {
        pass.learn(&self.note);
    }
}

/// What the owner of the connections gives to a store.
#[derive(Drop)]
pub enum StoreItem<N: Naming> {
    Note(StoreNote<N>),
    /// No note comes after this.
    Last,
}

// A bell with the store's pass of it. A contract sees which queue it is, and what was taken.
#[derive(Drop)]
pub(crate) struct BellEnd<N: Naming> {
    bell: Bell<StoreItem<N>>,
    pass: BoxPass<StoreItem<N>>,
}

impl<N: Naming> Model for BellEnd<N> {
    ghost use Rattle.std.specs.Prelude.{◌≡◌};
    ghost use Rattle.mum_keeper.specs.Bell.{BellFacts, bell_of};

    ghost Value = { BellFacts };

    ghost view = { λ e. bell_of e.pass };

    ghost invariant = { λ e. e.pass.queue ≡ e.bell.queue };
}

impl<N: Naming> BellEnd<N> {
    // A bell, with a new pass of it.
    pub(crate) fn new(bell: Bell<StoreItem<N>>) -> BellEnd<N>
        ensures { result ≡ new_bell bell.queue }
    {
        let mut bell = bell;
        let pass = bell.pass();
        BellEnd { bell, pass }
    }

    // Takes what is next, if anything is there.
    pub(crate) fn take<R: Wait>(&mut self, rt: &R) -> Option<StoreItem<N>>
        ensures { TakesRing self.old (option_map ring_of result) self.new }
    {
        self.bell.take_as(rt, &mut self.pass)
    }
}
