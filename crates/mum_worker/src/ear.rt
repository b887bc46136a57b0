//! The bell of a worker, as the worker takes from it.

ghost use Rattle.std.specs.Prelude.{◌≡◌};
ghost use Rattle.std.specs.Option.{option_map};
ghost use Rattle.mum_published.specs.Bell.{rung};
ghost use Rattle.mum_worker.specs.Bell.{TakesRung, new_bell};

use mum_outbox::{Bell, BoxPass};
use mum_published::{BellItem, Naming};
use std::marker::Model;
use std::sync::Wait;

// A bell with the worker's pass of it. A contract sees which queue it is, and what was taken.
#[derive(Drop)]
pub(crate) struct BellEnd<L, N: Naming> {
    bell: Bell<BellItem<L, N>>,
    pass: BoxPass<BellItem<L, N>>,
}

impl<L, N: Naming> Model for BellEnd<L, N> {
    ghost use Rattle.std.specs.Prelude.{◌≡◌};
    ghost use Rattle.mum_worker.specs.Bell.{BellFacts, bell_of};

    ghost Value = { BellFacts L };

    ghost view = { λ e. bell_of e.pass };

    ghost invariant = { λ e. e.pass.queue ≡ e.bell.queue };
}

impl<L: Drop, N: Naming> BellEnd<L, N> {
    // A bell, with a new pass of it.
    pub(crate) fn new(bell: Bell<BellItem<L, N>>) -> BellEnd<L, N>
        ensures { result ≡ new_bell bell.queue }
    {
        let mut bell = bell;
        let pass = bell.pass();
        BellEnd { bell, pass }
    }

    // Takes what is next, if anything is there.
    pub(crate) fn take<R: Wait>(&mut self, rt: &R) -> Option<BellItem<L, N>>
        ensures { TakesRung self.old (option_map rung result) self.new }
    {
        self.bell.take_as(rt, &mut self.pass)
    }
}
