//! A view: a connection, and the text that it gets.

ghost use Rattle.std.specs.Prelude.{◌≡◌, false};
ghost use Rattle.mum_io.specs.Link.{Keeps};
ghost use Rattle.mum_viewer.specs.View.{OpenSteps, ViewMoves, ViewSteps, counted_by, is_open, new_view};

use crate::rest::Rest;
use mum_base::Octets;
use mum_io::{Link, PollWrite};
use std::marker::Model;

/// What a step of a view came to.
#[derive(Clone, Copy, Debug, PartialEq, Eq)]
pub enum Went {
    /// Its link takes no byte yet.
    Waits,
    /// Bytes went over its link, and more are left.
    Wrote,
    /// The last byte went over its link, which is shut.
    Finished,
    /// Its link failed, and is shut.
    Broke,
}

/// How many views were written whole, and whether one did anything in this turn.
#[derive(Clone, Copy, Debug)]
pub struct Counted {
    pub whole: u64,
    pub worked: bool,
}

// A connection, and the text that it gets.
#[derive(Drop)]
pub(crate) struct View<L: Link> {
    link: L,
    rest: Rest,
    over: bool,
}

impl<L: Link> Model for View<L> {
    ghost use Rattle.mum_viewer.specs.View.{ViewFacts};

    ghost Value = { ViewFacts L };

    ghost view = { λ v. record { link = v.link; left = v.rest; over = v.over } };
}

// What a step adds to what is counted.
fn counted_by(went: Went, before: Counted) -> Counted
    ensures { result ≡ counted_by went before }
{
    match went {
        Went::Waits => before,
        Went::Wrote | Went::Broke => Counted {
            whole: before.whole,
            worked: true,
        },
        Went::Finished => Counted {
            whole: before.whole.saturating_add(1),
            worked: true,
        },
    }
}

impl<L: Link> View<L> {
    // Nothing was written yet.
    pub(crate) fn new(link: L, text: Octets) -> View<L>
        ensures { result ≡ new_view link text }
    {
        View {
            link,
            rest: Rest::of(text),
            over: false,
        }
    }

    // Whether its link was not shut.
    pub(crate) fn is_open(&self) -> bool
        ensures { result ≡ is_open self.now }
    {
        !self.over
    }

    // Writes once what is left. Its link is shut once all is written, or where it failed.
    fn write(&mut self) -> Went
        requires { self.old.over ≡ false }
        ensures steps { OpenSteps L.facts self.old result self.new }
        ensures reads_nothing { Keeps (L.facts self.old.link).left (L.facts self.new.link).left }
    {
        if self.rest.is_empty() {
            self.link.shut();
            self.over = true;
            return Went::Finished;
        }
        match self.link.poll_write(self.rest.as_slice()) {
            PollWrite::Took(count) => {
                self.rest.advance(count);
                if !self.rest.is_empty() {
                    return Went::Wrote;
                }
                self.link.shut();
                self.over = true;
                Went::Finished
            }
            PollWrite::NotYet => Went::Waits,
            PollWrite::Failed => {
                self.link.shut();
                self.over = true;
                Went::Broke
            }
        }
    }

    // Writes once, where its link is open.
    fn step(&mut self) -> Went
        ensures { ViewSteps L.facts self.old result self.new }
    {
        if self.over {
            return Went::Waits;
        }
        self.write()
    }

    // Makes a step, and counts it.
    pub(crate) fn go(&mut self, before: Counted) -> Counted
        ensures { ViewMoves L.facts self.old before self.new result }
    {
        let went = self.step();
        counted_by(went, before)
    }
}
