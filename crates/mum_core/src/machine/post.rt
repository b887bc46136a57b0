//! The step `post`: the first pending notice goes to the posts of its slot.

ghost use Rattle.std.specs.Prelude.{◌≡◌, ◌++◌, OnOk, drop, string_bytes};
ghost use Rattle.mum_base.specs.Refusal.{Settles};
ghost use Rattle.mum_core.specs.Case.{first_that_stands, named_cause};
ghost use Rattle.mum_core.specs.Core.{up};
ghost use Rattle.mum_core.specs.Line.{joined};
ghost use Rattle.mum_core.specs.steps.Post.{forbids, does, lines};

use super::{Machine, StepFault, illegal};
use crate::connection::lag_at_session;
use crate::post::{has_room_at, put_at};
use mum_notify::shared;
use mum_record::{Word, push_line};

impl Machine {
    // The first pending notice is no longer pending.
    fn count_post(&mut self)
        ensures { self.new ≡ record self.old { pending = drop 1 self.old.pending; posted = up self.old.posted } }
    {
        self.pending.drop_front();
        self.posted = self.posted.saturating_add(1);
    }

    pub(super) fn take_post(&mut self, text: &mut String) -> Result<(), StepFault>
        ensures settled { Settles named_cause (first_that_stands (forbids self.old)) (does self.old) self.old result self.new }
        ensures told { OnOk result (string_bytes text.new ≡ string_bytes text.old ++ joined (lines self.old)) }
    {
        let Some(first) = self.pending.front() else {
            return Err(illegal(0, self.posted));
        };
        let next = shared(first)?;
        let place = usize::from(next.slot.0);
        let number = Word::Number(u64::from(next.to.0));
        if !has_room_at(self.posts.as_slice(), place) {
            push_line(self.alloc, text, "lagged", &[number])?;
            lag_at_session(&mut self.connections, next.to);
            self.count_post();
            return Ok(());
        }
        push_line(self.alloc, text, "posted", &[number])?;
        put_at(&mut self.posts, place, next)?;
        self.count_post();
        Ok(())
    }
}
