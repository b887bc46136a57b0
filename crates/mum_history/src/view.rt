//! A state after the first accepted edits.

ghost use Rattle.std.specs.Prelude.{◌≡◌, ◌+◌, ◌<◌, ◌≤◌, [], IfOk, OnErr, OnOk, length};
ghost use Rattle.std.specs.List.{All};
ghost use Rattle.mum_history.specs.History.{begun, state_at};
ghost use Rattle.mum_history.specs.View.{IsViewOf};

use crate::history::History;
use mum_base::OutOfMemory;
use mum_state::State;
use std::alloc::Global;
use std::marker::Model;
use std::mem::{drop, replace};

/// A state that lags behind a history, at a revision: the number of edits that it has.
#[derive(Drop)]
pub struct View {
    state: State,
    revision: u64,
}

impl Model for View {
    ghost use Rattle.mum_history.specs.View.{ViewValue};

    ghost Value = { ViewValue };

    ghost view = { λ v. record { state = v.state; revision = v.revision } };
}

impl View {
    // A view of the opening of a history, before all edits.
    fn of(alloc: Global, opening: &State) -> Result<View, OutOfMemory>
        ensures { IfOk result (IsViewOf opening.now []) }
    {
        Ok(View {
            state: opening.copy(alloc)?,
            revision: 0,
        })
    }

    /// The state that it is at.
    pub fn state(&self) -> &State
        ensures { result.now ≡ self.now.state }
    {
        &self.state
    }

    // Goes on by one edit. Where memory runs out it is where it was.
    #[tactic(auto, using(crate::proofs::Fronts::read_fits, crate::proofs::Fronts::read_leads))]
    fn go_on(&mut self, history: &History) -> Result<(), OutOfMemory>
        requires view { IsViewOf history.now.opening history.now.accepted self.old }
        requires behind { self.old.revision < length history.now.accepted }
        ensures view { IsViewOf history.now.opening history.now.accepted self.new }
        ensures ok { OnOk result (self.new.revision ≡ self.old.revision + 1) }
        ensures err { OnErr result (self.new ≡ self.old) }
    {
        let edit = &history.accepted()[self.revision as usize];
        self.state.apply(edit)?;
        self.revision += 1;
        Ok(())
    }

    // Goes back to the opening where the revision is below its own.
    fn go_back(
        &mut self,
        alloc: Global,
        history: &History,
        revision: u64,
    ) -> Result<(), OutOfMemory>
        requires { IsViewOf history.now.opening history.now.accepted self.old }
        ensures view { IsViewOf history.now.opening history.now.accepted self.new }
        ensures ok { OnOk result (self.new.revision ≤ revision) }
        ensures err { OnErr result (self.new ≡ self.old) }
    {
        if self.revision <= revision {
            return Ok(());
        }
        let opening = history.opening().copy(alloc)?;
        drop(replace(&mut self.state, opening));
        self.revision = 0;
        Ok(())
    }

    /// Goes to a revision: by the edits that are missing, or from the opening on where it is past it.
    /// Where memory runs out it may be at a different one.
    pub fn go_to(
        &mut self,
        alloc: Global,
        history: &History,
        revision: u64,
    ) -> Result<(), OutOfMemory>
        requires view { IsViewOf history.now.opening history.now.accepted self.old }
        requires accepted { revision ≤ length history.now.accepted }
        ensures view { IsViewOf history.now.opening history.now.accepted self.new }
        ensures there { OnOk result (self.new.revision ≡ revision) }
        ensures state { OnOk result (self.new.state ≡ state_at history.now revision) }
    {
        self.go_back(alloc, history, revision)?;
        'edits: while self.revision < revision {
            self.go_on(history)?;
        }
        Ok(())
    }
}

// As many views of an opening.
fn opening_views(alloc: Global, count: u8, opening: &State) -> Result<Vec<View>, OutOfMemory>
    ensures each { IfOk result (λ views. All (IsViewOf opening.now []) views.items) }
    ensures count { IfOk result (λ views. length views.items ≡ count) }
{
    let mut views = Vec::new(alloc);
    for _number in 0..count {
        views.push(View::of(alloc, opening)?)?;
    }
    Ok(views)
}

/// The history of an opening that no edit changed yet, and as many views of it.
pub fn readers(
    alloc: Global,
    count: u8,
    opening: State,
) -> Result<(History, Vec<View>), OutOfMemory>
    ensures history { IfOk result (λ readers. readers.0 ≡ begun opening) }
    ensures each { IfOk result (λ readers. All (IsViewOf opening []) readers.1.items) }
    ensures count { IfOk result (λ readers. length readers.1.items ≡ count) }
{
    let views = match opening_views(alloc, count, &opening) {
        Ok(views) => views,
        Err(error) => {
            drop(opening);
            return Err(error);
        }
    };
    match History::open(alloc, opening) {
        Ok(history) => Ok((history, views)),
        Err(error) => {
            drop(views);
            Err(error)
        }
    }
}
