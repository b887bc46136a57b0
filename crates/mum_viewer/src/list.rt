//! The open views.

ghost use Rattle.std.specs.Prelude.{◌≡◌, ◌<◌, ◌≤◌, ◌++◌, ◌∷◌, [], filter, length, IfOk};
ghost use Rattle.std.specs.VecDeque.{deque_capacity};
ghost use Rattle.mum_crew.specs.Along.{Along, EachAlong};
ghost use Rattle.mum_viewer.specs.View.{ViewMoves, is_open, new_view};

use crate::view::{Counted, View};
use mum_base::{Octets, OutOfMemory};
use mum_io::Link;
use std::alloc::Global;
use std::collections::VecDeque;
use std::marker::Model;

/// How many views are open at most.
pub const VIEWS_OPEN: usize = 16;

/// The number that the name of the limit stands for. This does nothing: its contract is what it is.
pub fn limits()
    ensures open { VIEWS_OPEN ≡ 16 }
{}

// The open views, in the order in which they came, with room for as many as may be open.
#[derive(Drop)]
pub(crate) struct OpenViews<L: Link> {
    list: VecDeque<View<L>>,
}

impl<L: Link> Model for OpenViews<L> {
    ghost use Rattle.std.specs.Prelude.{◌≤◌, List};
    ghost use Rattle.std.specs.VecDeque.{deque_capacity};
    ghost use Rattle.mum_viewer.specs.View.{ViewFacts};
    ghost use Rattle.mum_viewer.specs.declared.list.TheConstants.{VIEWS_OPEN};

    ghost Value = { List (ViewFacts L) };

    ghost view = { λ v. v.list.items };

    ghost invariant = { λ v. VIEWS_OPEN ≤ deque_capacity v.list };
}

// Each view makes its step where it lies, in their order.
fn step_all<L: Link>(list: &mut VecDeque<View<L>>, before: Counted) -> Counted
    ensures steps { Along (ViewMoves L.facts)
        list.old.items before list.new.items result }
    ensures capacity { deque_capacity list.new ≡ deque_capacity list.old }
    ensures same { length list.new.items ≡ length list.old.items }
{
    let count = list.len();
    let mut counted = before;
    let mut done = 0;
    while done < count {
        let view = &mut list[done];
        counted = view.go(counted);
        done += 1;
    }
    counted
}

// Lets go of the views that are over. The others keep their order.
fn let_go<L: Link>(list: &mut VecDeque<View<L>>)
    ensures items { list.new.items ≡ filter is_open list.old.items }
    ensures capacity { deque_capacity list.new ≡ deque_capacity list.old }
{
    list.retain(|view| view.is_open());
}

// Each view makes its step, in their order. Those that are over then are let go.
fn step_each<L: Link>(list: &mut VecDeque<View<L>>, before: Counted) -> Counted
    ensures steps { EachAlong (ViewMoves L.facts) is_open
        list.old.items before list.new.items result }
    ensures capacity { deque_capacity list.new ≡ deque_capacity list.old }
    ensures few { length list.new.items ≤ length list.old.items }
{
    let counted = step_all(list, before);
    let_go(list);
    counted
}

impl<L: Link> OpenViews<L> {
    pub(crate) fn open(alloc: Global) -> Result<OpenViews<L>, OutOfMemory>
        ensures { IfOk result (λ views. views ≡ []) }
    {
        Ok(OpenViews {
            list: VecDeque::with_capacity(alloc, VIEWS_OPEN)?,
        })
    }

    pub(crate) fn len(&self) -> usize
        ensures { result ≡ length self.now }
    {
        self.list.len()
    }

    // One more. There is room for it.
    pub(crate) fn push(&mut self, link: L, text: Octets)
        requires { length self.old < VIEWS_OPEN }
        ensures { self.new ≡ self.old ++ new_view link text ∷ [] }
    {
        self.list.push_back_reserved(View::new(link, text));
    }

    // Each makes its step, in their order. Those that are over then are let go.
    pub(crate) fn step(&mut self, before: Counted) -> Counted
        ensures steps { EachAlong (ViewMoves L.facts) is_open
            self.old before self.new result }
        ensures few { length self.new ≤ length self.old }
    {
        step_each(&mut self.list, before)
    }
}
