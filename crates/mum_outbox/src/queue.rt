//! One queue of any items and any capacity, and its passes.

ghost use Rattle.std.specs.Prelude.{◌≡◌, ◌<◌, ◌↔◌, IfOk, IsTrue, MatchResult, [], List, if◌then◌else◌};
ghost use Rattle.std.specs.List.{AllPairs};
ghost use Rattle.mum_outbox.specs.Rule.{IsBefore, after_least};
ghost use Rattle.mum_outbox.specs.declared.queue.Offered.TheVariants.{Sent, Full};
ghost use Rattle.mum_outbox.specs.Calls.{HasNumbers, Halves, IsFirst, IsNewPass, Offers, Takes, WasThen};

use crate::rule::{BoxProtocol, GivesHalf, GivesNumber, Hand, LAST, Offering, Taking};
use crossbeam_queue::{Pass, RuledArrayQueue};
use mum_base::OutOfMemory;
use std::alloc::Global;
use std::marker::Model;
use std::sync::{Arc, Wait};

/// What an offer answers.
#[derive(Debug, Drop)]
pub enum Offered<I> {
    /// The item is in the queue.
    Sent,
    /// The queue held its capacity. The item comes back.
    Full(I),
}

// The queue below, under the rule.
type Ruled<I, const CAPACITY: usize> = RuledArrayQueue<I, Hand<I>, BoxProtocol<CAPACITY>>;

/// An owner of a queue of at most `CAPACITY` items, which threads share. Which numbers it may give to
/// new passes only contracts see; it keeps how many these are.
#[derive(Drop)]
pub struct Queue<I, const CAPACITY: usize> {
    ruled: Arc<Ruled<I, CAPACITY>>,
    // The pass that is split for each new one.
    owner: Pass<I, Hand<I>>,
    // Of the queue. All its owners and passes have it.
    name: u32,
    // How many numbers it may give.
    left: u64,
}

/// What one thread holds of a queue: it keeps how often an offer of it found the queue full, and a
/// take of it found the queue empty. Its number, and what it has offered and taken, only contracts
/// see.
#[derive(Drop)]
pub struct BoxPass<I> {
    pass: Pass<I, Hand<I>>,
    name: u32,
    full: u64,
    empty: u64,
}

impl<I, const CAPACITY: usize> Model for Queue<I, CAPACITY> {
    ghost use Rattle.std.specs.Prelude.{◌≡◌, ◌-◌, ◌≤◌};
    ghost use Rattle.crossbeam_queue.specs.Passes.{view as hand_of, IsPassOf, ruled_capacity};
    ghost use Rattle.mum_outbox.specs.Facts.{QueueFacts};
    ghost use Rattle.mum_outbox.specs.declared.rule.TheConstants.{LAST};

    ghost Value = { QueueFacts };

    ghost view = { λ q. record {
      queue = record { table = q.ruled.value.table.shared.table_id; name = q.name };
      low = (hand_of q.owner).low;
      end = (hand_of q.owner).end;
    } };

    ghost invariant = { λ q. (ruled_capacity q.ruled.value ≡ CAPACITY)
        × IsPassOf q.ruled.value q.owner
        × ((hand_of q.owner).low ≤ (hand_of q.owner).end)
        × ((hand_of q.owner).end ≤ LAST)
        × (q.left ≡ (hand_of q.owner).end - (hand_of q.owner).low) };
}

impl<I> Model for BoxPass<I> {
    ghost use Rattle.std.specs.Prelude.{◌≡◌, []};
    ghost use Rattle.crossbeam_queue.specs.Passes.{view as hand_of};
    ghost use Rattle.mum_outbox.specs.Facts.{PassFacts, hand_of_pass};

    ghost Value = { PassFacts I };

    ghost view = { λ p. record {
      queue = record { table = p.pass.table_id; name = p.name };
      number = (hand_of p.pass).number;
      offered = (hand_of p.pass).offered;
      taken = (hand_of p.pass).taken;
      full = p.full;
      empty = p.empty;
    } };

    ghost invariant = { λ p. (p.pass.me.1 ≡ []) × (hand_of p.pass ≡ hand_of_pass (view p)) };
}

impl<I: Drop, const CAPACITY: usize> Queue<I, CAPACITY> {
    /// An empty queue, whose name is 0. Its first owner may give new passes every number below the last.
    pub fn new(alloc: Global) -> Result<Self, OutOfMemory>
        requires { 0 < CAPACITY }
        ensures { IfOk result (IsFirst 0) }
    {
        Self::named(alloc, 0)
    }

    /// The same of a queue of this name.
    pub fn named(alloc: Global, name: u32) -> Result<Self, OutOfMemory>
        requires { 0 < CAPACITY }
        ensures { IfOk result (IsFirst name) }
    {
        let (ruled, owner) = Ruled::<I, CAPACITY>::ruled(alloc, CAPACITY)?;
        Ok(Queue {
            ruled: Arc::new(alloc, ruled)?,
            owner,
            name,
            left: LAST,
        })
    }

    /// Another owner of this queue. It may give the upper half of the numbers that this one had, and
    /// this one keeps the lower half. Where memory runs out, nothing changes.
    pub fn share(&mut self) -> Result<Self, OutOfMemory>
        ensures { MatchResult result (Halves self.old self.new) (λ _. self.new ≡ self.old) }
    {
        let ruled = Arc::try_clone(&self.ruled)?;
        let owner = self.ruled.another::<GivesHalf>(&mut self.owner);
        let half = self.left / 2;
        let left = self.left - half;
        self.left = half;
        Ok(Queue {
            ruled,
            owner,
            name: self.name,
            left,
        })
    }

    /// Whether this owner has a number left for a new pass.
    pub fn has_number(&self) -> bool
        ensures { IsTrue result ↔ HasNumbers 1 self.now }
    {
        0 < self.left
    }

    /// A new pass, for one thread. It gets the least number that this owner has left, or the last one where
    /// none is left: of passes with the last number the rule says less.
    pub fn pass(&mut self) -> BoxPass<I>
        ensures pass { IsNewPass self.old result }
        ensures owner { self.new ≡ record self.old { low = after_least self.old.low self.old.end } }
    {
        let pass = self.ruled.another::<GivesNumber>(&mut self.owner);
        self.left = self.left.saturating_sub(1);
        BoxPass {
            pass,
            name: self.name,
            full: 0,
            empty: 0,
        }
    }

    /// Puts the item at the back. It comes back only where the queue held its capacity at one moment
    /// of the call, and the pass counts that. The call takes no memory, and may try again beside
    /// other threads.
    pub fn offer_as<R: Wait>(&self, rt: &R, pass: &mut BoxPass<I>, item: I) -> Offered<I>
        requires { pass.old.queue ≡ self.now.queue }
        ensures { Offers CAPACITY pass.old item result pass.new }
    {
        match self
            .ruled
            .push_as::<Offering<CAPACITY>, R>(rt, &mut pass.pass, item)
        {
            Ok(()) => Offered::Sent,
            Err(back) => {
                pass.full = pass.full.saturating_add(1);
                Offered::Full(back)
            }
        }
    }

    /// The same of an item that is dropped where it comes back. Whether it is in the queue.
    pub fn put_as<R: Wait>(&self, rt: &R, pass: &mut BoxPass<I>, item: I) -> bool
        requires { pass.old.queue ≡ self.now.queue }
        ensures { Offers CAPACITY pass.old item (if result then Sent else Full item) pass.new }
    {
        if let Err(_) = self
            .ruled
            .push_as::<Offering<CAPACITY>, R>(rt, &mut pass.pass, item)
        {
            pass.full = pass.full.saturating_add(1);
            return false;
        }
        true
    }

    /// Takes the item at the front. There is none only where the queue was empty at one moment of
    /// the call, and the pass counts that. The call takes no memory, and may try again beside other
    /// threads.
    // Inlined, it would move its answer once more.
    #[inline(never)]
    pub fn take_as<R: Wait>(&self, rt: &R, pass: &mut BoxPass<I>) -> Option<I>
        requires { pass.old.queue ≡ self.now.queue }
        ensures { Takes CAPACITY pass.old result pass.new }
    {
        let taken = self.ruled.pop_as::<Taking<CAPACITY>, R>(rt, &mut pass.pass);
        if taken.is_none() {
            pass.empty = pass.empty.saturating_add(1);
        }
        taken
    }

    /// What the rule says at one moment of this call: the items of each pass lie in what this one
    /// has taken in the order of their offers; and there are items, and hands of passes with this
    /// one's among them, of which the whole rule holds. It changes nothing.
    pub fn rule_as(&self, pass: &mut BoxPass<I>)
        requires { pass.old.queue ≡ self.now.queue }
        ensures same { pass.new ≡ pass.old }
        ensures order { AllPairs IsBefore pass.old.taken }
        ensures rule { (items : List _) × WasThen CAPACITY pass.old items }
    {
        self.ruled.learn_as::<Offering<CAPACITY>>(&mut pass.pass);
    }
}

impl<I, const CAPACITY: usize> Queue<I, CAPACITY> {
    /// The most items that it holds at any moment.
    pub fn capacity(&self) -> usize
        ensures { result ≡ CAPACITY }
    {
        CAPACITY
    }
}

impl<I> BoxPass<I> {
    /// How often an offer of this pass found the queue full.
    pub fn full(&self) -> u64
        ensures { result ≡ self.now.full }
    {
        self.full
    }

    /// How often a take of this pass found the queue empty.
    pub fn empty(&self) -> u64
        ensures { result ≡ self.now.empty }
    {
        self.empty
    }
}
