//! What passes know of a queue, and how each step changes it. Nothing here has a byte at run time.

ghost use Rattle.std.specs.Prelude.{◌≡◌, [], ◌∷◌, ◌++◌, List};

use crossbeam_queue::protocol::{Lesson, Outcome, Protocol, Split};
use std::collections::LinkedList;

/// The number of a pass where no other is left, and the place of an item where no other is left.
pub const LAST: u64 = u64::MAX;

/// An item with its tag: the number of the pass that offered it, and its place in what that pass
/// offered. No value of it is made.
pub struct Tagged<I> {
    pub by: u64,
    pub place: u64,
    pub item: I,
}

/// What a pass has done to the queue, and the numbers from `low` up to `end` that it may give to
/// new passes. No value of it is made.
pub struct Hand<I> {
    pub number: u64,
    pub low: u64,
    pub end: u64,
    pub offered: LinkedList<I>,
    pub taken: LinkedList<Tagged<I>>,
}

/// The rule of a queue that holds n items.
pub struct BoxProtocol<const CAPACITY: usize>;

impl<I, const CAPACITY: usize> Protocol<I, Hand<I>> for BoxProtocol<CAPACITY> {
    ghost use Rattle.mum_outbox.specs.Rule.{TaggedRule, first_hand};

    ghost holds = { TaggedRule CAPACITY };

    ghost first = { first_hand };
}

// A pass is made: it gets the least number of the range.
pub(crate) struct GivesNumber;

impl<I> Split<Hand<I>> for GivesNumber {
    ghost use Rattle.mum_outbox.specs.Rule.{after_giving, given_number};

    ghost left = { after_giving };

    ghost right = { given_number };
}

// Another owner is made: it gets the upper half of the range.
pub(crate) struct GivesHalf;

impl<I> Split<Hand<I>> for GivesHalf {
    ghost use Rattle.mum_outbox.specs.Rule.{after_halving, given_half};

    ghost left = { after_halving };

    ghost right = { given_half };
}

// An offer adds its item, or finds the queue full.
pub(crate) struct Offering<const CAPACITY: usize>;

impl<I, const CAPACITY: usize> Outcome<I, Hand<I>> for Offering<CAPACITY> {
    ghost then = { λ hand x after. after ≡ record hand { offered = hand.offered ++ x ∷ [] } };
}

impl<I, const CAPACITY: usize> Lesson<I, Hand<I>> for Offering<CAPACITY> {
    ghost use Rattle.mum_outbox.specs.Rule.{AreTagged, IsMomentOf};

    ghost fact = { λ hand items. AreTagged (IsMomentOf CAPACITY hand) items };
}

// A take gets the oldest item, or finds the queue empty.
pub(crate) struct Taking<const CAPACITY: usize>;

impl<I, const CAPACITY: usize> Outcome<I, Hand<I>> for Taking<CAPACITY> {
    ghost use Rattle.std.specs.List.{AllPairs};
    ghost use Rattle.mum_outbox.specs.Rule.{IsBefore};
    ghost use Rattle.mum_outbox.specs.declared.rule.Tagged.{Tagged};

    ghost then = { λ hand item after. (x : Tagged I) × (x.item ≡ item)
        × (after ≡ record hand { taken = hand.taken ++ x ∷ [] }) × AllPairs IsBefore after.taken };
}

impl<I, const CAPACITY: usize> Lesson<I, Hand<I>> for Taking<CAPACITY> {
    ghost use Rattle.mum_outbox.specs.Rule.{AreTagged, IsMomentOf};

    ghost fact = { λ hand items. AreTagged (IsMomentOf CAPACITY hand) items };
}
