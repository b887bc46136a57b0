//! The boxes of all slots, from which ports take.

ghost use Rattle.std.specs.Prelude.{◌≡◌, IfOk, MatchBool, map};
ghost use Rattle.mum_outbox.specs.Calls.{lower_half, upper_half};
ghost use Rattle.mum_worker.specs.Boxes.{AreSameBoxes, ArePassesFor, ArePassesIn, CanPass, GivesPass, HasNoPass};

use mum_base::{OutOfMemory, ReplyEnd, Slot};
use mum_outbox::{BoxPass, Queue};
use mum_parcel::{PostBox, VoiceBox};
use mum_port::Passes;
use mum_published::Naming;
use std::alloc::Global;
use std::marker::Model;

// The boxes of all slots.
#[derive(Drop)]
pub(crate) struct Boxes<N: Naming> {
    pub(crate) posts: Vec<PostBox<N>>,
    pub(crate) voices: Vec<VoiceBox<N>>,
}

impl<N: Naming> Model for Boxes<N> {
    ghost use Rattle.mum_worker.specs.Boxes.{BoxesFacts};

    ghost Value = { BoxesFacts };

    ghost view = { λ b. record { posts = b.posts.items; voices = b.voices.items } };
}

/// These queues, and one more owner of each, in the same order. Each new owner has the upper half of the numbers, and
/// the old one keeps the lower half.
pub fn share_each<I: Drop, const CAPACITY: usize>(
    alloc: Global,
    boxes: Vec<Queue<I, CAPACITY>>,
) -> Result<(Vec<Queue<I, CAPACITY>>, Vec<Queue<I, CAPACITY>>), OutOfMemory>
    ensures owners { IfOk result (λ both. both.0.items ≡ map lower_half boxes.items) }
    ensures shares { IfOk result (λ both. both.1.items ≡ map upper_half boxes.items) }
{
    let mut owners = Vec::new(alloc);
    let mut shares = Vec::new(alloc);
    for owner in boxes {
        let mut owner = owner;
        let share = owner.share()?;
        owners.push(owner)?;
        shares.push(share)?;
    }
    Ok((owners, shares))
}

// Whether there is a box at this place that has a number for a pass.
fn can_pass<I: Drop, const CAPACITY: usize>(boxes: &Vec<Queue<I, CAPACITY>>, place: usize) -> bool
    ensures { MatchBool result (CanPass boxes.now.items place) (HasNoPass boxes.now.items place) }
{
    match boxes.get(place) {
        Some(queue) => queue.has_number(),
        None => false,
    }
}

// A new pass of the box at this place, which has a number for it.
fn pass_at<I: Drop, const CAPACITY: usize>(
    boxes: &mut Vec<Queue<I, CAPACITY>>,
    place: usize,
) -> BoxPass<I>
    requires { CanPass boxes.old.items place }
    ensures { GivesPass boxes.old.items place result boxes.new.items }
{
    let Some(queue) = boxes.get_mut(place) else {
        unreachable!()
    };
    queue.pass()
}

impl<N: Naming> Boxes<N> {
    // Passes of this slot, where it has boxes with numbers for them.
    fn passes_in(&mut self, slot: Slot) -> Option<Passes<N>>
        ensures passes { ArePassesIn self.old slot result }
        ensures same { AreSameBoxes self.old self.new }
    {
        let place = usize::from(slot.0);
        if !can_pass(&self.posts, place) || !can_pass(&self.voices, place) {
            return None;
        }
        let post = pass_at(&mut self.posts, place);
        let voice = pass_at(&mut self.voices, place);
        Some(Passes::new(slot, post, voice))
    }

    // The passes that a reply gives.
    pub(crate) fn passes_for(&mut self, end: ReplyEnd) -> Option<Passes<N>>
        ensures passes { ArePassesFor self.old end result }
        ensures same { AreSameBoxes self.old self.new }
    {
        match end {
            ReplyEnd::Joined(_, slot) => self.passes_in(slot),
            ReplyEnd::Decided => None,
            ReplyEnd::Rejected => None,
        }
    }
}
