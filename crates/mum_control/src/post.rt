//! The boxes into which notices are posted, one for each slot.

ghost use Rattle.std.specs.Prelude.{◌≡◌, ◌<◌, IfOk, length, map};
ghost use Rattle.mum_outbox.specs.Calls.{Offers, new_pass};
ghost use Rattle.mum_base.specs.declared.number.TheConstants.{POST_CAPACITY};
ghost use Rattle.mum_control.specs.Posting.{EmptiesAt, IsEmptied, OffersAt};

use mum_base::OutOfMemory;
use mum_outbox::{BoxPass, Offered};
use mum_parcel::{PostBox, PostParcel};
use mum_published::Naming;
use std::alloc::Global;
use std::marker::Model;
use std::sync::Wait;

// The box of one slot, and the pass by which the control owner offers to it.
#[derive(Drop)]
pub(crate) struct Post<N: Naming> {
    queue: PostBox<N>,
    pass: BoxPass<PostParcel<N>>,
}

impl<N: Naming> Model for Post<N> {
    ghost use Rattle.std.specs.Prelude.{◌≡◌};
    ghost use Rattle.mum_parcel.specs.Facts.{PostFacts};
    ghost use Rattle.mum_outbox.specs.Facts.{PassFacts};

    ghost Value = { PassFacts PostFacts };

    ghost view = { λ p. p.pass };

    ghost invariant = { λ p. p.pass.queue ≡ p.queue.queue };
}

// Takes parcels from a box until it is empty.
fn empty_queue<N: Naming, R: Wait>(rt: &R, queue: &PostBox<N>, pass: &mut BoxPass<PostParcel<N>>)
    requires { pass.old.queue ≡ queue.now.queue }
    ensures { IsEmptied pass.old pass.new }
{
    for _ in rt.forever() {
        let Some(_parcel) = queue.take_as(rt, pass) else {
            return;
        };
    }
    unreachable!()
}

impl<N: Naming> Post<N> {
    // A pass of this box.
    fn of(queue: PostBox<N>) -> Post<N>
        ensures { result ≡ new_pass queue }
    {
        let mut queue = queue;
        let pass = queue.pass();
        Post { queue, pass }
    }

    // Offers a parcel once.
    fn offer<R: Wait>(&mut self, rt: &R, parcel: PostParcel<N>) -> Offered<PostParcel<N>>
        ensures { Offers POST_CAPACITY self.old parcel result self.new }
    {
        self.queue.offer_as(rt, &mut self.pass, parcel)
    }

    // Takes parcels until the box is empty.
    fn empty<R: Wait>(&mut self, rt: &R)
        ensures { IsEmptied self.old self.new }
    {
        empty_queue(rt, &self.queue, &mut self.pass);
    }
}

// A pass of each box, in their order.
pub(crate) fn posts_of<N: Naming>(
    alloc: Global,
    boxes: Vec<PostBox<N>>,
) -> Result<Vec<Post<N>>, OutOfMemory>
    ensures { IfOk result (λ posts. posts.items ≡ map new_pass boxes.items) }
{
    let mut posts = Vec::new(alloc);
    for queue in boxes {
        posts.push(Post::of(queue))?;
    }
    Ok(posts)
}

// Offers a parcel once to the box at this place.
pub(crate) fn offer_at<N: Naming, R: Wait>(
    rt: &R,
    posts: &mut Vec<Post<N>>,
    place: usize,
    parcel: PostParcel<N>,
) -> Offered<PostParcel<N>>
    requires { place < length posts.old.items }
    ensures { OffersAt posts.old.items place parcel result posts.new.items }
{
    let Some(post) = posts.get_mut(place) else {
        unreachable!()
    };
    post.offer(rt, parcel)
}

// Takes parcels from the box at this place until it is empty.
pub(crate) fn empty_at<N: Naming, R: Wait>(rt: &R, posts: &mut Vec<Post<N>>, place: usize)
    requires { place < length posts.old.items }
    ensures { EmptiesAt posts.old.items place posts.new.items }
{
    let Some(post) = posts.get_mut(place) else {
        unreachable!()
    };
    post.empty(rt);
}
