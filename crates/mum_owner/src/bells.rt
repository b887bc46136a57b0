//! The bells of the workers.

ghost use Rattle.std.specs.Prelude.{◌≡◌, ◌<◌, ◌||◌, false, [], length, map, IfOk, MatchBool, MatchOption};
ghost use Rattle.mum_published.specs.Bell.{rung};
ghost use Rattle.mum_published.specs.Bell.Rung.{Answer, Comes, Lagging};
ghost use Rattle.mum_owner.specs.Bell.{coming_in, new_side, queues, reply_in};
ghost use Rattle.mum_owner.specs.Ringing.{OffersOne, Tells, TellsEach, are_told, at_worker, with_full, with_put, worker_of};

use crate::kept::{Coming, Lag};
use mum_base::OutOfMemory;
use mum_outbox::{Bell, BoxPass, Offered};
use mum_published::{BellItem, Naming, Reply};
use std::alloc::Global;
use std::marker::Model;
use std::sync::Wait;

// The bell of a worker, the pass by which the owner offers to it, and whether it took that no more connections
// come.
#[derive(Drop)]
pub(crate) struct Side<L: Drop, N: Naming> {
    queue: Bell<BellItem<L, N>>,
    pass: BoxPass<BellItem<L, N>>,
    is_told: bool,
}

impl<L: Drop, N: Naming> Model for Side<L, N> {
    ghost use Rattle.std.specs.Prelude.{◌≡◌};
    ghost use Rattle.mum_owner.specs.Bell.{SideFacts, side_facts};

    ghost Value = { SideFacts L };

    ghost view = { λ s. side_facts s.pass s.is_told };

    ghost invariant = { λ s. s.pass.queue ≡ s.queue.queue };
}

// The reply in an item, if it is one.
fn reply_of<L: Drop, N: Naming>(item: BellItem<L, N>) -> Option<Reply<N>>
    ensures { result ≡ reply_in item }
{
    match item {
        BellItem::Reply(reply) => Some(reply),
        BellItem::Conn {
            connection: _,
            link: _,
        } => None,
        BellItem::Lagged(_) => None,
        BellItem::Ended => None,
    }
}

// The connection in an item, if it is one.
fn coming_of<L: Drop, N: Naming>(item: BellItem<L, N>) -> Option<Coming<L>>
    ensures { result ≡ coming_in item }
{
    match item {
        BellItem::Reply(_) => None,
        BellItem::Conn { connection, link } => Some(Coming { connection, link }),
        BellItem::Lagged(_) => None,
        BellItem::Ended => None,
    }
}

impl<L: Drop, N: Naming> Side<L, N> {
    fn of(queue: Bell<BellItem<L, N>>) -> Side<L, N>
        ensures { result ≡ new_side queue.queue }
    {
        let mut queue = queue;
        let pass = queue.pass();
        Side {
            queue,
            pass,
            is_told: false,
        }
    }

    fn is_told(&self) -> bool
        ensures { result ≡ self.now.is_told }
    {
        self.is_told
    }

    // Offers an item. It comes back where the bell is full.
    fn offer<R: Wait>(&mut self, rt: &R, item: BellItem<L, N>) -> Option<BellItem<L, N>>
        ensures { MatchOption result (self.new ≡ with_put (rung item) self.old)
            (λ back. (back ≡ item) × (self.new ≡ with_full self.old)) }
    {
        match self.queue.offer_as(rt, &mut self.pass, item) {
            Offered::Sent => None,
            Offered::Full(back) => Some(back),
        }
    }

    // Offers that no more connections come, unless the bell took it before.
    fn tell<R: Wait>(&mut self, rt: &R) -> bool
        ensures { Tells self.old result self.new }
    {
        if self.is_told {
            return false;
        }
        match self.offer(rt, BellItem::Ended) {
            None => {
                self.is_told = true;
                true
            }
            Some(_) => false,
        }
    }
}

// The bell of each worker, in their order. There is at least one.
#[derive(Drop)]
pub(crate) struct Bells<L: Drop, N: Naming> {
    sides: Vec<Side<L, N>>,
}

impl<L: Drop, N: Naming> Model for Bells<L, N> {
    ghost use Rattle.std.specs.Prelude.{ℕ, ◌<◌, List, length};
    ghost use Rattle.mum_owner.specs.Bell.{SideFacts};

    ghost Value = { List (SideFacts L) };

    ghost view = { λ b. b.sides.items };

    ghost invariant = { λ b. 0 < length b.sides.items };
}

// A pass of each bell, in their order.
fn sides_of<L: Drop, N: Naming>(
    alloc: Global,
    bells: Vec<Bell<BellItem<L, N>>>,
) -> Result<Vec<Side<L, N>>, OutOfMemory>
    ensures { IfOk result (λ sides. sides.items ≡ map new_side (queues bells.items)) }
{
    let mut sides = Vec::new(alloc);
    for queue in bells {
        sides.push(Side::of(queue))?;
    }
    Ok(sides)
}

// The number of the worker to whom a connection belongs, where there are this many.
fn worker_of(connection: u32, workers: usize) -> usize
    requires { 0 < workers }
    ensures number { result ≡ worker_of connection workers }
    ensures within { result < workers }
{
    if connection == 0 {
        return 0;
    }
    (connection as usize - 1) % workers
}

// Whether one of two holds.
pub(crate) fn either(one: bool, other: bool) -> bool
    ensures { result ≡ (one || other) }
{
    one || other
}

impl<L: Drop, N: Naming> Bells<L, N> {
    pub(crate) fn open(
        alloc: Global,
        bells: Vec<Bell<BellItem<L, N>>>,
    ) -> Result<Bells<L, N>, OutOfMemory>
        requires { 0 < length bells.items }
        ensures { IfOk result (λ sides. sides ≡ map new_side (queues bells.items)) }
    {
        Ok(Bells {
            sides: sides_of(alloc, bells)?,
        })
    }

    // Offers an item once to the bell of a connection's worker. It comes back where the bell is full.
    fn offer<R: Wait>(
        &mut self,
        rt: &R,
        connection: u32,
        item: BellItem<L, N>,
    ) -> Option<BellItem<L, N>>
        ensures { MatchOption result (self.new ≡ at_worker connection (with_put (rung item)) self.old)
            (λ back. (back ≡ item) × (self.new ≡ at_worker connection with_full self.old)) }
    {
        let sides = self.sides.as_slice();
        let place = worker_of(connection, sides.len());
        match self.sides.get_mut(place) {
            Some(side) => side.offer(rt, item),
            None => unreachable!(),
        }
    }

    // Where it is so, offers that no more connections come to each bell that did not take it yet.
    pub(crate) fn tell_where<R: Wait>(&mut self, rt: &R, is_ending: bool) -> bool
        ensures { MatchBool is_ending (TellsEach self.old result self.new) ((result ≡ false) × (self.new ≡ self.old)) }
    {
        if is_ending {
            tell_sides(rt, &mut self.sides)
        } else {
            false
        }
    }

    // Whether each bell took that no more connections come.
    pub(crate) fn are_told(&self) -> bool
        ensures { result ≡ are_told self.now }
    {
        self.sides.iter().all(|side| side.is_told())
    }
}

// The same of the bells in a list.
fn tell_sides<L: Drop, N: Naming, R: Wait>(rt: &R, sides: &mut Vec<Side<L, N>>) -> bool
    ensures { TellsEach sides.old.items result sides.new.items }
{
    let mut told = false;
    for side in sides.iter_mut() {
        let one = side.tell(rt);
        told = either(told, one);
    }
    told
}

// Offers a reply that is kept, once. Answers whether its bell took it.
pub(crate) fn offer_reply<L: Drop, N: Naming, R: Wait>(
    rt: &R,
    bells: &mut Bells<L, N>,
    kept: &mut Option<Reply<N>>,
) -> bool
    ensures { OffersOne (λ reply. reply.connection) Answer bells.old kept.old result
        bells.new kept.new }
{
    let Some(reply) = kept.take() else {
        return false;
    };
    match bells.offer(rt, reply.connection, BellItem::Reply(reply)) {
        None => true,
        Some(back) => {
            *kept = reply_of(back);
            false
        }
    }
}

// Offers a lag item that is kept, once. Answers whether its bell took it.
pub(crate) fn offer_lag<L: Drop, N: Naming, R: Wait>(
    rt: &R,
    bells: &mut Bells<L, N>,
    kept: &mut Option<Lag>,
) -> bool
    ensures { OffersOne (λ lag. lag.connection) (λ lag. Lagging lag.session) bells.old kept.old result
        bells.new kept.new }
{
    let Some(lag) = *kept else {
        return false;
    };
    match bells.offer(rt, lag.connection, BellItem::Lagged(lag.session)) {
        None => {
            *kept = None;
            true
        }
        Some(_) => false,
    }
}

// Offers a connection that is kept, once. Answers whether its bell took it.
pub(crate) fn offer_coming<L: Drop, N: Naming, R: Wait>(
    rt: &R,
    bells: &mut Bells<L, N>,
    kept: &mut Option<Coming<L>>,
) -> bool
    ensures { OffersOne (λ coming. coming.connection) (λ coming. Comes coming.connection coming.link)
        bells.old kept.old result bells.new kept.new }
{
    let Some(Coming { connection, link }) = kept.take() else {
        return false;
    };
    match bells.offer(rt, connection, BellItem::Conn { connection, link }) {
        None => true,
        Some(back) => {
            *kept = coming_of(back);
            false
        }
    }
}
