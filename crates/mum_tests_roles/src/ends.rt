//! The ends of the queues between an owner and its worker, at the worker.

ghost use Rattle.std.specs.Prelude.{◌≡◌, length};

use mum_outbox::{Bell, BoxPass, Desk};
use mum_port::DeskItem;
use mum_published::{BellItem, Naming, Reply};
use std::alloc::Global;
use std::marker::Model;
use std::process::Abort;
use std::sync::Wait;

// A desk to put into, and a bell to take from.
#[derive(Drop)]
pub(crate) struct Ends<L: Drop, N: Naming> {
    desk: Desk<DeskItem>,
    to_desk: BoxPass<DeskItem>,
    bell: Bell<BellItem<L, N>>,
    from_bell: BoxPass<BellItem<L, N>>,
}

impl<L: Drop, N: Naming> Model for Ends<L, N> {
    ghost use Rattle.std.specs.Prelude.{◌≡◌};
    ghost use Rattle.mum_outbox.specs.Facts.{PassFacts};
    ghost use Rattle.mum_port.specs.declared.item.DeskItem.{DeskItem};

    ghost Value = { PassFacts DeskItem };

    ghost view = { λ e. e.to_desk };

    ghost invariant = { λ e. (e.to_desk.queue ≡ e.desk.queue) × (e.from_bell.queue ≡ e.bell.queue) };
}

impl<L: Drop, N: Naming> Ends<L, N> {
    // At one owner of each of its queues.
    fn new(desk: Desk<DeskItem>, bell: Bell<BellItem<L, N>>) -> Ends<L, N> {
        let mut desk = desk;
        let mut bell = bell;
        let to_desk = desk.pass();
        let from_bell = bell.pass();
        Ends {
            desk,
            to_desk,
            bell,
            from_bell,
        }
    }

    pub(crate) fn put<R: Wait>(&mut self, rt: &R, item: DeskItem) {
        let _offered = self.desk.offer_as(rt, &mut self.to_desk, item);
    }

    // The first reply that the owner put into the bell, past at most seven other items.
    pub(crate) fn reply<R: Wait>(&mut self, rt: &R) -> Option<Reply<N>> {
        for _item in 0..8 {
            let Some(item) = self.bell.take_as(rt, &mut self.from_bell) else {
                return None;
            };
            if let BellItem::Reply(reply) = item {
                return Some(reply);
            }
        }
        None
    }
}

// A desk, a bell in a list of its own, and the other ends.
pub(crate) fn queues<L: Drop, N: Naming>(
    rt: &impl Abort,
    alloc: Global,
) -> (Desk<DeskItem>, Vec<Bell<BellItem<L, N>>>, Ends<L, N>)
    ensures { length result.1.items ≡ 1 }
{
    let mut desk = Desk::new(alloc).expect(rt, "memory");
    let mut bell = Bell::new(alloc).expect(rt, "memory");
    let share = desk.share().expect(rt, "memory");
    let ends = Ends::new(share, bell.share().expect(rt, "memory"));
    let mut bells = Vec::new(alloc);
    bells.push(bell).expect(rt, "memory");
    (desk, bells, ends)
}
