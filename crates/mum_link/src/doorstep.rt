//! What sets the doors apart.

ghost use Rattle.std.specs.Prelude.{◌≡◌, None, Some, false, true};

use crate::hub::{USER_LINK_LIMIT, VIEW_LINK_LIMIT};
use mum_pace::{Pace, Rate};

/// The thread of the users' door, the first of the crew.
pub const DOOR_THREAD: usize = 0;

// The slots of the listeners, after those of all links.
const DOOR_SLOT: usize = USER_LINK_LIMIT + VIEW_LINK_LIMIT;

const VIEW_DOOR_SLOT: usize = DOOR_SLOT + 1;

// How long a view's link waits for a peer that takes nothing, in milliseconds.
pub(crate) const VIEW_PATIENCE: u64 = 10_000;

/// Where a door and its links are, and how these come in and write.
#[derive(Clone, Copy)]
pub struct Doorstep {
    /// The slot of its listener.
    pub slot: usize,
    /// The first slot of its links, and the one after the last.
    pub first: usize,
    pub end: usize,
    /// The thread that asks it.
    pub thread: usize,
    /// Whether its links are shared out to the threads of the workers. Else they are on the thread that asks it.
    pub is_shared: bool,
    /// How fast connections come in, if not as fast as they like, and how fast the client of each may send.
    pub rate: Option<Rate>,
    pub pace: Pace,
    /// Whether it ends where the owner has ended.
    pub ends_with_owner: bool,
    pub delivery: Delivery,
}

/// How a link writes.
#[derive(Clone, Copy)]
pub struct Delivery {
    /// Whether it keeps what is written back, to send it in batches. What such a link still keeps when it is shut is lost
    /// where its socket is full.
    pub in_batches: bool,
    /// For how long it waits for a peer that takes nothing, in milliseconds, if not for ever.
    pub patience: Option<u64>,
}

impl Doorstep {
    /// Of the door for users, whose links are those of the workers.
    pub fn of_users(pace: Pace) -> Doorstep
        ensures slots { (result.slot ≡ 1104) × (result.first ≡ 0) × (result.end ≡ 1024) }
        ensures links { (result.is_shared ≡ true) × (result.delivery.in_batches ≡ true)
            × (result.delivery.patience ≡ None) }
        ensures comings { (result.rate ≡ None) × (result.pace ≡ pace) × (result.ends_with_owner ≡ false) }
        ensures thread { result.thread ≡ 0 }
    {
        Doorstep {
            slot: DOOR_SLOT,
            first: 0,
            end: USER_LINK_LIMIT,
            thread: DOOR_THREAD,
            is_shared: true,
            rate: None,
            pace,
            ends_with_owner: false,
            delivery: Delivery {
                in_batches: true,
                patience: None,
            },
        }
    }

    /// Of the door for views, which this thread asks. Its links take no slot from users, write through, and do not wait for
    /// ever; at most ten a second come in, twenty at once.
    pub fn of_views(thread: usize) -> Doorstep
        ensures slots { (result.slot ≡ 1105) × (result.first ≡ 1024) × (result.end ≡ 1104) }
        ensures links { (result.is_shared ≡ false) × (result.delivery.in_batches ≡ false)
            × (result.delivery.patience ≡ Some 10000) }
        ensures comings { (result.rate ≡ Some (record { each_second = 10; at_once = 20 }))
            × (result.ends_with_owner ≡ true) }
        ensures thread { result.thread ≡ thread }
    {
        Doorstep {
            slot: VIEW_DOOR_SLOT,
            first: USER_LINK_LIMIT,
            end: DOOR_SLOT,
            thread,
            is_shared: false,
            rate: Some(Rate {
                each_second: 10,
                at_once: 20,
            }),
            pace: Pace::Unlimited,
            ends_with_owner: true,
            delivery: Delivery {
                in_batches: false,
                patience: Some(VIEW_PATIENCE),
            },
        }
    }
}
