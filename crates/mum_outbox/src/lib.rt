//! Bounded queues that threads share, under a rule that says which items are where for every
//! interleaving: the outboxes of a port (of `mum_parcel`), the desk of the control owner and the bells
//! of the workers are one `Queue` with different items and capacities.
//!
//! What threads do to a queue are five kinds of step, each at one moment: a pass is made (`pass`,
//! `share`); an offer adds its item, or finds the queue full (`offer_as`); a take gets the oldest
//! item, or finds the queue empty (`take_as`). `specs/Rule.antt` has the rule that holds between any
//! two of them.
#![tactic(auto)]

mod kinds;
pub mod queue;
pub mod rule;

pub use kinds::{BELL_CAPACITY, Bell, DESK_CAPACITY, Desk};
pub use queue::{BoxPass, Offered, Queue};
