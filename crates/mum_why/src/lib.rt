//! Why a session was not heard: the first rule of the route that leaves another out, and, where a permission is
//! missing, what took it away. Nothing here takes memory. The definitions are `specs/Reason.antt` and
//! `specs/Cut.antt`; `laws` ties them to the route and to the walk over the access control lists.
#![tactic(auto)]

mod aim;
mod cut;
pub mod laws;
mod reason;
mod stop;
mod walk;
mod ways;

pub use cut::{Cut, cut_for};
pub use reason::{Reason, reason_for};
