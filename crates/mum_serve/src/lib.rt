//! A server that serves clients: one owner of the connections, its workers, a viewer where views are asked for, and a store
//! where channels are kept, as roles of a crew; and what they came to when all have ended, with its journal where one is
//! asked for.
#![tactic(auto)]

pub mod asked;
mod collect;
pub mod entries;
mod later;
mod load;
pub mod program;
mod queues;
mod ready;
mod roles;
mod server;
mod start;
mod states;
mod stores;
mod summary;
mod totals;
mod views;

pub use asked::{Asked, Objects, ViewAsked};
pub use entries::Entries;
pub use program::{ServerEnd, run_server};
pub use roles::{RoleOpening, Roles};
pub use server::{Served, serve};
pub use summary::Summary;
pub use totals::Totals;
