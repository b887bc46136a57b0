//! The core of the server as one machine: the steps of a recording, what each of them changes and
//! what its transcript says. Each worker routes through caches of its own.
#![tactic(auto)]

mod cached;
mod caches;
mod connection;
pub mod laws;
mod machine;
mod outbox;
mod plain;
mod post;
mod reply;
mod route;
mod slot;
mod worker;

pub use cached::Core;
pub use machine::{Effects, StepFault, Totals};
pub use plain::PlainCore;
