//! A voice worker: the ports of its connections, what comes to it by its bell, and the router and the
//! journal that its ports share. A turn takes at most one item from the bell, and steps each port once.
#![tactic(auto)]

mod boxes;
mod common;
mod desk;
mod ear;
mod hearing;
mod intake;
mod ports;
mod record;
mod role;
mod routing;
pub mod worker;

pub use boxes::share_each;
pub use mum_port::DeskItem;
pub use mum_published::BellItem;
pub use mum_router::Routed;
pub use role::WorkerOpening;
pub use worker::{PortId, Shared, Worker, WorkerEnd};
