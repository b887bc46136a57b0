//! One connection of a worker: the bytes of its link are frames, its frames are commands, packets and
//! echoes, and what it is sent is written in order. A port knows no other connection, and no state.
#![tactic(auto)]

mod client;
mod desk;
mod front;
mod inbound;
pub mod item;
pub mod laws;
mod outbound;
pub mod outgoing;
pub mod passes;
pub mod port;
pub mod router;
pub mod stage;

pub use item::{DeskItem, Request};
pub use outgoing::Outgoing;
pub use passes::Passes;
pub use port::{Port, Step, UNWRITTEN_LIMIT};
pub use router::VoiceRouter;
pub use stage::{Farewell, Parting, Stage};
