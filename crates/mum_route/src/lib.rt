//! Who hears a packet: talk in a channel and over links, whispers to channels and to sessions by voice
//! targets, those who listen to a channel, and loopback, after "Voice targets" of the Murmur manual.
//! Nothing here takes memory. The definition is `specs/Route.antt`.
#![tactic(auto)]

mod aim;
mod audience;
mod context;
mod cover;
mod hearer;
mod hearing;
pub mod laws;
mod reach;
pub mod rights;
mod routes;

pub use audience::Audience;
pub use context::Context;
pub use hearer::Hearer;
pub use rights::{Rights, Walk};
pub use routes::{LOOPBACK, TALK, hear_reached, reached, route, route_into, route_with};
