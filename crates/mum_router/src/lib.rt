//! What a voice worker routes packets with: the pass that looks at what is published, what is kept of its
//! answers, and the voice box of each slot. A packet takes one look, which finds those who hear it, and one
//! offer for each of them. Neither takes memory.
#![tactic(auto)]

pub mod crossing;
mod draft;
pub mod laws;
mod marks;
mod offering;
mod outlet;
mod picking;
mod router;

pub use mum_route::Hearer;
pub use offering::Routed;
pub use router::Router;
