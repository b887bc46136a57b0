//! Answers of a state that are kept for a later one: what a session may do in a channel, and who hears what a
//! session says to a target. A kept answer has the counts of the state that gave it, and is taken again where
//! the counts of a later state are the same. Room is reserved once, for each slot and place that there may be, and resident as far as it was used.
//! What is right is defined in `specs/Perms.antt` and `specs/Routes.antt`, and outlives edits by `laws`.
#![tactic(auto)]

mod caches;
pub mod laws;
mod perms;
mod routes;
mod table;

pub use caches::Caches;
pub use perms::PermCache;
pub use routes::RouteCache;
