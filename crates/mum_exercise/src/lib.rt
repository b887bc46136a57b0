//! An exercise: a generated session of 16 users who talk and change channels, links, mutes, listening and voice targets,
//! drawn from a seed. Its steps are taken by a core while they are drawn.
#![tactic(auto)]

mod acts;
pub mod draws;
mod exercise;
pub mod laws;
mod tally;

pub use draws::{Act, Draws, Round, USERS};
pub use exercise::{DOCUMENT, WORKERS, account, generate, numbers};
