//! The warden of a server: the book of bans and the clock by which bans live. It says whose login is refused, what a
//! list of bans comes to and what its sender is sent, and adds the ban of somebody who is removed with one.
#![tactic(auto)]

mod answer;
pub mod laws;
mod warden;

pub use answer::refusal;
pub use laws::answers_are_frames;
pub use warden::Warden;
