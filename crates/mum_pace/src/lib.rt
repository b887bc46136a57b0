//! How fast a client may send. Whoever toggles a mute as fast as the line takes it makes as many notices for everybody,
//! and no rule of the server knows time; so a link reads no more for a while from a client that sends too many frames, or
//! too many bytes of them.
#![tactic(auto)]

mod arrivals;
mod frames;
mod hang_up;
pub mod laws;
mod long;
mod meter;
mod pace;
mod pieces;
mod used;

pub use arrivals::Arrivals;
pub use hang_up::{HangUp, LEFT_BEHIND_LIMIT};
pub use long::{LONG_FRAMES_LIMIT, LongFrames, Reservation, SHORT_LIMIT};
pub use meter::{Counted, Meter};
pub use pace::{Pace, Rate};
