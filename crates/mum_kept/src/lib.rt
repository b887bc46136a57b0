//! Channels that last: the rows that are kept of a state, whether rows describe the channels of a
//! server, and the edits that make these channels again.
#![tactic(auto)]

mod asked;
mod found;
mod good;
mod joined;
mod kept;
pub mod laws;
mod order;
mod prefix;
mod rebuilt;
pub mod rows;
mod siblings;

pub use good::good_rows;
pub use kept::{kept_rows, kept_rows_sharing};
pub use rebuilt::rebuild;
pub use rows::{KeptChannel, KeptRows};
