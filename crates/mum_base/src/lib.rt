//! What every crate of the server speaks of: the numbers of sessions, channels and accounts,
//! permission bits, the rules for names and texts, and lists that contracts see as lists.
#![tactic(auto)]

pub mod items;
pub mod name;
pub mod number;
pub mod outcome;
pub mod perm;
pub mod reply;
pub mod steps;

pub use items::{Items, Octets, OutOfMemory, Text};
pub use name::{NameFault, check_name, check_text};
pub use number::{
    AccountId, CONNECTION_LIMIT, Cause, ChannelId, PLACES, POST_CAPACITY, SLOTS, SessionId, Slot,
    VOICE_CAPACITY,
};
pub use outcome::{DenyType, Reason, RejectType};
pub use perm::{Perm, permission_bits};
pub use reply::{Mark, ReplyEnd};
pub use steps::Steps;
