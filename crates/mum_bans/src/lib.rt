//! Bans by address: who is kept out, since when and for how long. A book of bans is shown and set by the
//! BanList message, and is added to where somebody is removed with a ban.
#![tactic(auto)]

mod ban;
mod ban_entry;
mod ban_list;
mod book;
mod laws;
mod limits;
mod listing;
mod reason;
mod setting;
mod verdict;

pub use ban::Ban;
pub use book::BanBook;
pub use laws::{answers_fit_a_frame, books_are_folds, covering_is_of_bits, cuts_are_longest};
pub use limits::{ADDRESS_LENGTH, BAN_LIMIT, BAN_TEXT_LIMIT, MASK_LIMIT, ban_limits};
pub use verdict::BanVerdict;
