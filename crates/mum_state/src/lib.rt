//! What the server knows, as one value: the server's settings, accounts, channels with their policies,
//! sessions, and counts of the edits so far. Fourteen edits are all that changes it. A contract sees
//! it as plain rows and numbers, in `specs/State.antt`, and an edit by what it sets, in
//! `specs/Applied.antt`.
#![tactic(auto)]

mod account;
mod accounts;
mod apply;
mod change;
mod channels;
pub mod count;
pub mod edit;
mod fit;
mod followed;
mod hearing;
mod kind;
pub mod laws;
pub mod limits;
mod moved;
mod parts;
mod renewed;
mod server;
mod set;
pub mod state;
pub mod verdict;
mod who;

pub use account::{ACCOUNT_LIMIT, Account};
pub use count::{EDIT_LIMIT, Stamps};
pub use edit::Edit;
pub use server::{DEFAULT_BANDWIDTH, Server};
pub use state::State;
pub use verdict::Verdict;
pub use who::{home_of, who_is, who_with};
