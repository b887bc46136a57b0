//! The machine of a connection: what each frame of it asks for, by what the connection sent before and
//! by whether it is logged in. A frame is decoded in this crate alone. Here too is what is decided of a
//! command, and what its sender is answered: the core and the control owner decide by the same functions.
#![tactic(auto)]

mod action;
mod asks;
mod command;
mod decision;
mod heard;
pub mod laws;
mod reply;
mod session;

pub use action::{Action, BAN_LIST};
pub use command::{Asked, Command};
pub use decision::decide;
pub use laws::{
    bans_come_of_lists, denials_are_sent, enters_where_permitted, payloads_wait_for_a_login,
    replies_end, silent_verdicts,
};
pub use reply::{end_of, mark_of, wire_of};
pub use session::{Session, Stage};
