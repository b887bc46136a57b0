//! What is decided of the messages on users: logins, moves, flags, listening, kicks, texts, voice targets,
//! queries for permissions, and of the end of a connection. Which command each is, what it needs, what
//! limits it and what it is then are tables in `specs/`; the order of decisions is that of
//! `mum_rules_tree`.
#![tactic(auto)]

mod change;
mod decide;
mod heard;
mod kick;
pub mod laws;
pub mod limits;
mod listening;
mod login;
mod message;
mod moving;
mod query;
pub mod reject;
mod session;
mod speech;
mod target;
mod text;

pub use decide::decide_user;
pub use message::UserMessage;
pub use reject::OLDEST_VERSION;
