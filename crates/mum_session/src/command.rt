//! What a connection asks of the control owner.

use mum_base::SessionId;
use mum_rules_tree::TreeMessage;
use mum_rules_user::UserMessage;

/// What is to be decided.
#[derive(Drop)]
pub enum Asked {
    /// Other channels, or other groups and entries of one.
    Tree(TreeMessage),
    /// To enter, or what concerns users.
    User(UserMessage),
}

/// A command, and from where it comes.
#[derive(Drop)]
pub struct Command {
    /// The number of the connection.
    pub connection: u32,
    /// The number of the worker that serves it.
    pub worker: u8,
    /// The session of the connection, where it is logged in.
    pub session: Option<SessionId>,
    pub what: Asked,
}
