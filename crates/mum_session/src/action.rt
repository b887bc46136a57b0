//! What a frame asks for.

ghost use Rattle.std.specs.Prelude.{◌≡◌};
ghost use Rattle.mum_session.specs.Action.{asks};

use crate::command::Command;
use mum_base::Octets;

/// The type of a BanList, as the Mumble protocol documentation numbers it.
pub const BAN_LIST: u16 = 10;

/// What a frame asks for.
#[derive(Drop)]
pub enum Action {
    /// That a command is decided. The connection then waits for the reply.
    Ask(Command),
    /// That others hear a voice packet, which was not looked into.
    Voice(Octets),
    /// To be answered by this frame, a Ping with the timestamp that came.
    Echo(Octets),
    /// Nothing more: a Version came, and its number is kept, where it has one.
    Keep,
    /// Nothing, by the number of the reason.
    Ignore { why: u8 },
    /// That a list of bans is settled, or sent: the payload of a BanList, which was not looked into. The
    /// connection then waits for the reply.
    Bans(Octets),
}

impl Action {
    // Whether the connection then waits for a reply.
    pub(crate) fn asks(&self) -> bool
        ensures { result ≡ asks self.now }
    {
        match self {
            Action::Ask(_) => true,
            Action::Bans(_) => true,
            _ => false,
        }
    }
}
