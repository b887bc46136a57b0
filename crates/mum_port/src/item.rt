//! What ports put on the desk of the control owner.

ghost use Rattle.std.specs.Prelude.{◌≡◌};
ghost use Rattle.mum_port.specs.Asked.{WasAsked};

use mum_base::{Octets, SessionId};
use mum_session::Command;
use std::marker::Model;

/// What the desk of the control owner takes.
#[derive(Drop)]
pub enum DeskItem {
    /// A command of a connection, to be decided.
    Command(Request),
    /// The port of this connection is gone. Nothing of it follows.
    Closed {
        connection: u32,
    },
    /// The payload of a BanList that a connection sent, and its session then: the bans are to be set or sent.
    Bans {
        connection: u32,
        session: SessionId,
        payload: Octets,
    },
}

/// A command for which a frame asked, or by which a connection goes.
#[derive(Drop)]
pub struct Request {
    command: Command,
}

impl Model for Request {
    ghost use Rattle.mum_session.specs.declared.command.Command.{Command};
    ghost use Rattle.mum_port.specs.Asked.{WasAsked};

    ghost Value = { Command };

    ghost view = { λ r. r.command };

    ghost invariant = { λ r. WasAsked r.command.what };
}

impl Request {
    /// The request for a command that was asked for.
    pub fn new(command: Command) -> Request
        requires { WasAsked command.what }
        ensures { result ≡ command }
    {
        Request { command }
    }

    /// Its command, which was asked for.
    pub fn into_command(self) -> Command
        ensures command { result ≡ self }
        ensures asked { WasAsked result.what }
    {
        self.command
    }
}
