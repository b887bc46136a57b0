//! The session machine of a connection, with the numbers by which the connection is known.

ghost use Rattle.std.specs.Prelude.{◌≡◌, IfOk, OnErr, OnOk, false};
ghost use Rattle.mum_session.specs.Action.{action, after_frame};
ghost use Rattle.mum_session.specs.Machine.{answered, fresh_with_bans, session_of};
ghost use Rattle.mum_port.specs.Asked.{AsksAsHeard};
ghost use Rattle.mum_port.specs.Facts.{leave};

use mum_base::{OutOfMemory, ReplyEnd, SessionId};
use mum_frame::Frame;
use mum_rules_user::UserMessage;
use mum_session::{Action, Asked, Command, Session};
use std::alloc::Global;
use std::marker::Model;

// The session machine of a connection, and the numbers of the connection and of its worker.
#[derive(Drop)]
pub(crate) struct Client {
    connection: u32,
    worker: u8,
    session: Session,
}

impl Model for Client {
    ghost use Rattle.std.specs.Prelude.{◌≡◌};
    ghost use Rattle.mum_session.specs.Machine.{Machine};

    ghost Value = { Machine };

    ghost view = { λ c. c.session };

    ghost invariant = { λ c. (c.session.connection ≡ c.connection) × (c.session.worker ≡ c.worker) };
}

impl Client {
    // A connection that sent nothing yet, and may send lists of bans.
    pub(crate) fn new(connection: u32, worker: u8) -> Client
        ensures { result ≡ fresh_with_bans connection worker }
    {
        Client {
            connection,
            worker,
            session: Session::with_bans(connection, worker),
        }
    }

    pub(crate) fn connection(&self) -> u32
        ensures { result ≡ self.now.connection }
    {
        self.connection
    }

    // The session of the connection, where it is logged in.
    pub(crate) fn session(&self) -> Option<SessionId>
        ensures { result ≡ session_of self.now.stage }
    {
        self.session.session()
    }

    // Whether a reply is awaited.
    pub(crate) fn awaits(&self) -> bool
        ensures { result ≡ self.now.awaits }
    {
        self.session.awaits_reply()
    }

    // What a frame asks for.
    pub(crate) fn frame(&mut self, alloc: Global, frame: Frame) -> Result<Action, OutOfMemory>
        requires { self.old.awaits ≡ false }
        ensures action { IfOk result (λ a. a ≡ action self.old frame.kind frame.payload) }
        ensures asked { IfOk result AsksAsHeard }
        ensures after { OnOk result (self.new ≡ after_frame self.old frame.kind frame.payload) }
        ensures err { OnErr result (self.new ≡ self.old) }
    {
        self.session.frame(alloc, frame)
    }

    // The wait for a reply ends.
    pub(crate) fn answered(&mut self, end: ReplyEnd)
        ensures { self.new ≡ answered end self.old }
    {
        self.session.answered(end);
    }

    // That the connection goes.
    pub(crate) fn leave(&self) -> Command
        ensures { result ≡ leave self.now }
    {
        Command {
            connection: self.connection,
            worker: self.worker,
            session: self.session.session(),
            what: Asked::User(UserMessage::Leave),
        }
    }
}
