//! A connection as the machine of its frames.

ghost use Rattle.std.specs.Prelude.{◌≡◌, ◌≢◌, ◌==◌, IfOk, OnErr, OnOk, false};
ghost use Rattle.std.specs.List.{list_any};
ghost use Rattle.mum_fields.specs.Table.{decoded};
ghost use Rattle.mum_frame.specs.declared.kind.TheConstants.{VERSION};
ghost use Rattle.mum_msg_state.specs.Messages.{ping, version};
ghost use Rattle.mum_session.specs.Action.{action, after_frame, after_login, bans_action, command_action, commands_after_login, ignore, login_action, other_action, ping_action, tree_or_user_action, version_action, version_after, voice_action};
ghost use Rattle.mum_session.specs.Machine.{answered, fresh, fresh_with_bans, is_rejected, resumed, session_of, stage_after};

use crate::action::{Action, BAN_LIST};
use crate::command::{Asked, Command};
use crate::heard::{Heard, command, login, message_in};
use mum_base::{Octets, OutOfMemory, Reason, ReplyEnd, SessionId};
use mum_frame::kind::{
    ACL, AUTHENTICATE, CHANNEL_REMOVE, CHANNEL_STATE, PERMISSION_QUERY, PING, TEXT_MESSAGE,
    UDP_TUNNEL, USER_REMOVE, USER_STATE, VERSION, VOICE_TARGET,
};
use mum_frame::{Frame, put_frame};
use mum_msg_state::{Message, Ping, Version};
use std::alloc::Global;
use std::marker::Model;

/// How far a connection has come.
#[derive(Clone, Copy)]
pub enum Stage {
    BeforeLogin,
    LoggedIn(SessionId),
    /// Its login was rejected, and nothing more is taken from it.
    Rejected,
}

impl Stage {
    fn session(self) -> Option<SessionId>
        ensures { result ≡ session_of self }
    {
        match self {
            Stage::LoggedIn(session) => Some(session),
            _ => None,
        }
    }

    fn is_rejected(self) -> bool
        ensures { result ≡ is_rejected self }
    {
        matches!(self, Stage::Rejected)
    }

    fn after(self, end: ReplyEnd) -> Stage
        ensures { result ≡ stage_after end self }
    {
        match end {
            ReplyEnd::Joined(session, _) => Stage::LoggedIn(session),
            ReplyEnd::Decided => self,
            ReplyEnd::Rejected => Stage::Rejected,
        }
    }
}

/// What a connection sent, and whether it waits for a reply.
#[derive(Drop)]
pub struct Session {
    connection: u32,
    worker: u8,
    version: Option<u32>,
    stage: Stage,
    awaits: bool,
    /// Whether lists of bans are taken from it.
    bans: bool,
}

impl Model for Session {
    ghost use Rattle.mum_session.specs.Machine.{Machine};

    ghost Value = { Machine };

    ghost view = { λ s. record { connection = s.connection; worker = s.worker; version = s.version; stage = s.stage; awaits = s.awaits; bans = s.bans } };
}

fn ignored(reason: Reason) -> Action
    ensures { result ≡ ignore reason }
{
    Action::Ignore { why: reason.code() }
}

// A Ping is answered by a Ping of its timestamp alone.
fn echo(alloc: Global, payload: &[u8]) -> Result<Action, OutOfMemory>
    ensures { IfOk result (λ a. a ≡ ping_action (decoded ping payload.now)) }
{
    let Some(told) = message_in::<Ping>(alloc, payload)? else {
        return Ok(ignored(Reason::Malformed));
    };
    let reply = told.encode(alloc)?;
    let frame = put_frame(alloc, PING, reply.as_slice())?;
    Ok(Action::Echo(frame))
}

// Whether a type is that of a command which comes after a login.
fn comes_after_login(kind: u16) -> bool
    ensures { result ≡ list_any (λ known. known == kind) commands_after_login }
{
    matches!(
        kind,
        CHANNEL_REMOVE
            | CHANNEL_STATE
            | USER_REMOVE
            | USER_STATE
            | TEXT_MESSAGE
            | ACL
            | VOICE_TARGET
            | PERMISSION_QUERY
    )
}

impl Session {
    /// A connection that sent nothing yet, by its number and that of its worker.
    pub fn new(connection: u32, worker: u8) -> Session
        ensures { result ≡ fresh connection worker }
    {
        Session::resumed(connection, worker, None, Stage::BeforeLogin)
    }

    /// A connection that sent nothing yet, as [`Session::new`] makes it, but that its lists of bans (BanList) are
    /// taken once it is logged in: each asks for a reply. Without that, a BanList is not read.
    pub fn with_bans(connection: u32, worker: u8) -> Session
        ensures { result ≡ fresh_with_bans connection worker }
    {
        let mut session = Session::new(connection, worker);
        session.bans = true;
        session
    }

    /// A connection of which the version and the stage are known already, and which waits for no reply.
    pub fn resumed(connection: u32, worker: u8, version: Option<u32>, stage: Stage) -> Session
        ensures { result ≡ resumed connection worker version stage }
    {
        Session {
            connection,
            worker,
            version,
            stage,
            awaits: false,
            bans: false,
        }
    }

    /// The session of the connection, where it is logged in.
    pub fn session(&self) -> Option<SessionId>
        ensures { result ≡ session_of self.now.stage }
    {
        self.stage.session()
    }

    /// The number of the last Version that has one.
    pub fn version(&self) -> Option<u32>
        ensures { result ≡ self.now.version }
    {
        self.version
    }

    /// Whether a reply is awaited. No frame is taken before it.
    pub fn awaits_reply(&self) -> bool
        ensures { result ≡ self.now.awaits }
    {
        self.awaits
    }

    /// What a frame asks for. Version and Ping are taken before a login; all other types but
    /// Authenticate are ignored then, and their payloads are not looked at. Where memory runs out, this leaves
    /// the connection as it was.
    pub fn frame(&mut self, alloc: Global, frame: Frame) -> Result<Action, OutOfMemory>
        requires { self.old.awaits ≡ false }
        ensures action { IfOk result (λ a. a ≡ action self.old frame.kind frame.payload) }
        ensures after { OnOk result (self.new ≡ after_frame self.old frame.kind frame.payload) }
        ensures err { OnErr result (self.new ≡ self.old) }
    {
        let Frame { kind, payload } = frame;
        if self.stage.is_rejected() {
            return Ok(ignored(Reason::Gone));
        }
        if kind == VERSION {
            return self.keep(alloc, payload.as_slice());
        }
        let action = self.action_of(alloc, kind, payload)?;
        self.awaits = action.asks();
        Ok(action)
    }

    // The number of a Version is kept, where it has one.
    fn keep(&mut self, alloc: Global, payload: &[u8]) -> Result<Action, OutOfMemory>
        ensures action { IfOk result (λ a. a ≡ version_action (decoded version payload.now)) }
        ensures after { OnOk result (self.new ≡ record self.old {
          version = version_after self.old.version (decoded version payload.now);
        }) }
        ensures err { OnErr result (self.new ≡ self.old) }
    {
        let Some(told) = message_in::<Version>(alloc, payload)? else {
            return Ok(ignored(Reason::Malformed));
        };
        self.version = told.version.or(self.version);
        Ok(Action::Keep)
    }

    // What a frame that is no Version asks for, of a connection that was not rejected.
    #[tactic(auto, unfolding(crate::specs::Action::action))]
    fn action_of(&self, alloc: Global, kind: u16, payload: Octets) -> Result<Action, OutOfMemory>
        requires stays { is_rejected self.now.stage ≡ false }
        requires other { kind ≢ VERSION }
        ensures { IfOk result (λ a. a ≡ action self.now kind payload) }
    {
        match kind {
            UDP_TUNNEL => Ok(self.voice(payload)),
            PING => echo(alloc, payload.as_slice()),
            AUTHENTICATE => self.log_in(alloc, payload.as_slice()),
            _ => self.other(alloc, kind, payload),
        }
    }

    // A voice packet is heard of who is logged in.
    fn voice(&self, payload: Octets) -> Action
        ensures { result ≡ voice_action (session_of self.now.stage) payload }
    {
        match self.stage {
            Stage::LoggedIn(_) => Action::Voice(payload),
            _ => ignored(Reason::NotLoggedIn),
        }
    }

    // A login, with the number of the version that was sent before.
    fn log_in(&self, alloc: Global, payload: &[u8]) -> Result<Action, OutOfMemory>
        ensures { IfOk result (λ a. a ≡ login_action self.now payload.now) }
    {
        let heard = login(alloc, self.version, payload)?;
        Ok(self.ask(heard))
    }

    // A type that is read of who is logged in alone, or of nobody.
    fn other(&self, alloc: Global, kind: u16, payload: Octets) -> Result<Action, OutOfMemory>
        ensures { IfOk result (λ a. a ≡ other_action self.now kind payload) }
    {
        if comes_after_login(kind) {
            self.later(alloc, kind, payload.as_slice())
        } else {
            Ok(self.list_of_bans(kind, payload))
        }
    }

    // A command of who is logged in.
    fn later(&self, alloc: Global, kind: u16, payload: &[u8]) -> Result<Action, OutOfMemory>
        ensures { IfOk result (λ a. a ≡ after_login (session_of self.now.stage)
            (tree_or_user_action self.now kind payload.now)) }
    {
        if self.stage.session().is_none() {
            return Ok(ignored(Reason::NotLoggedIn));
        }
        let heard = command(alloc, kind, payload)?;
        Ok(self.ask(heard))
    }

    // A list of bans is handed on as it came, of who is logged in; any other type is not read.
    fn list_of_bans(&self, kind: u16, payload: Octets) -> Action
        ensures { result ≡ bans_action self.now kind payload }
    {
        if !(self.bans && kind == BAN_LIST) {
            return ignored(Reason::NotRead);
        }
        match self.stage {
            Stage::LoggedIn(_) => Action::Bans(payload),
            _ => ignored(Reason::NotLoggedIn),
        }
    }

    // What a command asks for.
    fn ask(&self, heard: Heard<Asked>) -> Action
        ensures { result ≡ command_action self.now heard }
    {
        match heard {
            Heard::Message(what) => Action::Ask(Command {
                connection: self.connection,
                worker: self.worker,
                session: self.stage.session(),
                what,
            }),
            Heard::Malformed => ignored(Reason::Malformed),
            Heard::TooLong => ignored(Reason::TooLong),
        }
    }

    /// The wait for a reply ends: with a session, where a login was accepted; for good, where it was
    /// rejected.
    pub fn answered(&mut self, end: ReplyEnd)
        ensures { self.new ≡ answered end self.old }
    {
        self.stage = self.stage.after(end);
        self.awaits = false;
    }
}
