//! What the core keeps of a connection.

ghost use Rattle.std.specs.Prelude.{◌≡◌, Some, is_some, map, if◌then◌else◌};
ghost use Rattle.std.specs.Option.{option_copied};
ghost use Rattle.mum_core.specs.Connection.{answered, asking, closed_at, followed, fresh, is_of, is_untold, lagging, leads, leave_waiting, leaving, next_command, next_of_frame, rejects, seat_accepted, session_of, told, untold, wire_of};
ghost use Rattle.mum_core.specs.Lists.{changed_at};
ghost use Rattle.mum_core.specs.Machine.{machine_of, stage_of};

use crate::slot::ValidSlot;
use mum_base::{Mark, Octets, SessionId};
use mum_session::{Asked, Session, Stage};
use std::mem::drop;

/// A session and the slot that it holds.
#[derive(Clone, Copy)]
pub struct Seat {
    pub session: SessionId,
    pub slot: ValidSlot,
}

/// What the control owner answers to a command.
#[derive(Drop)]
pub struct Reply {
    /// What it decided.
    pub mark: Mark,
    /// The seat of the session that joined by it.
    pub seat: Option<Seat>,
    /// The bytes of the frame that reports a denial or answers a query; none where nothing is sent.
    pub wire: Octets,
}

/// Whether the session of a connection goes.
#[derive(Clone, Copy)]
pub enum Leave {
    /// The connection is there.
    Stays,
    /// Its leave waits to be decided, after the command of its frame, if that waits.
    Waits,
    /// Its leave waits to be decided, before the command of its frame.
    Leads,
    /// Its leave was decided.
    Decided,
}

/// A connection of the core.
#[derive(Drop)]
pub struct Connection {
    /// The number of the worker that serves it.
    pub worker: u8,
    /// The number of its last Version that has one.
    pub version: Option<u32>,
    /// The seat that its login gave it, once that was sent.
    pub seat: Option<Seat>,
    /// Whether it was notified that its login is rejected.
    pub rejected: bool,
    /// Whether a notice for its session found the posts of its slot full.
    pub lagged: bool,
    /// The command of its last frame, until it is decided.
    pub waiting: Option<Asked>,
    /// The reply that waits to be sent to it.
    pub decided: Option<Reply>,
    pub leave: Leave,
    /// The number of the line at which it was closed.
    pub closed: Option<u64>,
}

impl Reply {
    // Whether it reports that a login is rejected.
    fn is_rejection(&self) -> bool
        ensures { result ≡ rejects (Some self.now) }
    {
        matches!(self.mark, Mark::Rejected { .. })
    }
}

impl Leave {
    // It waits to be decided, if it was not asked for before.
    fn asked(self) -> Leave
        ensures { result ≡ leaving self }
    {
        match self {
            Leave::Stays => Leave::Waits,
            Leave::Waits => Leave::Waits,
            Leave::Leads => Leave::Leads,
            Leave::Decided => Leave::Decided,
        }
    }

    // A command of a frame waits after it, if it waits already.
    fn followed(self) -> Leave
        ensures { result ≡ followed self }
    {
        match self {
            Leave::Stays => Leave::Stays,
            Leave::Waits => Leave::Leads,
            Leave::Leads => Leave::Leads,
            Leave::Decided => Leave::Decided,
        }
    }

    // Whether it waits to be decided.
    fn is_waiting(self) -> bool
        ensures { result ≡ is_some (leave_waiting self) }
    {
        match self {
            Leave::Waits | Leave::Leads => true,
            Leave::Stays | Leave::Decided => false,
        }
    }

    // Whether it is decided before the command of a frame.
    fn leads(self) -> bool
        ensures { result ≡ leads self }
    {
        matches!(self, Leave::Leads)
    }
}

impl Connection {
    /// A connection that has asked for nothing yet, at this worker.
    pub fn at(worker: u8) -> Connection
        ensures { result ≡ fresh worker }
    {
        Connection {
            worker,
            version: None,
            seat: None,
            rejected: false,
            lagged: false,
            waiting: None,
            decided: None,
            leave: Leave::Stays,
            closed: None,
        }
    }

    /// How many of its commands were not decided yet, or not answered.
    pub fn untold(&self) -> u64
        ensures { result ≡ untold self.now }
    {
        u64::from(self.waiting.is_some())
            + u64::from(self.leave.is_waiting())
            + u64::from(self.decided.is_some())
    }

    /// Whether the command of a frame of it was not answered yet.
    pub fn is_untold(&self) -> bool
        ensures { result ≡ is_untold self.now }
    {
        self.waiting.is_some() || self.decided.is_some()
    }

    /// The command of its frame, where that is decided next.
    pub fn next_of_frame(&self) -> Option<&Asked>
        ensures { option_copied result ≡ next_of_frame self.now }
    {
        if self.leave.leads() {
            return None;
        }
        self.waiting.as_ref()
    }

    // Whether the command of its frame is decided next.
    fn frame_is_next(&self) -> bool
        ensures { result ≡ is_some (next_of_frame self.now) }
    {
        !self.leave.leads() && self.waiting.is_some()
    }

    /// Whether a command of it waits to be decided.
    pub fn has_command(&self) -> bool
        ensures { result ≡ is_some (next_command self.now) }
    {
        self.frame_is_next() || self.leave.is_waiting()
    }

    // How far it has come, by what it was sent.
    fn stage(&self) -> Stage
        ensures { result ≡ stage_of self.now }
    {
        if self.rejected {
            return Stage::Rejected;
        }
        match self.seat {
            Some(seat) => Stage::LoggedIn(seat.session),
            None => Stage::BeforeLogin,
        }
    }

    /// The machine of its frames, where it has this number.
    pub fn machine(&self, number: u32) -> Session
        ensures { result ≡ machine_of number self.now }
    {
        Session::resumed(number, self.worker, self.version, self.stage())
    }

    // The seat that its accepted login gave it, sent or not.
    fn seat_accepted(&self) -> Option<Seat>
        ensures { result ≡ seat_accepted self.now }
    {
        match &self.decided {
            Some(reply) => reply.seat.or(self.seat),
            None => self.seat,
        }
    }

    /// The session that its accepted login gave it, sent or not.
    pub fn session(&self) -> Option<SessionId>
        ensures { result ≡ session_of self.now }
    {
        match self.seat_accepted() {
            Some(seat) => Some(seat.session),
            None => None,
        }
    }

    /// The bytes of its reply, where it is not closed.
    pub fn wire(&self) -> &[u8]
        ensures { result.now ≡ wire_of self.now }
    {
        if self.closed.is_some() {
            return &[];
        }
        match &self.decided {
            Some(reply) => reply.wire.as_slice(),
            None => &[],
        }
    }

    // It is sent its reply.
    fn tell(&mut self)
        ensures { self.new ≡ told self.old }
    {
        if let Some(reply) = self.decided.take() {
            self.rejected = self.rejected || reply.is_rejection();
            self.seat = reply.seat.or(self.seat);
        }
    }

    // It asks for this, after its leave if that waits.
    fn ask(&mut self, what: Asked)
        ensures { self.new ≡ asking what self.old }
    {
        drop(self.waiting.replace(what));
        self.leave = self.leave.followed();
    }

    // Its next command is decided: that of its frame waits to be sent this reply, a leave gets none.
    fn answer(&mut self, reply: Reply)
        ensures { self.new ≡ answered (next_of_frame self.old) reply self.old }
    {
        if self.frame_is_next() {
            drop(self.waiting.take());
            drop(self.decided.replace(reply));
        } else {
            self.leave = Leave::Decided;
        }
    }

    // Whether an accepted login gave it the session.
    fn is_of(&self, session: SessionId) -> bool
        ensures { result ≡ is_of session self.now }
    {
        match self.session() {
            Some(own) => own.0 == session.0,
            None => false,
        }
    }

    // Where it is the connection of the session, a notice for it found the posts of its slot full.
    fn lag_of(&mut self, session: SessionId)
        ensures { self.new ≡ (if is_of session self.old then lagging self.old else self.old) }
    {
        if self.is_of(session) {
            self.leave = self.leave.asked();
            self.lagged = true;
        }
    }

    // It ends at this line, and its leave waits after what waits of it.
    fn close(&mut self, line: u64)
        ensures { self.new ≡ closed_at line self.old }
    {
        self.leave = self.leave.asked();
        self.closed = Some(line);
    }
}

/// The connection of a session lags, notified of its login or not.
pub fn lag_at_session(connections: &mut Vec<Connection>, session: SessionId)
    ensures { connections.new.items ≡ map (λ c. if is_of session c then lagging c else c) connections.old.items }
{
    for connection in connections.iter_mut() {
        connection.lag_of(session);
    }
}

/// The connection at a place asks for this.
pub fn ask_at(connections: &mut Vec<Connection>, place: usize, what: Asked)
    ensures { connections.new.items ≡ changed_at place (asking what) connections.old.items }
{
    match connections.get_mut(place) {
        Some(connection) => connection.ask(what),
        None => drop(what),
    }
}

/// The connection at a place has sent this version.
pub fn keep_version_at(connections: &mut Vec<Connection>, place: usize, version: Option<u32>)
    ensures { connections.new.items ≡ changed_at place (λ c. record c { version = version }) connections.old.items }
{
    if let Some(connection) = connections.get_mut(place) {
        connection.version = version;
    }
}

/// The next command of the connection at a place is decided.
pub fn answer_at(connections: &mut Vec<Connection>, place: usize, reply: Reply)
    ensures { connections.new.items ≡ changed_at place (λ c. answered (next_of_frame c) reply c) connections.old.items }
{
    if let Some(connection) = connections.get_mut(place) {
        connection.answer(reply);
    }
}

/// The connection at a place is sent its reply.
pub fn tell_at(connections: &mut Vec<Connection>, place: usize)
    ensures { connections.new.items ≡ changed_at place told connections.old.items }
{
    if let Some(connection) = connections.get_mut(place) {
        connection.tell();
    }
}

/// The connection at a place ends at this line.
pub fn close_at(connections: &mut Vec<Connection>, place: usize, line: u64)
    ensures { connections.new.items ≡ changed_at place (closed_at line) connections.old.items }
{
    if let Some(connection) = connections.get_mut(place) {
        connection.close(line);
    }
}
