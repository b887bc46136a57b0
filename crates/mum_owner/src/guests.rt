//! The connections that are open.

ghost use Rattle.std.specs.Prelude.{◌≡◌, ◌+◌, ◌<◌, ◌≤◌, ◌==◌, map, filter, find, IfOk, IsTrue};
ghost use Rattle.std.specs.List.{list_any};
ghost use Rattle.std.specs.Option.{option_copied, option_map};
ghost use Rattle.std.specs.Vec.{vec_capacity};
ghost use Rattle.mum_control.specs.Commanded.{current};
ghost use Rattle.mum_owner.specs.Guests.{address_of, are_all_given, are_none_open, entered, guest_with, has_room, have_all_left, is_gone_by, is_gone_from, is_not_of, is_of, joined_by, lag_for, lag_noted, lagging, left, no_guests, owned, seated, session_of, with_lag_noted, has_session, has_slot, may_lag};
ghost use Rattle.mum_base.specs.declared.reply.ReplyEnd.TheVariants.{Joined};

use crate::kept::Lag;
use mum_base::{CONNECTION_LIMIT, OutOfMemory, SessionId, Slot};
use mum_control::Control;
use mum_published::Naming;
use mum_session::Command;
use std::alloc::Global;
use std::marker::Model;
use std::mem::drop;

/// What is kept of a connection from its giving until its `Closed` is taken.
#[derive(Clone, Copy)]
pub struct Guest {
    pub connection: u32,
    /// The address of its link.
    pub address: [u8; 16],
    /// The session that the last accepted login of the connection got, and its slot.
    pub session: Option<SessionId>,
    pub slot: Option<Slot>,
    /// Whether a lag item was made for it.
    pub lagged: bool,
}

// The open connections by their numbers, and how many were given and have closed.
#[derive(Drop)]
pub(crate) struct Guests {
    // It has room for as many as may be open at once.
    rows: Vec<Guest>,
    given: u32,
    closed: u32,
    limit: u32,
}

impl Model for Guests {
    ghost use Rattle.std.specs.Vec.{vec_capacity};
    ghost use Rattle.mum_owner.specs.Facts.{GuestsFacts};
    ghost use Rattle.mum_owner.specs.Guests.{AreKept};

    ghost Value = { GuestsFacts };

    ghost view = { λ g. record { rows = g.rows.items; given = g.given; closed = g.closed; limit = g.limit } };

    ghost invariant = { λ g. AreKept g.rows.items g.given g.closed g.limit (vec_capacity g.rows) };
}

impl Guest {
    // Whether it is of this connection.
    fn is_of(&self, connection: u32) -> bool
        ensures { result ≡ is_of connection self.now }
    {
        self.connection == connection
    }

    // Whether it is of another connection.
    fn is_not_of(&self, connection: u32) -> bool
        ensures { result ≡ is_not_of connection self.now }
    {
        !self.is_of(connection)
    }
}

// Whether it is this session.
fn has_session(kept: Option<SessionId>, session: SessionId) -> bool
    ensures { result ≡ has_session session kept }
{
    match kept {
        Some(kept) => kept.0 == session.0,
        None => false,
    }
}

// Whether it is this slot.
fn has_slot(kept: Option<Slot>, slot: Slot) -> bool
    ensures { result ≡ has_slot slot kept }
{
    match kept {
        Some(kept) => kept.0 == slot.0,
        None => false,
    }
}

// Whether it has this session, and no lag item was made for it.
fn may_lag(guest: &Guest, session: SessionId) -> bool
    ensures { result ≡ may_lag session guest.now }
{
    let has = has_session(guest.session, session);
    has && !guest.lagged
}

// The lag item for a connection that has a session, where none was made for it.
pub(crate) fn lag_for(guest: &Guest) -> Option<Lag>
    ensures { result ≡ lag_for guest.now }
{
    if guest.lagged {
        return None;
    }
    match guest.session {
        Some(session) => Some(Lag {
            connection: guest.connection,
            session,
        }),
        None => None,
    }
}

// Whether a session that was kept is gone from the state.
fn is_gone<N: Naming>(session: Option<SessionId>, control: &Control<'_, N>) -> bool
    ensures { result ≡ is_gone_by (current control.now) session }
{
    match session {
        Some(session) => !control.is_there(session),
        None => false,
    }
}

// Whether its session is gone from the state, and this slot was its own.
fn is_gone_from<N: Naming>(guest: &Guest, control: &Control<'_, N>, slot: Slot) -> bool
    ensures { result ≡ is_gone_from (current control.now) slot guest.now }
{
    let has = has_slot(guest.slot, slot);
    has && is_gone(guest.session, control)
}

// The command, for the session of this guest. It is dropped where there is none.
fn owned_by(guest: Option<Guest>, command: Command) -> Option<Command>
    ensures { result ≡ option_map (λ guest. record command { session = guest.session }) guest }
{
    match guest {
        Some(guest) => {
            let mut command = command;
            command.session = guest.session;
            Some(command)
        }
        None => {
            drop(command);
            None
        }
    }
}

// A login of the connection was accepted.
fn seat(guest: &mut Guest, connection: u32, session: SessionId, slot: Slot)
    ensures { guest.new ≡ seated connection session slot guest.old }
{
    if guest.is_of(connection) {
        guest.session = Some(session);
        guest.slot = Some(slot);
    }
}

// A lag item was made for the connection.
fn note_lag(guest: &mut Guest, connection: u32)
    ensures { guest.new ≡ lag_noted connection guest.old }
{
    if guest.is_of(connection) {
        guest.lagged = true;
    }
}

fn seat_in(rows: &mut Vec<Guest>, connection: u32, session: SessionId, slot: Slot)
    ensures rows { rows.new.items ≡ map (seated connection session slot) rows.old.items }
    ensures room { vec_capacity rows.new ≡ vec_capacity rows.old }
{
    for guest in rows.iter_mut() {
        seat(guest, connection, session, slot);
    }
}

fn note_lag_in(rows: &mut Vec<Guest>, connection: u32)
    ensures rows { rows.new.items ≡ map (lag_noted connection) rows.old.items }
    ensures room { vec_capacity rows.new ≡ vec_capacity rows.old }
{
    for guest in rows.iter_mut() {
        note_lag(guest, connection);
    }
}

// Whether the connection is open.
fn is_open(rows: &[Guest], connection: u32) -> bool
    ensures { result ≡ list_any (is_of connection) rows.now }
{
    rows.iter().any(|guest| guest.is_of(connection))
}

// The guest of a connection.
fn guest_of(rows: &[Guest], connection: u32) -> Option<Guest>
    ensures { result ≡ find (is_of connection) rows.now }
{
    for guest in rows {
        if guest.is_of(connection) {
            return Some(*guest);
        }
    }
    None
}

// The guest with this session.
fn guest_with(rows: &[Guest], session: SessionId) -> Option<Guest>
    ensures { result ≡ guest_with session rows.now }
{
    for guest in rows {
        if has_session(guest.session, session) {
            return Some(*guest);
        }
    }
    None
}

// The guest with this session for which no lag item was made.
fn lagging_in(rows: &[Guest], session: SessionId) -> Option<Guest>
    ensures { result ≡ find (may_lag session) rows.now }
{
    for guest in rows {
        if may_lag(guest, session) {
            return Some(*guest);
        }
    }
    None
}

// The guest whose session is gone from this slot.
fn gone_in<N: Naming>(rows: &[Guest], control: &Control<'_, N>, slot: Slot) -> Option<Guest>
    ensures { result ≡ find (is_gone_from (current control.now) slot) rows.now }
{
    for guest in rows {
        if is_gone_from(guest, control, slot) {
            return Some(*guest);
        }
    }
    None
}

// The connection is not open any more.
fn let_go(rows: &mut Vec<Guest>, connection: u32)
    ensures rows { rows.new.items ≡ filter (is_not_of connection) rows.old.items }
    ensures room { vec_capacity rows.new ≡ vec_capacity rows.old }
{
    rows.retain(|guest| guest.is_not_of(connection));
}

impl Guests {
    // None yet. At most `limit` will be given.
    pub(crate) fn open(alloc: Global, limit: u32) -> Result<Guests, OutOfMemory>
        ensures { IfOk result (λ guests. guests ≡ no_guests limit) }
    {
        Ok(Guests {
            rows: Vec::with_capacity(alloc, CONNECTION_LIMIT)?,
            given: 0,
            closed: 0,
            limit,
        })
    }

    // How many were given.
    pub(crate) fn given(&self) -> u32
        ensures given { result ≡ self.now.given }
        ensures within { result ≤ self.now.limit }
    {
        self.given
    }

    // Whether one more may be given.
    pub(crate) fn has_room(&self) -> bool
        ensures { result ≡ has_room self.now }
    {
        let rows = self.rows.as_slice();
        rows.len() < CONNECTION_LIMIT && self.given < self.limit
    }

    // Whether as many were given as are in all.
    pub(crate) fn are_all_given(&self) -> bool
        ensures { result ≡ are_all_given self.now }
    {
        self.limit <= self.given
    }

    // Whether no connection is open.
    pub(crate) fn are_none_open(&self) -> bool
        ensures { result ≡ are_none_open self.now }
    {
        self.rows.is_empty()
    }

    // Whether each that was given has closed.
    pub(crate) fn have_all_left(&self) -> bool
        ensures { result ≡ have_all_left self.now }
    {
        self.closed == self.given
    }

    // One more is given, whose link has this address. Answers its number.
    pub(crate) fn enter(&mut self, address: [u8; 16]) -> u32
        requires { IsTrue (has_room self.old) }
        ensures number { result ≡ self.old.given + 1 }
        ensures guests { self.new ≡ entered address self.old }
    {
        let connection = self.given + 1;
        self.rows.push_reserved(Guest {
            connection,
            address,
            session: None,
            slot: None,
            lagged: false,
        });
        self.given = connection;
        connection
    }

    // The connection has closed. Nothing happens where it is not open.
    pub(crate) fn leave(&mut self, connection: u32)
        ensures { self.new ≡ left connection self.old }
    {
        if is_open(self.rows.as_slice(), connection) {
            let_go(&mut self.rows, connection);
            self.closed += 1;
        }
    }

    // The address of the link of an open connection; sixteen zeros where it is not open.
    pub(crate) fn address_of(&self, connection: u32) -> [u8; 16]
        ensures { result ≡ address_of connection self.now.rows }
    {
        match guest_of(self.rows.as_slice(), connection) {
            Some(guest) => guest.address,
            None => [0; 16],
        }
    }

    // The open connection that has this session.
    pub(crate) fn with_session(&self, session: SessionId) -> Option<Guest>
        ensures { result ≡ guest_with session self.now.rows }
    {
        guest_with(self.rows.as_slice(), session)
    }

    // The session that is kept for a connection.
    pub(crate) fn session_of(&self, connection: u32) -> Option<SessionId>
        ensures { result ≡ session_of connection self.now.rows }
    {
        match guest_of(self.rows.as_slice(), connection) {
            Some(guest) => guest.session,
            None => None,
        }
    }

    // The command, for the session that is kept for its connection. It is dropped where that is not open.
    pub(crate) fn owned(&self, command: Command) -> Option<Command>
        ensures { result ≡ owned self.now.rows command }
    {
        let guest = guest_of(self.rows.as_slice(), command.connection);
        owned_by(guest, command)
    }

    // A login of the connection was accepted.
    pub(crate) fn join(&mut self, connection: u32, session: SessionId, slot: Slot)
        ensures { self.new ≡ joined_by (Joined session slot) connection self.old }
    {
        seat_in(&mut self.rows, connection, session, slot);
    }

    // The lag item of a session for whose connection none was made.
    pub(crate) fn lagging(&self, session: SessionId) -> Option<Lag>
        ensures { result ≡ lagging session self.now.rows }
    {
        match lagging_in(self.rows.as_slice(), session) {
            Some(guest) => Some(Lag {
                connection: guest.connection,
                session,
            }),
            None => None,
        }
    }

    // A lag item was made for the connection.
    pub(crate) fn note_lag(&mut self, connection: u32)
        ensures { self.new ≡ with_lag_noted connection self.old }
    {
        note_lag_in(&mut self.rows, connection);
    }

    // The guest whose session is gone from this slot.
    pub(crate) fn gone_from<N: Naming>(&self, control: &Control<'_, N>, slot: Slot) -> Option<Guest>
        ensures { result ≡ find (is_gone_from (current control.now) slot) self.now.rows }
    {
        gone_in(self.rows.as_slice(), control, slot)
    }
}
