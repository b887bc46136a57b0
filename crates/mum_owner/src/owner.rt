//! The owner.

ghost use Rattle.std.specs.Prelude.{◌≡◌, ◌↔◌, ◌⊎◌, ◌<◌, ◌+◌, ◌||◌, [], None, Some, false, true, nat_lt, is_some, ◌&&◌, not, IfErr, IfOk, IsTrue, IsSome, MatchOption, length, map};
ghost use mathlib.Core.List.{IsPrefix};
ghost use Rattle.mum_base.specs.declared.number.TheConstants.{CONNECTION_LIMIT};
ghost use Rattle.mum_control.specs.Commanded.{current};
ghost use Rattle.mum_io.specs.Counts.{NoneFalls, Rose};
ghost use Rattle.mum_keeper.specs.Archive.{queue_of};
ghost use Rattle.mum_port.specs.Asked.{WasAsked};
ghost use Rattle.mum_published.specs.Calls.{appended};
ghost use Rattle.mum_outbox.specs.Calls.{IsNewPass};
ghost use Rattle.mum_record.specs.Journal.{Each, IsWritableControl};
ghost use Rattle.mum_owner.specs.Banning.{Answers, IsGivenOrRefused, LacksRoom, Removes, SettlesList, TestsLogin, ban_reply, has_note, with_ban, with_warden};
ghost use Rattle.mum_owner.specs.Decided.{HasWritten};
ghost use Rattle.mum_doorway.specs.Doors.{NoMoreCome, given_after_all};
ghost use Rattle.mum_owner.specs.Given.{IsGiven, roll_of, starved};
ghost use Rattle.mum_owner.specs.Guests.{entered, has_room, joined_by, lagging, no_guests, owned};
ghost use Rattle.mum_owner.specs.Opened.{IsOpened, opening_of};
ghost use Rattle.mum_owner.specs.Serving.{EmptiesFor, GivesWaiting, LeaveIsGiven, Receives, ReceivesItem, Serves, ServesDesk, TakesItem, WasAskedIn, blocker, kept_after, leave_after, leave_of, may_go, must_wait, next_by};
ghost use Rattle.mum_owner.specs.Bell.{new_side, queues};
ghost use Rattle.mum_owner.specs.Turned.{Archives, Asks, LacksNote, Offered, OffersFurther, OwnerTurned, PostsNotice, Presses, Publishes, ended, has_ended, is_not_to_ask, is_over, is_through, makes_note, pressing, turn_of, with_lag};

use crate::banning::{banned_in, reason_in};
use crate::bells::{Bells, either};
use crate::desk::{DeskSide, PENDING_LIMIT};
use crate::guests::{Guest, Guests, lag_for};
use crate::kept::{Kept, Lag};
use crate::logins::{Logins, is_leave, is_login};
use crate::replies::{ban_reply, list_reply, refusal};
use crate::scribe::Scribe;
use crate::serving::Serving;
use mum_base::{ChannelId, Octets, OutOfMemory, Perm, ReplyEnd, SessionId};
use mum_control::{Control, Posted};
use mum_crew::{Role, Turn};
use mum_doorway::{DoorOpening, Doorway, Entrance};
use mum_io::{Accept, Clock, Link};
use mum_keeper::{Archive, StoreItem, StoreNote};
use mum_outbox::{Bell, Desk};
use mum_port::DeskItem;
use mum_published::{BellItem, Naming, Pass, Reply};
use mum_record::ControlEntry;
use mum_rules_user::UserMessage;
use mum_session::{Asked, Command};
use mum_state::State;
use mum_warden::Warden;
use std::alloc::Global;
use std::marker::Model;
use std::mem::drop;
use std::sync::Wait;

/// What an owner leaves.
#[derive(Drop)]
pub struct OwnerEnd<D: Drop, K: Drop> {
    pub door: D,
    pub clock: K,
    /// How many connections the door gave.
    pub connections: u32,
    /// How many edits were accepted.
    pub accepted: u64,
    /// The state after them.
    pub state: State,
    /// The commands that were decided, in their order, where a journal was asked for.
    pub entries: Vec<ControlEntry>,
    /// A command was dropped, a leave was tried again, a reply went without its note, or there was no further note
    /// for a store.
    pub no_memory: bool,
    pub door_failed: bool,
}

/// What an owner was opened with: how many connections are given in all, whether a journal is kept, the state at
/// which the server began, and what the door had counted.
#[derive(Drop)]
pub struct OwnerOpening {
    pub connections: u32,
    pub journal: bool,
    pub state: State,
    pub door: DoorOpening,
}

/// The role that takes connections from the door, gives the commands of the desk to the control owner, and
/// answers by the bells of the workers. Where there is a store, it offers its bell a further note of the same edits
/// for each note, and at the end that none comes any more. It has the bans of the server: a login from an address
/// that is banned is refused, and not given. Connections are numbered from 1 in the order of their giving;
/// connection n belongs to worker (n - 1) modulo the number of workers, and the number 0, which none gets, to
/// worker 0.
#[derive(Drop)]
pub struct Owner<'a, D: Entrance, K: Clock, N: Serving, R: Wait + Copy> {
    rt: R,
    alloc: Global,
    control: Control<'a, N>,
    doorway: Doorway<D, N>,
    guests: Guests,
    bells: Bells<D::Peer, N>,
    kept: Kept<D::Peer, N>,
    desk: DeskSide,
    logins: Logins,
    scribe: Scribe,
    warden: Warden<K>,
    archive: Archive<N>,
    // No more connections come, of which each bell is to be notified.
    is_ending: bool,
}

impl<'a, D: Entrance, K: Clock, N: Serving, R: Wait + Copy> Model for Owner<'a, D, K, N, R> {
    ghost use Rattle.std.specs.Prelude.{◌≡◌, length};
    ghost use Rattle.mum_doorway.specs.Doors.{given_after_all};
    ghost use Rattle.mum_published.specs.Calls.{appended};
    ghost use Rattle.mum_owner.specs.Decided.{HasWritten};
    ghost use Rattle.mum_owner.specs.Facts.{OwnerFacts};

    ghost Value = { OwnerFacts D D.Peer };

    ghost view = { λ o. record {
      control = o.control;
      doorway = o.doorway;
      guests = o.guests;
      bells = o.bells;
      kept = o.kept;
      desk = o.desk;
      logins = o.logins;
      scribe = o.scribe;
      warden = o.warden;
      archive = o.archive;
      is_ending = o.is_ending;
    } };

    ghost invariant = { λ o. (o.scribe.accepted ≡ length (appended o.control.publisher))
        × ((D.facts o.doorway.door).given ≡ given_after_all N.door.given o.guests.given)
        × HasWritten o.control o.scribe };
}

// What an owner keeps room in.
fn rooms_of<L: Drop, N: Naming>(
    alloc: Global,
    bells: Vec<Bell<BellItem<L, N>>>,
    connections: u32,
) -> Result<(Guests, Bells<L, N>, Logins), OutOfMemory>
    requires { 0 < length bells.items }
    ensures guests { IfOk result (λ rooms. rooms.0 ≡ no_guests connections) }
    ensures bells { IfOk result (λ rooms. rooms.1 ≡ map new_side (queues bells.items)) }
    ensures logins { IfOk result (λ rooms. rooms.2 ≡ []) }
{
    let bells = Bells::open(alloc, bells)?;
    let guests = Guests::open(alloc, connections)?;
    let logins = Logins::open(alloc)?;
    Ok((guests, bells, logins))
}

// The leave of a connection, which has this session.
fn leave_of(connection: u32, session: Option<SessionId>) -> Command
    ensures { result ≡ leave_of connection session }
{
    Command {
        connection,
        worker: 0,
        session,
        what: Asked::User(UserMessage::Leave),
    }
}

// What a turn came to.
fn turn_of(has_ended: bool, worked: bool) -> Turn
    ensures { result ≡ turn_of has_ended worked }
{
    if has_ended {
        Turn::Done
    } else if worked {
        Turn::Worked
    } else {
        Turn::Idle
    }
}

// The connection gets the seat of an accepted login.
fn seat(guests: &mut Guests, end: ReplyEnd, connection: u32)
    ensures { guests.new ≡ joined_by end connection guests.old }
{
    if let ReplyEnd::Joined(session, slot) = end {
        guests.join(connection, session, slot);
    }
}

// The box of a session's slot is emptied, where it is in the state: its port is closed, and takes nothing more.
fn empty_for<N: Naming, R: Wait>(rt: &R, control: &mut Control<'_, N>, session: Option<SessionId>)
    ensures { EmptiesFor control.old session control.new }
{
    if let Some(session) = session {
        control.empty_post(rt, session);
    }
}

// A connection came. It is the next one, and is kept.
fn take_in<L: Link, N: Naming>(guests: &mut Guests, kept: &mut Kept<L, N>, link: L)
    requires { IsTrue (has_room guests.old) }
    ensures guests { guests.new ≡ entered (L.facts link).address guests.old }
    ensures kept { kept.new
        ≡ record kept.old { coming = Some (record { connection = guests.old.given + 1; link = link }) } }
{
    let address = link.address();
    let connection = guests.enter(address);
    kept.keep_coming(connection, link);
}

impl<'a, D: Entrance, K: Clock, N: Serving, R: Wait + Copy> Owner<'a, D, K, N, R> {
    /// Takes the memory for what it keeps of as many connections as may be open at once. At most `connections`
    /// are taken from the door. Its bells are those that are given, in their order: the first is that of worker 0.
    /// It has no bans, and asks this clock for them. The store, where there is one, has the bell that is given. Where
    /// memory runs out, the door and the clock come back.
    pub fn open(
        rt: R,
        alloc: Global,
        control: Control<'a, N>,
        desk: Desk<DeskItem>,
        bells: Vec<Bell<BellItem<D::Peer, N>>>,
        door: D,
        clock: K,
        connections: u32,
        journal: bool,
        store: Option<Bell<StoreItem<N>>>,
    ) -> Result<Owner<'a, D, K, N, R>, (D, K)>
        requires opening { control.publisher.opening ≡ N.opening }
        requires fresh { appended control.publisher ≡ [] }
        requires door { record { counts = (D.facts door).counts; given = (D.facts door).given; opened_at = (D.facts door).opened_at } ≡ N.door }
        requires connections { 0 < connections }
        requires bells { 0 < length bells.items }
        ensures owner { IfOk result (IsOpened control.entry door connections journal (queues bells.items) (queue_of store)) }
        ensures desk { IfOk result (λ owner. IsNewPass desk owner.desk.pass) }
        ensures clock { IfOk result
            (λ owner. (owner.warden.last ≡ K.last clock) × (owner.warden.calls ≡ K.calls clock)) }
        ensures back { IfErr result (λ back. (back.0 ≡ door) × (back.1 ≡ clock)) }
    {
        let (guests, bells, logins) = match rooms_of(alloc, bells, connections) {
            Ok(rooms) => rooms,
            Err(_) => {
                drop(control);
                drop(desk);
                drop(store);
                return Err((door, clock));
            }
        };
        Ok(Owner {
            rt,
            alloc,
            control,
            doorway: Doorway::open(door),
            guests,
            bells,
            kept: Kept::nothing(),
            desk: DeskSide::open(desk),
            logins,
            scribe: Scribe::open(alloc, journal),
            warden: Warden::new(alloc, clock),
            archive: Archive::open(store),
            is_ending: false,
        })
    }

    // Offers each item that is kept to its bell.
    fn offer_kept(&mut self) -> bool
        ensures { Offered self.old result self.new }
    {
        self.kept.offer(&self.rt, &mut self.bells, self.is_ending)
    }

    // The connection for which the next login waits.
    fn blocker(&self) -> Option<Guest>
        ensures { result ≡ blocker self.now }
    {
        match self.control.next_slot() {
            Some(slot) => self.guests.gone_from(&self.control, slot),
            None => None,
        }
    }

    // Makes a lag item, if there is one to make. It is kept.
    fn make_lag(&mut self, lag: Option<Lag>) -> bool
        ensures { (result ≡ is_some lag) × (self.new ≡ with_lag lag self.old) }
    {
        let Some(lag) = lag else {
            return false;
        };
        self.guests.note_lag(lag.connection);
        self.kept.keep_lag(lag);
        true
    }

    // Gives a command to the control owner, and keeps the reply.
    fn give(&mut self, command: Command)
        ensures { IsGiven self.old command self.new }
    {
        let connection = command.connection;
        match self.scribe.prepare(&command) {
            Ok(()) => {
                let reply = self.control.command(&self.rt, command);
                let mark = self.control.mark();
                self.scribe.settle(connection, mark, reply.no_memory);
                seat(&mut self.guests, reply.end, connection);
                self.kept.keep_reply(reply);
            }
            Err(_) => {
                drop(command);
                self.starve(connection);
            }
        }
    }

    // Memory ran out for what a connection asked.
    fn starve(&mut self, connection: u32)
        ensures { self.new ≡ starved connection self.old }
    {
        self.scribe.refuse();
        let roll = self.control.roll();
        self.kept.keep_reply(refusal(self.alloc, connection, roll));
    }

    // A login of a connection without a session is tested before it is given, a removal with a ban makes room for
    // that, and any other command is given.
    fn give_or_refuse(&mut self, command: Command)
        ensures { IsGivenOrRefused self.old command self.new }
    {
        if is_login(&command) {
            return self.test_login(command);
        }
        match banned_in(&command) {
            Some(banned) => self.remove(banned, command),
            None => self.give(command),
        }
    }

    // Asks the clock, and refuses a login from an address that is banned then, or gives it.
    fn test_login(&mut self, login: Command)
        ensures { TestsLogin self.old login self.new }
    {
        let connection = login.connection;
        let address = self.guests.address_of(connection);
        if self.warden.refuses(&address) {
            drop(login);
            self.refuse_login(connection);
        } else {
            self.give(login);
        }
    }

    // Answers a login of somebody who is banned.
    fn refuse_login(&mut self, connection: u32)
        ensures { Answers self.old (ban_reply (roll_of self.old) connection) self.new }
    {
        match mum_warden::refusal(self.alloc) {
            Ok(wire) => {
                let roll = self.control.roll();
                self.kept.keep_reply(ban_reply(connection, wire, roll));
            }
            Err(_) => self.starve(connection),
        }
    }

    // Makes room for a ban, gives the removal, and adds the ban where it is to be.
    fn remove(&mut self, banned: SessionId, command: Command)
        ensures { LacksRoom self.old command.connection self.new ⊎ Removes self.old banned command self.new }
    {
        let connection = command.connection;
        let guest = self.guests.with_session(banned);
        match self.warden.prepare(reason_in(&command.what)) {
            Ok(()) => {
                self.give(command);
                self.note_ban(guest);
            }
            Err(_) => {
                drop(command);
                self.starve(connection);
            }
        }
    }

    // Adds the ban of a connection that was open, where the reply has a note.
    fn note_ban(&mut self, guest: Option<Guest>)
        requires { IsSome self.old.warden.book.reserved }
        ensures { self.new ≡ with_warden (with_ban guest self.old.kept.reply self.old.warden) self.old }
    {
        let Some(guest) = guest else {
            return;
        };
        if self.kept.has_note() {
            self.warden.note(guest.address);
        }
    }

    // A list of bans of a session came.
    fn settle_list(&mut self, connection: u32, session: SessionId, payload: Octets)
        ensures { SettlesList self.old connection session payload self.new }
    {
        let allowed = self.control.holds(session, Perm::BAN, ChannelId::ROOT);
        match self.warden.settle(allowed, session, payload.as_slice()) {
            Ok(wire) => {
                let roll = self.control.roll();
                self.kept.keep_reply(list_reply(connection, wire, roll));
            }
            Err(_) => self.starve(connection),
        }
    }

    // Gives the leave of a connection, with the session that is kept for it. Where memory runs out, it is kept.
    fn give_leave(&mut self, connection: u32) -> bool
        ensures { LeaveIsGiven self.old connection result self.new }
    {
        let session = self.guests.session_of(connection);
        let command = leave_of(connection, session);
        if self.scribe.prepare(&command).is_err() {
            drop(command);
            self.scribe.refuse();
            self.desk.keep(Some(connection));
            return false;
        }
        empty_for(&self.rt, &mut self.control, session);
        let reply = self.control.command(&self.rt, command);
        let mark = self.control.mark();
        self.scribe.settle(connection, mark, reply.no_memory);
        self.keep_leave(connection, mark.is_some(), reply)
    }

    // Keeps the reply to a leave that was decided, or the leave.
    fn keep_leave(&mut self, connection: u32, decided: bool, reply: Reply<N>) -> bool
        ensures { (result ≡ decided) × (self.new ≡ record self.old {
          kept = kept_after decided reply self.old.kept;
          desk = record self.old.desk { leave = leave_after decided connection };
        }) }
    {
        if decided {
            self.desk.keep(None);
            self.kept.keep_reply(reply);
        } else {
            drop(reply);
            self.desk.keep(Some(connection));
        }
        decided
    }

    // A command came from the desk. It is dropped where its connection is not open.
    fn receive(&mut self, command: Command)
        requires room { length self.old.logins < CONNECTION_LIMIT }
        requires asked { WasAsked command.what }
        ensures { Receives self.old (owned self.old.guests.rows command) self.new }
    {
        if let Some(command) = self.guests.owned(command) {
            self.receive_owned(command);
        }
    }

    // A command of an open connection came, with the session that is kept for it.
    fn receive_owned(&mut self, command: Command)
        requires room { length self.old.logins < CONNECTION_LIMIT }
        requires asked { WasAsked command.what }
        ensures { Receives self.old (Some command) self.new }
    {
        if is_leave(&command.what) {
            let connection = command.connection;
            drop(command);
            self.give_leave(connection);
        } else if is_login(&command) && self.must_wait() {
            self.logins.wait(command);
        } else {
            self.give_or_refuse(command);
        }
    }

    // Whether a login that comes now waits.
    fn must_wait(&self) -> bool
        ensures { result ≡ must_wait self.now }
    {
        if self.logins.are_none() {
            self.blocker().is_some()
        } else {
            true
        }
    }

    // Whether a login that waits may go now.
    fn may_go(&self) -> bool
        ensures { result ≡ may_go self.now }
    {
        if self.logins.are_none() {
            false
        } else {
            self.blocker().is_none()
        }
    }

    // Takes an item from the desk.
    fn take_item(&mut self) -> bool
        requires { length self.old.logins < CONNECTION_LIMIT }
        ensures { TakesItem self.old result self.new }
    {
        let item = self.desk.take(&self.rt);
        self.receive_item(item)
    }

    // What came from the desk, if something did.
    fn receive_item(&mut self, item: Option<DeskItem>) -> bool
        requires { length self.old.logins < CONNECTION_LIMIT }
        ensures { (result ≡ is_some item) × ReceivesItem self.old item self.new × WasAskedIn item }
    {
        match item {
            Some(item) => self.receive_one(item),
            None => false,
        }
    }

    // An item came from the desk.
    fn receive_one(&mut self, item: DeskItem) -> bool
        requires { length self.old.logins < CONNECTION_LIMIT }
        ensures { (result ≡ true) × ReceivesItem self.old (Some item) self.new × WasAskedIn (Some item) }
    {
        match item {
            DeskItem::Closed { connection } => {
                self.guests.leave(connection);
                true
            }
            DeskItem::Command(request) => {
                self.receive(request.into_command());
                true
            }
            DeskItem::Bans {
                connection,
                session,
                payload,
            } => {
                self.settle_list(connection, session, payload);
                true
            }
        }
    }

    // Gives or refuses a login that waited, with the session that is kept for its connection. It is dropped where
    // that is not open any more.
    fn give_login(&mut self, login: Command)
        ensures { MatchOption (owned self.old.guests.rows login) (self.new ≡ self.old)
            (λ own. IsGivenOrRefused self.old own self.new) }
    {
        if let Some(own) = self.guests.owned(login) {
            self.give_or_refuse(own);
        }
    }

    // Gives the first login that waits, or drops it.
    fn give_waiting(&mut self) -> bool
        requires { IsTrue (may_go self.old) }
        ensures { GivesWaiting self.old result self.new }
    {
        match self.logins.next() {
            Some(login) => {
                self.give_login(login);
                true
            }
            None => unreachable!(),
        }
    }

    // Gives or drops a login that waited, if it may go; or else takes an item from the desk, where one more login may
    // wait.
    fn take_next(&mut self) -> bool
        ensures { Serves (next_by false None false (may_go self.old) (nat_lt (length self.old.logins) CONNECTION_LIMIT))
            self.old result self.new }
    {
        if self.may_go() {
            return self.give_waiting();
        }
        if self.logins.have_room() {
            self.take_item()
        } else {
            false
        }
    }

    // Gives a kept leave again, or a login that waited, or takes an item from the desk.
    fn serve_desk(&mut self) -> bool
        ensures { ServesDesk self.old result self.new }
    {
        if self.kept.has_reply() {
            return false;
        }
        match self.desk.leave() {
            Some(connection) => self.give_leave(connection),
            None => {
                if PENDING_LIMIT < self.control.pending() {
                    false
                } else {
                    self.take_next()
                }
            }
        }
    }

    // Where a login waits and no lag item is kept: the one for the connection for which it waits.
    fn pressing(&self) -> Option<Lag>
        ensures { result ≡ pressing self.now }
    {
        if self.logins.are_none() || self.kept.has_lag() {
            return None;
        }
        match self.blocker() {
            Some(guest) => lag_for(&guest),
            None => None,
        }
    }

    // Where a login waits, makes a lag item for the connection for which it does.
    fn press(&mut self) -> bool
        ensures { Presses self.old result self.new }
    {
        let lag = self.pressing();
        self.make_lag(lag)
    }

    // Publishes what a command could not.
    fn publish(&mut self) -> bool
        ensures { Publishes self.old result self.new }
    {
        if self.control.unpublished() == 0 {
            return false;
        }
        match self.control.publish(&self.rt) {
            Ok(note) => {
                drop(note);
                true
            }
            Err(_) => false,
        }
    }

    // Whether a reply is kept.
    fn has_reply(&self) -> bool
        ensures { result ≡ is_some self.now.kept.reply }
    {
        self.kept.has_reply()
    }

    // Whether a reply with a note is kept, where none was.
    fn makes_note(&self, had_reply: bool) -> bool
        ensures { result ≡ (not had_reply && has_note self.now.kept.reply) }
    {
        !had_reply && self.kept.has_note()
    }

    // Offers the store a further note, of all that is published.
    fn offer_further(&mut self) -> bool
        requires { self.old.control.publisher.pending ≡ [] }
        ensures { OffersFurther self.old result self.new ⊎ LacksNote self.old result self.new }
    {
        match self.control.publish(&self.rt) {
            Ok(note) => self.archive.offer_note(&self.rt, StoreNote::new(note)),
            Err(_) => {
                self.scribe.refuse();
                false
            }
        }
    }

    // Whether nothing is to come that could give a note.
    fn is_through(&self) -> bool
        ensures { result ≡ is_through self.now }
    {
        self.is_over()
            && (self.guests.are_none_open()
                && (self.desk.leave().is_none() && self.control.unpublished() == 0))
    }

    // Offers the store a further note where this turn gave one, or that none comes any more where that is so.
    fn archive(&mut self, noted: bool) -> bool
        requires { noted ≡ true → self.old.control.publisher.pending ≡ [] }
        ensures { Archives noted self.old result self.new }
    {
        if !self.archive.is_there() {
            return false;
        }
        if noted {
            return self.offer_further();
        }
        if self.is_through() {
            self.archive.tell(&self.rt)
        } else {
            false
        }
    }

    // Makes a lag item for the connection of a session that lags, unless one was made.
    fn note_lagged(&mut self, session: SessionId)
        ensures { self.new ≡ with_lag (lagging session self.old.guests.rows) self.old }
    {
        let lag = self.guests.lagging(session);
        self.make_lag(lag);
    }

    // Posts the first notice that is pending.
    fn post(&mut self) -> bool
        ensures { PostsNotice self.old result self.new }
    {
        if self.kept.has_lag() {
            return false;
        }
        match self.control.post_next(&self.rt) {
            Posted::None => false,
            Posted::Posted(_) => true,
            Posted::Lagged(session) => {
                self.note_lagged(session);
                true
            }
        }
    }

    // Whether no more connections come.
    fn is_over(&self) -> bool
        ensures { result ≡ is_over self.now }
    {
        self.doorway.is_stopped() || self.guests.are_all_given()
    }

    // Whether the door is not to be asked.
    fn is_not_to_ask(&self) -> bool
        ensures { result ≡ is_not_to_ask self.now }
    {
        self.kept.has_coming() || (self.is_over() || !self.guests.has_room())
    }

    // Asks the door, where it may.
    fn ask_door(&mut self) -> bool
        ensures { Asks D.facts D.Peer.facts (is_not_to_ask self.old) self.old result self.new }
    {
        if self.is_not_to_ask() {
            return false;
        }
        match self.doorway.ask() {
            Accept::Conn(link) => {
                take_in(&mut self.guests, &mut self.kept, link);
                true
            }
            Accept::NotYet => false,
            Accept::End => true,
            Accept::Failed => true,
        }
    }

    // Where no more connections come and each was handed over, the bells are notified from the next turn on.
    fn end(&mut self)
        ensures { self.new ≡ ended self.old }
    {
        if self.is_over() && !self.kept.has_coming() {
            self.is_ending = true;
        }
    }

    // Whether no more connections come, each has closed, and each bell took that, as did that of the store that no
    // note comes any more.
    fn has_ended(&self) -> bool
        ensures { result ≡ has_ended self.now }
    {
        self.is_over()
            && (self.guests.have_all_left() && (self.bells.are_told() && self.archive.is_told()))
    }

    /// One turn. It offers each item that it keeps to its bell; gives a kept leave again, or a login that
    /// waited and whose connection is open, or takes an item from the desk; publishes what is not published; offers
    /// the store, where there is one, a further note where one was given, or, once none is to come, that; posts a
    /// notice; asks the door; and, where no more connections come, has that sent to each worker. It does each at
    /// most once, and where it may. What it was opened with stays, and it is done exactly where no more connections
    /// come, a `Closed` was taken for each, each bell took that no more come, and that of the store that no note comes
    /// any more.
    pub fn turn(&mut self) -> Turn
        ensures turned { OwnerTurned D.facts D.Peer.facts self.old result self.new }
        ensures opening { opening_of N.opening.state N.door self.new.guests.limit self.new.scribe.is_asked
            ≡ opening_of N.opening.state N.door self.old.guests.limit self.old.scribe.is_asked }
        ensures ended { (result ≡ Turn.Done) ↔ IsTrue (has_ended self.new) }
    {
        self.work()
    }

    // The parts of a turn, in their order.
    fn work(&mut self) -> Turn
        ensures { OwnerTurned D.facts D.Peer.facts self.old result self.new }
    {
        let offered = self.offer_kept();
        let had_reply = self.has_reply();
        let served = self.serve_desk();
        let made = self.makes_note(had_reply);
        let pressed = self.press();
        let published = self.publish();
        let noted = either(made, published);
        let archived = self.archive(noted);
        let posted = self.post();
        let came = self.ask_door();
        self.end();
        let has_ended = self.has_ended();
        let behind = either(posted, came);
        let worked = any_of(offered, served, pressed, published, archived, behind);
        turn_of(has_ended, worked)
    }

    /// Returns once what is published, and the roll of accepted logins, begin with all that a pass of the same `open`
    /// saw and learnt, which is at once: see `Publisher::has_shown`.
    pub fn has_shown(&self, pass: &Pass)
        requires { pass.now.opening ≡ N.opening }
        ensures known { IsPrefix pass.now.known self.now.control.publisher.published }
        ensures seen { IsPrefix pass.now.seen self.now.control.publisher.published }
        ensures roll { IsPrefix pass.now.roll (roll_of self.now) }
    {
        self.control.has_shown(&self.rt, pass);
    }

    /// The door, the clock, the totals, the state after all accepted edits, and the entries of the journal.
    pub fn finish(self) -> OwnerEnd<D, K>
        ensures door { result.door ≡ self.entry.doorway.door }
        ensures clock { (K.last result.clock ≡ self.entry.warden.last)
            × (K.calls result.clock ≡ self.entry.warden.calls) }
        ensures connections { result.connections ≡ self.entry.guests.given }
        ensures accepted { result.accepted ≡ length (appended self.entry.control.publisher) }
        ensures state { result.state ≡ current self.entry.control }
        ensures opening { self.entry.control.publisher.opening ≡ N.opening }
        ensures entries { result.entries.items ≡ self.entry.scribe.entries }
        // They are all commands that were decided, in order, and what they accepted is all that was appended.
        ensures decided { HasWritten self.entry.control self.entry.scribe }
        // Each has a line in a journal.
        ensures writable { Each IsWritableControl result.entries.items }
        ensures no_memory { result.no_memory ≡ self.entry.scribe.no_memory }
        ensures door_failed { result.door_failed ≡ self.entry.doorway.failed }
        ensures failed { IsTrue result.door_failed → Rose N.door.counts.faults (D.facts result.door).counts.faults }
        // Unless the door failed, no fault was counted; and unless it ended or failed, no end.
        ensures steady { result.door_failed ≡ false → (D.facts result.door).counts.faults ≡ N.door.counts.faults }
        ensures open_on { self.entry.doorway.stopped ≡ false → (D.facts result.door).counts.ends ≡ N.door.counts.ends }
        ensures counts { NoneFalls N.door.counts (D.facts result.door).counts }
        ensures address { (D.facts result.door).opened_at ≡ N.door.opened_at }
        ensures given { (D.facts result.door).given ≡ given_after_all N.door.given result.connections }
        ensures over { IsTrue (has_ended self.entry)
            → NoMoreCome result.connections self.entry.guests.limit N.door.counts (D.facts result.door).counts }
    {
        let Owner {
            rt: _,
            alloc: _,
            control,
            doorway,
            guests,
            bells,
            kept,
            desk,
            logins,
            scribe,
            warden,
            archive,
            is_ending: _,
        } = self;
        let connections = guests.given();
        drop(guests);
        drop(bells);
        drop(kept);
        drop(desk);
        drop(logins);
        drop(archive);
        let (door, door_failed) = doorway.close();
        let (accepted, entries, no_memory) = scribe.close();
        OwnerEnd {
            door,
            clock: warden.finish(),
            connections,
            accepted,
            state: control.into_state(),
            entries,
            no_memory,
            door_failed,
        }
    }
}

// Whether one of them holds.
fn any_of(a: bool, b: bool, c: bool, d: bool, e: bool, f: bool) -> bool
    ensures { result ≡ (a || (b || (c || (d || (e || f))))) }
{
    a || (b || (c || (d || (e || f))))
}

impl<'a, D: Entrance, K: Clock, N: Serving, R: Wait + Copy> Role for Owner<'a, D, K, N, R> {
    type Opening = OwnerOpening;

    ghost opening = { λ owner. opening_of N.opening.state N.door owner.guests.limit owner.scribe.is_asked };

    ghost has_ended = { has_ended };

    ghost turned = { OwnerTurned D.facts D.Peer.facts };

    fn turn(&mut self) -> Turn {
        Owner::turn(self)
    }
}
