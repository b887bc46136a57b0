//! The ports of a worker.

ghost use Rattle.std.specs.Prelude.{◌≡◌, ◌≤◌, ◌<◌, ◌&&◌, ◌||◌, ◌++◌, ◌∷◌, [], IfOk, IsTrue, false, filter, length, not, position};
ghost use Rattle.std.specs.List.{All};
ghost use Rattle.std.specs.VecDeque.{deque_capacity, deque_len};
ghost use Rattle.mum_crew.specs.Along.{Along, EachAlong};
ghost use Rattle.mum_worker.specs.Facts.{is_empty, is_of, session_at, speaker_of, stays};
ghost use Rattle.mum_worker.specs.Hearing.{AnswersFirst, LagsWhereIts, TakesOrTurns, has_place};
ghost use Rattle.mum_worker.specs.Intake.{is_next};
ghost use Rattle.mum_worker.specs.Record.{without_room};
ghost use Rattle.mum_worker.specs.Routing.{bare};
ghost use Rattle.mum_worker.specs.Stepping.{MakesStep, OwnsPasses, PortSteps};

use crate::boxes::Boxes;
use crate::common::Common;
use crate::desk::DeskEnd;
use crate::hearing::learn_given;
use crate::intake::Intake;
use crate::record::Record;
use mum_base::{CONNECTION_LIMIT, Cause, Octets, OutOfMemory, ReplyEnd, SessionId};
use mum_crew::Gate;
use mum_io::Link;
use mum_port::{Passes, Port};
use mum_published::Naming;
use std::alloc::Global;
use std::collections::VecDeque;
use std::marker::Model;
use std::sync::Wait;

// The ports of a worker, in the order in which they were taken in, with room for as many as connections may
// be open at once.
#[derive(Drop)]
pub(crate) struct Ports<L: Link, N: Naming> {
    list: VecDeque<Port<L, N>>,
}

impl<L: Link, N: Naming> Model for Ports<L, N> {
    ghost use Rattle.std.specs.Prelude.{◌≤◌, List};
    ghost use Rattle.std.specs.VecDeque.{deque_capacity};
    ghost use Rattle.mum_base.specs.declared.number.TheConstants.{CONNECTION_LIMIT};
    ghost use Rattle.mum_port.specs.Facts.{PortFacts};

    ghost Value = { List (PortFacts L) };

    ghost view = { λ p. p.list.items };

    ghost invariant = { λ p. CONNECTION_LIMIT ≤ deque_capacity p.list };
}

// Puts a port back after the others, unless it is gone.
fn put_back<L: Link, N: Naming>(list: &mut VecDeque<Port<L, N>>, port: Port<L, N>)
    requires { deque_len list.old < deque_capacity list.old }
    ensures capacity { deque_capacity list.new ≡ deque_capacity list.old }
    ensures items { list.new.items ≡ list.old.items ++ filter stays (port ∷ []) }
{
    if !port.is_gone() {
        list.push_back_reserved(port);
    }
}

// One port makes its step, and what the step came to is noted.
fn make_step<L: Link, G: Gate, N: Naming, R: Wait + Copy>(
    port: &mut Port<L, N>,
    rt: &R,
    desk: &mut DeskEnd,
    boxes: &Boxes<N>,
    common: &mut Common<G, N, R>,
    buf: &mut [u8],
    worked: bool,
) -> bool
    requires owned { OwnsPasses boxes.now port.old }
    requires buffer { 0 < length buf.old }
    ensures steps { MakesStep L.facts N.opening boxes.now
        port.old (record { common = bare common.old; desk = desk.old; worked = worked })
        port.new (record { common = bare common.new; desk = desk.new; worked = result }) }
    ensures owned { OwnsPasses boxes.now port.new }
{
    let connection = port.connection();
    let alloc = common.alloc;
    let step = port.step(
        rt,
        alloc,
        &desk.desk,
        &mut desk.pass,
        &boxes.posts,
        &boxes.voices,
        common,
        buf,
    );
    common.kept.stepped(connection, step);
    worked || step.worked
}

// One port makes its step, and what came with the parcels that it took is learnt.
fn step_port<L: Link, G: Gate, N: Naming, R: Wait + Copy>(
    port: &mut Port<L, N>,
    rt: &R,
    desk: &mut DeskEnd,
    boxes: &Boxes<N>,
    common: &mut Common<G, N, R>,
    buf: &mut [u8],
    worked: bool,
) -> bool
    requires owned { OwnsPasses boxes.now port.old }
    requires buffer { 0 < length buf.old }
    ensures steps { PortSteps L.facts N.opening boxes.now
        port.old (record { common = bare common.old; desk = desk.old; worked = worked })
        port.new (record { common = bare common.new; desk = desk.new; worked = result }) }
    ensures owned { OwnsPasses boxes.now port.new }
{
    let worked = make_step(port, rt, desk, boxes, common, buf, worked);
    learn_given(&mut common.router, &port.told());
    worked
}

// Whether one was gone before, or this one is.
fn is_gone_too<L: Link, N: Naming>(gone: bool, port: &Port<L, N>) -> bool
    ensures { result ≡ (gone || not (stays port.now)) }
{
    gone || port.is_gone()
}

// Each port makes its step where it lies, in their order. Answers whether one did anything, or something was
// heard before, and whether one is gone then.
fn step_all<L: Link, G: Gate, N: Naming, R: Wait + Copy>(
    list: &mut VecDeque<Port<L, N>>,
    rt: &R,
    desk: &mut DeskEnd,
    boxes: &Boxes<N>,
    common: &mut Common<G, N, R>,
    buf: &mut [u8],
    heard: bool,
) -> (bool, bool)
    requires owned { All (OwnsPasses boxes.now) list.old.items }
    requires buffer { 0 < length buf.old }
    ensures steps { Along (PortSteps L.facts N.opening boxes.now)
        list.old.items (record { common = bare common.old; desk = desk.old; worked = heard })
        list.new.items (record { common = bare common.new; desk = desk.new; worked = result.0 }) }
    ensures staying { result.1 ≡ false → filter stays list.new.items ≡ list.new.items }
    ensures owned { All (OwnsPasses boxes.now) list.new.items }
    ensures capacity { deque_capacity list.new ≡ deque_capacity list.old }
{
    let count = list.len();
    let mut worked = heard;
    let mut gone = false;
    let mut done = 0;
    while done < count {
        let port = &mut list[done];
        worked = step_port(port, rt, desk, boxes, common, buf, worked);
        gone = is_gone_too(gone, port);
        done += 1;
    }
    (worked, gone)
}

// Lets go of the ports that are gone. The others keep their order.
fn let_go<L: Link, N: Naming>(list: &mut VecDeque<Port<L, N>>)
    ensures items { list.new.items ≡ filter stays list.old.items }
    ensures capacity { deque_capacity list.new ≡ deque_capacity list.old }
{
    list.retain(|port| !port.is_gone());
}

// Each port makes its step, in their order. One that is gone then is let go. A port is large, and none is moved
// while all stay.
fn step_each<L: Link, G: Gate, N: Naming, R: Wait + Copy>(
    list: &mut VecDeque<Port<L, N>>,
    rt: &R,
    desk: &mut DeskEnd,
    boxes: &Boxes<N>,
    common: &mut Common<G, N, R>,
    buf: &mut [u8],
    heard: bool,
) -> bool
    requires owned { All (OwnsPasses boxes.now) list.old.items }
    requires buffer { 0 < length buf.old }
    ensures steps { EachAlong (PortSteps L.facts N.opening boxes.now) stays
        list.old.items (record { common = bare common.old; desk = desk.old; worked = heard })
        list.new.items (record { common = bare common.new; desk = desk.new; worked = result }) }
    ensures owned { All (OwnsPasses boxes.now) list.new.items }
    ensures capacity { deque_capacity list.new ≡ deque_capacity list.old }
{
    let (worked, gone) = step_all(list, rt, desk, boxes, common, buf, heard);
    if !gone {
        return worked;
    }
    let_go(list);
    worked
}

// A link that is not taken in is shut.
fn turned_away<L: Link>(link: L) -> L
    ensures { IsTrue (L.facts result).is_shut }
{
    let mut link = link;
    link.shut();
    link
}

// Closes a port, where it is of this session and open.
fn lag_port<L: Link, N: Naming>(
    port: &mut Port<L, N>,
    alloc: Global,
    kept: &mut Record,
    session: SessionId,
)
    ensures { LagsWhereIts L.facts session port.old (without_room kept.old)
        port.new (without_room kept.new) }
{
    let connection = port.connection();
    match port.session() {
        Some(own) if own == session => {
            let closed = port.lag(alloc);
            kept.closed(connection, closed);
        }
        _ => {}
    }
}

// Closes each open port of this session.
fn lag_each<L: Link, N: Naming>(
    list: &mut VecDeque<Port<L, N>>,
    alloc: Global,
    kept: &mut Record,
    session: SessionId,
)
    ensures lags { EachAlong (LagsWhereIts L.facts session) stays
        list.old.items (without_room kept.old) list.new.items (without_room kept.new) }
    ensures capacity { deque_capacity list.new ≡ deque_capacity list.old }
{
    let count = list.len();
    let mut done = 0;
    while done < count {
        let Some(mut port) = list.pop_front() else {
            unreachable!();
        };
        lag_port(&mut port, alloc, kept, session);
        put_back(list, port);
        done += 1;
    }
}

// The place of the first port of a connection.
fn place_of<L: Link, N: Naming>(list: &VecDeque<Port<L, N>>, connection: u32) -> Option<usize>
    ensures { result ≡ position (is_of connection) list.now.items }
{
    list.iter().position(|port| port.connection() == connection)
}

// The session of the port at this place, where it is logged in.
fn session_at<L: Link, N: Naming>(list: &VecDeque<Port<L, N>>, place: usize) -> Option<SessionId>
    ensures { result ≡ session_at list.now.items place }
{
    match list.get(place) {
        Some(port) => port.session(),
        None => None,
    }
}

// The first port of a connection takes a reply. Answers for what it closes, if it does.
fn answer_first<L: Link, N: Naming>(
    list: &mut VecDeque<Port<L, N>>,
    alloc: Global,
    connection: u32,
    end: ReplyEnd,
    wire: Octets,
    passes: Option<Passes<N>>,
) -> Option<Cause>
    ensures answers { AnswersFirst L.facts connection end wire passes
        list.old.items result list.new.items }
    ensures capacity { deque_capacity list.new ≡ deque_capacity list.old }
{
    match place_of(list, connection) {
        Some(place) => list[place].answered(alloc, end, wire, passes),
        None => {
            drop(wire);
            drop(passes);
            None
        }
    }
}

impl<L: Link, N: Naming> Ports<L, N> {
    // No port, with room for all.
    pub(crate) fn open(alloc: Global) -> Result<Ports<L, N>, OutOfMemory>
        ensures { IfOk result (λ ports. ports ≡ []) }
    {
        Ok(Ports {
            list: VecDeque::with_capacity(alloc, CONNECTION_LIMIT)?,
        })
    }

    pub(crate) fn is_empty(&self) -> bool
        ensures { result ≡ is_empty self.now }
    {
        self.list.is_empty()
    }

    // The session of the first port of a connection, where it is logged in.
    pub(crate) fn speaker(&self, connection: u32) -> Option<SessionId>
        ensures { result ≡ speaker_of self.now connection }
    {
        match place_of(&self.list, connection) {
            Some(place) => session_at(&self.list, place),
            None => None,
        }
    }

    // Whether a connection is the worker's next, and there is room for it and for its closing entry.
    fn is_welcome(&self, intake: Intake, connection: u32, kept: &Record) -> bool
        ensures { result ≡ (is_next intake connection && has_place self.now (without_room kept.now)) }
    {
        intake.is_next(connection) && self.list.len() < CONNECTION_LIMIT && kept.may_take_in()
    }

    // Takes a connection in, where it is the worker's next, and there is room for it and for its closing entry. Else
    // its link is shut.
    pub(crate) fn take_in(
        &mut self,
        alloc: Global,
        intake: &mut Intake,
        connection: u32,
        link: L,
        kept: &mut Record,
    )
        ensures takes { TakesOrTurns intake.old connection link self.old (without_room kept.old)
            intake.new self.new (without_room kept.new) }
        ensures same_worker { intake.new ≡ record intake.old { last = intake.new.last } }
    {
        if self.is_welcome(*intake, connection, kept) {
            intake.last = connection;
            kept.taken_in();
            self.list
                .push_back_reserved(Port::new(alloc, connection, intake.number, link));
        } else {
            drop(turned_away(link));
        }
    }

    // The first port of a connection takes a reply. Answers for what it closes, if it does.
    pub(crate) fn answered(
        &mut self,
        alloc: Global,
        connection: u32,
        end: ReplyEnd,
        wire: Octets,
        passes: Option<Passes<N>>,
    ) -> Option<Cause>
        ensures { AnswersFirst L.facts connection end wire passes
            self.old result self.new }
    {
        answer_first(&mut self.list, alloc, connection, end, wire, passes)
    }

    // Closes each open port of a session.
    pub(crate) fn lag(&mut self, alloc: Global, kept: &mut Record, session: SessionId)
        ensures { EachAlong (LagsWhereIts L.facts session) stays
            self.old (without_room kept.old) self.new (without_room kept.new) }
    {
        lag_each(&mut self.list, alloc, kept, session);
    }

    // Each port makes its step, in their order. One that is gone then is let go. Answers whether one did
    // anything, or something was heard before.
    pub(crate) fn step<G: Gate, R: Wait + Copy>(
        &mut self,
        rt: &R,
        desk: &mut DeskEnd,
        boxes: &mut Boxes<N>,
        common: &mut Common<G, N, R>,
        buf: &mut [u8],
        heard: bool,
    ) -> bool
        requires owned { All (OwnsPasses boxes.old) self.old }
        requires buffer { 0 < length buf.old }
        ensures steps { EachAlong (PortSteps L.facts N.opening boxes.old) stays
            self.old (record { common = bare common.old; desk = desk.old; worked = heard })
            self.new (record { common = bare common.new; desk = desk.new; worked = result }) }
        ensures owned { All (OwnsPasses boxes.old) self.new }
        ensures boxes { boxes.new ≡ boxes.old }
    {
        step_each(&mut self.list, rt, desk, boxes, common, buf, heard)
    }
}
