//! A connection of a worker.

ghost use Rattle.std.specs.Prelude.{◌≡◌, ◌<◌, ◌==◌, ◌↔◌, true, IsTrue, [], length};
ghost use Rattle.mum_port.specs.Did.{PortDid};
ghost use Rattle.mum_port.specs.Facts.{MayRead, PortFacts, may_handle, new_port, next_word, taking_session};
ghost use Rattle.mum_port.specs.Passes.{HasTaken, told_by};
ghost use Rattle.mum_port.specs.Stage.{is_closed, is_gone};
ghost use Rattle.mum_port.specs.Replies.{Answers, Lags, passes_after};
ghost use Rattle.mum_port.specs.Steps.{ClosesFor, CollectsPost, DrainsVoice, Handles, PortChain, Puts, Reads, Settles, TakesParcels, TakesVoiceFirst, Writes, step_of};
ghost use Rattle.mum_port.specs.Taking.{IsPosted, IsVoiced};
ghost use Rattle.mum_port.specs.Turn.{PortTurn};
ghost use Rattle.mum_session.specs.Machine.{session_of};

use crate::client::Client;
use crate::desk::{put_waiting, put_word};
use crate::inbound::{handle, read};
use crate::item::{DeskItem, Request};
use crate::outbound::{Taking, collect, drain, write};
use crate::outgoing::Outgoing;
use crate::passes::Passes;
use crate::router::VoiceRouter;
use crate::stage::{Farewell, Stage, Went, closed};
use mum_base::{Cause, Octets, ReplyEnd, SessionId};
use mum_frame::{Framer, Kept};
use mum_io::Link;
use mum_outbox::{BoxPass, Desk};
use mum_parcel::{PostBox, VoiceBox};
use mum_published::{Naming, Note};
use std::alloc::Global;
use std::marker::Model;
use std::mem::replace;
use std::sync::Wait;

/// A port that keeps more unwritten bytes than these reads and handles nothing more. So no echo makes it keep
/// more than these and one frame.
pub const UNWRITTEN_LIMIT: usize = 65_536;

/// What a step of a port came to.
#[derive(Clone, Copy, Debug)]
pub struct Step {
    /// Whether it did anything.
    pub worked: bool,
    /// How many parcels it took for other sessions.
    pub stale: u32,
    /// For what it closed in this step, if it did.
    pub closed: Option<Cause>,
}

/// A connection that was taken in: its link, the machine of its frames, and what it keeps of both ways.
#[derive(Drop)]
pub struct Port<L: Link, N: Naming> {
    link: L,
    client: Client,
    framer: Framer,
    waiting: Option<DeskItem>,
    out: Outgoing,
    passes: Option<Passes<N>>,
    /// What it took last was a notice: its voice box comes before its post box.
    voice_first: bool,
    stage: Stage,
}

impl<L: Link, N: Naming> Model for Port<L, N> {
    ghost use Rattle.mum_port.specs.Did.{PortDid};
    ghost use Rattle.mum_port.specs.Facts.{PortFacts};

    ghost Value = { PortFacts L };

    ghost view = { λ p. record {
      link = p.link;
      machine = p.client;
      framer = p.framer;
      waiting = p.waiting;
      out = p.out;
      passes = p.passes;
      voice_first = p.voice_first;
      stage = p.stage;
    } };
}

impl<L: Link, N: Naming> Port<L, N> {
    /// A connection that was taken in, by its number and that of its worker. It takes no memory.
    pub fn new(alloc: Global, connection: u32, worker: u8, link: L) -> Port<L, N>
        ensures { result ≡ new_port connection worker link }
    {
        Port {
            link,
            client: Client::new(connection, worker),
            framer: Framer::new(alloc),
            waiting: None,
            out: Outgoing::new(alloc),
            passes: None,
            voice_first: false,
            stage: Stage::Live,
        }
    }

    /// The number of the connection.
    pub fn connection(&self) -> u32
        ensures { result ≡ self.now.machine.connection }
    {
        self.client.connection()
    }

    /// The session of the connection, where it is logged in.
    pub fn session(&self) -> Option<SessionId>
        ensures { result ≡ session_of self.now.machine.stage }
    {
        self.client.session()
    }

    /// Whether all that it owed the desk is there. It is let go then.
    pub fn is_gone(&self) -> bool
        ensures { result ≡ is_gone self.now.stage }
    {
        self.stage.is_gone()
    }

    // Whether it closed, in this step or before.
    fn is_closed(&self) -> bool
        ensures { result ≡ is_closed self.now.stage }
    {
        self.stage.is_closed()
    }

    // It might handle a frame.
    fn may_handle(&self) -> bool
        ensures { result ≡ may_handle self.now }
    {
        self.stage.is_live()
            && (!self.client.awaits()
                && (self.waiting.is_none() && self.out.length() <= UNWRITTEN_LIMIT))
    }

    // It might handle a frame, and keeps none.
    fn may_read(&self) -> bool
        ensures { IsTrue result ↔ MayRead self.now }
    {
        self.may_handle() && matches!(self.framer.kept(), Kept::Nothing)
    }

    // What it owes the desk next, once it is closed.
    fn next_word(&self) -> Option<DeskItem>
        ensures { result ≡ next_word self.now.machine self.now.stage }
    {
        match self.stage {
            Stage::Closed {
                farewell: Farewell::Leave,
                ..
            } => Some(DeskItem::Command(Request::new(self.client.leave()))),
            Stage::Closed {
                farewell: Farewell::LastWord,
                ..
            } => Some(DeskItem::Closed {
                connection: self.client.connection(),
            }),
            _ => None,
        }
    }

    // Puts what waits on the desk, or the next word of the farewell.
    fn put<R: Wait>(&mut self, rt: &R, desk: &Desk<DeskItem>, pass: &mut BoxPass<DeskItem>) -> bool
        requires { pass.old.queue ≡ desk.now.queue }
        ensures { Puts self.old pass.old result self.new pass.new }
    {
        if self.waiting.is_some() {
            return put_waiting(rt, desk, pass, &mut self.waiting);
        }
        match self.next_word() {
            Some(word) => put_word(rt, desk, pass, word, &mut self.stage),
            None => false,
        }
    }

    // Reads, where it may.
    fn read(&mut self, buf: &mut [u8]) -> Went
        requires { 0 < length buf.old }
        ensures { Reads L.facts self.old result self.new }
    {
        if !self.may_read() {
            return Went::NotDue;
        }
        let went = read(&mut self.link, &mut self.framer, buf);
        self.stage = self.stage.by(went);
        went
    }

    // Handles the first frame that it keeps, where it may.
    fn handle<V: VoiceRouter>(&mut self, alloc: Global, router: &mut V) -> Went
        ensures { Handles V.routed self.old (V.without_room router.old) result self.new
            (V.without_room router.new) }
    {
        if !self.may_handle() {
            return Went::NotDue;
        }
        let went = handle(
            alloc,
            &mut self.client,
            &mut self.framer,
            &mut self.waiting,
            &mut self.out,
            router,
        );
        self.stage = self.stage.by(went);
        went
    }

    // Takes from its post box, where it may.
    fn collect<R: Wait>(&mut self, rt: &R, posts: &[PostBox<N>]) -> Taking
        requires { IsPosted posts.now self.old.passes }
        ensures { CollectsPost posts.now self.old result self.new }
    {
        let Some(session) = self.taking_session() else {
            return Taking::NotDue;
        };
        let took = collect(
            rt,
            posts,
            session,
            &mut self.passes,
            &mut self.out,
            &mut self.stage,
        );
        self.voice_first = took.took() || self.voice_first;
        took
    }

    // Takes from its voice box, where it may.
    fn drain<R: Wait>(&mut self, rt: &R, voices: &[VoiceBox<N>]) -> Taking
        requires { IsVoiced voices.now self.old.passes }
        ensures { DrainsVoice voices.now self.old result self.new }
    {
        let Some(session) = self.taking_session() else {
            return Taking::NotDue;
        };
        let took = drain(rt, voices, session, &mut self.passes, &mut self.out);
        self.voice_first = !took.took() && self.voice_first;
        took
    }

    // Takes from its voice box, and where that gave nothing from its post box.
    fn take_voice_first<R: Wait>(
        &mut self,
        rt: &R,
        posts: &[PostBox<N>],
        voices: &[VoiceBox<N>],
    ) -> (Taking, Taking)
        requires turn { self.old.voice_first ≡ true }
        requires posts { IsPosted posts.now self.old.passes }
        requires voices { IsVoiced voices.now self.old.passes }
        ensures { TakesVoiceFirst posts.now voices.now self.old result.0 result.1 self.new }
    {
        let heard = self.drain(rt, voices);
        if heard.took() {
            return (Taking::NotDue, heard);
        }
        let posted = self.collect(rt, posts);
        (posted, heard)
    }

    // Takes from its boxes, where it may: by turns, so that neither waits for the other. What its post box
    // gave comes first in the answer.
    fn take<R: Wait>(
        &mut self,
        rt: &R,
        posts: &[PostBox<N>],
        voices: &[VoiceBox<N>],
    ) -> (Taking, Taking)
        requires posts { IsPosted posts.now self.old.passes }
        requires voices { IsVoiced voices.now self.old.passes }
        ensures { TakesParcels posts.now voices.now self.old result.0 result.1 self.new }
    {
        if self.voice_first {
            return self.take_voice_first(rt, posts, voices);
        }
        let posted = self.collect(rt, posts);
        let heard = self.drain(rt, voices);
        (posted, heard)
    }

    /// The note of the longest list of edits that came with a parcel, of those that it took for its session. What it
    /// took is true of beginnings of that list.
    pub fn told(&self) -> Option<Note>
        ensures note { result ≡ told_by self.now.passes }
        ensures taken { HasTaken N.opening self.now.passes }
    {
        match &self.passes {
            Some(passes) => passes.told(),
            None => None,
        }
    }

    // Its session, where it may look at its boxes.
    fn taking_session(&self) -> Option<SessionId>
        ensures { result ≡ taking_session self.now }
    {
        if self.stage.is_live() && self.out.is_empty() {
            self.client.session()
        } else {
            None
        }
    }

    // Writes, where it may.
    fn write(&mut self) -> Went
        ensures { Writes L.facts self.old result self.new }
    {
        if self.stage.is_closed() || self.out.is_empty() {
            return Went::NotDue;
        }
        let went = write(&mut self.link, &mut self.out);
        self.stage = self.stage.by(went);
        went
    }

    // Closes for a cause: shuts its link, and gives the memory of what it keeps back.
    fn close(&mut self, alloc: Global, cause: Cause)
        ensures { ClosesFor L.facts cause self.old self.new }
    {
        self.stage = closed(cause);
        self.link.shut();
        drop(replace(&mut self.framer, Framer::new(alloc)));
        drop(replace(&mut self.out, Outgoing::new(alloc)));
    }

    // Closes a port that ends and has written all, or that met a cause in this step.
    fn settle(&mut self, alloc: Global, was_closed: bool) -> Option<Cause>
        ensures { Settles L.facts was_closed self.old result self.new }
    {
        if was_closed {
            return None;
        }
        match self.stage.settled(self.out.is_empty()) {
            Stage::Closed { cause, .. } => {
                self.close(alloc, cause);
                Some(cause)
            }
            _ => None,
        }
    }

    /// The control owner answered: how the wait ends, the bytes that the connection is sent, and with a
    /// session its passes, where there are boxes of its slot. Answers for what the port closes, if it does:
    /// for `Memory`, where there is none for the bytes. A closed port drops all.
    pub fn answered(
        &mut self,
        alloc: Global,
        end: ReplyEnd,
        wire: Octets,
        passes: Option<Passes<N>>,
    ) -> Option<Cause>
        ensures { Answers L.facts end wire passes self.old result self.new }
    {
        if self.stage.is_closed() {
            drop(wire);
            drop(passes);
            return None;
        }
        self.client.answered(end);
        if self.out.push(wire).is_err() {
            drop(passes);
            self.close(alloc, Cause::Memory);
            return Some(Cause::Memory);
        }
        take_passes(&mut self.passes, end, passes);
        self.stage = self.stage.answered(end);
        None
    }

    /// A box of its session was full, or a login waits for its slot: it closes, unless it is closed already,
    /// and drops what it did not write. Answers for what it closes, if it does.
    pub fn lag(&mut self, alloc: Global) -> Option<Cause>
        ensures { Lags L.facts self.old result self.new }
    {
        if self.stage.is_closed() {
            return None;
        }
        self.close(alloc, Cause::Lagged);
        Some(Cause::Lagged)
    }

    /// One step: it puts on the desk what waits, or the next word of its farewell; reads; handles a frame that
    /// it keeps; takes from the post box and from the voice box of its slot; writes; and closes, where it is to.
    /// It does each at most once, and where it may. It looks at its boxes only where it keeps nothing to write:
    /// after a notice at its voice box first, so that voice does not wait for notices, nor they for voice.
    pub fn step<V: VoiceRouter, R: Wait>(
        &mut self,
        rt: &R,
        alloc: Global,
        desk: &Desk<DeskItem>,
        pass: &mut BoxPass<DeskItem>,
        posts: &[PostBox<N>],
        voices: &[VoiceBox<N>],
        router: &mut V,
        buf: &mut [u8],
    ) -> Step
        requires desk { pass.old.queue ≡ desk.now.queue }
        requires posts { IsPosted posts.now self.old.passes }
        requires voices { IsVoiced voices.now self.old.passes }
        requires buffer { 0 < length buf.old }
        ensures chain { PortChain L.facts V.routed posts.now voices.now
            self.old pass.old (V.without_room router.old) result self.new pass.new
            (V.without_room router.new) }
        ensures turn { (did : PortDid) × PortTurn L.facts V.routed posts.now voices.now
            self.old pass.old (V.without_room router.old) did result self.new pass.new
            (V.without_room router.new) }
        ensures desk { pass.new.queue ≡ desk.now.queue }
        ensures posts { IsPosted posts.now self.new.passes }
        ensures voices { IsVoiced voices.now self.new.passes }
    {
        let was_closed = self.is_closed();
        let put = self.put(rt, desk, pass);
        let read = self.read(buf);
        let handled = self.handle(alloc, router);
        let (posted, heard) = self.take(rt, posts, voices);
        let wrote = self.write();
        let closed = self.settle(alloc, was_closed);
        Step::of(put, [read, handled, wrote], posted, heard, closed)
    }
}

// The passes after a reply: a login that was accepted gives some, or none where its slot has no boxes.
fn take_passes<N: Naming>(passes: &mut Option<Passes<N>>, end: ReplyEnd, given: Option<Passes<N>>)
    ensures { passes.new ≡ passes_after end given passes.old }
{
    match end {
        ReplyEnd::Joined(_, _) => drop(replace(passes, given)),
        ReplyEnd::Decided => drop(given),
        ReplyEnd::Rejected => drop(given),
    }
}

impl Step {
    // What the parts of a step came to.
    fn of(put: bool, went: [Went; 3], posted: Taking, heard: Taking, closed: Option<Cause>) -> Step
        ensures { result ≡ step_of put went posted heard closed }
    {
        let part = went.iter().any(|part| part.worked());
        let post = posted.took();
        let voice = heard.took();
        let close = closed.is_some();
        Step {
            worked: put || part || post || voice || close,
            stale: posted.stale() + heard.stale(),
            closed,
        }
    }
}
