//! `mum_port`: notices and voice that wait together go out by turns.

ghost use Rattle.std.specs.Prelude.{◌≡◌, ◌<◌, None, [], replicate};
ghost use Rattle.mum_port.specs.Taking.{IsPosted, IsVoiced};
ghost use Rattle.mum_published.specs.Calls.{IsFresh, latest};
ghost use Rattle.mum_state.specs.Proper.{IsProper};
ghost use Rattle.mum_voice.specs.Packet.{IsPacket, plain_parts};

use crate::control::{login, self_mute};
use crate::opening::{begin_with, boxes_and_first};
use crate::port::Nowhere;
use mum_base::{Octets, ReplyEnd, SessionId, Slot, Steps};
use mum_control::{Control, Posted};
use mum_io::{Link, PollRead, PollWrite, Tally};
use mum_outbox::{BoxPass, Desk};
use mum_parcel::{PostBox, VoiceBox};
use mum_port::{DeskItem, Passes, Port};
use mum_published::{Naming, Pass, Publisher};
use mum_router::Router;
use mum_state::State;
use mum_voice::Packet;
use std::alloc::Global;
use std::marker::Brand;
use std::process::Abort;
use std::sync::atomic::{AtomicU64, Ordering};
use std::sync::ledger::{Blank, Ledger};
use std::sync::{Arc, Wait};

// Who is sent all that waits here: the first who logs in.
const SESSION: SessionId = SessionId(1);

// Opus audio of three bytes, which comes back to who speaks. Its copy goes out in a frame of type 1; a notice of a mute is
// of type 9.
const PACKET: &[u8] = b"\x9f\x01\x03\xaa\xbb\xcc";

// A link that takes all that is written, and writes the type of each piece as a digit into a word.
#[derive(Drop)]
struct Eager {
    types: Arc<AtomicU64>,
    tally: Tally,
    is_shut: bool,
}

impl Link for Eager {
    ghost facts = { λ l. record { counts = l.tally; left = None; written = None; address = replicate 16 0; is_shut = l.is_shut } };

    fn poll_read(&mut self, _buf: &mut [u8]) -> PollRead {
        self.tally.count_stall();
        PollRead::NotYet
    }

    fn poll_write(&mut self, piece: &[u8]) -> PollWrite {
        let digit = match piece.get(1) {
            Some(kind) => u64::from(*kind),
            None => 0,
        };
        let types = self.types.load(Ordering::SeqCst);
        let types = types.wrapping_mul(10).wrapping_add(digit);
        self.types.store(types, Ordering::SeqCst);
        PollWrite::Took(piece.len())
    }

    fn shut(&mut self) {
        self.is_shut = true;
    }

    fn address(&self) -> [u8; 16] {
        [0; 16]
    }
}

// The boxes of a session.
#[derive(Drop)]
struct Boxes<N: Naming> {
    post: PostBox<N>,
    voice: VoiceBox<N>,
}

// How many notices and packets wait, and how many steps the port is given.
#[derive(Clone, Copy)]
struct Plan {
    notices: u32,
    packets: u32,
    steps: u32,
}

// The session logs in. The notices of that are taken out of its box.
fn log_in<N: Naming, R: Abort + Wait>(rt: &R, alloc: Global, control: &mut Control<'_, N>) {
    drop(control.command(rt, login(rt, alloc)));
    for _notice in rt.forever() {
        if control.post_next(rt) == Posted::None {
            break;
        }
    }
    control.empty_post(rt, SESSION);
}

// Posts n notices, each of a mute.
fn post_mutes<N: Naming, R: Wait>(rt: &R, alloc: Global, control: &mut Control<'_, N>, count: u32) {
    for notice in 0..count {
        drop(control.command(rt, self_mute(alloc, notice % 2 == 0)));
        let _posted = control.post_next(rt);
    }
}

// Routes n packets, with a counter of its own.
fn route_packets<N: Naming, R: Wait, L: Ledger>(
    blank: Blank,
    rt: &R,
    router: &mut Router<N>,
    packet: &Packet,
    count: u32,
)
    requires name { blank.name ≡ L.name }
    requires parts { blank.parts ≡ L.parts }
    requires some { 0 < blank.parts }
    requires packet { IsPacket (plain_parts packet.now) }
{
    let mut steps = Steps::<L>::new(blank);
    for _packet in 0..count {
        let _routed = router.route(rt, SESSION, packet, &mut steps);
    }
}

// The boxes of a session, in which so much waits. It is muted once its packets are routed.
fn boxes_with<N: Naming, R: Abort + Wait>(
    rt: &R,
    alloc: Global,
    publisher: &mut Publisher,
    pass: Pass,
    state: State,
    plan: Plan,
) -> Boxes<N>
    requires opening { publisher.old.opening ≡ N.opening }
    requires proper { IsProper N.opening.state }
    requires state { state ≡ latest publisher.old }
    requires pending { publisher.old.pending ≡ [] }
    requires pass { IsFresh N.opening pass }
{
    let (posts, post) = boxes_and_first(rt, alloc);
    let (voices, voice) = boxes_and_first(rt, alloc);
    let mut router = Router::<N>::open(alloc, pass, voices).expect(rt, "memory");
    let mut control = Control::<N>::open(alloc, state, publisher, posts).expect(rt, "memory");
    let packet = Packet::parse(PACKET).expect(rt, "a packet");
    log_in(rt, alloc, &mut control);
    route_packets::<N, R, Brand>(Blank::new(1), rt, &mut router, &packet, plan.packets);
    post_mutes(rt, alloc, &mut control, plan.notices);
    drop(control);
    drop(router);
    Boxes { post, voice }
}

// Gives a port n steps.
fn step_on<N: Naming, R: Abort + Wait>(
    rt: &R,
    alloc: Global,
    port: &mut Port<Eager, N>,
    posts: &[PostBox<N>],
    voices: &[VoiceBox<N>],
    steps: u32,
)
    requires posts { IsPosted posts.now port.old.passes }
    requires voices { IsVoiced voices.now port.old.passes }
{
    let mut desk = Desk::<DeskItem>::new(alloc).expect(rt, "memory");
    let mut pass = desk.pass();
    let mut buf = [0; 64];
    for _step in 0..steps {
        port.step(
            rt,
            alloc,
            &desk,
            &mut pass,
            posts,
            voices,
            &mut Nowhere,
            &mut buf,
        );
    }
}

// The same of a port of this link, whose session has these boxes.
fn step_joined<N: Naming, R: Abort + Wait>(
    rt: &R,
    alloc: Global,
    link: Eager,
    boxes: Boxes<N>,
    steps: u32,
) {
    let mut post = boxes.post;
    let mut voice = boxes.voice;
    let passes = Passes::new(Slot(0), post.pass(), voice.pass());
    let mut port = Port::new(alloc, 1, 0, link);
    let joined = ReplyEnd::Joined(SESSION, Slot(0));
    let nothing = Octets::from_vec(Vec::new(alloc));
    port.answered(alloc, joined, nothing, Some(passes));
    step_on(rt, alloc, &mut port, &[post], &[voice], steps);
    drop(port);
}

// The types of the frames, in order, that a port writes.
fn types_named<N: Naming, R: Abort + Wait>(
    rt: &R,
    alloc: Global,
    publisher: &mut Publisher,
    pass: Pass,
    state: State,
    plan: Plan,
) -> u64
    requires opening { publisher.old.opening ≡ N.opening }
    requires proper { IsProper N.opening.state }
    requires state { state ≡ latest publisher.old }
    requires pending { publisher.old.pending ≡ [] }
    requires pass { IsFresh N.opening pass }
{
    let types = Arc::new(alloc, AtomicU64::new(0)).expect(rt, "memory");
    let link = Eager {
        types: types.clone().expect(rt, "memory"),
        tally: Tally::new(),
        is_shut: false,
    };
    let boxes = boxes_with::<N, R>(rt, alloc, publisher, pass, state, plan);
    step_joined(rt, alloc, link, boxes, plan.steps);
    types.load(Ordering::SeqCst)
}

// The same, with the opening of this publisher.
fn types_at<R: Abort + Wait>(
    rt: &R,
    alloc: Global,
    publisher: &mut Publisher,
    pass: Pass,
    state: State,
    plan: Plan,
) -> u64
    requires proper { IsProper publisher.old.opening.state }
    requires state { state ≡ latest publisher.old }
    requires pending { publisher.old.pending ≡ [] }
    requires pass { IsFresh publisher.old.opening pass }
{
    types_named::<Brand, R>(rt, alloc, publisher, pass, state, plan)
}

// The same of a server that begins, where n notices and packets wait.
fn types_of<R: Abort + Wait>(rt: &R, alloc: Global, waiting: (u32, u32), steps: u32) -> u64 {
    let (notices, packets) = waiting;
    let plan = Plan {
        notices,
        packets,
        steps,
    };
    let twin = State::empty(alloc).expect(rt, "memory");
    let (mut publisher, mut passes, state) = begin_with(rt, alloc, twin, 1);
    let pass = passes.pop().expect(rt, "a pass");
    drop(passes);
    let types = types_at(rt, alloc, &mut publisher, pass, state, plan);
    publisher.finish(rt);
    types
}

#[test]
fn notices_and_voice_go_out_by_turns(rt: HostRuntime) {
    let alloc: Global = rt.alloc();
    // a frame at each step, a notice first; what is alone goes on alone
    assert_eq!(rt; types_of(&rt, alloc, (2, 4), 6), 919_111);
    // nothing is written twice
    assert_eq!(rt; types_of(&rt, alloc, (4, 2), 9), 919_199);
}
