//! `mum_port`: a client that reads nothing, half a frame that comes a byte at a time, and a lag after the last
//! parcel.

ghost use Rattle.std.specs.Prelude.{◌≡◌, [], None, replicate};
ghost use Rattle.mum_port.specs.Taking.{IsPosted, IsVoiced};
ghost use Rattle.mum_published.specs.Calls.{latest};

use crate::opening::{begin_at, boxes_and_first};
use mum_base::{AccountId, Cause, Items, Octets, OutOfMemory, ReplyEnd, SessionId, Slot, Text};
use mum_control::{Control, Posted};
use mum_fields::Message;
use mum_io::{Link, PollRead, PollWrite, Tally};
use mum_msg_state::UserRemove;
use mum_outbox::{BoxPass, Desk};
use mum_parcel::{PostBox, VoiceBox};
use mum_port::{DeskItem, Passes, Port, VoiceRouter};
use mum_published::{Naming, Publisher};
use mum_rules_user::UserMessage;
use mum_session::{Asked, Command};
use mum_state::{Edit, State};
use std::alloc::Global;
use std::marker::Brand;
use std::process::Abort;
use std::sync::Wait;

// A Ping without a timestamp, whose answer has six bytes, and a PermissionQuery of the root.
const ASKS: [u8; 14] = [0, 3, 0, 0, 0, 0, 0, 20, 0, 0, 0, 2, 8, 0];

// How many bytes the answer to a PermissionQuery has here.
const ANSWER: usize = 13;

// How many bytes of half a frame come. Its length is 8,355,711: the bytes 127, 127 and 127 after a 0.
const HALF: u32 = 8_000_000;

// What a client sends.
#[derive(Clone, Copy, Debug)]
enum Sends {
    Nothing,
    /// A Ping and a PermissionQuery at each read, without end.
    Asks,
    /// A byte at each read, this many, and then the end. The first bytes are a type and a length.
    Half(u32),
}

// A link that takes nothing that is written.
#[derive(Drop)]
struct Deaf {
    sends: Sends,
    tally: Tally,
    is_shut: bool,
}

fn deaf_link(sends: Sends) -> Deaf {
    Deaf {
        sends,
        tally: Tally::new(),
        is_shut: false,
    }
}

impl Link for Deaf {
    ghost facts = { λ l. record { counts = l.tally; left = None; written = None; address = replicate 16 0; is_shut = l.is_shut } };

    fn poll_read(&mut self, buf: &mut [u8]) -> PollRead {
        match self.sends {
            Sends::Nothing => {
                self.tally.count_stall();
                PollRead::NotYet
            }
            Sends::Asks => {
                let count = buf.len().min(ASKS.len());
                buf[..count].copy_from_slice(&ASKS[..count]);
                PollRead::Got(count)
            }
            Sends::Half(0) => {
                self.tally.count_end();
                PollRead::End
            }
            Sends::Half(left) => {
                self.sends = Sends::Half(left - 1);
                buf[0] = if left > HALF - 3 { 0 } else { 127 };
                PollRead::Got(1)
            }
        }
    }

    fn poll_write(&mut self, _piece: &[u8]) -> PollWrite {
        self.tally.count_stall();
        PollWrite::NotYet
    }

    fn shut(&mut self) {
        self.is_shut = true;
    }

    fn address(&self) -> [u8; 16] {
        [0; 16]
    }
}

// Packets that are dropped.
#[derive(Drop)]
pub(crate) struct Nowhere;

impl VoiceRouter for Nowhere {
    ghost use Rattle.std.specs.Prelude.{true, ⊤};

    ghost has_room = { λ _. true };

    ghost without_room = { λ r. r };

    ghost routed = { λ _ _ _ _ _. ⊤ };

    fn reserve(&mut self) -> Result<(), OutOfMemory> {
        Ok(())
    }

    fn route(&mut self, _connection: u32, _speaker: SessionId, packet: Octets) {
        drop(packet);
    }
}

// What became of a port.
#[derive(Clone, Copy, Debug, PartialEq)]
struct Seen {
    /// How many steps worked.
    worked: u32,
    /// How many commands came to the desk. Each was answered.
    asked: u32,
    /// For what the port closed.
    closed: Option<Cause>,
}

// Takes an item from the desk, and answers it where it is a command. How many there were.
fn answer<N: Naming, R: Abort + Wait>(
    rt: &R,
    alloc: Global,
    port: &mut Port<Deaf, N>,
    desk: &Desk<DeskItem>,
    pass: &mut BoxPass<DeskItem>,
) -> u32
    requires desk { pass.old.queue ≡ desk.now.queue }
    requires posts { IsPosted [] port.old.passes }
    requires voices { IsVoiced [] port.old.passes }
    ensures desk { pass.new.queue ≡ desk.now.queue }
    ensures posts { IsPosted [] port.new.passes }
    ensures voices { IsVoiced [] port.new.passes }
{
    let Some(item) = desk.take_as(rt, pass) else {
        return 0;
    };
    let is_command = matches!(item, DeskItem::Command(_));
    drop(item);
    if !is_command {
        return 0;
    }
    let wire = vec![in alloc; 0; ANSWER].expect(rt, "memory");
    port.answered(alloc, ReplyEnd::Decided, Octets::from_vec(wire), None);
    1
}

// Gives a port, whose slot has no boxes, its steps until one does nothing.
fn run<N: Naming, R: Abort + Wait>(
    rt: &R,
    alloc: Global,
    port: &mut Port<Deaf, N>,
    desk: &Desk<DeskItem>,
    pass: &mut BoxPass<DeskItem>,
) -> Seen
    requires desk { pass.old.queue ≡ desk.now.queue }
    requires posts { IsPosted [] port.old.passes }
    requires voices { IsVoiced [] port.old.passes }
{
    let mut router = Nowhere;
    let mut buf = [0; 64];
    let mut seen = Seen {
        worked: 0,
        asked: 0,
        closed: None,
    };
    for count in 0..u32::MAX {
        let (posts, voices): ([PostBox<N>; 0], [VoiceBox<N>; 0]) = ([], []);
        let step = port.step(
            rt,
            alloc,
            desk,
            pass,
            &posts,
            &voices,
            &mut router,
            &mut buf,
        );
        seen.worked = count;
        seen.closed = seen.closed.or(step.closed);
        if !step.worked {
            break;
        }
        seen.asked = seen
            .asked
            .saturating_add(answer(rt, alloc, port, desk, pass));
    }
    seen
}

// What becomes of a port whose client is logged in, and sends this. Whether nothing is left of it.
fn seen_named<N: Naming, R: Abort + Wait>(rt: &R, alloc: Global, sends: Sends) -> (Seen, bool) {
    let mut desk = Desk::<DeskItem>::new(alloc).expect(rt, "memory");
    let mut pass = desk.pass();
    let mut port = Port::<Deaf, N>::new(alloc, 1, 0, deaf_link(sends));
    let joined = ReplyEnd::Joined(SessionId(5), Slot(0));
    let nothing = Octets::from_vec(Vec::new(alloc));
    port.answered(alloc, joined, nothing, None);
    let seen = run(rt, alloc, &mut port, &desk, &mut pass);
    let is_gone = port.is_gone();
    drop(port);
    (seen, is_gone)
}

// The same, of no server.
fn seen_of<R: Abort + Wait>(rt: &R, alloc: Global, sends: Sends) -> (Seen, bool) {
    seen_named::<Brand, R>(rt, alloc, sends)
}

#[test]
fn a_client_that_reads_nothing_is_answered_up_to_a_bound(rt: HostRuntime) {
    let seen = seen_of(&rt, rt.alloc(), Sends::Asks);
    // 3,449 times two answers are 65,531 bytes, and one more Ping is handled; each time a Ping and a query are
    // handled, and a command is put
    let expected = Seen {
        worked: 3 * 3449 + 1,
        asked: 3449,
        closed: None,
    };
    assert_eq!(rt; seen, (expected, false));
}

#[test]
fn half_a_frame_may_come_a_byte_at_a_time(rt: HostRuntime) {
    let seen = seen_of(&rt, rt.alloc(), Sends::Half(HALF));
    // a step for each byte, one for the end, and two for what is left to say
    let expected = Seen {
        worked: HALF + 3,
        asked: 1,
        closed: Some(Cause::End),
    };
    assert_eq!(rt; seen, (expected, true));
}

// Makes an edit, which fits.
fn make(rt: &impl Abort, state: &mut State, edit: &Edit) {
    assert!(rt; state.fits(edit), "the edit fits");
    state.apply(edit).expect(rt, "memory");
}

// SuperUser's account.
fn super_user(rt: &impl Abort, alloc: Global) -> Edit {
    Edit::AddAccount {
        account: AccountId::SUPER_USER,
        name: Text::of(alloc, "SuperUser").expect(rt, "memory"),
        digest: [0; 32],
    }
}

// A session of this number, slot and name, and its account.
fn join(
    rt: &impl Abort,
    alloc: Global,
    at: (SessionId, Slot),
    name: &str,
    account: Option<AccountId>,
) -> Edit {
    Edit::Join {
        session: at.0,
        slot: at.1,
        name: Text::of(alloc, name).expect(rt, "memory"),
        account,
        tokens: Items::new(alloc),
    }
}

// A state with a session in the first slot, and SuperUser in the second.
fn two_sessions(rt: &impl Abort, alloc: Global) -> State {
    let first = (SessionId(1), Slot(0));
    let second = (SessionId(2), Slot(1));
    let account = Some(AccountId::SUPER_USER);
    let mut state = State::empty(alloc).expect(rt, "memory");
    make(rt, &mut state, &super_user(rt, alloc));
    make(rt, &mut state, &join(rt, alloc, first, "anna", None));
    make(
        rt,
        &mut state,
        &join(rt, alloc, second, "SuperUser", account),
    );
    state
}

// A command by which SuperUser kicks the first session.
fn kick(alloc: Global) -> Command {
    let mut message = UserRemove::new(alloc);
    message.session = Some(1);
    Command {
        connection: 8,
        worker: 0,
        session: Some(SessionId(2)),
        what: Asked::User(UserMessage::Kick(message)),
    }
}

// Kicks the first session, and posts all that reports it.
fn post_last<N: Naming, R: Wait>(rt: &R, alloc: Global, control: &mut Control<'_, N>) {
    drop(control.command(rt, kick(alloc)));
    for _notice in 0..8 {
        if control.post_next(rt) == Posted::None {
            break;
        }
    }
}

// A port takes the last parcel of its session, which its link does not take, and then lags twice. Whether the step
// worked, and for what it closed: in the step, and at the lags.
fn lag_behind<N: Naming, R: Abort + Wait>(
    rt: &R,
    alloc: Global,
    post: PostBox<N>,
) -> (bool, [Option<Cause>; 3]) {
    let mut post = post;
    let mut voice = VoiceBox::<N>::new(alloc).expect(rt, "memory");
    let passes = Passes::new(Slot(0), post.pass(), voice.pass());
    let mut desk = Desk::<DeskItem>::new(alloc).expect(rt, "memory");
    let mut pass = desk.pass();
    let mut port = Port::new(alloc, 1, 0, deaf_link(Sends::Nothing));
    let joined = ReplyEnd::Joined(SessionId(1), Slot(0));
    let nothing = Octets::from_vec(Vec::new(alloc));
    port.answered(alloc, joined, nothing, Some(passes));
    let mut buf = [0; 64];
    let step = port.step(
        rt,
        alloc,
        &desk,
        &mut pass,
        &[post],
        &[voice],
        &mut Nowhere,
        &mut buf,
    );
    let closed = [step.closed, port.lag(alloc), port.lag(alloc)];
    drop(port);
    (step.worked, closed)
}

// The same, of the session that a control owner of this publisher kicks.
fn kick_and_lag<N: Naming, R: Abort + Wait>(
    rt: &R,
    alloc: Global,
    publisher: &mut Publisher,
    state: State,
) -> (bool, [Option<Cause>; 3])
    requires opening { publisher.old.opening ≡ N.opening }
    requires state { state ≡ latest publisher.old }
    requires pending { publisher.old.pending ≡ [] }
{
    let (boxes, own) = boxes_and_first(rt, alloc);
    let mut control = Control::<N>::open(alloc, state, publisher, boxes).expect(rt, "memory");
    post_last(rt, alloc, &mut control);
    drop(control);
    lag_behind(rt, alloc, own)
}

// The same, with the opening of this publisher.
fn kick_at<R: Abort + Wait>(
    rt: &R,
    alloc: Global,
    publisher: &mut Publisher,
    state: State,
) -> (bool, [Option<Cause>; 3])
    requires state { state ≡ latest publisher.old }
    requires pending { publisher.old.pending ≡ [] }
{
    kick_and_lag::<Brand, R>(rt, alloc, publisher, state)
}

#[test]
fn a_lag_closes_a_port_that_keeps_its_last_parcel(rt: HostRuntime) {
    let alloc: Global = rt.alloc();
    let (mut publisher, state) = begin_at(&rt, alloc, two_sessions(&rt, alloc));
    let seen = kick_at(&rt, alloc, &mut publisher, state);
    publisher.finish(&rt);
    assert_eq!(rt; seen, (true, [None, Some(Cause::Lagged), None]));
}
