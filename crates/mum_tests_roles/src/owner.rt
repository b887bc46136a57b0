//! `mum_owner`: the journal of an owner to whom a client logs in, mutes itself, is denied a channel and leaves.

ghost use Rattle.std.specs.Prelude.{◌≡◌, [], false};
ghost use Rattle.mum_published.specs.Calls.{appended, latest};
ghost use Rattle.mum_record.specs.Journal.{Each, IsWritableControl};

use crate::ends::{Ends, queues};
use crate::opening::{begin, boxes};
use mum_base::{Items, Octets, OutOfMemory};
use mum_control::Control;
use mum_frame::{Frame, whole_frame};
use mum_io::{Clock, Door, DoorEvent, LinkEvent, MemClock, MemDoor, MemLink};
use mum_owner::{Owner, OwnerEnd, Serving};
use mum_port::{DeskItem, Request};
use mum_published::{Naming, Publisher};
use mum_record::{ControlEntry, Journal, write_journal};
use mum_rules_user::UserMessage;
use mum_session::{Action, Asked, Command, Session};
use mum_state::State;
use std::alloc::Global;
use std::marker::Brand;
use std::mem::drop;
use std::process::Abort;
use std::sync::Wait;

// What the client sends: its version, 1.5.0; a login, with the fields in another order and one that is not read; a
// mute of itself, after a field that it takes back; and a channel that it may not make.
const SENT: [&[u8]; 4] = [
    b"\x00\x00\x00\x00\x00\x04\x08\x80\x8a\x04",
    b"\x00\x02\x00\x00\x00\x09\x28\x01\x48\x07\x0a\x03ann",
    b"\x00\x09\x00\x00\x00\x04\x48\x00\x48\x01",
    b"\x00\x07\x00\x00\x00\x05\x1a\x01x\x10\x00",
];

// Each command as this server writes it, and what was decided of it.
const JOURNAL: &str = "journal 1
workers 1
config -
c 1 66816 0002000000070a03616e6e2801 accepted 1
c 1 - 0009000000024801 accepted 2
c 1 - 00070000000510001a0178 lacks 64 0
c 1 - leave accepted 3
worker 0
end
";

// The request of a frame, if it asks for a command.
fn request_of(
    alloc: Global,
    session: &mut Session,
    frame: Frame,
) -> Result<Option<Request>, OutOfMemory>
    requires { session.old.awaits ≡ false }
{
    match session.frame(alloc, frame)? {
        Action::Ask(command) => Ok(Some(Request::new(command))),
        _ => Ok(None),
    }
}

// The port of the connection, and the queues between its worker and the owner.
#[derive(Drop)]
pub(crate) struct Peer<L: Drop, N: Naming> {
    session: Session,
    ends: Ends<L, N>,
}

impl<L: Drop, N: Naming> Peer<L, N> {
    // The port of connection 1, of worker 0, at these ends.
    pub(crate) fn new(ends: Ends<L, N>) -> Peer<L, N> {
        Peer {
            session: Session::new(1, 0),
            ends,
        }
    }

    // Takes what the owner put into the bell.
    fn hear<R: Wait>(&mut self, rt: &R) {
        if let Some(reply) = self.ends.reply(rt) {
            self.session.answered(reply.end);
        }
    }

    // Puts the command of a frame on the desk, if it is one.
    fn send<R: Abort + Wait>(&mut self, rt: &R, alloc: Global, bytes: &[u8]) {
        assert!(rt;
            !self.session.awaits_reply(),
            "the last command is answered"
        );
        let view = whole_frame(bytes).expect(rt, "a frame");
        let frame = view.to_frame(alloc).expect(rt, "memory");
        let asked = request_of(alloc, &mut self.session, frame).expect(rt, "memory");
        if let Some(request) = asked {
            self.ends.put(rt, DeskItem::Command(request));
        }
    }

    // Puts the leave on the desk, and that the port is gone.
    fn leave<R: Wait>(&mut self, rt: &R) {
        let command = Command {
            connection: 1,
            worker: 0,
            session: self.session.session(),
            what: Asked::User(UserMessage::Leave),
        };
        self.ends.put(rt, DeskItem::Command(Request::new(command)));
        self.ends.put(rt, DeskItem::Closed { connection: 1 });
    }
}

// Sends all that the client sends, and leaves.
pub(crate) fn talk<D: Door, K: Clock, N: Serving, R: Abort + Copy + Wait>(
    rt: &R,
    alloc: Global,
    owner: &mut Owner<'_, D, K, N, R>,
    peer: &mut Peer<D::Conn, N>,
) {
    owner.turn();
    for bytes in SENT {
        peer.send(rt, alloc, bytes);
        owner.turn();
        owner.turn();
        peer.hear(rt);
    }
    peer.leave(rt);
    for _turn in 0..3 {
        owner.turn();
    }
}

// The journal of an owner of one worker, who routed nothing.
fn text_of(rt: &impl Abort, alloc: Global, entries: Vec<ControlEntry>) -> Octets
    requires { Each IsWritableControl entries.items }
{
    let mut by_worker = Items::new(alloc);
    by_worker.push(Items::new(alloc)).expect(rt, "memory");
    let journal = Journal {
        workers: 1,
        limits: None,
        config: Octets::from_vec(Vec::new(alloc)),
        controls: Items::from_vec(entries),
        by_worker,
    };
    let text = write_journal(alloc, &journal).expect(rt, "memory");
    drop(journal);
    text
}

// The journal of an owner over these queues, once the client has left.
fn written<D: Door, K: Clock, N: Serving, R: Abort + Copy + Wait>(
    rt: &R,
    alloc: Global,
    owner: Owner<'_, D, K, N, R>,
    peer: Peer<D::Conn, N>,
) -> Octets {
    let mut owner = owner;
    let mut peer = peer;
    talk(rt, alloc, &mut owner, &mut peer);
    drop(peer);
    let OwnerEnd {
        door,
        clock,
        connections: _,
        accepted: _,
        state,
        entries,
        no_memory: _,
        door_failed: _,
    } = owner.finish();
    drop(door);
    drop(clock);
    drop(state);
    text_of(rt, alloc, entries)
}

// The journal of an owner over this door, which gives one connection.
fn journal_named<D: Door, N: Serving, R: Abort + Copy + Wait>(
    rt: &R,
    alloc: Global,
    publisher: &mut Publisher,
    state: State,
    door: D,
) -> Octets
    requires opening { publisher.old.opening ≡ N.opening }
    requires state { state ≡ latest publisher.old }
    requires fresh { appended publisher.old ≡ [] }
    requires pending { publisher.old.pending ≡ [] }
    requires door { record { counts = (D.facts door).counts; given = (D.facts door).given; opened_at = (D.facts door).opened_at } ≡ N.door }
{
    let boxes = boxes(rt, alloc);
    let control = Control::<N>::open(alloc, state, publisher, boxes).expect(rt, "memory");
    let (desk, bells, ends) = queues::<D::Conn, N>(rt, alloc);
    let peer = Peer::new(ends);
    let clock = MemClock::new(Vec::new(alloc));
    match Owner::open(*rt, alloc, control, desk, bells, door, clock, 1, true, None) {
        Ok(owner) => written(rt, alloc, owner, peer),
        Err(_both) => panic!(rt; "memory"),
    }
}

// The same, with the opening of this publisher and what the door has counted.
fn journal_at<D: Door, R: Abort + Copy + Wait>(
    rt: &R,
    alloc: Global,
    publisher: &mut Publisher,
    state: State,
    door: D,
) -> Octets
    requires state { state ≡ latest publisher.old }
    requires fresh { appended publisher.old ≡ [] }
    requires pending { publisher.old.pending ≡ [] }
{
    journal_named::<D, Brand, R>(rt, alloc, publisher, state, door)
}

// A door that gives one connection.
pub(crate) fn door(rt: &impl Abort, alloc: Global) -> MemDoor {
    let mut events = Vec::new(alloc);
    events.push(LinkEvent::End).expect(rt, "memory");
    let link = MemLink::new(alloc, events, Vec::new(alloc));
    let mut events = Vec::new(alloc);
    events.push(DoorEvent::Conn(link)).expect(rt, "memory");
    MemDoor::new(alloc, events, true).expect(rt, "memory")
}

#[test]
fn what_was_decided_is_written_down(rt: HostRuntime) {
    let alloc: Global = rt.alloc();
    let door = door(&rt, alloc);
    let (mut publisher, state) = begin(&rt, alloc);
    let journal = journal_at(&rt, alloc, &mut publisher, state, door);
    publisher.finish(&rt);
    assert_eq!(rt; str::from_utf8(journal.as_slice()), Ok(JOURNAL));
}
