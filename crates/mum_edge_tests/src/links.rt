//! Links over sockets in memory: what comes after a header, and what is sent at the end.

use crate::memory::{Coming, HandBack, MemListener, MemSocket};
use mum_base::Octets;
use mum_io::{Accept, Door, DoorOpen, Link, PollRead, PollWrite};
use mum_link::{
    Board, Doorstep, Entrance, Hub, READABLE, SLOT_LIMIT, SocketDoor, SocketLink, WRITABLE,
};
use mum_pace::Pace;
use std::alloc::{AllocError, Global};
use std::collections::VecDeque;
use std::net::Ipv6Addr;
use std::sync::{Arc, OnceLock};

// A header of version 2 for a client at 203.0.113.7, over TCP and IPv4, with three bytes more after its ports.
const HEADER: &[u8] =
    b"\r\n\r\n\0\r\nQUIT\n\x21\x11\0\x0f\xcb\0\x71\x07\xc0\0\x02\x01\x9c\x40\xfc\xe2abc";

// What the client sends after it: a Ping with a number.
const PING: &[u8] = b"\0\x03\0\0\0\x02\x08\x05";

// How often a test asks before it gives up.
const TRIES: usize = 100;

type MemDoor = SocketDoor<MemListener, MemSocket>;

// A door to which one connection comes, with what its thread and it share, and where all is put that is written to it.
#[derive(Drop)]
struct Trial {
    hub: Arc<Hub>,
    board: Arc<Board>,
    hand_back: HandBack,
    door: MemDoor,
}

fn coming(
    alloc: Global,
    bytes: &[u8],
    no_room: Vec<u64>,
    hand_back: HandBack,
) -> Result<Coming, AllocError> {
    let Ok(bytes) = Octets::of(alloc, bytes) else {
        return Err(AllocError);
    };
    Ok(Coming {
        address: Ipv6Addr::LOCALHOST,
        bytes,
        not_yet: Vec::from_slice(alloc, &[1, 3, 4, 8])?,
        no_room,
        hand_back,
    })
}

fn trial_of(alloc: Global, bytes: &[u8], no_room: Vec<u64>) -> Result<Trial, AllocError> {
    let hub = Arc::new(alloc, Hub::new(alloc)?)?;
    let board = Arc::new(alloc, Board::new())?;
    let mut boards = Vec::with_capacity(alloc, 2)?;
    boards.push(board.clone()?)?;
    boards.push(board.clone()?)?;
    let hand_back: HandBack = Arc::new(alloc, OnceLock::new())?;
    let mut all = VecDeque::new(alloc);
    all.push_back(coming(alloc, bytes, no_room, hand_back.clone()?)?)?;
    let listener = MemListener { alloc, coming: all };
    let step = Doorstep::of_users(Pace::usual());
    let entrance = Entrance::new(alloc, hub.clone()?, boards, step, listener);
    Ok(Trial {
        hub,
        board,
        hand_back,
        door: SocketDoor::new(entrance),
    })
}

// All that the system may report.
fn report_all(hub: &Hub) {
    for slot in 0..SLOT_LIMIT {
        hub.set(slot, READABLE | WRITABLE);
    }
}

// The first link that comes.
fn link_of(trial: &mut Trial) -> Option<SocketLink<MemSocket>> {
    for _ in 0..TRIES {
        report_all(&trial.hub);
        if let Accept::Conn(link) = trial.door.poll_accept() {
            return Some(link);
        }
    }
    None
}

// All that comes over a link, up to its end.
fn read_to_the_end(
    hub: &Hub,
    link: &mut SocketLink<MemSocket>,
    all: &mut Vec<u8>,
) -> Result<bool, AllocError> {
    let mut buf = [0u8; 64];
    for _ in 0..TRIES {
        report_all(hub);
        match link.poll_read(&mut buf) {
            PollRead::Got(count) => all.extend_from_slice(&buf[..count])?,
            PollRead::NotYet => {}
            PollRead::End => return Ok(true),
            PollRead::Failed => return Ok(false),
        }
    }
    Ok(false)
}

#[test]
fn a_header_in_pieces_names_the_client_and_nothing_behind_it_is_lost(rt: HostRuntime) {
    let alloc: Global = rt.alloc();
    let mut bytes = Vec::from_slice(alloc, HEADER).expect(&rt, "memory");
    bytes.extend_from_slice(PING).expect(&rt, "memory");
    let mut trial = trial_of(alloc, &bytes, Vec::new(alloc)).expect(&rt, "memory");
    assert_eq!(rt; trial.door.open("proxy:127.0.0.1:64738"), DoorOpen::Opened);
    let mut link = link_of(&mut trial).expect(&rt, "a link");
    assert_eq!(rt;
        link.address(),
        Ipv6Addr::new(0, 0, 0, 0, 0, 0xffff, 0xcb00, 0x7107).octets()
    );
    let mut all = Vec::new(alloc);
    assert!(rt; read_to_the_end(&trial.hub, &mut link, &mut all).expect(&rt, "memory"));
    assert!(rt; all.as_slice() == PING);
}

#[test]
fn a_header_that_is_cut_gives_no_link(rt: HostRuntime) {
    let alloc: Global = rt.alloc();
    let cut = &HEADER[..HEADER.len() - 1];
    let mut trial = trial_of(alloc, cut, Vec::new(alloc)).expect(&rt, "memory");
    assert_eq!(rt; trial.door.open("proxy:127.0.0.1:64738"), DoorOpen::Opened);
    assert!(rt; link_of(&mut trial).is_none());
}

// Ends the batch, and has what is kept of it sent, as far as the socket takes it.
fn end_batch(trial: &Trial, link: &mut SocketLink<MemSocket>) {
    trial.board.release();
    let mut buf = [0u8; 1];
    for _ in 0..TRIES {
        report_all(&trial.hub);
        let _nothing_yet = link.poll_read(&mut buf);
    }
}

#[test]
fn what_is_kept_back_is_sent_in_order(rt: HostRuntime) {
    let alloc: Global = rt.alloc();
    let no_room = Vec::from_slice(alloc, &[1, 3, 4]).expect(&rt, "memory");
    let mut trial = trial_of(alloc, b"", no_room).expect(&rt, "memory");
    assert_eq!(rt; trial.door.open("127.0.0.1:64738"), DoorOpen::Opened);
    let mut link = link_of(&mut trial).expect(&rt, "a link");
    assert_eq!(rt; link.address(), Ipv6Addr::LOCALHOST.octets());
    trial.board.hold();
    assert_eq!(rt; link.poll_write(HEADER), PollWrite::Took(HEADER.len()));
    end_batch(&trial, &mut link);
    trial.board.hold();
    assert_eq!(rt; link.poll_write(PING), PollWrite::Took(PING.len()));
    assert!(rt; trial.hand_back.get().is_none());
    link.shut();
    assert_eq!(rt; link.poll_write(PING), PollWrite::Failed);
    let sent = trial.hand_back.get().expect(&rt, "what was sent");
    let mut all = Vec::from_slice(alloc, HEADER).expect(&rt, "memory");
    all.extend_from_slice(PING).expect(&rt, "memory");
    assert!(rt; sent.as_slice() == all.as_slice());
}
