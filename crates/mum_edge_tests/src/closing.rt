//! What a peer reads once its link was shut.

use mum_edge::{Machine, MachineDoor};
use mum_io::{Accept, Door, DoorOpen, Link, PollWrite};
use mum_pace::Pace;
use std::io::Read;
use std::net::TcpStream;
use std::rt::HostRuntime;
use std::time::Duration;

// How often a test asks before it gives up.
const TRIES: usize = 1_000_000;

type HostLink = <MachineDoor<HostRuntime> as Door>::Conn;

// The first link that comes.
fn link_of(door: &mut MachineDoor<HostRuntime>) -> Option<HostLink> {
    for _ in 0..TRIES {
        if let Accept::Conn(link) = door.poll_accept() {
            return Some(link);
        }
    }
    None
}

#[test]
fn the_end_comes_with_the_shut_behind_what_was_written(rt: HostRuntime) {
    let Machine { mut door, .. } = Machine::quiet(rt, rt.alloc(), 2, 0, Pace::Unlimited).expect(
        &rt,
        "a machine",
    );
    assert_eq!(rt; door.open("127.0.0.1:0"), DoorOpen::Opened);
    let address = door.listener().local_address().expect(&rt, "an address");
    let mut client = TcpStream::connect(&rt, address).expect(&rt, "a connection");
    let patience = Some(Duration::from_secs(10));
    client.set_read_timeout(patience).expect(&rt, "a patience");
    let mut link = link_of(&mut door).expect(&rt, "a link");
    assert_eq!(rt; link.poll_write(b"farewell"), PollWrite::Took(8));
    link.shut();
    // the link is there still, so the end is not that of a socket that was dropped
    let mut buf = [0u8; 16];
    assert_eq!(rt; client.read(&mut buf).expect(&rt, "the bytes"), 8);
    assert_eq!(rt; client.read(&mut buf).expect(&rt, "the end"), 0);
    assert_eq!(rt; link.poll_write(b"more"), PollWrite::Failed);
}
