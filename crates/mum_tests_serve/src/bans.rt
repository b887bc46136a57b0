//! A list of bans is set, and keeps out whoever comes while one of them is living.

use crate::client::{Act, BAN_LIST, REJECT, SERVER_SYNC};
use crate::lobby::Lobby;
use crate::run::{Outcome, ran_at};
use mum_crew::TurnCrew;
use mum_io::Clock;
use std::alloc::Global;
use std::process::Abort;

// Whoever is there may ban.
const CONFIGURATION: &str =
    "{\"workers\":2,\"channels\":[{\"id\":0,\"acls\":[{\"group\":\"all\",\"grant\":131072}]}]}";

// A list with one ban, for a minute, of the address that all clients have.
const ONE_BAN: &[u8] = &[
    0, 10, 0, 0, 0, 25, 10, 23, 10, 16, 0, 0, 0, 0, 0, 0, 0, 0, 0, 0, 0, 0, 0, 0, 0, 0, 16, 128, 1,
    56, 60,
];

// Asks for the list.
const QUERY: &[u8] = &[0, 10, 0, 0, 0, 2, 16, 1];

// When the clock is asked: at the first login, at the list, at the query, and at two more logins, between which the ban
// ends. Nobody asks for the last moment.
const MOMENTS: [u64; 6] = [990, 1000, 1010, 1059, 1060, 2000];

// Sets the bans, and stays until the third one is there.
const BANNER: [Act; 7] = [
    Act::LogIn(100),
    Act::Hear(SERVER_SYNC),
    Act::Say(ONE_BAN),
    Act::Say(QUERY),
    Act::Hear(BAN_LIST),
    Act::Come,
    Act::Meet(2),
];

// Logs in while the ban is living.
const BANNED: [Act; 3] = [Act::Meet(1), Act::LogIn(1), Act::Stay];

// Logs in afterwards.
const LATER: [Act; 5] = [
    Act::Meet(1),
    Act::Outlive(1),
    Act::LogIn(2),
    Act::Hear(SERVER_SYNC),
    Act::Come,
];

fn clients(rt: &impl Abort, alloc: Global) -> Lobby {
    let mut lobby = Lobby::new(rt, alloc);
    lobby.invite_with(rt, &BANNER);
    lobby.invite_with(rt, &BANNED);
    lobby.invite_with(rt, &LATER);
    lobby
}

// Compares what was served, and how many Rejects and ServerSyncs each client was sent.
fn compare(rt: &impl Abort, outcome: Outcome<Lobby>) {
    let line = "served connections 3 accepted 4 ";
    assert!(rt;
        outcome.output().starts_with(line),
        "it wrote {}",
        outcome.output()
    );
    let door = outcome.door(rt);
    for (place, rejects, syncs) in [(0, 0, 1), (1, 1, 0), (2, 0, 1)] {
        let heard = door.heard(place).expect(rt, "a client stayed");
        assert_eq!(rt;
            (heard.frames(REJECT), heard.frames(SERVER_SYNC)),
            (rejects, syncs),
            "client {place}"
        );
    }
    drop(outcome);
}

// Compares how often the clock was asked, which is handed back: the next moment is the last one.
fn compare_clock(rt: &impl Abort, outcome: &mut Outcome<Lobby>) {
    let clock = outcome.clock.as_mut().expect(rt, "no clock");
    assert_eq!(rt; clock.now(), 2000);
}

#[test]
fn a_ban_keeps_out_until_it_ends(rt: HostRuntime) {
    let alloc: Global = rt.alloc();
    let mut crew = TurnCrew::new(rt, Vec::new(alloc));
    let mut outcome = ran_at(
        &rt,
        alloc,
        "3",
        CONFIGURATION,
        clients(&rt, alloc),
        &MOMENTS,
        &mut crew,
    );
    compare_clock(&rt, &mut outcome);
    compare(&rt, outcome);
}
