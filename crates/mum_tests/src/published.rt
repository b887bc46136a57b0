//! `mum_published`: passes that look beside each other and beside the publisher, and a note that comes out
//! of a queue.

ghost use Rattle.std.specs.Prelude.{◌≡◌, ◌<◌, ◌≤◌, IfSome, MatchOption, OnOk};
ghost use Rattle.std.specs.List.{All};
ghost use Rattle.std.specs.Option.{ForSome};
ghost use Rattle.mum_published.specs.Calls.{Admitted, Learnt, latest};
ghost use Rattle.mum_published.specs.Facts.{PassFacts};

use arrayvec::ArrayVec;
use mum_base::{Octets, OutOfMemory, ReplyEnd, SessionId, Text};
use mum_outbox::{Bell, BoxPass, Offered};
use mum_published::{Ask, Login, Naming, Note, Pass, Publisher, Reply, open};
use mum_state::{DEFAULT_BANDWIDTH, Edit, State};
use std::alloc::{AllocError, Global};
use std::marker::Brand;
use std::mem::drop;
use std::process::Abort;
use std::sync::Wait;
use std::sync::atomic::{AtomicBool, Ordering};
use std::thread;
use std::thread::Threads;

// The edits that one thread publishes, and the looks that another makes meanwhile.
const TURNS: u32 = 1000;

// How often a thread asks whether the other has come to its point, before the test fails.
const TRIES: u32 = 1_000_000;

// A publisher with n passes, and a copy of its state.
fn begin<R: Abort + Wait>(rt: &R, alloc: Global, count: u8) -> (Publisher, Vec<Pass>, State)
    requires { (0 < count) × (count ≤ 10) }
    ensures twin { result.2 ≡ latest result.0 }
    ensures passes { All (λ pass. pass.opening ≡ result.0.opening) result.1.items }
{
    let twin = State::empty(alloc).expect(rt, "memory");
    let state = twin.copy(alloc).expect(rt, "memory");
    let (publisher, passes) = open(rt, alloc, state, count).expect(rt, "memory");
    (publisher, passes, twin)
}

// Appends an edit that sets the bandwidth, which the copy of the state takes first.
fn append_bandwidth(
    alloc: Global,
    publisher: &mut Publisher,
    twin: &mut State,
    bandwidth: u32,
) -> Result<(), OutOfMemory>
    requires { twin.old ≡ latest publisher.old }
    ensures opening { publisher.new.opening ≡ publisher.old.opening }
    ensures twin { OnOk result (twin.new ≡ latest publisher.new) }
{
    let edit = Edit::SetServer {
        welcome: Text::empty(alloc),
        bandwidth,
        password: None,
    };
    if publisher.reserve().is_err() || !twin.fits(&edit) || twin.apply(&edit).is_err() {
        drop(edit);
        return Err(AllocError);
    }
    publisher.append(edit)
}

// Appends an edit and publishes it.
fn publish_one<R: Abort + Wait>(
    rt: &R,
    alloc: Global,
    publisher: &mut Publisher,
    twin: &mut State,
    bandwidth: u32,
) -> Note
    requires { twin.old ≡ latest publisher.old }
    ensures opening { publisher.new.opening ≡ publisher.old.opening }
    ensures twin { twin.new ≡ latest publisher.new }
    ensures note { result.book ≡ publisher.old.opening.book }
{
    append_bandwidth(alloc, publisher, twin, bandwidth).expect(rt, "memory");
    assert_eq!(rt; publisher.pending(), 1);
    assert!(rt; publisher.last_appended().is_some(), "an edit is appended");
    publisher.publish(rt).expect(rt, "memory")
}

// Publishes edit after edit, each of which sets the bandwidth to one more, and gives the note of the last.
fn publish_all<R: Abort + Wait>(
    rt: &R,
    alloc: Global,
    publisher: &mut Publisher,
    twin: &mut State,
) -> Note
    requires { twin.old ≡ latest publisher.old }
    ensures { result.book ≡ publisher.old.opening.book }
{
    for turn in 1..TURNS {
        drop(publish_one(rt, alloc, publisher, twin, DEFAULT_BANDWIDTH + turn));
    }
    publish_one(rt, alloc, publisher, twin, DEFAULT_BANDWIDTH + TURNS)
}

// The bandwidth at a look.
fn bandwidth_at<R: Wait>(rt: &R, pass: &mut Pass) -> u32
    ensures { pass.new.opening ≡ pass.old.opening }
{
    let ask = Ask {
        speaker: SessionId(1),
        target: 0,
        packet: ArrayVec::new(),
    };
    pass.look(rt, ask, &mut |state: &State| state.server().bandwidth)
}

// Looks again and again. It says whether no look saw fewer edits than the one before it, and each saw the
// bandwidth that the last of its edits set.
fn look_on<R: Wait>(rt: &R, mut pass: Pass) -> (Pass, bool)
    ensures { result.0.opening ≡ pass.opening }
{
    let mut steady = true;
    let mut before = 0;
    for _ in 0..TURNS {
        let bandwidth = bandwidth_at(rt, &mut pass);
        let revision = pass.revision();
        steady = steady
            && revision >= before
            && u64::from(bandwidth).checked_sub(revision) == Some(u64::from(DEFAULT_BANDWIDTH));
        before = revision;
    }
    (pass, steady)
}

// One thread publishes while another looks through the last pass. Then the pass learns the last note, and looks
// once more: what `look_on` says, the revision and the bandwidth.
fn publish_beside_looks<R: Abort + Threads + Wait + Sync>(
    rt: &R,
    alloc: Global,
    publisher: &mut Publisher,
    twin: &mut State,
    passes: &mut Vec<Pass>,
) -> (bool, u64, u32)
    requires twin { twin.old ≡ latest publisher.old }
    requires passes { All (λ pass. pass.opening ≡ publisher.old.opening) passes.old.items }
{
    let pass = passes.pop().expect(rt, "a pass");
    let (last, (mut pass, steady)) = thread::join(
        rt,
        || publish_all(rt, alloc, publisher, twin),
        || look_on(rt, pass),
    );
    pass.learn(&last);
    let bandwidth = bandwidth_at(rt, &mut pass);
    let revision = pass.revision();
    drop(pass);
    drop(last);
    (steady, revision, bandwidth)
}

#[test]
fn no_look_sees_less_than_the_one_before_it(rt: HostRuntime) {
    let (mut publisher, mut passes, mut twin) = begin(&rt, rt.alloc(), 1);
    let seen = publish_beside_looks(&rt, rt.alloc(), &mut publisher, &mut twin, &mut passes);
    drop(passes);
    drop(twin);
    publisher.finish(&rt);
    let all = u64::from(TURNS);
    assert_eq!(rt; seen, (true, all, DEFAULT_BANDWIDTH + TURNS));
}

// Whether the word is set in time.
fn is_set(word: &AtomicBool) -> bool {
    for _ in 0..TRIES {
        if word.load(Ordering::SeqCst) {
            return true;
        }
        thread::yield_now();
    }
    false
}

// A look that reports when it is made, and ends once the other look has answered. It says whether that came
// in time.
fn look_until<R: Wait>(
    rt: &R,
    mut pass: Pass,
    entered: &AtomicBool,
    answered: &AtomicBool,
) -> bool {
    let ask = Ask {
        speaker: SessionId(1),
        target: 0,
        packet: ArrayVec::new(),
    };
    pass.look(
        rt,
        ask,
        &mut |_state: &State| {
            entered.store(true, Ordering::SeqCst);
            is_set(answered)
        },
    )
}

// A look that is made while the other lasts, and reports that it has answered.
fn look_meanwhile<R: Wait>(
    rt: &R,
    mut pass: Pass,
    entered: &AtomicBool,
    answered: &AtomicBool,
) -> bool {
    let in_time = is_set(entered);
    let bandwidth = bandwidth_at(rt, &mut pass);
    answered.store(true, Ordering::SeqCst);
    in_time && bandwidth == DEFAULT_BANDWIDTH
}

// One thread looks with the last pass while another looks with the one before it: whether each came in time.
fn look_at_once<R: Abort + Threads + Wait + Sync>(rt: &R, passes: &mut Vec<Pass>) -> (bool, bool) {
    let one = passes.pop().expect(rt, "a pass");
    let other = passes.pop().expect(rt, "another pass");
    let (entered, answered) = (AtomicBool::new(false), AtomicBool::new(false));
    thread::join(
        rt,
        || look_until(rt, one, &entered, &answered),
        || look_meanwhile(rt, other, &entered, &answered),
    )
}

#[test]
fn two_passes_look_at_once(rt: HostRuntime) {
    let (publisher, mut passes, twin) = begin(&rt, rt.alloc(), 2);
    let both = look_at_once(&rt, &mut passes);
    drop(passes);
    drop(twin);
    publisher.finish(&rt);
    assert_eq!(rt; both, (true, true));
}

// Takes the next reply, and learns its note and its roll, which are known to be of the pass's own `open`.
fn learn_next<N: Naming, R: Wait>(
    rt: &R,
    bell: &Bell<Reply<N>>,
    hand: &mut BoxPass<Reply<N>>,
    pass: &mut Pass,
) -> Option<Reply<N>>
    requires queue { hand.old.queue ≡ bell.now.queue }
    requires opening { pass.old.opening ≡ N.opening }
    ensures of { IfSome result (λ reply. ForSome reply.note (λ note. note.book ≡ pass.old.opening.book)) }
    ensures learnt { IfSome result (λ reply. (noted : PassFacts)
        × MatchOption reply.note (noted ≡ pass.old) (λ note. Learnt pass.old note.edits noted)
        × Admitted noted reply.roll pass.new) }
    ensures none { MatchOption result (pass.new ≡ pass.old) (λ reply. pass.new.opening ≡ N.opening) }
{
    let reply = bell.take_as(rt, hand)?;
    if let Some(note) = &reply.note {
        pass.learn(note);
    }
    pass.admit(&reply.roll);
    Some(reply)
}

// An edit is published, its note goes through a bell, and a pass learns it and looks: the connection of the
// reply, the revision, the bandwidth.
fn relay<N: Naming, R: Abort + Wait>(
    rt: &R,
    alloc: Global,
    publisher: &mut Publisher,
    twin: &mut State,
    pass: &mut Pass,
) -> (u32, u64, u32)
    requires twin { twin.old ≡ latest publisher.old }
    requires opening { publisher.old.opening ≡ N.opening }
    requires pass { pass.old.opening ≡ N.opening }
{
    let mut bell = Bell::<Reply<N>>::new(alloc).expect(rt, "memory");
    let mut hand = bell.pass();
    let note = publish_one(rt, alloc, publisher, twin, DEFAULT_BANDWIDTH + 1);
    let wire = Octets::from_vec(Vec::new(alloc));
    let login = Login {
        connection: 7,
        session: SessionId(1),
    };
    publisher.admit(rt, login);
    let roll = publisher.roll();
    let reply = Reply::new(7, ReplyEnd::Decided, Some(note), wire, false, roll);
    let offered = bell.offer_as(rt, &mut hand, reply);
    assert!(rt; matches!(offered, Offered::Sent), "the bell has room");
    drop(offered);
    let reply = learn_next(rt, &bell, &mut hand, pass).expect(rt, "a reply");
    let connection = reply.connection;
    drop(reply);
    drop(hand);
    drop(bell);
    let bandwidth = bandwidth_at(rt, pass);
    (connection, pass.revision(), bandwidth)
}

// The same, with the opening of this publisher.
fn relay_of<R: Abort + Wait>(
    rt: &R,
    alloc: Global,
    publisher: &mut Publisher,
    twin: &mut State,
    passes: &mut Vec<Pass>,
) -> (u32, u64, u32)
    requires twin { twin.old ≡ latest publisher.old }
    requires passes { All (λ pass. pass.opening ≡ publisher.old.opening) passes.old.items }
{
    let mut pass = passes.pop().expect(rt, "a pass");
    let seen = relay::<Brand, R>(rt, alloc, publisher, twin, &mut pass);
    drop(pass);
    seen
}

// The revision of what is published where nothing is appended.
fn published_again<R: Abort + Wait>(rt: &R, publisher: &mut Publisher) -> u64 {
    let note = publisher.publish(rt).expect(rt, "memory");
    note.revision()
}

#[test]
fn a_note_from_a_bell_is_learnt(rt: HostRuntime) {
    let (mut publisher, mut passes, mut twin) = begin(&rt, rt.alloc(), 10);
    let seen = relay_of(&rt, rt.alloc(), &mut publisher, &mut twin, &mut passes);
    let again = published_again(&rt, &mut publisher);
    let left = passes.len();
    drop(passes);
    drop(twin);
    publisher.finish(&rt);
    assert_eq!(rt; left, 9);
    assert_eq!(rt; seen, (7, 1, DEFAULT_BANDWIDTH + 1));
    assert_eq!(rt; again, 1);
}
