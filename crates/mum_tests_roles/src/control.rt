//! `mum_control`: a session whose box is full, and an edit whose publish runs out of memory.

ghost use Rattle.std.specs.Prelude.{◌≡◌, []};
ghost use Rattle.mum_published.specs.Calls.{latest};

use crate::opening::{begin, boxes};
use mum_base::{Mark, POST_CAPACITY, SessionId, Slot, Text};
use mum_control::{Control, Posted};
use mum_fields::Message;
use mum_msg_state::{Authenticate, UserState};
use mum_published::{Naming, Publisher};
use mum_rules_user::UserMessage;
use mum_session::{Asked, Command};
use mum_state::State;
use std::alloc::Global;
use std::marker::Brand;
use std::mem::drop;
use std::process::Abort;
use std::sync::Wait;
use std::test::Fail;

// The version of the client of the login: 1.5.0.
const VERSION: u32 = 0x1_0500;

// The login of a user who has no session yet.
pub(crate) fn login(rt: &impl Abort, alloc: Global) -> Command {
    let name = Text::of(alloc, "anna").expect(rt, "memory");
    let mut message = Authenticate::new(alloc);
    message.username = Some(name);
    Command {
        connection: 7,
        worker: 0,
        session: None,
        what: Asked::User(UserMessage::Join(message, Some(VERSION))),
    }
}

// A command by which that user mutes themselves, or speaks again.
pub(crate) fn self_mute(alloc: Global, is_muted: bool) -> Command {
    let mut message = UserState::new(alloc);
    message.self_mute = Some(is_muted);
    Command {
        connection: 7,
        worker: 0,
        session: Some(SessionId(1)),
        what: Asked::User(UserMessage::User(message)),
    }
}

// Where an accepted edit was published.
#[derive(Clone, Copy, Debug, PartialEq)]
enum Published {
    /// The reply has the note.
    AtOnce,
    /// Memory ran out after the edit was appended, and the note of the next publish has it.
    Later,
    /// Memory ran out before, and the command was dropped whole.
    Never,
    /// None of these.
    Wrong,
}

// What became of a login, and of the notices to its session, which takes none.
#[derive(Clone, Copy, Debug, PartialEq)]
struct Seen {
    published: Published,
    /// The next slot, after the login.
    next: Option<Slot>,
    /// How many notices its box took, what became of the next one, and who lags then. None were posted where the login
    /// was not published at once.
    filled: usize,
    first: Posted,
    lagged: Option<SessionId>,
    /// What became of the next one, once the box was emptied.
    second: Posted,
}

// How a login at a control owner that is opened for it ended.
#[derive(Clone, Copy, Debug, PartialEq)]
enum Ended {
    /// Memory ran out as it was opened. How many edits its publisher had appended then, and how many of these it had
    /// not published.
    AtOpening { appended: u64, pending: u64 },
    /// It was opened.
    Seen(Seen),
}

// Publishes again, and gives the revision of the note.
fn publish_again<N: Naming, R: Wait>(rt: &R, control: &mut Control<'_, N>) -> Option<u64> {
    match control.publish(rt) {
        Ok(note) => Some(note.revision()),
        Err(_) => None,
    }
}

// Where the edit of the last command was published, whose reply had a note of this revision, or none.
fn publication<N: Naming, R: Wait>(
    rt: &R,
    control: &mut Control<'_, N>,
    noted: Option<u64>,
    no_memory: bool,
) -> Published {
    let waiting = control.unpublished();
    match (control.mark(), noted) {
        (Some(Mark::Accepted { revision }), Some(noted)) => {
            let is_right = noted == revision && !no_memory && waiting == 0;
            if is_right {
                Published::AtOnce
            } else {
                Published::Wrong
            }
        }
        (Some(Mark::Accepted { revision }), None) => {
            let again = publish_again(rt, control);
            let is_right = no_memory
                && waiting == 1
                && again == Some(revision)
                && control.unpublished() == 0;
            if is_right {
                Published::Later
            } else {
                Published::Wrong
            }
        }
        (None, None) => {
            let is_right = no_memory
                && waiting == 0
                && control.pending() == 0
                && !control.is_there(SessionId(1));
            if is_right {
                Published::Never
            } else {
                Published::Wrong
            }
        }
        _ => Published::Wrong,
    }
}

// Gives a command. Where its edit was published.
fn command<N: Naming, R: Wait>(
    rt: &R,
    control: &mut Control<'_, N>,
    command: Command,
) -> Published {
    let reply = control.command(rt, command);
    let no_memory = reply.no_memory;
    let noted = match &reply.note {
        Some(note) => Some(note.revision()),
        None => None,
    };
    drop(reply);
    publication(rt, control, noted, no_memory)
}

// Posts a notice after each of at most n commands of the session, until one is not posted. How many were, and
// what became of that one.
fn fill<N: Naming, R: Wait>(
    rt: &R,
    alloc: Global,
    control: &mut Control<'_, N>,
    commands: usize,
) -> (usize, Posted) {
    for count in 0..commands {
        drop(control.command(rt, self_mute(alloc, count % 2 == 0)));
        let posted = control.post_next(rt);
        if posted != Posted::Posted(SessionId(1)) {
            return (count, posted);
        }
    }
    (commands, Posted::None)
}

// A user logs in, and n commands fill its box. It is emptied after the notice for which there was no place.
fn see<N: Naming, R: Wait>(
    rt: &R,
    alloc: Global,
    control: &mut Control<'_, N>,
    login: Command,
    commands: usize,
) -> Seen {
    let published = command(rt, control, login);
    let next = control.next_slot();
    let (filled, first) = match published {
        Published::AtOnce => fill(rt, alloc, control, commands),
        _ => (0, Posted::None),
    };
    let lagged = control.lagged().first().copied();
    control.empty_post(rt, SessionId(1));
    let second = control.post_next(rt);
    Seen {
        published,
        next,
        filled,
        first,
        lagged,
        second,
    }
}

// The same at a control owner that is opened for it.
fn open_and_see<N: Naming, R: Abort + Wait>(
    rt: &R,
    alloc: Global,
    publisher: &mut Publisher,
    state: State,
    login: Command,
    commands: usize,
) -> Option<Seen>
    requires opening { publisher.old.opening ≡ N.opening }
    requires state { state ≡ latest publisher.old }
    requires pending { publisher.old.pending ≡ [] }
{
    let boxes = boxes(rt, alloc);
    match Control::<N>::open(alloc, state, publisher, boxes) {
        Ok(mut control) => {
            let seen = see(rt, alloc, &mut control, login, commands);
            drop(control);
            Some(seen)
        }
        Err(_) => {
            drop(login);
            None
        }
    }
}

// The same, with the opening of this publisher.
fn see_at<R: Abort + Wait>(
    rt: &R,
    alloc: Global,
    publisher: &mut Publisher,
    state: State,
    login: Command,
    commands: usize,
) -> Option<Seen>
    requires state { state ≡ latest publisher.old }
    requires pending { publisher.old.pending ≡ [] }
{
    open_and_see::<Brand, R>(rt, alloc, publisher, state, login, commands)
}

// How a login at an empty state ends, after which n commands are given.
fn log_in<R: Abort + Wait>(rt: &R, alloc: Global, commands: usize) -> Ended {
    let login = login(rt, alloc);
    let (mut publisher, state) = begin(rt, alloc);
    let ended = match see_at(rt, alloc, &mut publisher, state, login, commands) {
        Some(seen) => Ended::Seen(seen),
        None => Ended::AtOpening {
            appended: publisher.revision(),
            pending: publisher.pending(),
        },
    };
    publisher.finish(rt);
    ended
}

#[test]
fn a_session_whose_box_is_full_lags(rt: HostRuntime) {
    let session = SessionId(1);
    let expected = Seen {
        published: Published::AtOnce,
        next: Some(Slot(1)),
        filled: POST_CAPACITY,
        first: Posted::Lagged(session),
        lagged: Some(session),
        second: Posted::Posted(session),
    };
    assert_eq!(rt;
        log_in(&rt, rt.alloc(), POST_CAPACITY + 1),
        Ended::Seen(expected)
    );
}

// That an edit was published at once, and else where.
fn published_at_once(published: Published) -> Result<(), Fail> {
    match published {
        Published::AtOnce => Ok(()),
        Published::Later => Err(Fail::from("refused after the edit was appended")),
        Published::Never => Err(Fail::from("refused before the edit was appended")),
        Published::Wrong => Err(Fail::from("the edit was published wrongly")),
    }
}

// It passes only where no allocation of the login is refused. `rt try --test --fail-alloc N` refuses the Nth, and the
// error says what came of it: of one before the opening that memory ran out, with the error.
#[test]
fn an_edit_whose_publish_was_refused_is_in_the_next_note(rt: HostRuntime) -> Result<(), Fail> {
    match log_in(&rt, rt.alloc(), 0) {
        Ended::AtOpening {
            appended: 0,
            pending: 0,
        } => Err(Fail::from("refused at the opening, with the publisher as it was")),
        Ended::AtOpening { .. } => Err(Fail::from(
            "an opening that was refused changed the publisher",
        )),
        Ended::Seen(seen) => published_at_once(seen.published),
    }
}
