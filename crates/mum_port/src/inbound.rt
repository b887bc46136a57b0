//! What a port reads, and what it makes of the frames that it keeps.

ghost use Rattle.std.specs.Prelude.{◌≡◌, ◌<◌, ℕ, Bool, IsTrue, false, length};
ghost use Rattle.mum_frame.specs.Frame.{HasFrame};
ghost use Rattle.mum_session.specs.Machine.{session_of};
ghost use Rattle.mum_session.specs.declared.action.Action.TheVariants.{Bans};
ghost use Rattle.mum_port.specs.Asked.{AsksAsHeard};
ghost use Rattle.mum_port.specs.Facts.{item_of, waiting_after};
ghost use Rattle.mum_port.specs.Handling.{Acts, HandlesKept, HandlesWhole, TakesFrame};
ghost use Rattle.mum_port.specs.Linking.{ReadsLink};

use crate::client::Client;
use crate::item::{DeskItem, Request};
use crate::outgoing::Outgoing;
use crate::router::VoiceRouter;
use crate::stage::Went;
use mum_base::{Cause, Octets, SessionId};
use mum_frame::{Frame, Framer, Kept};
use mum_io::{Link, PollRead};
use mum_session::Action;
use std::alloc::Global;

// Reads once, and keeps what came.
pub(crate) fn read<L: Link>(link: &mut L, framer: &mut Framer, buf: &mut [u8]) -> Went
    requires { 0 < length buf.old }
    ensures { ReadsLink L.facts link.old framer.old.kept result
        link.new framer.new.kept }
{
    match link.poll_read(buf) {
        PollRead::Got(count) => match framer.feed(&buf[..count]) {
            Ok(()) => Went::Worked,
            Err(_) => Went::Closes(Cause::Memory),
        },
        PollRead::End => Went::Closes(Cause::End),
        PollRead::NotYet => Went::Stalled,
        PollRead::Failed => Went::Closes(Cause::LinkFault),
    }
}

// What a frame asks for. A command and a list of bans wait for the desk, a packet goes to the router, and
// an echo is written after all else.
fn act<V: VoiceRouter>(
    action: Action,
    connection: u32,
    session: Option<SessionId>,
    waiting: &mut Option<DeskItem>,
    out: &mut Outgoing,
    router: &mut V,
) -> Went
    requires asked { AsksAsHeard action }
    requires room { IsTrue (V.has_room router.old) }
    ensures { Acts V.routed connection session action
        (record { waiting = waiting.old; out = out.old; router = V.without_room router.old }) result
        (record { waiting = waiting.new; out = out.new; router = V.without_room router.new }) }
{
    match action {
        Action::Ask(command) => {
            drop(waiting.replace(DeskItem::Command(Request::new(command))));
            Went::Worked
        }
        Action::Voice(packet) => match session {
            Some(speaker) => {
                router.route(connection, speaker, packet);
                Went::Worked
            }
            None => {
                drop(packet);
                Went::Worked
            }
        },
        Action::Echo(wire) => match out.push(wire) {
            Ok(()) => Went::Worked,
            Err(_) => Went::Closes(Cause::Memory),
        },
        Action::Keep => Went::Worked,
        Action::Ignore { .. } => Went::Worked,
        Action::Bans(payload) => {
            wait_with_bans(connection, session, payload, waiting);
            Went::Worked
        }
    }
}

// A list of bans waits for the desk, with the session that sent it.
fn wait_with_bans(
    connection: u32,
    session: Option<SessionId>,
    payload: Octets,
    waiting: &mut Option<DeskItem>,
)
    ensures { waiting.new ≡ waiting_after (item_of connection session (Bans payload)) waiting.old }
{
    match session {
        Some(session) => drop(waiting.replace(DeskItem::Bans {
            connection,
            session,
            payload,
        })),
        None => drop(payload),
    }
}

// Gives a frame to the machine, and does what it asks for.
fn take_frame<V: VoiceRouter>(
    alloc: Global,
    client: &mut Client,
    frame: Frame,
    waiting: &mut Option<DeskItem>,
    out: &mut Outgoing,
    router: &mut V,
) -> Went
    requires ready { client.old.awaits ≡ false }
    requires room { IsTrue (V.has_room router.old) }
    ensures { TakesFrame V.routed client.old frame
        (record { waiting = waiting.old; out = out.old; router = V.without_room router.old }) result client.new
        (record { waiting = waiting.new; out = out.new; router = V.without_room router.new }) }
{
    let connection = client.connection();
    let session = client.session();
    match client.frame(alloc, frame) {
        Ok(action) => act(action, connection, session, waiting, out, router),
        Err(_) => Went::Closes(Cause::Memory),
    }
}

// Handles the whole frame that is kept. Where no frame comes, there was no memory for it.
fn handle_whole<V: VoiceRouter>(
    alloc: Global,
    client: &mut Client,
    framer: &mut Framer,
    waiting: &mut Option<DeskItem>,
    out: &mut Outgoing,
    router: &mut V,
) -> Went
    requires { client.old.awaits ≡ false }
    ensures { HandlesWhole V.routed client.old framer.old.kept
        (record { waiting = waiting.old; out = out.old; router = V.without_room router.old }) result client.new framer.new.kept
        (record { waiting = waiting.new; out = out.new; router = V.without_room router.new }) }
{
    if router.reserve().is_err() {
        return Went::Closes(Cause::Memory);
    }
    match framer.next() {
        Ok(Some(frame)) => take_frame(alloc, client, frame, waiting, out, router),
        _ => Went::Closes(Cause::Memory),
    }
}

// Handles the first frame that is kept, if one is whole.
pub(crate) fn handle<V: VoiceRouter>(
    alloc: Global,
    client: &mut Client,
    framer: &mut Framer,
    waiting: &mut Option<DeskItem>,
    out: &mut Outgoing,
    router: &mut V,
) -> Went
    requires { client.old.awaits ≡ false }
    ensures { HandlesKept V.routed client.old framer.old.kept
        (record { waiting = waiting.old; out = out.old; router = V.without_room router.old }) result client.new framer.new.kept
        (record { waiting = waiting.new; out = out.new; router = V.without_room router.new }) }
{
    match framer.kept() {
        Kept::Nothing => Went::Stalled,
        Kept::TooLong => Went::Closes(Cause::FrameTooLong),
        Kept::Whole => handle_whole(alloc, client, framer, waiting, out, router),
    }
}
