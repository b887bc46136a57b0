//! What a worker makes of what its bell carries.

ghost use Rattle.std.specs.Prelude.{◌≡◌};
ghost use Rattle.std.specs.List.{All};
ghost use Rattle.std.specs.Option.{ForSome};
ghost use Rattle.mum_crew.specs.Along.{EachAlong};
ghost use Rattle.mum_worker.specs.Facts.{stays};
ghost use Rattle.mum_worker.specs.Hearing.{LagsWhereIts, LearnsGiven, TakesOrTurns, TakesReply};
ghost use Rattle.mum_worker.specs.Record.{without_room};
ghost use Rattle.mum_worker.specs.Stepping.{OwnsPasses};

use crate::boxes::Boxes;
use crate::intake::Intake;
use crate::ports::Ports;
use crate::record::Record;
use mum_base::SessionId;
use mum_io::Link;
use mum_published::{Naming, Note, Reply};
use mum_router::Router;
use std::alloc::Global;

// Learns a note, if one came.
pub(crate) fn learn_given<N: Naming>(router: &mut Router<N>, note: &Option<Note>)
    requires { ForSome note.now (λ note. note.book ≡ N.opening.book) }
    ensures { LearnsGiven note.now router.old router.new }
{
    match note {
        Some(note) => router.learn(note),
        None => {}
    }
}

// A reply: its note and its roll are learnt, and then the first port of its connection takes it.
pub(crate) fn take_reply<L: Link, N: Naming>(
    reply: Reply<N>,
    alloc: Global,
    router: &mut Router<N>,
    kept: &mut Record,
    boxes: &mut Boxes<N>,
    ports: &mut Ports<L, N>,
)
    requires { All (OwnsPasses boxes.old) ports.old }
    ensures takes { TakesReply L.facts reply
        router.old (without_room kept.old) boxes.old ports.old
        router.new (without_room kept.new) boxes.new ports.new }
    ensures owned { All (OwnsPasses boxes.new) ports.new }
{
    learn_given(router, &reply.note);
    router.admit(&reply.roll);
    let Reply {
        connection,
        end,
        wire,
        ..
    } = reply;
    let passes = boxes.passes_for(end);
    let closed = ports.answered(alloc, connection, end, wire, passes);
    kept.closed(connection, closed);
}

// A connection that comes: it is taken in, where it is the worker's next and there is room.
pub(crate) fn take_connection<L: Link, N: Naming>(
    connection: u32,
    link: L,
    alloc: Global,
    intake: &mut Intake,
    kept: &mut Record,
    boxes: &mut Boxes<N>,
    ports: &mut Ports<L, N>,
)
    requires { All (OwnsPasses boxes.old) ports.old }
    ensures takes { TakesOrTurns intake.old connection link ports.old (without_room kept.old)
        intake.new ports.new (without_room kept.new) }
    ensures same_worker { intake.new ≡ record intake.old { last = intake.new.last } }
    ensures owned { All (OwnsPasses boxes.new) ports.new }
    ensures boxes { boxes.new ≡ boxes.old }
{
    let _boxes = boxes;
    ports.take_in(alloc, intake, connection, link, kept);
}

// A session whose connection is to close.
pub(crate) fn take_lag<L: Link, N: Naming>(
    session: SessionId,
    alloc: Global,
    kept: &mut Record,
    boxes: &mut Boxes<N>,
    ports: &mut Ports<L, N>,
)
    requires { All (OwnsPasses boxes.old) ports.old }
    ensures lags { EachAlong (LagsWhereIts L.facts session) stays
        ports.old (without_room kept.old) ports.new (without_room kept.new) }
    ensures owned { All (OwnsPasses boxes.new) ports.new }
    ensures boxes { boxes.new ≡ boxes.old }
{
    let _boxes = boxes;
    ports.lag(alloc, kept, session);
}
