//! The program's call with all its words.

ghost use Rattle.std.specs.Prelude.{◌≡◌, ◌⊎◌, is_some, map, string_bytes, true};
ghost use Rattle.mum_io.specs.Outside.{Rose};
ghost use Rattle.mum_serve.specs.Asked.{Service};
ghost use Rattle.mum_server.specs.Command.{BeginsWithServe, IsServe};
ghost use Rattle.mum_server.specs.Plain.{RunsPlainly};
ghost use Rattle.mum_server.specs.Program.{Reports, Tells, usage_line};
ghost use Rattle.mum_server.specs.Serve.{GaveBadRows, KeeperFailed, OneFailed, RunsServer, ServerReports};

use crate::command::{begins_with_serve, serve_in};
use crate::end::{End, LineFault};
use crate::program::{USAGE_LINE, report, run_plain, say};
use mum_crew::Crew;
use mum_io::{Clock, Door, Sink, Source};
use mum_journal_laws::journals::served_journals_are_legal;
use mum_journal_laws::one_server::runs_are_of_one_server;
use mum_keeper::Keeper;
use mum_serve::{ServerEnd, run_server};
use std::alloc::Global;
use std::sync::Wait;

const DOOR_FAULT_LINE: &str = "murmur: 8 DoorFault\n";

const CREW_FAULT_LINE: &str = "murmur: 9 CrewFault\n";

const KEEPER_FAULT_LINE: &str = "murmur: 12 KeeperFault\n";

const BAD_STORE_LINE: &str = "murmur: 13 BadStore\n";

// The number of the line that a configuration is.
const CONFIG_LINE: u64 = 1;

// Says this line, and gives this status.
fn say_status<E: Sink>(errors: &mut E, line: &str, status: u8) -> u8
    ensures status { result ≡ status }
    ensures says { Tells line.now (E.written errors.old) (E.written errors.new)
        (Rose (E.faults errors.old) (E.faults errors.new)) }
{
    say(errors, line);
    status
}

// Says how a run that served ended, and gives its status.
fn report_server<E: Sink>(alloc: Global, end: ServerEnd, errors: &mut E) -> u8
    ensures { ServerReports end result (E.written errors.old) (E.written errors.new)
        (Rose (E.faults errors.old) (E.faults errors.new)) }
{
    match end {
        ServerEnd::Finished => report(alloc, &End::Finished, errors),
        ServerEnd::BadConfig { code, key } => {
            let end = End::faulty(CONFIG_LINE, LineFault::BadConfig { code, key });
            report(alloc, &end, errors)
        }
        ServerEnd::ReadFault => report(alloc, &End::ReadFault, errors),
        ServerEnd::WriteFault => report(alloc, &End::WriteFault, errors),
        ServerEnd::DoorFault => say_status(errors, DOOR_FAULT_LINE, 8),
        ServerEnd::CrewFault => say_status(errors, CREW_FAULT_LINE, 9),
        ServerEnd::KeeperFault => say_status(errors, KEEPER_FAULT_LINE, 12),
        ServerEnd::BadStore => say_status(errors, BAD_STORE_LINE, 13),
        ServerEnd::OutOfMemory => report(alloc, &End::OutOfMemory, errors),
    }
}

/// The program. `serve ADDRESS SESSIONS` reads a configuration from the input, opens the door at the address, serves
/// that many connections, and writes a line of totals when all are closed. With `journal` after these words it
/// writes a journal before it, which is legal. With `view ADDRESS VIEWS` after them it also opens the second door,
/// gives each connection of that one the view of the state, at most n, and writes a line of the views after the
/// totals. With `keep PATH` last of all, and without `journal`, the keeper is opened at the path; where it has rows of
/// channels the server begins with these channels, and it is brought to the rows of what is accepted. Other words are
/// those of `run_plain`. The server asks the clock by which bans start and end. The doors, the clock and the keeper
/// are back at every return.
pub fn murmur<
    R: Wait + Copy + Send,
    I: Source,
    O: Sink,
    E: Sink,
    D: Door + Send,
    C: Crew,
    K: Clock + Send,
    P: Keeper + Send,
>(
    rt: &R,
    alloc: Global,
    words: &[String],
    input: &mut I,
    output: &mut O,
    errors: &mut E,
    door: &mut Option<D>,
    view: &mut Option<D>,
    crew: &mut C,
    clock: &mut Option<K>,
    keeper: &mut Option<P>,
) -> u8
    requires door { is_some door.old ≡ true }
    requires view { is_some view.old ≡ true }
    requires clock { is_some clock.old ≡ true }
    requires keeper { is_some keeper.old ≡ true }
    // Words without `serve` are run without the door and the crew.
    ensures plain { (BeginsWithServe (map string_bytes words.now) → ⊥) → RunsPlainly (map string_bytes words.now)
        (record { left = I.left input.old; faults = I.faults input.old })
        (record { left = I.left input.new; faults = I.faults input.new })
        (record { written = O.written output.old; faults = O.faults output.old })
        (record { written = O.written output.new; faults = O.faults output.new })
        (record { written = E.written errors.old; faults = E.faults errors.old })
        (record { written = E.written errors.new; faults = E.faults errors.new })
        (input.new ≡ input.old) (output.new ≡ output.old) result × (door.new ≡ door.old) × (view.new ≡ view.old)
        × (crew.new ≡ crew.old) × (clock.new ≡ clock.old) × (keeper.new ≡ keeper.old) }
    // `serve` runs a server that is asked to do what the words say.
    ensures serves { (asked : Service) → IsServe (map string_bytes words.now) asked →
        RunsServer D.Conn.facts
        D.facts K.last K.calls P.facts asked
        (record { left = I.left input.old; faults = I.faults input.old })
        (record { left = I.left input.new; faults = I.faults input.new })
        (record { written = O.written output.old; faults = O.faults output.old })
        (record { written = O.written output.new; faults = O.faults output.new })
        (record { written = E.written errors.old; faults = E.faults errors.old })
        (record { written = E.written errors.new; faults = E.faults errors.new })
        (record { door = door.old; view = view.old; clock = clock.old; keeper = keeper.old })
        (record { door = door.new; view = view.new; clock = clock.new; keeper = keeper.new })
        (C.counts crew.old) (C.counts crew.new) result }
    // Other words that begin with `serve` are no command.
    ensures usage { BeginsWithServe (map string_bytes words.now) →
        ((asked : Service) → IsServe (map string_bytes words.now) asked → ⊥) →
        (result ≡ 1) × (input.new ≡ input.old) × (output.new ≡ output.old) × (door.new ≡ door.old)
        × (view.new ≡ view.old)
        × (crew.new ≡ crew.old)
        × (clock.new ≡ clock.old)
        × (keeper.new ≡ keeper.old)
        × Tells usage_line (E.written errors.old) (E.written errors.new)
        (Rose (E.faults errors.old) (E.faults errors.new)) }
    // The doors are back, and so are the clock and the keeper.
    ensures door { is_some door.new ≡ true }
    ensures view { is_some view.new ≡ true }
    ensures clock { is_some clock.new ≡ true }
    ensures keeper { is_some keeper.new ≡ true }
    // Each fault has its cause in this call.
    ensures read_fault { result ≡ 3 → Rose (I.faults input.old) (I.faults input.new) }
    ensures write_fault { result ≡ 4 → Rose (O.faults output.old) (O.faults output.new) }
    ensures door_fault { result ≡ 8 → OneFailed D.facts
        (record { door = door.old; view = view.old; clock = clock.old; keeper = keeper.old })
        (record { door = door.new; view = view.new; clock = clock.new; keeper = keeper.new }) }
    ensures keeper_fault { result ≡ 12 → KeeperFailed P.facts keeper.old keeper.new }
    ensures bad_store { result ≡ 13 → GaveBadRows P.facts keeper.new }
    ensures crew_fault { result ≡ 9 → Rose (C.counts crew.old).refused (C.counts crew.new).refused }
    // No server names a line of its journal as wrong.
    ensures audit_fault { result ≡ 5 → BeginsWithServe (map string_bytes words.now) → ⊥ }
    // A server that ended well was run by the crew.
    ensures served { result ≡ 0 → (BeginsWithServe (map string_bytes words.now) → ⊥)
        ⊎ Rose (C.counts crew.old).runs (C.counts crew.new).runs }
{
    if !begins_with_serve(words) {
        return run_plain(alloc, words, input, output, errors);
    }
    let Some(asked) = serve_in(words) else {
        say(errors, USAGE_LINE);
        return 1;
    };
    runs_are_of_one_server::<D, K, P>();
    served_journals_are_legal::<D, K, P>();
    let end = run_server(
        rt, alloc, &asked, input, output, door, view, crew, clock, keeper,
    );
    report_server(alloc, end, errors)
}
