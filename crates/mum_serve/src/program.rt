//! A run of the program that serves: from the configuration that the input is to the line of the totals.

ghost use Rattle.std.specs.Prelude.{◌≡◌, ◌<◌, ◌≤◌, ◌++◌, ℕ, IfErr, IfOk, IfSome, IsTrue, is_some, length};
ghost use Rattle.std.specs.Prelude.{string_bytes, true};
ghost use Rattle.mum_config.specs.Limits.{FitAfterLimits, settings_and_accounts};
ghost use Rattle.mum_record.specs.Journal.{IsWritableJournal};
ghost use Rattle.mum_serve.specs.Asked.{service};
ghost use Rattle.mum_serve.specs.Journals.{AreWritable, journal_of, journal_text, where_asked};
ghost use Rattle.mum_serve.specs.Program.{Describes, DescribesConfig, EndsAt, EndsWith, IsRefusal, ReadsCounted};
ghost use Rattle.mum_serve.specs.Program.{RunsInCrew, Says, WritesCounted, WritesText};
ghost use Rattle.mum_serve.specs.Program.{last_lines, refusal, served_line, text_of, written_of};
ghost use Rattle.mum_state.specs.After.{all_fit};
ghost use Rattle.mum_state.specs.State.{empty_state};

use crate::asked::Asked;
use crate::entries::{Entries, journal_of};
use crate::server::{Served, serve};
use crate::summary::Summary;
use crate::totals::Totals;
use mum_base::{Octets, OutOfMemory, Text};
use mum_config::{BadConfig, Config, DOCUMENT_LIMIT};
use mum_crew::Crew;
use mum_io::{Clock, Door, ReadFault, Sink, Source, read_up_to, write_all};
use mum_keeper::Keeper;
use mum_opening::read_document;
use mum_record::{Journal, Word, push_line, write_journal};
use std::alloc::Global;
use std::mem::drop;
use std::sync::Wait;

/// How a run that serves ends.
#[derive(Drop)]
pub enum ServerEnd {
    /// All connections were served to their ends. The journal, where one was asked for, and the last lines are written.
    Finished,
    /// The configuration has this first fault, by its number. Nothing was opened or written.
    BadConfig { code: u8, key: Text },
    /// The rows of the keeper are not those of channels that a server may have. No door was opened, and nothing is written.
    BadStore,
    /// The input failed. Nothing was opened or written.
    ReadFault,
    /// The output failed.
    WriteFault,
    /// A door did not open; or it failed later, and the last lines are written.
    DoorFault,
    /// The crew did not start.
    CrewFault,
    /// A call of the keeper failed: before any door was opened; or later, and the last lines are written.
    KeeperFault,
    /// Memory ran out: before the run, or on the way, where the last lines are written.
    OutOfMemory,
}

/// What the input says.
#[derive(Drop)]
pub struct Input {
    pub config: Config,
    /// Its bytes.
    pub document: Octets,
}

// How a run ends whose document was not read.
fn refusal(error: BadConfig) -> ServerEnd
    ensures { result ≡ refusal error }
{
    match error {
        BadConfig::Fault { code, key } => ServerEnd::BadConfig { code, key },
        BadConfig::OutOfMemory => ServerEnd::OutOfMemory,
    }
}

// The configuration that these bytes describe.
fn described(alloc: Global, bytes: &[u8]) -> Result<Config, ServerEnd>
    ensures describes { Describes bytes.now result }
    ensures fit { IfOk result (λ config. IsTrue (all_fit empty_state config.edits)) }
    ensures limited { IfOk result (λ config. FitAfterLimits config.edits) }
    ensures alone { IfOk result (λ config. FitAfterLimits (settings_and_accounts config.edits)) }
    ensures workers { IfOk result (λ config. (1 ≤ config.workers) × (config.workers ≤ 8)) }
    ensures refuses { IfErr result IsRefusal }
    ensures not_read { (faults : ℕ) → IfErr result (λ end. ReadsCounted end faults faults) }
{
    match read_document(alloc, bytes) {
        Ok(config) => Ok(config),
        Err(error) => Err(refusal(error)),
    }
}

// The configuration that the input is, and its bytes.
fn input_in<I: Source>(alloc: Global, input: &mut I) -> Result<Input, ServerEnd>
    ensures says { Says (I.left input.old) result }
    ensures fit { IfOk result (λ said. IsTrue (all_fit empty_state said.config.edits)) }
    ensures limited { IfOk result (λ said. FitAfterLimits said.config.edits) }
    ensures alone { IfOk result (λ said. FitAfterLimits (settings_and_accounts said.config.edits)) }
    ensures workers { IfOk result (λ said. (1 ≤ said.config.workers) × (said.config.workers ≤ 8)) }
    ensures refuses { IfErr result IsRefusal }
    ensures read { IfOk result (λ _. I.faults input.new ≡ I.faults input.old) }
    ensures not_read { IfErr result (λ end. ReadsCounted end (I.faults input.old) (I.faults input.new)) }
{
    match read_up_to(alloc, input, DOCUMENT_LIMIT) {
        Ok(bytes) => match described(alloc, &bytes) {
            Ok(config) => {
                let document = Octets::from_vec(bytes);
                Ok(Input { config, document })
            }
            Err(end) => Err(end),
        },
        Err(ReadFault::Failed) => Err(ServerEnd::ReadFault),
        Err(ReadFault::OutOfMemory) => Err(ServerEnd::OutOfMemory),
    }
}

// The line of the totals.
#[tactic(auto, unfolding(crate::specs::Program::served_line))]
fn totals_line(alloc: Global, totals: Totals) -> Result<String, OutOfMemory>
    ensures { IfOk result (λ line. string_bytes line ≡ served_line totals) }
{
    let words = [
        Word::Name("connections"),
        Word::Number(u64::from(totals.connections)),
        Word::Name("accepted"),
        Word::Number(totals.accepted),
        Word::Name("looks"),
        Word::Number(totals.looks),
        Word::Name("copies"),
        Word::Number(totals.copies),
        Word::Name("full"),
        Word::Number(totals.full),
        Word::Name("stale"),
        Word::Number(totals.stale),
    ];
    let mut line = String::new(alloc);
    push_line(alloc, &mut line, "served", &words)?;
    line.push_str("\n")?;
    Ok(line)
}

// How a run ends whose text is written. Memory that ran out on the way counts before a door that failed, and this before
// a keeper that failed.
fn written(summary: &Summary) -> ServerEnd
    ensures { result ≡ written_of summary.now }
{
    if summary.no_memory {
        ServerEnd::OutOfMemory
    } else if summary.door_failed {
        ServerEnd::DoorFault
    } else if summary.keeper_failed {
        ServerEnd::KeeperFault
    } else {
        ServerEnd::Finished
    }
}

// The last lines of a run.
fn last_lines(alloc: Global, summary: &Summary) -> Result<String, OutOfMemory>
    ensures { IfOk result (λ lines. string_bytes lines ≡ last_lines summary.now) }
{
    let mut lines = totals_line(alloc, summary.totals)?;
    if let Some(views) = summary.viewed {
        push_line(alloc, &mut lines, "viewed", &[Word::Number(views)])?;
        lines.push_str("\n")?;
    }
    Ok(lines)
}

// Writes the last lines of a run.
fn write_last<O: Sink>(alloc: Global, summary: &Summary, output: &mut O) -> ServerEnd
    ensures writes { WritesText (last_lines summary.now) summary.now result (O.written output.old)
        (O.written output.new) }
    ensures counts { WritesCounted result (O.faults output.old) (O.faults output.new) }
{
    let Ok(lines) = last_lines(alloc, summary) else {
        return ServerEnd::OutOfMemory;
    };
    if write_all(output, lines.as_bytes()).is_err() {
        return ServerEnd::WriteFault;
    }
    written(summary)
}

// Writes a text, and the last lines after it.
fn write_behind<O: Sink>(text: &[u8], lines: &[u8], summary: &Summary, output: &mut O) -> ServerEnd
    ensures writes { WritesText (text.now ++ lines.now) summary.now result (O.written output.old)
        (O.written output.new) }
    ensures counts { WritesCounted result (O.faults output.old) (O.faults output.new) }
{
    if write_all(output, text).is_err() {
        return ServerEnd::WriteFault;
    }
    if write_all(output, lines).is_err() {
        return ServerEnd::WriteFault;
    }
    written(summary)
}

// Writes a journal, and the last lines. All text is made before any is written.
fn write_journal_and_last<O: Sink>(
    alloc: Global,
    journal: &Journal,
    summary: &Summary,
    output: &mut O,
) -> ServerEnd
    requires { IsWritableJournal journal.now }
    ensures writes { WritesText (journal_text journal.now ++ last_lines summary.now) summary.now result
        (O.written output.old) (O.written output.new) }
    ensures counts { WritesCounted result (O.faults output.old) (O.faults output.new) }
{
    let Ok(text) = write_journal(alloc, journal) else {
        return ServerEnd::OutOfMemory;
    };
    let Ok(lines) = last_lines(alloc, summary) else {
        return ServerEnd::OutOfMemory;
    };
    write_behind(text.as_slice(), lines.as_bytes(), summary, output)
}

// The journal, where one was asked for.
fn journal_asked(journal: bool, workers: u8, document: Octets, entries: Entries) -> Option<Journal>
    requires workers { (1 ≤ workers) × (workers ≤ 8) }
    requires lists { length entries.by_worker ≡ workers }
    requires writable { AreWritable entries }
    ensures journal { result ≡ where_asked journal (journal_of workers document entries) }
    ensures writable { IfSome result IsWritableJournal }
{
    if journal {
        return Some(journal_of(workers, document, entries));
    }
    drop(document);
    drop(entries);
    None
}

// Writes the journal, where one was asked for, and the last lines.
fn write_out<O: Sink>(
    alloc: Global,
    journal: Option<Journal>,
    summary: &Summary,
    output: &mut O,
) -> ServerEnd
    requires { IfSome journal IsWritableJournal }
    ensures writes { WritesText (text_of journal summary.now) summary.now result (O.written output.old)
        (O.written output.new) }
    ensures counts { WritesCounted result (O.faults output.old) (O.faults output.new) }
{
    match journal {
        Some(journal) => write_journal_and_last(alloc, &journal, summary, output),
        None => write_last(alloc, summary, output),
    }
}

// Serves a configuration, and writes what came of it.
fn serve_input<
    R: Wait + Copy + Send,
    O: Sink,
    D: Door + Send,
    C: Crew,
    K: Clock + Send,
    P: Keeper + Send,
>(
    rt: &R,
    alloc: Global,
    said: Input,
    asked: &Asked<'_>,
    output: &mut O,
    door: &mut Option<D>,
    view: &mut Option<D>,
    crew: &mut C,
    clock: &mut Option<K>,
    keeper: &mut Option<P>,
) -> ServerEnd
    requires fit { IsTrue (all_fit empty_state said.config.edits) }
    requires limited { FitAfterLimits said.config.edits }
    requires alone { FitAfterLimits (settings_and_accounts said.config.edits) }
    requires workers { (1 ≤ said.config.workers) × (said.config.workers ≤ 8) }
    requires described { DescribesConfig said.document said.config }
    requires door { is_some door.old ≡ true }
    requires view { is_some view.old ≡ true }
    requires clock { is_some clock.old ≡ true }
    requires keeper { is_some keeper.old ≡ true }
    requires connections { 0 < asked.now.connections }
    ensures ends { EndsWith D.Conn.facts D.facts K.last K.calls P.facts (service asked.now) said result
        (record { door = door.old; view = view.old; clock = clock.old; keeper = keeper.old })
        (record { door = door.new; view = view.new; clock = clock.new; keeper = keeper.new })
        (O.written output.old) (O.written output.new) (C.counts crew.old) (C.counts crew.new) }
    ensures runs { RunsInCrew result (C.counts crew.old) (C.counts crew.new) }
    ensures writes { WritesCounted result (O.faults output.old) (O.faults output.new) }
{
    let Input { config, document } = said;
    match serve(rt, alloc, &config, asked, door, view, crew, clock, keeper) {
        Served::Whole { summary, entries } => {
            let journal = journal_asked(asked.journal, config.workers, document, entries);
            write_out(alloc, journal, &summary, output)
        }
        Served::KeeperFault => ServerEnd::KeeperFault,
        Served::BadStore => ServerEnd::BadStore,
        Served::DoorFault => ServerEnd::DoorFault,
        Served::CrewFault => ServerEnd::CrewFault,
        Served::OutOfMemory => ServerEnd::OutOfMemory,
    }
}

/// Does what a server is asked to do, from the configuration that the input is, and writes the journal, where one is
/// asked for, the line of the totals, and the line of the views, where they are asked for. The journal holds each command
/// and each packet, from the first connection on, in memory until all have closed. Where channels are kept, the keeper is
/// opened once the configuration is read, and before any door. The doors, the clock and the keeper are back at every
/// return.
pub fn run_server<
    R: Wait + Copy + Send,
    I: Source,
    O: Sink,
    D: Door + Send,
    C: Crew,
    K: Clock + Send,
    P: Keeper + Send,
>(
    rt: &R,
    alloc: Global,
    asked: &Asked<'_>,
    input: &mut I,
    output: &mut O,
    door: &mut Option<D>,
    view: &mut Option<D>,
    crew: &mut C,
    clock: &mut Option<K>,
    keeper: &mut Option<P>,
) -> ServerEnd
    requires door { is_some door.old ≡ true }
    requires view { is_some view.old ≡ true }
    requires clock { is_some clock.old ≡ true }
    requires keeper { is_some keeper.old ≡ true }
    requires connections { 0 < asked.now.connections }
    ensures ends { EndsAt D.Conn.facts D.facts K.last K.calls P.facts (service asked.now) (I.left input.old) result
        (record { door = door.old; view = view.old; clock = clock.old; keeper = keeper.old })
        (record { door = door.new; view = view.new; clock = clock.new; keeper = keeper.new })
        (O.written output.old) (O.written output.new) (C.counts crew.old) (C.counts crew.new) }
    ensures runs { RunsInCrew result (C.counts crew.old) (C.counts crew.new) }
    ensures reads { ReadsCounted result (I.faults input.old) (I.faults input.new) }
    ensures writes { WritesCounted result (O.faults output.old) (O.faults output.new) }
{
    match input_in(alloc, input) {
        Ok(said) => serve_input(
            rt, alloc, said, asked, output, door, view, crew, clock, keeper,
        ),
        Err(end) => end,
    }
}
