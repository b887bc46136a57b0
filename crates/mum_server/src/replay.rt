//! A recording, line by line: its transcript, and how the run over it ends.

ghost use Rattle.std.specs.Prelude.{◌≡◌, ◌+◌, ◌<◌, ◌^◌, [], IfOk, IfSome, false, string_bytes, true};
ghost use Rattle.mum_io.specs.Outside.{Appends, AppendsFront, Rose};
ghost use Rattle.mum_lines.specs.Lines.{at_start};
ghost use Rattle.mum_record.specs.Grammar.{IsRecordable};
ghost use Rattle.mum_record.specs.Head.{config_of, limits_of, recording_version, workers_of};
ghost use Rattle.mum_record.specs.Reading.{step_of};
ghost use Rattle.mum_server.specs.Program.{Ends, ReadsCounted, WritesCounted};
ghost use Rattle.mum_server.specs.Replay.{config_answer, end_of, limits_answer, phase_behind_workers, replayed};
ghost use Rattle.mum_server.specs.Replay.{version_answer, workers_answer};
ghost use Rattle.mum_server.specs.Runs.{Advances, Answers, LineAnswers, Moves, Says, StepAnswers, is_end};

use crate::end::{End, LineFault};
use crate::opening::begin;
use mum_core::{PlainCore, StepFault};
use mum_io::{Sink, Source, write_all};
use mum_lines::{LineEnd, LineReader};
use mum_record::{Limits, Step, Version, read_limits, read_step, read_workers, recording_version};
use std::alloc::Global;
use std::mem::{drop, replace};

/// Which lines may come next.
#[derive(Drop)]
pub enum Phase {
    /// The line `recording 1` or `recording 2`.
    Head,
    /// The line that gives the number of workers, in this version.
    Workers(Version),
    /// The line of the limits, after the number of workers.
    Limits(u8),
    /// The line of the configuration, after the number of workers.
    Config(u8),
    /// The line of the configuration, after the number of workers and the limits.
    LimitedConfig(u8, Limits),
    /// The lines of steps.
    Running(PlainCore),
    /// None.
    Over,
}

// The step that line `n` says.
fn read(alloc: Global, n: u64, line: &[u8]) -> Result<Step, End>
    ensures said { Says n (step_of line.now) result }
    ensures recordable { IfOk result IsRecordable }
{
    match read_step(alloc, line) {
        Ok(step) => Ok(step),
        Err(mum_record::LineFault::NotALine) => Err(End::faulty(n, LineFault::BadRecording)),
        Err(mum_record::LineFault::OutOfMemory) => Err(End::OutOfMemory),
    }
}

// Takes line `n`, which says a step, and appends what it reports.
fn take_step(core: &mut PlainCore, n: u64, step: &Step, text: &mut String) -> Result<(), End>
    requires { IsRecordable step.now }
    ensures { StepAnswers n core.old step.now (string_bytes text.old) result core.new (string_bytes text.new) }
{
    match core.take(step, text) {
        Ok(()) => {}
        Err(StepFault::Illegal { given, against }) => {
            return Err(End::faulty(n, LineFault::IllegalStep { given, against }));
        }
        Err(StepFault::OutOfMemory) => return Err(End::OutOfMemory),
    }
    text.push_str("\n")?;
    Ok(())
}

// Whether a step is the last.
fn is_end(step: &Step) -> bool
    ensures { result ≡ is_end step.now }
{
    matches!(step, Step::End)
}

// What comes after the line of the workers: that of the limits in version 2, and else that of the
// configuration.
fn behind_workers(version: Version, workers: u8) -> Phase
    ensures { result ≡ phase_behind_workers version workers }
{
    match version {
        Version::One => Phase::Config(workers),
        Version::Two => Phase::Limits(workers),
    }
}

// Takes line `n`, which says a step, and appends what it reports. Whether it was the last.
#[tactic(auto, unfolding(crate::specs::Replay::answer))]
fn take_line(
    alloc: Global,
    core: &mut PlainCore,
    n: u64,
    line: &[u8],
    text: &mut String,
) -> Result<bool, End>
    requires { string_bytes text.old ≡ [] }
    ensures { LineAnswers n core.old line.now result core.new (string_bytes text.new) }
{
    let step = read(alloc, n, line)?;
    take_step(core, n, &step, text)?;
    Ok(is_end(&step))
}

impl Phase {
    // Goes over to another phase.
    #[inline(never)]
    fn turn(&mut self, next: Phase)
        ensures { self.new ≡ next }
    {
        drop(replace(self, next));
    }

    // Takes the first line, which names the version.
    fn take_version(&mut self, n: u64, line: &[u8]) -> Result<(), End>
        ensures { Moves n (version_answer (recording_version line.now)) result self.new }
    {
        let Some(version) = recording_version(line) else {
            return Err(End::faulty(n, LineFault::BadRecording));
        };
        self.turn(Phase::Workers(version));
        Ok(())
    }

    // Takes the line of the number of workers.
    fn take_workers(&mut self, n: u64, version: Version, line: &[u8]) -> Result<(), End>
        ensures { Moves n (workers_answer version (workers_of line.now)) result self.new }
    {
        let Some(workers) = read_workers(line) else {
            return Err(End::faulty(n, LineFault::BadRecording));
        };
        self.turn(behind_workers(version, workers));
        Ok(())
    }

    // Takes the line of the limits.
    fn take_limits(&mut self, n: u64, workers: u8, line: &[u8]) -> Result<(), End>
        ensures { Moves n (limits_answer workers (limits_of line.now)) result self.new }
    {
        let Some(limits) = read_limits(line) else {
            return Err(End::faulty(n, LineFault::BadRecording));
        };
        self.turn(Phase::LimitedConfig(workers, limits));
        Ok(())
    }

    // Takes the line of the configuration.
    fn take_config(
        &mut self,
        alloc: Global,
        n: u64,
        workers: u8,
        limits: Option<Limits>,
        line: &[u8],
    ) -> Result<(), End>
        ensures { Moves n (config_answer workers limits (config_of line.now)) result self.new }
    {
        let core = begin(alloc, n, workers, limits, line)?;
        self.turn(Phase::Running(core));
        Ok(())
    }

    // Takes line `n`, which is not too long, and appends what it reports to the transcript, which has
    // nothing yet.
    #[tactic(auto, unfolding(crate::specs::Replay::answer))]
    fn take(&mut self, alloc: Global, n: u64, line: &[u8], text: &mut String) -> Result<(), End>
        requires { string_bytes text.old ≡ [] }
        ensures { Answers n self.old line.now result self.new (string_bytes text.new) }
    {
        match self {
            Phase::Head => self.take_version(n, line),
            Phase::Workers(version) => {
                let version = *version;
                self.take_workers(n, version, line)
            }
            Phase::Limits(workers) => {
                let workers = *workers;
                self.take_limits(n, workers, line)
            }
            Phase::Config(workers) => {
                let workers = *workers;
                self.take_config(alloc, n, workers, None, line)
            }
            Phase::LimitedConfig(workers, limits) => {
                let (workers, limits) = (*workers, *limits);
                self.take_config(alloc, n, workers, Some(limits), line)
            }
            Phase::Running(core) => {
                if !take_line(alloc, core, n, line, text)? {
                    return Ok(());
                }
                self.turn(Phase::Over);
                return Ok(());
            }
            Phase::Over => Err(End::faulty(n, LineFault::BadRecording)),
        }
    }
}

// A run over a recording.
#[derive(Drop)]
struct Run {
    phase: Phase,
    /// The number of the next line, from 1.
    line: u64,
    /// What the last line reported.
    text: String,
}

impl Run {
    fn new(alloc: Global) -> Run
        ensures phase { result.phase ≡ Phase.Head }
        ensures line { result.line ≡ 1 }
    {
        Run {
            phase: Phase::Head,
            line: 1,
            text: String::new(alloc),
        }
    }

    // Takes the next line.
    fn take(&mut self, alloc: Global, line: &[u8]) -> Result<(), End>
        requires { self.old.line + 1 < 2 ^ 64 }
        ensures { Advances self.old line.now result self.new }
    {
        self.text.clear();
        self.phase.take(alloc, self.line, line, &mut self.text)?;
        self.line += 1;
        Ok(())
    }

    // How the run ends at the end of the input.
    fn ended(&self) -> End
        ensures { result ≡ end_of self.now.phase self.now.line }
    {
        match self.phase {
            Phase::Over => End::Finished,
            _ => End::faulty(self.line, LineFault::BadRecording),
        }
    }
}

// Writes what a line reported. Whether all of it was written.
fn wrote<O: Sink>(output: &mut O, text: &str) -> bool
    ensures whole { result ≡ true → Appends (O.written output.old) (O.written output.new) text.now
        × (O.faults output.new ≡ O.faults output.old) }
    ensures front { result ≡ false → AppendsFront (O.written output.old) (O.written output.new) text.now × Rose
        (O.faults output.old) (O.faults output.new) }
{
    write_all(output, text.as_bytes()).is_ok()
}

// Writes the transcript of a recording, line by line, from a run that took no line yet on. What a line reports is
// written before the next line is read.
fn replay_lines<I: Source, O: Sink>(
    alloc: Global,
    reader: &mut LineReader,
    run: &mut Run,
    input: &mut I,
    output: &mut O,
) -> End
    requires reader { reader.old ≡ at_start }
    requires phase { run.old.phase ≡ Phase.Head }
    requires line { run.old.line ≡ 1 }
    ensures ends { IfSome (I.left input.old) (λ bytes. Ends (replayed bytes) result (O.written output.old)
        (O.written output.new)) }
    ensures reads { ReadsCounted result (I.faults input.old) (I.faults input.new) }
    ensures writes { WritesCounted result (O.faults output.old) (O.faults output.new) }
{
    'lines: loop {
        let line = match reader.next(input) {
            LineEnd::Line(line) => line,
            LineEnd::End => return run.ended(),
            LineEnd::Rest(_) => return End::faulty(run.line, LineFault::BadRecording),
            LineEnd::TooLong => return End::faulty(run.line, LineFault::TooLong),
            LineEnd::Failed => return End::ReadFault,
        };
        match run.take(alloc, line) {
            Ok(()) => {}
            Err(end) => return end,
        }
        if !wrote(output, run.text.as_str()) {
            return End::WriteFault;
        }
    }
}

// Reads a recording and writes its transcript, line by line, and reports how the run over it ended.
pub(crate) fn replay<I: Source, O: Sink>(alloc: Global, input: &mut I, output: &mut O) -> End
    ensures ends { IfSome (I.left input.old) (λ bytes. Ends (replayed bytes) result (O.written output.old)
        (O.written output.new)) }
    ensures reads { ReadsCounted result (I.faults input.old) (I.faults input.new) }
    ensures writes { WritesCounted result (O.faults output.old) (O.faults output.new) }
{
    let Ok(mut reader) = LineReader::new(alloc) else {
        return End::OutOfMemory;
    };
    let mut run = Run::new(alloc);
    let end = replay_lines(alloc, &mut reader, &mut run, input, output);
    drop(run);
    end
}
