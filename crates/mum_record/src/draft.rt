//! A journal as far as its lines are read, and which line may come next.

ghost use Rattle.std.specs.Prelude.{◌≡◌, ◌+◌, nat_lt, length};
ghost use Rattle.mum_record.specs.declared.draft.Stage.TheVariants as stages;
ghost use Rattle.mum_record.specs.Words.{words_in};
ghost use Rattle.mum_record.specs.JournalReading.{no_draft, journal_in};
ghost use Rattle.mum_record.specs.JournalReading as spec;
ghost use Rattle.mum_record.specs.JournalAnswers.{Takes, TakesAt, EndsEntries};

use crate::control::control_in;
use crate::entry::entry_in;
use crate::head::{Limits, Version, config_in, journal_version_in, limits_in, workers_in};
use crate::journal::{ControlEntry, Journal, WorkerEntry};
use crate::step::LineFault;
use crate::words::{Words, number_in, words_in};
use mum_base::{Items, Octets};
use std::alloc::Global;
use std::mem;

// Which line comes next.
#[derive(Clone, Copy)]
pub(crate) enum Stage {
    /// The first: `journal 1` or `journal 2`.
    Head,
    /// The second, in this version: `workers W`.
    Workers(Version),
    /// The third of version 2: `limits SESSIONS CHANNELS`.
    Limits,
    /// The last of the head: `config -` or `config HEX`.
    Config,
    /// A control entry, or `worker 0`.
    Controls,
    /// An entry of a worker, or the line that ends them.
    Entries,
    /// None: the journal has ended.
    Over,
}

// A journal as far as its lines are read.
#[derive(Drop)]
pub(crate) struct Draft {
    pub(crate) stage: Stage,
    pub(crate) workers: u8,
    pub(crate) limits: Option<Limits>,
    pub(crate) config: Octets,
    pub(crate) controls: Items<ControlEntry>,
    /// The entries of the workers that are read to their ends.
    pub(crate) by_worker: Items<Items<WorkerEntry>>,
    /// The entries of the worker whose lines are read.
    pub(crate) entries: Items<WorkerEntry>,
}

// The worker that a line names: `worker NUMBER`.
fn worker_in(line: &str) -> Option<u64>
    ensures { result ≡ spec.worker_in (words_in line.now) }
{
    let Words::Two("worker", word) = words_in(line) else {
        return None;
    };
    number_in(word)
}

// Whether the entries of worker `number` follow a line: `worker NUMBER`.
fn is_worker_line(number: u64, line: &str) -> bool
    ensures { result ≡ spec.is_worker_line number line.now }
{
    match worker_in(line) {
        Some(worker) => worker == number,
        None => false,
    }
}

impl Draft {
    // Before the first line.
    pub(crate) fn new(alloc: Global) -> Draft
        ensures { result ≡ no_draft }
    {
        Draft {
            stage: Stage::Head,
            workers: 0,
            limits: None,
            config: Octets::from_vec(Vec::new(alloc)),
            controls: Items::new(alloc),
            by_worker: Items::new(alloc),
            entries: Items::new(alloc),
        }
    }

    // The first line.
    fn take_head(&mut self, line: &str) -> Result<(), LineFault>
        ensures { TakesAt stages.Head self.old line.now result self.new }
    {
        let version = journal_version_in(line).ok_or(LineFault::NotALine)?;
        self.stage = Stage::Workers(version);
        Ok(())
    }

    // The second line.
    fn take_workers(&mut self, version: Version, line: &str) -> Result<(), LineFault>
        ensures { TakesAt (stages.Workers version) self.old line.now result self.new }
    {
        self.workers = workers_in(line).ok_or(LineFault::NotALine)?;
        self.stage = match version {
            Version::One => Stage::Config,
            Version::Two => Stage::Limits,
        };
        Ok(())
    }

    // The third line of version 2.
    fn take_limits(&mut self, line: &str) -> Result<(), LineFault>
        ensures { TakesAt stages.Limits self.old line.now result self.new }
    {
        let limits = limits_in(line).ok_or(LineFault::NotALine)?;
        self.limits = Some(limits);
        self.stage = Stage::Config;
        Ok(())
    }

    // The last line of the head.
    fn take_config(&mut self, alloc: Global, line: &str) -> Result<(), LineFault>
        ensures { TakesAt stages.Config self.old line.now result self.new }
    {
        self.config = config_in(alloc, line)?;
        self.stage = Stage::Controls;
        Ok(())
    }

    // A control entry, or the line after them.
    fn take_control(&mut self, alloc: Global, line: &str) -> Result<(), LineFault>
        ensures { TakesAt stages.Controls self.old line.now result self.new }
    {
        if is_worker_line(0, line) {
            self.stage = Stage::Entries;
            return Ok(());
        }
        let entry = control_in(alloc, line)?;
        self.controls.push(entry)?;
        Ok(())
    }

    // Whether a worker follows the one whose entries are read.
    fn has_next_worker(&self) -> bool
        ensures { result ≡ nat_lt (length self.now.by_worker + 1) self.now.workers }
    {
        self.by_worker.as_slice().len() + 1 < usize::from(self.workers)
    }

    // Whether a line ends the entries of a worker: that of the next worker, or after the last one
    // that of the end.
    fn ends_entries(&self, line: &str) -> bool
        ensures { result ≡ spec.ends_entries self.now line.now }
    {
        if self.has_next_worker() {
            is_worker_line(self.by_worker.as_slice().len() as u64 + 1, line)
        } else {
            line == "end"
        }
    }

    // The entries of the worker are all there.
    fn end_entries(&mut self, alloc: Global) -> Result<(), LineFault>
        ensures { EndsEntries self.old result self.new }
    {
        self.stage = if self.has_next_worker() {
            Stage::Entries
        } else {
            Stage::Over
        };
        let entries = mem::replace(&mut self.entries, Items::new(alloc));
        self.by_worker.push(entries)?;
        Ok(())
    }

    // An entry of a worker, or the line after them.
    fn take_entry(&mut self, alloc: Global, line: &str) -> Result<(), LineFault>
        ensures { TakesAt stages.Entries self.old line.now result self.new }
    {
        if self.ends_entries(line) {
            return self.end_entries(alloc);
        }
        let entry = entry_in(alloc, line)?;
        self.entries.push(entry)?;
        Ok(())
    }

    // The next line, if it is one that may come.
    #[tactic(auto, unfolding(crate::specs::JournalReading::taken))]
    fn take_text(&mut self, alloc: Global, line: &str) -> Result<(), LineFault>
        ensures { Takes self.old line.now result self.new }
    {
        match self.stage {
            Stage::Head => self.take_head(line),
            Stage::Workers(version) => self.take_workers(version, line),
            Stage::Limits => self.take_limits(line),
            Stage::Config => self.take_config(alloc, line),
            Stage::Controls => self.take_control(alloc, line),
            Stage::Entries => self.take_entry(alloc, line),
            Stage::Over => Err(LineFault::NotALine),
        }
    }

    // The next line, which may be any bytes, if it is one that may come.
    pub(crate) fn take(&mut self, alloc: Global, line: &[u8]) -> Result<(), LineFault>
        ensures { Takes self.old line.now result self.new }
    {
        match str::from_utf8(line) {
            Ok(text) => self.take_text(alloc, text),
            Err(_) => Err(LineFault::NotALine),
        }
    }

    // The journal that was read.
    pub(crate) fn into_journal(self) -> Journal
        ensures { result ≡ journal_in self }
    {
        let Draft {
            workers,
            limits,
            config,
            controls,
            by_worker,
            ..
        } = self;
        Journal {
            workers,
            limits,
            config,
            controls,
            by_worker,
        }
    }
}
