//! The keeper.

ghost use Rattle.std.specs.Prelude.{◌≡◌, Some};
ghost use Rattle.mum_keeper.specs.Keeping.{KeepCall, KeepCounts, Makes, OpenCall, OpensAt, with_call};
ghost use Rattle.mum_keeper.specs.declared.keeper.KeepEnd.{KeepEnd};

use crate::failures::Failures;
use crate::file::{OpenFile, shut};
use crate::kept_file::{make_changes, open_at, read_from};
use mum_base::{Items, Text};
use mum_keeper::{Change, KeepEnd, Keeper, KeptRows, Loaded};
use sqlite::Unknown;
use std::alloc::Global;
use std::marker::Model;
use std::mem::drop;

/// A keeper over a SQLite file, in the tables `channels` and `links`. It does not say which rows it has, since
/// no clause says what a file holds. Each failure is counted as a fault, unless memory ran out. Where changes
/// failed, the file is closed, and opened again by the next ones; it holds the rows before the changes that
/// failed, or those after them until then. That rows are not kept, and that they are again, is written to the
/// standard error stream.
pub struct SqlKeeper {
    rt: HostRuntime,
    // The path at which it was opened.
    path: Option<Text>,
    open: Option<OpenFile<Unknown>>,
    // After these changes the rows are those before the changes that failed, whether these were made or not.
    undo: Vec<Change>,
    faults: Failures,
}

// It is written out, so that a caller does not prove again how each part is dropped.
impl Drop for SqlKeeper {
    fn drop(self) {
        let SqlKeeper {
            rt: _,
            path: _,
            open: _,
            undo: _,
            faults: _,
        } = self;
    }
}

impl Model for SqlKeeper {
    ghost use Rattle.std.specs.Prelude.{None};
    ghost use Rattle.mum_keeper.specs.Keeping.{KeeperFacts};

    ghost Value = { KeeperFacts };

    ghost view = { λ k. record { faults = k.faults; rows = None; opened_at = k.path; calls = None } };
}

fn report_count(rt: &HostRuntime, count: usize, path: &str) {
    let _written = eprintln!(rt;
        "murmur: {count} channels kept in {path}; those of the configuration are left aside"
    );
}

fn report_rows(rt: &HostRuntime, path: &Option<Text>, rows: &KeptRows) {
    let count = rows.channels.as_slice().len();
    if let Some(path) = path {
        if count > 0 {
            report_count(rt, count, path.as_str());
        }
    }
}

fn no_rows(alloc: Global) -> KeptRows {
    KeptRows {
        channels: Items::new(alloc),
        links: Items::new(alloc),
    }
}

impl SqlKeeper {
    ghost use Rattle.std.specs.Prelude.{None};

    /// A keeper that was not opened yet.
    pub fn new(rt: HostRuntime) -> SqlKeeper
        ensures { result ≡ record { faults = 0; rows = None; opened_at = None; calls = None } }
    {
        SqlKeeper {
            rt,
            path: None,
            open: None,
            undo: Vec::new(rt.alloc()),
            faults: Failures::new(rt),
        }
    }

    /// Shuts the file. What is in the log beside it is copied into it; that this failed is counted as a fault. Later
    /// calls fail until it is opened again.
    pub fn close(&mut self) -> KeepEnd
        ensures counts { KeepCounts result self.old.faults self.new.faults }
        ensures others { self.new ≡ record self.old { faults = self.new.faults; opened_at = None } }
    {
        drop(self.path.take());
        match shut(&mut self.open) {
            Ok(()) => KeepEnd::Kept,
            Err(error) => self.faults.fail(error),
        }
    }
}

impl Keeper for SqlKeeper {
    ghost use Rattle.std.specs.Prelude.{None};

    ghost facts = { λ k. k };

    fn open(&mut self, path: &str) -> KeepEnd
        ensures counts { KeepCounts result self.old.faults self.new.faults }
        ensures path { OpensAt result self.old.opened_at self.new.opened_at path.now }
        ensures rows { self.new.rows ≡ self.old.rows }
        ensures calls { self.new.calls ≡ with_call (OpenCall path.now) self.old.calls }

        ensures named { result ≡ KeepEnd.Kept → self.new.opened_at ≡ Some path.now }
    {
        let rt = self.rt;
        match open_at(&rt, path, Unknown, &mut self.open, &mut self.path) {
            Ok(()) => {
                self.undo.clear();
                KeepEnd::Kept
            }
            Err(error) => self.faults.fail(error),
        }
    }

    fn load(&mut self, alloc: Global) -> Loaded {
        let mut rows = no_rows(alloc);
        match read_from(&mut self.open, &mut rows) {
            Ok(()) => {
                report_rows(&self.rt, &self.path, &rows);
                Loaded::Rows(rows)
            }
            Err(error) => {
                drop(rows);
                match self.faults.fail(error) {
                    KeepEnd::NoMemory => Loaded::NoMemory,
                    KeepEnd::Failed => Loaded::Failed,
                    KeepEnd::Kept => unreachable!(),
                }
            }
        }
    }

    fn keep(&mut self, changes: &[Change]) -> KeepEnd
        ensures counts { KeepCounts result self.old.faults self.new.faults }
        ensures makes { Makes result changes.now self.old.rows self.new.rows }
        ensures path { self.new.opened_at ≡ self.old.opened_at }
        ensures calls { self.new.calls ≡ with_call (KeepCall changes.now) self.old.calls }

        ensures not_open { self.old.opened_at ≡ None → result ≡ KeepEnd.Failed }
    {
        let rt = self.rt;
        match make_changes(
            &rt,
            &self.path,
            Unknown,
            &mut self.open,
            &mut self.undo,
            changes,
        ) {
            Ok(_) => {
                self.faults.succeed();
                KeepEnd::Kept
            }
            Err(error) => self.faults.fail(error),
        }
    }
}
