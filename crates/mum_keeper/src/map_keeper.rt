//! A keeper in memory.

ghost use Rattle.std.specs.Prelude.{◌≡◌, ◌↔◌, if◌then◌else◌, IsTrue, None, Some};
ghost use Rattle.std.specs.Option.{option_copied};
ghost use Rattle.mum_io.specs.Calls.{next_fails};
ghost use Rattle.mum_io.specs.Counts.{Rose};
ghost use Rattle.mum_keeper.specs.Keeping.{KeepCall, KeepCounts, LoadCall, LoadCounts, Loads, Makes, OpenCall, OpensAt, with_call};
ghost use Rattle.mum_keeper.specs.declared.keeper.KeepEnd.{KeepEnd};
ghost use Rattle.mum_keeper.specs.declared.keeper.Loaded.{Loaded};

use crate::change::Change;
use crate::keeper::{KeepEnd, Keeper, Loaded};
use crate::tables::Tables;
use mum_base::{ChannelId, Octets};
use mum_io::calls::Calls;
use mum_kept::KeptChannel;
use std::alloc::Global;
use std::marker::Model;
use std::mem::replace;

/// A keeper in memory, for tests. It fails the calls with the numbers that it is given.
#[derive(Drop)]
pub struct MapKeeper {
    alloc: Global,
    tables: Tables,
    calls: Calls,
    faults: u64,
    path: Option<Octets>,
}

impl Model for MapKeeper {
    ghost use Rattle.mum_keeper.specs.MapKeeper.{KeeperState};

    ghost Value = { KeeperState };

    ghost view = { λ k. record { rows = k.tables; calls = k.calls; faults = k.faults; opened_at = k.path } };
}

impl MapKeeper {
    ghost use Rattle.mum_keeper.specs.MapKeeper.{called, failed, new_keeper};

    /// A keeper without rows. The calls of `open`, `load` and `keep` that have these numbers, from 1, fail.
    pub fn new(alloc: Global, failing: Vec<u64>) -> MapKeeper
        ensures { result ≡ new_keeper failing.items }
    {
        MapKeeper {
            alloc,
            tables: Tables::new(alloc),
            calls: Calls::new(failing),
            faults: 0,
            path: None,
        }
    }

    /// The channels that it has, in order of number.
    pub fn channels(&self) -> &[KeptChannel]
        ensures { result.now ≡ self.now.rows.channels }
    {
        self.tables.channels()
    }

    /// The links that it has, each with the lesser channel first, in order.
    pub fn links(&self) -> &[(ChannelId, ChannelId)]
        ensures { result.now ≡ self.now.rows.links }
    {
        self.tables.links()
    }

    /// The path at which it was opened last.
    pub fn path(&self) -> Option<&Octets>
        ensures { option_copied result ≡ self.now.opened_at }
    {
        self.path.as_ref()
    }

    // Counts a call, and the fault where it is to fail. Whether it is to fail.
    fn begin(&mut self) -> bool
        ensures fails { result ≡ next_fails self.old.calls }
        ensures counted { self.new ≡ (if result then failed self.old else called self.old) }
        ensures rose { IsTrue result → Rose self.old.faults self.new.faults }
    {
        if !self.calls.begin() {
            return false;
        }
        self.faults = self.faults.saturating_add(1);
        true
    }
}

impl Keeper for MapKeeper {
    ghost use Rattle.mum_keeper.specs.MapKeeper.{after_keep, after_load, after_open, facts_of};

    ghost facts = { facts_of };

    fn open(&mut self, path: &str) -> KeepEnd
        ensures counts { KeepCounts result self.old.faults self.new.faults }
        ensures path { OpensAt result self.old.opened_at self.new.opened_at path.now }
        ensures rows { Some self.new.rows ≡ Some self.old.rows }
        ensures calls { None ≡ with_call (OpenCall path.now) None }

        ensures fails { (result ≡ KeepEnd.Failed) ↔ IsTrue (next_fails self.old.calls) }
        ensures state { self.new ≡ after_open self.old path.now result }
    {
        if self.begin() {
            return KeepEnd::Failed;
        }
        match Octets::of(self.alloc, path.as_bytes()) {
            Ok(path) => {
                drop(self.path.replace(path));
                KeepEnd::Kept
            }
            Err(_) => KeepEnd::NoMemory,
        }
    }

    fn load(&mut self, alloc: Global) -> Loaded
        ensures counts { LoadCounts result self.old.faults self.new.faults }
        ensures loads { Loads result (Some self.new.rows) }
        ensures path { self.new.opened_at ≡ self.old.opened_at }
        ensures rows { Some self.new.rows ≡ Some self.old.rows }
        ensures calls { None ≡ with_call LoadCall None }

        ensures fails { (result ≡ Loaded.Failed) ↔ IsTrue (next_fails self.old.calls) }
        ensures state { self.new ≡ after_load self.old result }
    {
        if self.begin() {
            return Loaded::Failed;
        }
        match self.tables.rows(alloc) {
            Ok(rows) => Loaded::Rows(rows),
            Err(_) => Loaded::NoMemory,
        }
    }

    fn keep(&mut self, changes: &[Change]) -> KeepEnd
        ensures counts { KeepCounts result self.old.faults self.new.faults }
        ensures makes { Makes result changes.now (Some self.old.rows) (Some self.new.rows) }
        ensures path { self.new.opened_at ≡ self.old.opened_at }
        ensures calls { None ≡ with_call (KeepCall changes.now) None }

        ensures fails { (result ≡ KeepEnd.Failed) ↔ IsTrue (next_fails self.old.calls) }
        ensures state { self.new ≡ after_keep self.old changes.now result }
    {
        if self.begin() {
            return KeepEnd::Failed;
        }
        match self.tables.changed(self.alloc, changes) {
            Ok(tables) => {
                drop(replace(&mut self.tables, tables));
                KeepEnd::Kept
            }
            Err(_) => KeepEnd::NoMemory,
        }
    }
}
