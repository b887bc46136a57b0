//! A keeper, and the rows to which it was brought last.

ghost use Rattle.std.specs.Prelude.{◌≡◌, true};
ghost use Rattle.mum_keeper.specs.Changes.{AreInOrder};
ghost use Rattle.mum_keeper.specs.Keeping.{AreRowsOf};
ghost use Rattle.mum_keeper.specs.Mirror.{Brings, Compares, IsSince, failed_now, new_mirror, opening_of, rows_left, starved_now};
ghost use Rattle.mum_keeper.specs.declared.keeper.KeepEnd.{KeepEnd};

use crate::keeper::{KeepEnd, Keeper};
use crate::merge::difference;
use crate::naming::Keeping;
use mum_kept::KeptRows;
use std::alloc::Global;
use std::marker::{Model, PhantomData};
use std::mem::{drop, replace};

// A keeper, and the rows to which it was brought last.
#[derive(Drop)]
pub(crate) struct Mirror<P: Keeper, N: Keeping> {
    keeper: P,
    // What the last `Kept` left, or what the keeper was opened with.
    rows: KeptRows,
    failed: bool,
    no_memory: bool,
    of: PhantomData<N>,
}

impl<P: Keeper, N: Keeping> Model for Mirror<P, N> {
    ghost use Rattle.mum_keeper.specs.Mirror.{IsMirror, MirrorFacts};

    ghost Value = { MirrorFacts P };

    ghost view = { λ m. record { keeper = m.keeper; rows = m.rows; failed = m.failed; no_memory = m.no_memory } };

    ghost invariant = { λ m. IsMirror N.keeper (P.facts m.keeper) m.rows m.failed };
}

// Brings a keeper that has some rows to others, where they differ.
fn bring<P: Keeper>(alloc: Global, keeper: &mut P, rows: &KeptRows, now: &KeptRows) -> KeepEnd
    requires rows { AreRowsOf (P.facts keeper.old).rows rows.now }
    requires order { AreInOrder now.now }
    ensures { Brings P.facts keeper.old rows.now now.now result keeper.new }
{
    let Ok(changes) = difference(alloc, rows, now) else {
        return KeepEnd::NoMemory;
    };
    let list = changes.as_slice();
    if list.is_empty() {
        return KeepEnd::Kept;
    }
    keeper.keep(list)
}

// The new rows, where they were kept.
fn take_over(rows: &mut KeptRows, now: KeptRows, end: KeepEnd)
    ensures { rows.new ≡ rows_left end rows.old now }
{
    match end {
        KeepEnd::Kept => drop(replace(rows, now)),
        KeepEnd::Failed => drop(now),
        KeepEnd::NoMemory => drop(now),
    }
}

fn has_failed(end: KeepEnd, failed: bool) -> bool
    ensures { result ≡ failed_now end failed }
{
    match end {
        KeepEnd::Kept => failed,
        KeepEnd::Failed => true,
        KeepEnd::NoMemory => failed,
    }
}

fn has_starved(end: KeepEnd, no_memory: bool) -> bool
    ensures { result ≡ starved_now end no_memory }
{
    match end {
        KeepEnd::Kept => no_memory,
        KeepEnd::Failed => no_memory,
        KeepEnd::NoMemory => true,
    }
}

impl<P: Keeper, N: Keeping> Mirror<P, N> {
    // A keeper that has these rows, where its rows are known.
    pub(crate) fn new(keeper: P, rows: KeptRows) -> Mirror<P, N>
        requires rows { AreRowsOf (P.facts keeper).rows rows }
        requires keeper { opening_of (P.facts keeper) ≡ N.keeper }
        ensures { result ≡ new_mirror keeper rows }
    {
        Mirror {
            keeper,
            rows,
            failed: false,
            no_memory: false,
            of: PhantomData,
        }
    }

    // The rows to which the keeper was brought last.
    pub(crate) fn rows(&self) -> &KeptRows
        ensures { result.now ≡ self.now.rows }
    {
        &self.rows
    }

    // Brings the keeper to these rows, where they differ from those to which it was brought last.
    pub(crate) fn compare(&mut self, alloc: Global, now: KeptRows) -> KeepEnd
        requires { AreInOrder now }
        ensures { Compares P.facts self.old now result self.new }
    {
        let end = bring(alloc, &mut self.keeper, &self.rows, &now);
        take_over(&mut self.rows, now, end);
        self.failed = has_failed(end, self.failed);
        self.no_memory = has_starved(end, self.no_memory);
        end
    }

    // There was no memory for the rows that were to be compared.
    pub(crate) fn starve(&mut self) -> KeepEnd
        ensures end { result ≡ KeepEnd.NoMemory }
        ensures starved { self.new ≡ record self.old { no_memory = true } }
    {
        self.no_memory = true;
        KeepEnd::NoMemory
    }

    // The keeper, whether it failed, and whether memory ran out.
    pub(crate) fn close(self) -> (P, bool, bool)
        ensures keeper { result.0 ≡ self.keeper }
        ensures failed { result.1 ≡ self.failed }
        ensures no_memory { result.2 ≡ self.no_memory }
        ensures rows { AreRowsOf (P.facts result.0).rows self.rows }
        ensures since { IsSince N.keeper (P.facts result.0) result.1 }
    {
        let Mirror {
            keeper,
            rows: _,
            failed,
            no_memory,
            of: _,
        } = self;
        (keeper, failed, no_memory)
    }
}
