//! The changes that lead from rows to others.

ghost use Rattle.std.specs.Prelude.{◌≡◌, ◌++◌, ◌∷◌, [], if◌then◌else◌, IfOk, OnOk, map};
ghost use Rattle.std.specs.Option.{option_copied};
ghost use Rattle.mum_keeper.specs.Changes.{difference};
ghost use Rattle.mum_keeper.specs.Order.{any_like, is_alone, is_new, others_done, rows_done, step_of, unmatched};

use crate::change::Change;
use crate::row::Row;
use mum_base::OutOfMemory;
use mum_kept::KeptRows;
use std::alloc::Global;

/// How the first rows of two lists that rise lie.
#[derive(Clone, Copy)]
pub enum Step {
    /// The first is before the other, or there is no other.
    Alone,
    /// The first is after the other.
    Behind,
    /// Both are one row.
    Same,
    /// Both have one key, and differ otherwise.
    Differs,
}

impl Step {
    // How many rows of the first list are done with.
    fn rows(self) -> usize
        ensures { result ≡ rows_done self }
    {
        match self {
            Step::Alone => 1,
            Step::Behind => 0,
            Step::Same => 1,
            Step::Differs => 1,
        }
    }

    // How many rows of the other list are done with.
    fn others(self) -> usize
        ensures { result ≡ others_done self }
    {
        match self {
            Step::Alone => 0,
            Step::Behind => 1,
            Step::Same => 1,
            Step::Differs => 1,
        }
    }

    fn is_alone(self) -> bool
        ensures { result ≡ is_alone self }
    {
        match self {
            Step::Alone => true,
            Step::Behind => false,
            Step::Same => false,
            Step::Differs => false,
        }
    }

    // The row of the first list is not in the other.
    fn is_new(self) -> bool
        ensures { result ≡ is_new self }
    {
        match self {
            Step::Alone => true,
            Step::Behind => false,
            Step::Same => false,
            Step::Differs => true,
        }
    }
}

fn step_of<T: Row>(row: &T, other: Option<&T>) -> Step
    ensures { result ≡ step_of T.before T.same row.now (option_copied other.entry) }
{
    let Some(other) = other else {
        return Step::Alone;
    };
    if row.is_before(other) {
        return Step::Alone;
    }
    if other.is_before(row) {
        return Step::Behind;
    }
    if row.is_same(other) {
        return Step::Same;
    }
    Step::Differs
}

// Adds the change after which the row is gone, if none of its key is among the others.
fn add_removal<T: Row>(changes: &mut Vec<Change>, row: &T, step: Step) -> Result<(), OutOfMemory>
    ensures { OnOk result (changes.new.items
        ≡ changes.old.items ++ map T.gone (if is_alone step then row.now ∷ [] else [])) }
{
    if step.is_alone() {
        changes.push(row.removal())?;
    }
    Ok(())
}

// Adds the change after which the row is there, if it is not among the others.
fn add_addition<T: Row>(changes: &mut Vec<Change>, row: &T, step: Step) -> Result<(), OutOfMemory>
    ensures { OnOk result (changes.new.items
        ≡ changes.old.items ++ map T.come (if is_new step then row.now ∷ [] else [])) }
{
    if step.is_new() {
        changes.push(row.addition()?)?;
    }
    Ok(())
}

// Adds the changes after which those rows are gone of which none of their key is among the others.
fn add_removals<T: Row>(
    changes: &mut Vec<Change>,
    rows: &[T],
    others: &[T],
) -> Result<(), OutOfMemory>
    ensures { OnOk result (changes.new.items
        ≡ changes.old.items ++ map T.gone (unmatched T.before any_like rows.now others.now)) }
{
    let mut at = 0;
    let mut at_other = 0;
    while at < rows.len() {
        let row = &rows[at];
        let step = step_of(row, others.get(at_other));
        add_removal(changes, row, step)?;
        at += step.rows();
        at_other += step.others();
    }
    Ok(())
}

// Adds the changes after which those rows are there that are not among the others.
fn add_additions<T: Row>(
    changes: &mut Vec<Change>,
    rows: &[T],
    others: &[T],
) -> Result<(), OutOfMemory>
    ensures { OnOk result (changes.new.items
        ≡ changes.old.items ++ map T.come (unmatched T.before T.same rows.now others.now)) }
{
    let mut at = 0;
    let mut at_other = 0;
    while at < rows.len() {
        let row = &rows[at];
        let step = step_of(row, others.get(at_other));
        add_addition(changes, row, step)?;
        at += step.rows();
        at_other += step.others();
    }
    Ok(())
}

/// The changes that lead from the old rows to the new ones, where both are in order. Links that are gone come
/// first, then channels that are gone, channels that are new or changed, and links that are new. Work is
/// linear in the rows.
pub fn difference(alloc: Global, old: &KeptRows, new: &KeptRows) -> Result<Vec<Change>, OutOfMemory>
    ensures { IfOk result (λ changes. changes.items ≡ difference old.now new.now) }
{
    let mut changes = Vec::new(alloc);
    add_removals(&mut changes, old.links.as_slice(), new.links.as_slice())?;
    add_removals(
        &mut changes,
        old.channels.as_slice(),
        new.channels.as_slice(),
    )?;
    add_additions(
        &mut changes,
        new.channels.as_slice(),
        old.channels.as_slice(),
    )?;
    add_additions(&mut changes, new.links.as_slice(), old.links.as_slice())?;
    Ok(changes)
}
