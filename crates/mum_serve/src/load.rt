//! The rows that a keeper has, before anything is served.

ghost use Rattle.std.specs.Prelude.{◌≡◌, IfErr, IfOk, Some};
ghost use Rattle.std.specs.Option.{option_copied};
ghost use Rattle.mum_serve.specs.Loading.{AreGoodOr, GivesRows, Loads, LoadsNothing};

use mum_keeper::{KeepEnd, Keeper, KeptRows, Loaded, good_rows};
use std::alloc::Global;
use std::mem::drop;

// Why a keeper gave no rows with which a server may begin.
#[derive(Clone, Copy)]
pub(crate) enum LoadFault {
    /// A call of it failed.
    Failed,
    /// Its rows are not those of channels that a server may have.
    NotGood,
    OutOfMemory,
}

// These rows, if they are good.
fn good(alloc: Global, rows: KeptRows) -> Result<KeptRows, LoadFault>
    ensures { AreGoodOr rows result }
{
    match good_rows(alloc, &rows) {
        Ok(true) => Ok(rows),
        Ok(false) => {
            drop(rows);
            Err(LoadFault::NotGood)
        }
        Err(_) => {
            drop(rows);
            Err(LoadFault::OutOfMemory)
        }
    }
}

// The rows of a keeper that is open.
fn rows_of<P: Keeper>(alloc: Global, keeper: &mut P) -> Result<KeptRows, LoadFault>
    ensures { GivesRows P.facts keeper.old result keeper.new }
{
    match keeper.load(alloc) {
        Loaded::Rows(rows) => good(alloc, rows),
        Loaded::Failed => Err(LoadFault::Failed),
        Loaded::NoMemory => Err(LoadFault::OutOfMemory),
    }
}

// Opens a keeper at this path, and asks it for its rows.
fn open_and_load<P: Keeper>(
    alloc: Global,
    path: &str,
    keeper: &mut P,
) -> Result<KeptRows, LoadFault>
    ensures loaded { IfOk result (λ rows. Loads P.facts (Some path.now) keeper.old keeper.new (Some rows)) }
    ensures nothing { IfErr result (λ fault. LoadsNothing P.facts (Some path.now) keeper.old fault keeper.new) }
{
    match keeper.open(path) {
        KeepEnd::Kept => rows_of(alloc, keeper),
        KeepEnd::Failed => Err(LoadFault::Failed),
        KeepEnd::NoMemory => Err(LoadFault::OutOfMemory),
    }
}

// Where channels are kept, opens the keeper at that path, and asks it for its rows.
pub(crate) fn load_rows<P: Keeper>(
    alloc: Global,
    path: Option<&str>,
    keeper: &mut P,
) -> Result<Option<KeptRows>, LoadFault>
    ensures loaded { IfOk result (Loads P.facts (option_copied path.entry) keeper.old keeper.new) }
    ensures nothing { IfErr result
        (λ fault. LoadsNothing P.facts (option_copied path.entry) keeper.old fault keeper.new) }
{
    let Some(path) = path else {
        return Ok(None);
    };
    match open_and_load(alloc, path, keeper) {
        Ok(rows) => Ok(Some(rows)),
        Err(fault) => Err(fault),
    }
}
