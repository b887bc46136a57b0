//! What is done with a file of kept rows, over any number of openings. Where changes failed it is closed, since it is
//! not known then whether they were made, and opened again by the next changes, which first have the rows put back.

ghost use Rattle.std.specs.Prelude.{◌≡◌, Err, None, Some, OnErr, OnOk};
ghost use Rattle.mum_sql_keeper.specs.Faults.{not_open};

use crate::changes::{add_undo, make_all};
use crate::file::{NOT_OPEN, OpenFile, let_go};
use crate::log::open_beside_log;
use crate::rows::read_rows;
use mum_base::Text;
use mum_keeper::{Change, KeptRows};
use sqlite::{Alter, Connection, Error, Start};
use std::mem::drop;

// Makes changes, after the rows are put back that changes replaced which failed.
fn make_over<S: Alter>(
    file: &mut Connection<S>,
    undo: &mut Vec<Change>,
    changes: &[Change],
) -> Result<usize, Error> {
    if !undo.is_empty() {
        make_all(file, undo.as_slice())?;
        undo.clear();
    }
    add_undo(file, undo, changes)?;
    let made = make_all(file, changes)?;
    undo.clear();
    Ok(made)
}

fn make_in<S: Alter>(
    open: &mut Option<Connection<S>>,
    undo: &mut Vec<Change>,
    changes: &[Change],
) -> Result<usize, Error> {
    match open {
        Some(file) => make_over(file, undo, changes),
        None => Err(NOT_OPEN),
    }
}

// Makes changes in the file that is open, which is closed where they fail.
fn make_or_close<S: Alter + Drop>(
    open: &mut Option<Connection<S>>,
    undo: &mut Vec<Change>,
    changes: &[Change],
) -> Result<usize, Error> {
    let made = make_in(open, undo, changes);
    if made.is_err() {
        let_go(open);
    }
    made
}

// Opens a file again that was closed.
fn reopen<S: Start>(
    rt: &HostRuntime,
    path: &str,
    start: S,
    open: &mut Option<OpenFile<S>>,
) -> Result<(), Error> {
    if open.is_some() {
        drop(start);
        return Ok(());
    }
    open_beside_log(rt, path, start, false, open)
}

// Makes changes in a file that may have been closed.
fn make_at<S: Start>(
    rt: &HostRuntime,
    path: &str,
    start: S,
    open: &mut Option<OpenFile<S>>,
    undo: &mut Vec<Change>,
    changes: &[Change],
) -> Result<usize, Error> {
    reopen(rt, path, start, open)?;
    make_or_close(open, undo, changes)
}

// Makes these changes in one transaction, in the file at a path, if it has one. After the changes of `undo` the rows
// are those before changes that failed, whether these were made or not.
pub(crate) fn make_changes<S: Start>(
    rt: &HostRuntime,
    path: &Option<Text>,
    start: S,
    open: &mut Option<OpenFile<S>>,
    undo: &mut Vec<Change>,
    changes: &[Change],
) -> Result<usize, Error>
    ensures { path.now ≡ None → result ≡ Err not_open }
{
    match path {
        Some(path) => make_at(rt, path.as_str(), start, open, undo, changes),
        None => {
            drop(start);
            Err(NOT_OPEN)
        }
    }
}

// Adds all rows of the file that is open, in order.
pub(crate) fn read_from<S: Alter>(
    open: &mut Option<Connection<S>>,
    rows: &mut KeptRows,
) -> Result<(), Error> {
    match open {
        Some(file) => read_rows(file, rows),
        None => Err(NOT_OPEN),
    }
}

// Opens the file at a path, with its tables, which are made if there are none. It is the path then at which a file was
// opened.
pub(crate) fn open_at<S: Start>(
    rt: &HostRuntime,
    path: &str,
    start: S,
    open: &mut Option<OpenFile<S>>,
    opened_at: &mut Option<Text>,
) -> Result<(), Error>
    ensures ok { OnOk result (opened_at.new ≡ Some path.now) }
    ensures err { OnErr result (opened_at.new ≡ opened_at.old) }
{
    let named = Text::of(rt.alloc(), path)?;
    match open_beside_log(rt, path, start, true, open) {
        Ok(()) => {
            drop(opened_at.replace(named));
            Ok(())
        }
        Err(error) => {
            drop(named);
            Err(error)
        }
    }
}
