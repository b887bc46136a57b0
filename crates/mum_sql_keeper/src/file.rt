//! A file with the two tables in which rows are kept.

use sqlite::types::ValueRef;
use sqlite::{Alter, Connection, Error, ErrorCode, FileFrom, FileStore, Row, Start, params};
use sqlite_disk::Disk;
use std::mem::drop;

// A file that is open, of which is supposed what `S` says.
pub(crate) type OpenFile<S> = Connection<FileStore<FileFrom<S>>>;

const CHANNELS: &str = "CREATE TABLE channels (
    id INTEGER PRIMARY KEY,
    parent INTEGER NOT NULL,
    name TEXT NOT NULL,
    description TEXT NOT NULL,
    position INTEGER NOT NULL,
    max_users INTEGER NOT NULL,
    policy BLOB NOT NULL
) STRICT";

const LINKS: &str = "CREATE TABLE links (
    low INTEGER NOT NULL,
    high INTEGER NOT NULL,
    PRIMARY KEY (low, high)
) STRICT";

// Tables, and indexes, views and triggers that were made by name.
const MADE: &str = "SELECT count(*) FROM sqlite_schema WHERE sql IS NOT NULL";

const OURS: &str = "SELECT count(*) FROM sqlite_schema
    WHERE name = 'channels' AND sql = ?1 OR name = 'links' AND sql = ?2";

// Each call of a connection is in a function of its own, without a clause and over any store: what a connection says of
// a call is long, and nothing here rests on it. So is what calls these. What names the store of a file calls as few of
// them as it can, since each such call has to show what that store is.

fn connect<S: Start>(rt: &HostRuntime, path: &str, start: S) -> Result<OpenFile<S>, Error> {
    match Connection::open_from(rt, path, false, start) {
        Ok(file) => Ok(file),
        Err((error, _)) => Err(error),
    }
}

fn close<D: Disk + Drop>(file: Connection<FileStore<D>>) -> Result<(), Error> {
    file.close()
}

// Runs a statement that gives no rows.
pub(crate) fn run<S: Alter>(
    file: &mut Connection<S>,
    sql: &str,
    values: &[ValueRef<'_>],
) -> Result<usize, Error> {
    file.execute(sql, values)
}

// All rows that a query gives.
pub(crate) fn query<S: Alter>(
    file: &mut Connection<S>,
    sql: &str,
    values: &[ValueRef<'_>],
) -> Result<Vec<Row>, Error> {
    file.query_all(sql, values)
}

fn first_number(rows: &[Row]) -> Result<u32, Error> {
    match rows.first() {
        Some(row) => row.get(0),
        None => Err(Error::QueryReturnedNoRows),
    }
}

// The first number that a query gives.
pub(crate) fn number<S: Alter>(
    file: &mut Connection<S>,
    sql: &str,
    values: &[ValueRef<'_>],
) -> Result<u32, Error> {
    let rows = query(file, sql, values)?;
    first_number(rows.as_slice())
}

// Makes both tables, or neither.
fn make_tables<S: Alter>(file: &mut Connection<S>) -> Result<usize, Error> {
    run(file, "BEGIN", &[])?;
    run(file, CHANNELS, &[])?;
    run(file, LINKS, &[])?;
    run(file, "COMMIT", &[])
}

// Makes the tables where the file has none, and that may be. A database of another program is refused, and nothing
// is written to it.
fn prepare<S: Alter>(file: &mut Connection<S>, may_be_new: bool) -> Result<usize, Error> {
    let made = number(file, MADE, &[])?;
    let ours = number(file, OURS, params![CHANNELS, LINKS])?;
    if made == 0 && may_be_new {
        return make_tables(file);
    }
    if made == 2 && ours == 2 {
        return Ok(0);
    }
    Err(Error::SqliteFailure(ErrorCode::NotADatabase))
}

// The error of a file that is not open.
pub(crate) const NOT_OPEN: Error = Error::SqliteFailure(ErrorCode::CannotOpen);

// Lets the file go that is open, and writes nothing.
pub(crate) fn let_go<S: Alter + Drop>(open: &mut Option<Connection<S>>) {
    drop(open.take());
}

// Copies the log into the file that is open, and closes both.
pub(crate) fn shut<S: Start>(open: &mut Option<OpenFile<S>>) -> Result<(), Error> {
    match open.take() {
        Some(file) => close(file),
        None => Ok(()),
    }
}

fn prepare_in<S: Alter>(
    open: &mut Option<Connection<S>>,
    may_be_new: bool,
) -> Result<usize, Error> {
    match open {
        Some(file) => prepare(file, may_be_new),
        None => Err(NOT_OPEN),
    }
}

// Holds this file, with its tables, in place of what is open. Where it is refused, nothing is open.
fn hold<S: Alter + Drop>(
    open: &mut Option<Connection<S>>,
    file: Connection<S>,
    may_be_new: bool,
) -> Result<(), Error> {
    drop(open.replace(file));
    match prepare_in(open, may_be_new) {
        Ok(_) => Ok(()),
        Err(error) => {
            let_go(open);
            Err(error)
        }
    }
}

// Opens the file at a path, with its tables, in place of what is open. Where it may be new, they are made if there are
// none. Where it is refused, nothing is open.
pub(crate) fn open_file<S: Start>(
    rt: &HostRuntime,
    path: &str,
    start: S,
    may_be_new: bool,
    open: &mut Option<OpenFile<S>>,
) -> Result<(), Error> {
    let _shut = shut(open);
    match connect(rt, path, start) {
        Ok(file) => hold(open, file, may_be_new),
        Err(error) => Err(error),
    }
}
