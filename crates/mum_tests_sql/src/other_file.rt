//! A file that another program made is refused, and stays as it is.

use mum_keeper::{KeepEnd, Keeper, Loaded};
use mum_sql_keeper::SqlKeeper;
use sqlite::{Connection, Error};
use std::alloc::Global;
use std::fs;
use std::process::Abort;

const TEXT: &str =
    "This file is no database, and longer than the first hundred bytes, in which a database says that it is one.";

// It can neither be opened nor loaded from.
fn check_refused(rt: &impl Abort, alloc: Global, mut keeper: SqlKeeper, path: &str) {
    assert_eq!(rt; keeper.open(path), KeepEnd::Failed);
    assert!(rt; matches!(keeper.load(alloc), Loaded::Failed));
}

// A table of the same name, with other columns.
fn make_other(rt: &HostRuntime, path: &str) -> Result<(), Error> {
    let mut file = Connection::open(rt, path)?;
    file.execute("CREATE TABLE channels (id INTEGER PRIMARY KEY)", &[])?;
    file.close()
}

#[test]
fn a_file_of_another_program_stays(rt: HostRuntime) {
    let path = "channels-of-another-program.db";
    let log = "channels-of-another-program.db-wal";
    let _not_there = fs::remove_file(&rt, path);
    assert!(rt; make_other(&rt, path).is_ok());
    let _no_log = fs::remove_file(&rt, log);
    let before = fs::read(&rt, path).expect(&rt, "the file is read");
    check_refused(&rt, rt.alloc(), SqlKeeper::new(rt), path);
    let after = fs::read(&rt, path).expect(&rt, "the file is read again");
    assert!(rt; before.as_slice() == after.as_slice());
    assert!(rt; matches!(fs::exists(&rt, log), Ok(false)));
    let _removed = fs::remove_file(&rt, path);
}

#[test]
fn a_file_that_is_no_database_stays(rt: HostRuntime) {
    let path = "no-database.txt";
    assert!(rt; fs::write(&rt, path, TEXT).is_ok());
    check_refused(&rt, rt.alloc(), SqlKeeper::new(rt), path);
    let after = fs::read(&rt, path).expect(&rt, "the file is read again");
    assert!(rt; after.as_slice() == TEXT.as_bytes());
    let _removed = fs::remove_file(&rt, path);
}
