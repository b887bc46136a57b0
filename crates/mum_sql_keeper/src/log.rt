//! The log beside a file.

use crate::file::{OpenFile, open_file};
use mum_base::OutOfMemory;
use sqlite::{Error, ErrorCode, Start};
use std::fs;

// A log that is shorter has no page in it.
const LEAST_PAGE: u64 = 512;

fn path_of_log(rt: &HostRuntime, path: &str) -> Result<String, OutOfMemory> {
    let mut log = String::from_str(rt.alloc(), path)?;
    log.push_str("-wal")?;
    Ok(log)
}

fn is_missing(rt: &HostRuntime, path: &str) -> bool {
    matches!(fs::exists(rt, path), Ok(false))
}

// Another program has the file, and the log is its own.
fn is_busy(error: &Error) -> bool {
    matches!(error, Error::SqliteFailure(ErrorCode::DatabaseBusy))
}

fn remove_if_empty(rt: &HostRuntime, log: &str) {
    if let Ok(metadata) = fs::metadata(rt, log) {
        if metadata.len() < LEAST_PAGE {
            let _removed = fs::remove_file(rt, log);
        }
    }
}

// Opens the file at a path, with its tables, in place of what is open. Where it may be new, they are made if there are
// none. Where it is refused, nothing is open, and no empty log is left beside it that was not there.
pub(crate) fn open_beside_log<S: Start>(
    rt: &HostRuntime,
    path: &str,
    start: S,
    may_be_new: bool,
    open: &mut Option<OpenFile<S>>,
) -> Result<(), Error> {
    let log = path_of_log(rt, path)?;
    let is_new = is_missing(rt, log.as_str());
    match open_file(rt, path, start, may_be_new, open) {
        Ok(()) => Ok(()),
        Err(error) => {
            if is_new && !is_busy(&error) {
                remove_if_empty(rt, log.as_str());
            }
            Err(error)
        }
    }
}
