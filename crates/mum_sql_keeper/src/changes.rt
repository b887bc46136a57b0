//! Changes of the rows of a file.

use crate::file::{number, run};
use crate::rows::channel_undo;
use mum_base::ChannelId;
use mum_keeper::{Change, KeptChannel};
use sqlite::{Alter, Connection, Error, params};

fn put<S: Alter>(file: &mut Connection<S>, channel: &KeptChannel) -> Result<usize, Error> {
    run(
        file,
        "INSERT OR REPLACE INTO channels VALUES (?1, ?2, ?3, ?4, ?5, ?6, ?7)",
        params![
            channel.id.0,
            channel.parent.0,
            channel.name.as_str(),
            channel.info.description.as_str(),
            channel.info.position,
            channel.info.max_users,
            channel.policy.as_slice(),
        ],
    )
}

// The lesser channel first.
fn ends(one: ChannelId, other: ChannelId) -> (u32, u32) {
    if other.0 < one.0 {
        (other.0, one.0)
    } else {
        (one.0, other.0)
    }
}

fn make<S: Alter>(file: &mut Connection<S>, change: &Change) -> Result<usize, Error> {
    match change {
        Change::Put(channel) => put(file, channel),
        Change::Drop(id) => run(file, "DELETE FROM channels WHERE id = ?1", params![id.0]),
        Change::Link(one, other) => {
            let (low, high) = ends(*one, *other);
            run(
                file,
                "INSERT OR IGNORE INTO links VALUES (?1, ?2)",
                params![low, high],
            )
        }
        Change::Unlink(one, other) => {
            let (low, high) = ends(*one, *other);
            run(
                file,
                "DELETE FROM links WHERE low = ?1 AND high = ?2",
                params![low, high],
            )
        }
    }
}

fn make_each<S: Alter>(file: &mut Connection<S>, changes: &[Change]) -> Result<(), Error> {
    for change in changes {
        make(file, change)?;
    }
    Ok(())
}

// Makes all these changes in one transaction. Where it fails, the transaction may still be open.
pub(crate) fn make_all<S: Alter>(
    file: &mut Connection<S>,
    changes: &[Change],
) -> Result<usize, Error> {
    run(file, "BEGIN", &[])?;
    make_each(file, changes)?;
    run(file, "COMMIT", &[])
}

// The change after which two channels are linked again, or are not, as they are now.
fn link_undo<S: Alter>(
    file: &mut Connection<S>,
    one: ChannelId,
    other: ChannelId,
) -> Result<Change, Error> {
    let (low, high) = ends(one, other);
    let links = number(
        file,
        "SELECT count(*) FROM links WHERE low = ?1 AND high = ?2",
        params![low, high],
    )?;
    if links == 0 {
        return Ok(Change::Unlink(one, other));
    }
    Ok(Change::Link(one, other))
}

// The change that takes back what a change would do now.
fn undo_of<S: Alter>(file: &mut Connection<S>, change: &Change) -> Result<Change, Error> {
    match change {
        Change::Put(channel) => channel_undo(file, channel.id),
        Change::Drop(id) => channel_undo(file, *id),
        Change::Link(one, other) => link_undo(file, *one, *other),
        Change::Unlink(one, other) => link_undo(file, *one, *other),
    }
}

// Adds the changes that take back what these changes would do now.
pub(crate) fn add_undo<S: Alter>(
    file: &mut Connection<S>,
    undo: &mut Vec<Change>,
    changes: &[Change],
) -> Result<(), Error> {
    for change in changes {
        undo.push(undo_of(file, change)?)?;
    }
    Ok(())
}
