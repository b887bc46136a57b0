//! The rows of a file.

use crate::file::query;
use mum_base::{ChannelId, Items, Octets, Text};
use mum_keeper::{Change, KeptChannel, KeptRows};
use mum_tree::ChannelInfo;
use sqlite::{Alter, Connection, Error, Row, params};

const ALL_CHANNELS: &str =
    "SELECT id, parent, name, description, position, max_users, policy FROM channels ORDER BY id";

const ONE_CHANNEL: &str =
    "SELECT id, parent, name, description, position, max_users, policy FROM channels WHERE id = ?1";

const ALL_LINKS: &str = "SELECT low, high FROM links ORDER BY low, high";

fn text_of(row: &Row, column: usize) -> Result<Text, Error> {
    let text: String = row.get(column)?;
    Ok(Text::from_string(text))
}

fn octets_of(row: &Row, column: usize) -> Result<Octets, Error> {
    let bytes: Vec<u8> = row.get(column)?;
    Ok(Octets::from_vec(bytes))
}

fn id_of(row: &Row, column: usize) -> Result<ChannelId, Error> {
    let id: u32 = row.get(column)?;
    Ok(ChannelId(id))
}

fn info_of(row: &Row) -> Result<ChannelInfo, Error> {
    let position: i32 = row.get(4)?;
    let max_users: u32 = row.get(5)?;
    Ok(ChannelInfo {
        description: text_of(row, 3)?,
        position,
        max_users,
    })
}

fn channel_of(row: &Row) -> Result<KeptChannel, Error> {
    let id = id_of(row, 0)?;
    let parent = id_of(row, 1)?;
    Ok(KeptChannel {
        id,
        parent,
        name: text_of(row, 2)?,
        info: info_of(row)?,
        policy: octets_of(row, 6)?,
    })
}

fn link_of(row: &Row) -> Result<(ChannelId, ChannelId), Error> {
    Ok((id_of(row, 0)?, id_of(row, 1)?))
}

fn add_channels(channels: &mut Items<KeptChannel>, rows: &[Row]) -> Result<(), Error> {
    for row in rows {
        channels.push(channel_of(row)?)?;
    }
    Ok(())
}

fn add_links(links: &mut Items<(ChannelId, ChannelId)>, rows: &[Row]) -> Result<(), Error> {
    for row in rows {
        links.push(link_of(row)?)?;
    }
    Ok(())
}

fn read_channels<S: Alter>(
    file: &mut Connection<S>,
    channels: &mut Items<KeptChannel>,
) -> Result<(), Error> {
    let rows = query(file, ALL_CHANNELS, &[])?;
    add_channels(channels, rows.as_slice())
}

fn read_links<S: Alter>(
    file: &mut Connection<S>,
    links: &mut Items<(ChannelId, ChannelId)>,
) -> Result<(), Error> {
    let rows = query(file, ALL_LINKS, &[])?;
    add_links(links, rows.as_slice())
}

// Adds all rows of a file, in order.
pub(crate) fn read_rows<S: Alter>(
    file: &mut Connection<S>,
    rows: &mut KeptRows,
) -> Result<(), Error> {
    read_channels(file, &mut rows.channels)?;
    read_links(file, &mut rows.links)
}

// The change after which a channel has this row, or none where there is no row.
fn change_to(id: ChannelId, rows: &[Row]) -> Result<Change, Error> {
    let Some(row) = rows.first() else {
        return Ok(Change::Drop(id));
    };
    let channel = channel_of(row)?;
    Ok(Change::Put(channel))
}

// The change after which a channel has the row again that it has now, or none.
pub(crate) fn channel_undo<S: Alter>(
    file: &mut Connection<S>,
    id: ChannelId,
) -> Result<Change, Error> {
    let rows = query(file, ONE_CHANNEL, params![id.0])?;
    change_to(id, rows.as_slice())
}
