//! A keeper in memory: rows are kept, changed and loaded again; its fourth call fails.

use anyhow::{Result, bail};
use mum_base::{ChannelId, Items, Octets, OutOfMemory, Text};
use mum_keeper::{Change, KeepEnd, Keeper, KeptChannel, KeptRows, Loaded, MapKeeper, difference};
use mum_tree::ChannelInfo;
use std::alloc::Global;
use std::mem::drop;

fn channel(alloc: Global, id: u32, parent: u32, name: &str) -> Result<KeptChannel, OutOfMemory> {
    Ok(KeptChannel {
        id: ChannelId(id),
        parent: ChannelId(parent),
        name: Text::of(alloc, name)?,
        info: ChannelInfo {
            description: Text::empty(alloc),
            position: 0,
            max_users: 0,
        },
        policy: Octets::of(alloc, &[])?,
    })
}

fn no_rows(alloc: Global) -> KeptRows {
    KeptRows {
        channels: Items::new(alloc),
        links: Items::new(alloc),
    }
}

// The root, and two channels under it that are linked.
fn first_rows(alloc: Global) -> Result<KeptRows, OutOfMemory> {
    let mut rows = no_rows(alloc);
    rows.channels.push(channel(alloc, 0, 0, "Root")?)?;
    rows.channels.push(channel(alloc, 1, 0, "a")?)?;
    rows.channels.push(channel(alloc, 2, 0, "b")?)?;
    rows.links.push((ChannelId(1), ChannelId(2)))?;
    Ok(rows)
}

// The second channel is gone with its link, and the first has another name.
fn later_rows(alloc: Global) -> Result<KeptRows, OutOfMemory> {
    let mut rows = no_rows(alloc);
    rows.channels.push(channel(alloc, 0, 0, "Root")?)?;
    rows.channels.push(channel(alloc, 1, 0, "c")?)?;
    Ok(rows)
}

fn say_change(told: &mut String, change: &Change) -> Result<()> {
    match change {
        Change::Put(channel) => writeln!(told, "put {} {:?}", channel.id.0, channel.name.as_str())?,
        Change::Drop(id) => writeln!(told, "drop {}", id.0)?,
        Change::Link(one, other) => writeln!(told, "link {} {}", one.0, other.0)?,
        Change::Unlink(one, other) => writeln!(told, "unlink {} {}", one.0, other.0)?,
    }
    Ok(())
}

fn keep(
    alloc: Global,
    told: &mut String,
    keeper: &mut MapKeeper,
    old: &KeptRows,
    new: &KeptRows,
) -> Result<()> {
    let changes = difference(alloc, old, new)?;
    for change in changes.as_slice() {
        say_change(told, change)?;
    }
    writeln!(told, "{:?}", keeper.keep(changes.as_slice()))?;
    Ok(())
}

fn say_rows(told: &mut String, keeper: &MapKeeper) -> Result<()> {
    for channel in keeper.channels() {
        writeln!(
            told,
            "{} is kept as {:?}",
            channel.id.0,
            channel.name.as_str()
        )?;
    }
    for link in keeper.links() {
        writeln!(told, "{} is kept linked to {}", link.0.0, link.1.0)?;
    }
    Ok(())
}

fn load(alloc: Global, told: &mut String, keeper: &mut MapKeeper) -> Result<()> {
    let Loaded::Rows(rows) = keeper.load(alloc) else {
        bail!("the rows are loaded");
    };
    writeln!(
        told,
        "{} channels are loaded",
        rows.channels.as_slice().len()
    )?;
    drop(rows);
    Ok(())
}

fn say_path(told: &mut String, keeper: &MapKeeper) -> Result<()> {
    let Some(path) = keeper.path() else {
        bail!("it was opened");
    };
    writeln!(told, "opened at a path of {} bytes", path.as_slice().len())?;
    Ok(())
}

// The first rows are kept and loaded; the fourth call fails, and so its changes are not made.
fn call_on(alloc: Global, told: &mut String, keeper: &mut MapKeeper) -> Result<()> {
    writeln!(told, "{:?}", keeper.open("a path"))?;
    say_path(told, keeper)?;
    let none = no_rows(alloc);
    let first = first_rows(alloc)?;
    keep(alloc, told, keeper, &none, &first)?;
    load(alloc, told, keeper)?;
    let later = later_rows(alloc)?;
    keep(alloc, told, keeper, &first, &later)?;
    say_rows(told, keeper)?;
    keep(alloc, told, keeper, &first, &later)?;
    say_rows(told, keeper)
}

pub fn call(alloc: Global, told: &mut String) -> Result<()> {
    let mut failing = Vec::new(alloc);
    failing.push(4)?;
    let mut keeper = MapKeeper::new(alloc, failing);
    call_on(alloc, told, &mut keeper)
}
