//! Changes of the tree of channels, one at a time.

use anyhow::{Context, Result};
use mum_base::ChannelId;
use mum_tree::{Tree, TreeFault};
use std::alloc::Global;
use std::mem::drop;

const FIRST: ChannelId = ChannelId(1);

const SECOND: ChannelId = ChannelId(2);

// The root with two channels below it.
fn two_channels(alloc: Global) -> Result<Tree, TreeFault> {
    let mut tree = Tree::new(alloc)?;
    tree.add(FIRST, ChannelId::ROOT, "one", false)?;
    tree.add(SECOND, ChannelId::ROOT, "two", false)?;
    Ok(tree)
}

fn say(told: &mut String, tree: &Tree) -> Result<()> {
    let first = tree.channel(FIRST).context("the first channel")?;
    let second = tree.channel(SECOND).context("the second channel")?;
    let (name, above) = (first.name.as_str(), second.parent.0);
    let linked = tree.link_at(FIRST, 0).is_some();
    writeln!(told, "2 is under {above}, {name:?}, linked {linked}")?;
    Ok(())
}

fn call_on(told: &mut String, tree: &mut Tree) -> Result<()> {
    tree.rename(FIRST, "uno")?;
    tree.move_under(SECOND, FIRST)?;
    tree.link(FIRST, SECOND)?;
    say(told, tree)?;
    tree.unlink(FIRST, SECOND)?;
    say(told, tree)
}

pub fn call(alloc: Global, told: &mut String) -> Result<()> {
    let mut tree = two_channels(alloc)?;
    let called = call_on(told, &mut tree);
    drop(tree);
    called
}
