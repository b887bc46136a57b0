//! Rows that are kept, and the channels that are made of them again.

ghost use Rattle.mum_kept.specs.Standing.{HavePoliciesOf};

use anyhow::{Result, ensure};
use mum_base::{ChannelId, Items, Octets, OutOfMemory, Text};
use mum_kept::{KeptChannel, KeptRows, good_rows, kept_rows, kept_rows_sharing, rebuild};
use mum_state::{Edit, State};
use mum_tree::ChannelInfo;
use std::alloc::Global;
use std::mem::drop;

// A channel with a policy that is open.
fn channel(alloc: Global, id: u8, parent: u32, name: &str) -> Result<KeptChannel, OutOfMemory> {
    Ok(KeptChannel {
        id: ChannelId(u32::from(id)),
        parent: ChannelId(parent),
        name: Text::of(alloc, name)?,
        info: ChannelInfo {
            description: Text::empty(alloc),
            position: 0,
            max_users: 0,
        },
        policy: Octets::of(alloc, &[8, id, 16, 1])?,
    })
}

// The root and two channels, of which the first is under the second; they are linked.
fn three_channels(alloc: Global) -> Result<KeptRows, OutOfMemory> {
    let mut channels = Items::new(alloc);
    channels.push(channel(alloc, 0, 0, "Root")?)?;
    channels.push(channel(alloc, 1, 2, "a")?)?;
    channels.push(channel(alloc, 2, 0, "b")?)?;
    let mut links = Items::new(alloc);
    links.push((ChannelId(1), ChannelId(2)))?;
    Ok(KeptRows { channels, links })
}

fn say(told: &mut String, rows: &KeptRows) -> Result<()> {
    for channel in rows.channels.as_slice() {
        let (id, parent, name) = (channel.id.0, channel.parent.0, channel.name.as_str());
        let bytes = channel.policy.as_slice().len();
        writeln!(
            told,
            "{id} is under {parent}, {name:?}, with {bytes} bytes of policy"
        )?;
    }
    for link in rows.links.as_slice() {
        writeln!(told, "{} is linked to {}", link.0.0, link.1.0)?;
    }
    Ok(())
}

fn apply(told: &mut String, state: &mut State, edits: &[Edit]) -> Result<()> {
    for edit in edits {
        ensure!(state.fits(edit), "it fits the state");
        state.apply(edit)?;
    }
    writeln!(told, "{} edits make them", edits.len())?;
    Ok(())
}

// Rows, and what is kept of a state that has their policies.
fn say_both(alloc: Global, told: &mut String, state: &State, rows: &KeptRows) -> Result<()>
    requires { HavePoliciesOf state.now rows.now.channels }
{
    say(told, rows)?;
    let again = kept_rows_sharing(alloc, state, rows)?;
    let said = say(told, &again);
    drop(again);
    said
}

// What is kept of a state that was made of rows, twice: the second time with the policies of the first.
#[tactic(auto, using(mum_kept::proofs::Whole::tree_of_good, mum_kept::proofs::Standing::kept_has))]
fn make_again(alloc: Global, told: &mut String, state: &mut State, rows: &KeptRows) -> Result<()> {
    let good = good_rows(alloc, rows)?;
    ensure!(good, "the rows are good");
    ensure!(!rows.channels.as_slice().is_empty(), "there are rows");
    let edits = rebuild(alloc, rows)?;
    let applied = apply(told, state, &edits);
    drop(edits);
    applied?;
    let kept = kept_rows(alloc, state)?;
    let said = say_both(alloc, told, state, &kept);
    drop(kept);
    said
}

fn call_on(alloc: Global, told: &mut String, state: &mut State) -> Result<()> {
    let rows = three_channels(alloc)?;
    let made = make_again(alloc, told, state, &rows);
    drop(rows);
    made
}

pub fn call(alloc: Global, told: &mut String) -> Result<()> {
    let mut state = State::empty(alloc)?;
    let called = call_on(alloc, told, &mut state);
    drop(state);
    called
}
