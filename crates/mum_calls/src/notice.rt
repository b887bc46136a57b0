//! What a session is sent when it joins.

use anyhow::{Context, Result, ensure};
use mum_base::{Items, SessionId, Text};
use mum_notify::sync_block;
use mum_state::{Edit, State};
use std::alloc::Global;
use std::mem::drop;

fn join(alloc: Global, state: &State) -> Result<Edit> {
    let (session, slot) = state.roster().next_join().context("a slot is free")?;
    let name = Text::of(alloc, "ann")?;
    Ok(Edit::Join {
        session,
        slot,
        name,
        account: None,
        tokens: Items::new(alloc),
    })
}

fn apply(state: &mut State, edit: &Edit) -> Result<()> {
    ensure!(state.fits(edit), "it fits the state");
    state.apply(edit)?;
    Ok(())
}

fn call_on(alloc: Global, told: &mut String, state: &mut State) -> Result<()> {
    let edit = join(alloc, state)?;
    let applied = apply(state, &edit);
    drop(edit);
    applied?;
    let parcels = sync_block(alloc, state, SessionId(1))?;
    let count = parcels.as_slice().len();
    drop(parcels);
    writeln!(told, "who joins is told {count} frames")?;
    Ok(())
}

pub fn call(alloc: Global, told: &mut String) -> Result<()> {
    let mut state = State::empty(alloc)?;
    let called = call_on(alloc, told, &mut state);
    drop(state);
    called
}
