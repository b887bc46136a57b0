//! What a view shows of two sessions.

use anyhow::{Context, Result, ensure};
use mum_base::{Items, Text};
use mum_state::{Edit, State};
use mum_viewer::view_text;
use std::alloc::Global;
use std::mem::drop;

fn join(alloc: Global, state: &State, name: &str) -> Result<Edit> {
    let (session, slot) = state.roster().next_join().context("a slot is free")?;
    let name = Text::of(alloc, name)?;
    Ok(Edit::Join {
        session,
        slot,
        name,
        account: None,
        tokens: Items::new(alloc),
    })
}

fn apply(state: &mut State, edit: &Edit) -> Result<()> {
    ensure!(state.fits(edit), "it fits the state");
    state.apply(edit)?;
    Ok(())
}

fn log_in(alloc: Global, state: &mut State, name: &str) -> Result<()> {
    let edit = join(alloc, state, name)?;
    let applied = apply(state, &edit);
    drop(edit);
    applied
}

fn call_on(alloc: Global, told: &mut String, state: &mut State) -> Result<()> {
    log_in(alloc, state, "ann")?;
    log_in(alloc, state, "bob")?;
    let text = view_text(alloc, state)?;
    told.push_str(str::from_utf8(text.as_slice())?)?;
    Ok(())
}

pub fn call(alloc: Global, told: &mut String) -> Result<()> {
    let mut state = State::empty(alloc)?;
    let called = call_on(alloc, told, &mut state);
    drop(state);
    called
}
