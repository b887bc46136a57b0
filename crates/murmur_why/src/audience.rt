//! Audiences of packets, here and under a different configuration.

use crate::names::push_number;
use crate::route::hear;
use crate::spoken::Spoken;
use crate::states::States;
use mum_base::OutOfMemory;
use mum_route::{Audience, Hearer, LOOPBACK};
use mum_tree::Scratch;
use std::alloc::Global;

// Who hears a packet at a revision; nobody where its speaker or the revision is not there.
pub(crate) fn audience_at(
    alloc: Global,
    states: &mut States,
    spoken: Spoken,
    revision: u64,
    scratch: &mut Scratch,
) -> Result<Audience, OutOfMemory> {
    let mut audience = Audience::new();
    let Some(speaker) = states.session(spoken.connection) else {
        return Ok(audience);
    };
    if revision > states.last_revision() || spoken.target > LOOPBACK {
        return Ok(audience);
    }
    states.go_to(alloc, revision)?;
    hear(
        states.state(),
        speaker,
        spoken.target,
        scratch,
        &mut audience,
    );
    Ok(audience)
}

// Whether two who hear are one, in one context.
fn is_same(here: &Hearer, there: &Hearer) -> bool {
    here.session == there.session && here.context == there.context
}

// Whether two audiences are one.
pub(crate) fn are_same(here: &[Hearer], there: &[Hearer]) -> bool {
    if here.len() != there.len() {
        return false;
    }
    for (place, hearer) in here.iter().enumerate() {
        match there.get(place) {
            Some(other) if is_same(hearer, other) => {}
            _ => return false,
        }
    }
    true
}

// Appends one who hears, and the context.
fn push_hearer(alloc: Global, text: &mut String, hearer: &Hearer) -> Result<(), OutOfMemory> {
    text.push_str(" ")?;
    push_number(alloc, text, u64::from(hearer.session.0))?;
    text.push_str("/")?;
    push_number(alloc, text, u64::from(hearer.context))
}

// Appends how many hear, and each of them with the context.
pub(crate) fn push_audience(
    alloc: Global,
    text: &mut String,
    hearers: &[Hearer],
) -> Result<(), OutOfMemory> {
    push_number(alloc, text, hearers.len() as u64)?;
    for hearer in hearers {
        push_hearer(alloc, text, hearer)?;
    }
    Ok(())
}
