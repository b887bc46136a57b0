//! What takes a permission away, in words.

ghost use Rattle.std.specs.Prelude.{◌≡◌, ◌++◌, IfOk, string_bytes};
ghost use Rattle.murmur_why.specs.Reasons.{cut_text, lacks_text};

use crate::names::{push_channel, push_entry};
use mum_base::{ChannelId, OutOfMemory};
use mum_state::State;
use mum_why::Cut;
use std::alloc::Global;

// Appends that an entry denies a permission.
fn push_denied(
    alloc: Global,
    text: &mut String,
    state: &State,
    channel: ChannelId,
    index: usize,
) -> Result<(), OutOfMemory>
    ensures { IfOk result (λ _. string_bytes text.new ≡ string_bytes text.old
        ++ cut_text state.now (Cut.Denied channel index)) }
{
    text.push_str("denied by entry ")?;
    push_entry(alloc, text, state, channel, index)
}

// Appends that the way ends in a channel.
fn push_closed(
    alloc: Global,
    text: &mut String,
    state: &State,
    channel: ChannelId,
) -> Result<(), OutOfMemory>
    ensures { IfOk result
        (λ _. string_bytes text.new ≡ string_bytes text.old ++ cut_text state.now (Cut.Closed channel)) }
{
    text.push_str("no way through ")?;
    push_channel(alloc, text, state, channel)
}

// Appends what takes a permission away.
pub(crate) fn push_cut(
    alloc: Global,
    text: &mut String,
    state: &State,
    cut: Cut,
) -> Result<(), OutOfMemory>
    ensures { IfOk result (λ _. string_bytes text.new ≡ string_bytes text.old ++ cut_text state.now cut) }
{
    match cut {
        Cut::Denied(channel, index) => push_denied(alloc, text, state, channel, index),
        Cut::Closed(channel) => push_closed(alloc, text, state, channel),
        Cut::RootOnly => text.push_str("of the root alone"),
        Cut::SuperUser => text.push_str("never of SuperUser"),
        Cut::NeverGiven => text.push_str("given by no entry"),
    }
}

// Appends that a permission is missing in a channel, and what takes it away.
pub(crate) fn push_lacks(
    alloc: Global,
    text: &mut String,
    state: &State,
    permission: &str,
    channel: ChannelId,
    cut: Cut,
) -> Result<(), OutOfMemory>
    ensures { IfOk result (λ _. string_bytes text.new ≡ string_bytes text.old
        ++ lacks_text state.now permission.now channel cut) }
{
    text.push_str("lacks ")?;
    text.push_str(permission)?;
    text.push_str(" in ")?;
    push_channel(alloc, text, state, channel)?;
    text.push_str(": ")?;
    push_cut(alloc, text, state, cut)
}
