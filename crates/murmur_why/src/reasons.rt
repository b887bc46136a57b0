//! Why a session does not hear another, in words.

ghost use Rattle.std.specs.Prelude.{◌≡◌, ◌++◌, IfOk, string_bytes};
ghost use Rattle.murmur_why.specs.Reasons.{context_word, cut_or_held, listening_text, needed_word, outside_text};
ghost use Rattle.murmur_why.specs.Reasons.{reason_text, speaker_lacks_text, suppressed_text};

use crate::cuts::{push_cut, push_lacks};
use crate::names::{push_channel, push_number};
use mum_base::{ChannelId, OutOfMemory};
use mum_route::{Context, TALK};
use mum_state::State;
use mum_why::{Cut, Reason};
use std::alloc::Global;

// The context in which a session hears.
fn context_word(context: Context) -> &'static str
    ensures { result.now ≡ context_word context }
{
    match context {
        Context::Talk => "talk",
        Context::ChannelWhisper => "whisper to its channel",
        Context::DirectWhisper => "whisper to it",
        Context::Listener => "listening",
    }
}

// What a speaker needs to be heard by a target.
fn needed_word(target: u8) -> &'static str
    ensures { result.now ≡ needed_word target }
{
    if target == TALK { "Speak" } else { "Whisper" }
}

// Appends what takes Speak away, or that nothing does any more.
fn push_cut_or_held(
    alloc: Global,
    text: &mut String,
    state: &State,
    cut: Option<Cut>,
) -> Result<(), OutOfMemory>
    ensures { IfOk result (λ _. string_bytes text.new ≡ string_bytes text.old ++ cut_or_held state.now cut) }
{
    match cut {
        Some(cut) => push_cut(alloc, text, state, cut),
        None => text.push_str("is held, but was not when it was decided"),
    }
}

// Appends that the speaker is suppressed, and what takes Speak away, if anything does.
fn push_suppressed(
    alloc: Global,
    text: &mut String,
    state: &State,
    cut: Option<Cut>,
) -> Result<(), OutOfMemory>
    ensures { IfOk result (λ _. string_bytes text.new ≡ string_bytes text.old ++ suppressed_text state.now cut) }
{
    text.push_str("the speaker is suppressed: Speak ")?;
    push_cut_or_held(alloc, text, state, cut)
}

// Appends that a session is outside the group of the item of the voice target at a place, in a channel.
fn push_outside(
    alloc: Global,
    text: &mut String,
    state: &State,
    index: usize,
    channel: ChannelId,
) -> Result<(), OutOfMemory>
    ensures { IfOk result (λ _. string_bytes text.new ≡ string_bytes text.old ++ outside_text state.now index channel) }
{
    text.push_str("is outside the group of item ")?;
    push_number(alloc, text, index as u64)?;
    text.push_str(" in ")?;
    push_channel(alloc, text, state, channel)
}

// Appends that a session listens to a channel.
fn push_listening(
    alloc: Global,
    text: &mut String,
    state: &State,
    channel: ChannelId,
) -> Result<(), OutOfMemory>
    ensures { IfOk result (λ _. string_bytes text.new ≡ string_bytes text.old ++ listening_text state.now channel) }
{
    text.push_str("listens to ")?;
    push_channel(alloc, text, state, channel)
}

// Appends that the speaker lacks a permission in a channel.
fn push_speaker_lacks(
    alloc: Global,
    text: &mut String,
    state: &State,
    target: u8,
    channel: ChannelId,
    cut: Cut,
) -> Result<(), OutOfMemory>
    ensures { IfOk result (λ _. string_bytes text.new ≡ string_bytes text.old
        ++ speaker_lacks_text state.now target channel cut) }
{
    text.push_str("the speaker ")?;
    push_lacks(alloc, text, state, needed_word(target), channel, cut)
}

// Appends the reason of a session that listens to a channel in which the speaker lacks a permission.
fn push_lacks_at_listener(
    alloc: Global,
    text: &mut String,
    state: &State,
    target: u8,
    channel: ChannelId,
    cut: Cut,
) -> Result<(), OutOfMemory>
    ensures { IfOk result (λ _. string_bytes text.new ≡ string_bytes text.old
        ++ reason_text state.now target (Reason.SpeakerLacksAtListener channel cut)) }
{
    push_listening(alloc, text, state, channel)?;
    text.push_str(", ")?;
    push_speaker_lacks(alloc, text, state, target, channel, cut)
}

// Appends the reason of a session that listens to a channel where it is outside the group of an item.
fn push_listener_outside(
    alloc: Global,
    text: &mut String,
    state: &State,
    index: usize,
    channel: ChannelId,
) -> Result<(), OutOfMemory>
    ensures { IfOk result (λ _. string_bytes text.new ≡ string_bytes text.old
        ++ reason_text state.now 0 (Reason.ListenerOutsideGroup index channel)) }
{
    push_listening(alloc, text, state, channel)?;
    text.push_str(", ")?;
    push_outside(alloc, text, state, index, channel)
}

// Appends the reason why a session does not hear another, or how it does.
pub(crate) fn push_reason(
    alloc: Global,
    text: &mut String,
    state: &State,
    target: u8,
    reason: Reason,
) -> Result<(), OutOfMemory>
    ensures { IfOk result (λ _. string_bytes text.new ≡ string_bytes text.old ++ reason_text state.now target reason) }
{
    match reason {
        Reason::Heard(context) => text.push_str(context_word(context)),
        Reason::NoSpeaker => text.push_str("the speaker is not there"),
        Reason::NoHearer => text.push_str("is not there"),
        Reason::Muted => text.push_str("the speaker is muted"),
        Reason::MutedItself => text.push_str("the speaker muted itself"),
        Reason::Suppressed(cut) => push_suppressed(alloc, text, state, cut),
        Reason::OnlyLoopback => text.push_str("the speaker speaks to itself"),
        Reason::ItIsItself => text.push_str("is the speaker"),
        Reason::Deaf => text.push_str("is deaf"),
        Reason::DeafenedItself => text.push_str("deafened itself"),
        Reason::Unset => text.push_str("the voice target is not set"),
        Reason::SpeakerLacks(channel, cut) => {
            push_speaker_lacks(alloc, text, state, target, channel, cut)
        }
        Reason::OutsideGroup(index, channel) => push_outside(alloc, text, state, index, channel),
        Reason::ListenerLacks(channel, cut) => {
            push_lacks(alloc, text, state, "Listen", channel, cut)
        }
        Reason::ListenerOutsideGroup(index, channel) => {
            push_listener_outside(alloc, text, state, index, channel)
        }
        Reason::SpeakerLacksAtListener(channel, cut) => {
            push_lacks_at_listener(alloc, text, state, target, channel, cut)
        }
        Reason::Uncovered => text.push_str("is not where the speaker is heard"),
    }
}
