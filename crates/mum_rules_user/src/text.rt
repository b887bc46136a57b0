//! Texts for users, channels, and trees of channels.

ghost use Rattle.std.specs.Prelude.{◌≡◌, IfOk, map};
ghost use Rattle.mum_base.specs.declared.perm.TheConstants.Perm.{TEXT_MESSAGE};
ghost use Rattle.mum_policy.specs.Member.{actor_of};
ghost use Rattle.mum_rules_tree.specs.Decision.{all_met, need, AreMet};
ghost use Rattle.mum_rules_user.specs.Asked.{Command, channels_of, channels_there, channels_told, session_numbered};
ghost use Rattle.mum_rules_user.specs.Outcome.{edit_to_tell};
ghost use Rattle.mum_rules_user.specs.Verdict.{command_verdict};

use crate::session::{channels, session_numbered};
use mum_base::{ChannelId, DenyType, Items, OutOfMemory, Perm, SessionId, Text, check_text};
use mum_msg_rule::TextMessage;
use mum_policy::Who;
use mum_rules_tree::{Lack, MetPlaces, channel_numbered, need_once};
use mum_state::{Edit, State, Verdict};
use std::alloc::Global;

// TextMessage in the channel of each of these sessions that is here.
fn need_at_sessions(
    state: &State,
    who: &Who<'_>,
    numbers: &[u32],
    met: &mut MetPlaces,
) -> Result<(), Lack>
    requires { AreMet state.now (actor_of who.now) TEXT_MESSAGE met.old.marks }
    ensures value { result ≡ all_met state.now
        (map (need (actor_of who.now) TEXT_MESSAGE) (channels_of state.now.roster numbers.now)) }
    ensures kept { AreMet state.now (actor_of who.now) TEXT_MESSAGE met.new.marks }
{
    let roster = state.roster();
    for number in numbers {
        if let Some(user) = roster.session(SessionId(*number)) {
            need_once(state, who, Perm::TEXT_MESSAGE, user.channel, met)?;
        }
    }
    Ok(())
}

// TextMessage in each of these channels that is there.
fn need_in_channels(
    state: &State,
    who: &Who<'_>,
    numbers: &[u32],
    met: &mut MetPlaces,
) -> Result<(), Lack>
    requires { AreMet state.now (actor_of who.now) TEXT_MESSAGE met.old.marks }
    ensures value { result ≡ all_met state.now
        (map (need (actor_of who.now) TEXT_MESSAGE) (channels_there state.now numbers.now)) }
    ensures kept { AreMet state.now (actor_of who.now) TEXT_MESSAGE met.new.marks }
{
    let tree = state.tree();
    for number in numbers {
        if tree.is_there(ChannelId(*number)) {
            need_once(
                state,
                who,
                Perm::TEXT_MESSAGE,
                channel_numbered(*number),
                met,
            )?;
        }
    }
    Ok(())
}

// For sessions first, then for channels, then for trees.
fn need_to_tell(state: &State, who: &Who<'_>, message: &TextMessage) -> Result<(), Lack>
    ensures { result ≡ all_met state.now
        (map (need (actor_of who.now) TEXT_MESSAGE) (channels_told state.now message.now)) }
{
    let mut met = MetPlaces::none();
    need_at_sessions(state, who, message.session.as_slice(), &mut met)?;
    need_in_channels(state, who, message.channel_id.as_slice(), &mut met)?;
    need_in_channels(state, who, message.tree_id.as_slice(), &mut met)
}

// The sessions of these numbers, in their order.
pub(crate) fn sessions(alloc: Global, numbers: &[u32]) -> Result<Items<SessionId>, OutOfMemory>
    ensures { IfOk result (λ listed. listed ≡ map session_numbered numbers.now) }
{
    let mut listed = Vec::with_capacity(alloc, numbers.len())?;
    for number in numbers {
        listed.push(session_numbered(*number))?;
    }
    Ok(Items::from_vec(listed))
}

fn edit_to_tell(alloc: Global, actor: SessionId, message: &TextMessage) -> Result<Edit, OutOfMemory>
    ensures { IfOk result (λ edit. edit ≡ edit_to_tell actor message.now) }
{
    Ok(Edit::Text {
        actor,
        sessions: sessions(alloc, message.session.as_slice())?,
        channels: channels(alloc, message.channel_id.as_slice())?,
        trees: channels(alloc, message.tree_id.as_slice())?,
        message: Text::share_or_empty(alloc, &message.message)?,
    })
}

// What is decided of a text.
pub(crate) fn decide_text(
    alloc: Global,
    state: &State,
    who: &Who<'_>,
    message: &TextMessage,
) -> Result<Verdict, OutOfMemory>
    ensures { IfOk result (λ verdict. verdict ≡ command_verdict state.now (actor_of who.now)
        who.now.session (Command.text message.now)) }
{
    if let Err(lack) = need_to_tell(state, who, message) {
        return Ok(lack.verdict());
    }
    if check_text(Text::or_empty(&message.message)).is_err() {
        return Ok(Verdict::refused(DenyType::TextTooLong));
    }
    Ok(Verdict::Accepted(edit_to_tell(alloc, who.session, message)?))
}
