//! Other parts of a session: the sender's or another's.

ghost use Rattle.std.specs.Prelude.{◌≡◌, IfOk, IsTrue};
ghost use Rattle.std.specs.List.{list_any};
ghost use Rattle.mum_policy.specs.Member.{actor_of};
ghost use Rattle.mum_users.specs.Sessions.{session_of};
ghost use Rattle.mum_users.specs.State.{has_number};
ghost use Rattle.mum_state.specs.Fits.{holds_of_given};
ghost use Rattle.mum_users.specs.State.{is_context};
ghost use Rattle.mum_rules_tree.specs.Decision.{all_met, first_standing};
ghost use Rattle.mum_rules_user.specs.Asked.{Command, channels, session_or};
ghost use Rattle.mum_rules_user.specs.Limits.{has_long_text, limits_of_change};
ghost use Rattle.mum_rules_user.specs.Needs.{needs};
ghost use Rattle.mum_rules_user.specs.Outcome.{edit_to_change};
ghost use Rattle.mum_rules_user.specs.Verdict.{command_verdict};

use crate::listening::{limit_of_listening, need_to_listen};
use crate::moving::{is_full_for, need_to_move, new_channel};
use crate::session::{channel_list, channels, is_protected, session_or};
use crate::speech::{clears_suppression, need_to_rule_speech, rules_speech};
use mum_base::{ChannelId, DenyType, Items, Octets, OutOfMemory, SessionId, Text};
use mum_msg_state::UserState;
use mum_policy::Who;
use mum_rules_tree::{Lack, is_text_given};
use mum_state::{Edit, State, Verdict};
use mum_users::Roster;
use mum_users::user::is_context;
use std::alloc::Global;

// What is needed, in order: for another channel, for who is heard, for listening.
fn need_for_change(
    state: &State,
    who: &Who<'_>,
    session: SessionId,
    message: &UserState,
) -> Result<(), Lack>
    ensures { result ≡ all_met state.now
        (needs state.now (actor_of who.now) who.now.session (Command.change session message.now)) }
{
    need_to_move(state, who, session, message)?;
    need_to_rule_speech(state, who, session, message)?;
    need_to_listen(state, who, message.listening_channel_add.as_slice())
}

fn is_context_if_given(context: &Option<Octets>) -> bool
    ensures { result ≡ holds_of_given is_context context.now }
{
    match context {
        Some(context) => is_context(context.as_slice()),
        None => true,
    }
}

// Whether the comment or the plugin context is too long.
fn has_long_text(message: &UserState) -> bool
    ensures { result ≡ has_long_text message.now }
{
    !is_text_given(message.comment.as_ref()) || !is_context_if_given(&message.plugin_context)
}

// The first limit that applies, where these are the channels to listen to.
fn limit_of_change(
    alloc: Global,
    state: &State,
    actor: SessionId,
    session: SessionId,
    message: &UserState,
    listen: &[ChannelId],
) -> Option<DenyType>
    requires here { IsTrue (list_any (has_number session) state.now.roster.sessions) }
    requires listed { listen.now ≡ channels message.now.listening_channel_add }
    ensures { result ≡ first_standing (limits_of_change state.now actor session message.now) }
{
    let roster = state.roster();
    if rules_speech(message) && is_protected(roster, actor, session) {
        return Some(DenyType::SuperUser);
    }
    if is_full_for(state, new_channel(roster, session, message)) {
        return Some(DenyType::ChannelFull);
    }
    if let Some(kind) = limit_of_listening(alloc, roster, session, listen) {
        return Some(kind);
    }
    if has_long_text(message) {
        return Some(DenyType::TextTooLong);
    }
    None
}

fn shared_octets(octets: &Option<Octets>) -> Result<Option<Octets>, OutOfMemory>
    ensures { IfOk result (λ copy. copy ≡ octets.now) }
{
    match octets {
        Some(octets) => Ok(Some(octets.share()?)),
        None => Ok(None),
    }
}

fn edit_to_change(
    alloc: Global,
    roster: &Roster,
    actor: SessionId,
    session: SessionId,
    message: &UserState,
    listen: Items<ChannelId>,
) -> Result<Edit, OutOfMemory>
    requires { listen ≡ channels message.now.listening_channel_add }
    ensures { IfOk result (λ edit. edit ≡ edit_to_change roster.now actor session message.now) }
{
    Ok(Edit::SetUser {
        session,
        actor,
        channel: new_channel(roster, session, message),
        mute: message.mute,
        deaf: message.deaf,
        clear_suppress: clears_suppression(message),
        priority: message.priority_speaker,
        self_mute: message.self_mute,
        self_deaf: message.self_deaf,
        recording: message.recording,
        comment: Text::share_given(message.comment.as_ref())?,
        context: shared_octets(&message.plugin_context)?,
        listen,
        unlisten: channel_list(alloc, message.listening_channel_remove.as_slice())?,
    })
}

// What is decided of other parts of a session that is here.
pub(crate) fn decide_change(
    alloc: Global,
    state: &State,
    who: &Who<'_>,
    message: &UserState,
) -> Result<Verdict, OutOfMemory>
    requires { IsTrue (list_any (has_number (session_or who.now.session message.now.session))
        state.now.roster.sessions) }
    ensures { IfOk result (λ verdict. verdict ≡ command_verdict state.now (actor_of who.now)
        who.now.session
        (Command.change (session_or who.now.session message.now.session) message.now)) }
{
    let session = session_or(who.session, message.session);
    if let Err(lack) = need_for_change(state, who, session, message) {
        return Ok(lack.verdict());
    }
    let listen = channels(alloc, message.listening_channel_add.as_slice())?;
    if let Some(kind) = limit_of_change(
        alloc,
        state,
        who.session,
        session,
        message,
        listen.as_slice(),
    ) {
        return Ok(Verdict::refused(kind));
    }
    let roster = state.roster();
    let edit = edit_to_change(alloc, roster, who.session, session, message, listen)?;
    Ok(Verdict::Accepted(edit))
}
