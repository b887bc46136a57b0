//! What is reported of sessions that are new or changed.

ghost use Rattle.std.specs.Prelude.{◌≡◌, ◌++◌, ◌||◌, IfOk, IsTrue, OnOk, filter, map, not};
ghost use Rattle.std.specs.List.{flat_map, list_all};
ghost use Rattle.std.specs.Option.{option_map};
ghost use Rattle.std.specs.Str.{bytes_eq};
ghost use Rattle.mum_state.specs.Proper.{is_sound_user};
ghost use Rattle.mum_users.specs.Listeners.{listens};
ghost use Rattle.mum_notify.specs.Channels.{if_it_tells, said_unless};
ghost use Rattle.mum_notify.specs.Parcels.{IsWithinFrame, user_frame, user_payload};
ghost use Rattle.mum_notify.specs.declared.watch.Watch.TheVariants.{One};
ghost use Rattle.mum_notify.specs.Users.{edited_by, flag_told, gives_comment, listened_only_in, said_if_set, tells_of_user, user_change_told, user_changes_told, user_difference, user_told, watched};

use crate::channels::{number_unless, text_unless_empty, text_unless_same};
use crate::frames::user_frame;
use crate::watch::{Watch, whom_to_watch};
use mum_base::{AccountId, Items, Octets, OutOfMemory, SessionId, Text};
use mum_msg_state::UserState;
use mum_state::{Edit, State};
use mum_users::{ListenerPair, Roster, User};
use std::alloc::Global;

// A flag, where it is set.
pub(crate) fn said_if_set(flag: bool) -> Option<bool>
    ensures { result ≡ said_if_set flag }
{
    if flag { Some(flag) } else { None }
}

fn account_told(account: Option<AccountId>) -> Option<u32>
    ensures { result ≡ option_map (λ account. account.0) account }
{
    match account {
        Some(account) => Some(account.0),
        None => None,
    }
}

// The channels of these pairs.
fn channels_of(alloc: Global, pairs: &[ListenerPair]) -> Result<Items<u32>, OutOfMemory>
    ensures { IfOk result (λ listed. listed ≡ map (λ pair. pair.channel.0) pairs.now) }
{
    let mut listed = Vec::with_capacity(alloc, pairs.len())?;
    for pair in pairs {
        listed.push(pair.channel.0)?;
    }
    Ok(Items::from_vec(listed))
}

// All of a session that is not as it is by default.
fn user_told(alloc: Global, roster: &Roster, user: &User) -> Result<UserState, OutOfMemory>
    ensures { IfOk result (λ told. told ≡ user_told roster.now user.now) }
{
    Ok(UserState {
        name: Some(user.name.share()?),
        comment: text_unless_empty(&user.comment)?,
        listening_channel_add: channels_of(alloc, roster.pairs_of(user.session))?,
        session: Some(user.session.0),
        actor: None,
        user_id: account_told(user.account),
        channel_id: Some(user.channel.0),
        mute: said_if_set(user.mute),
        deaf: said_if_set(user.deaf),
        suppress: said_if_set(user.suppress),
        self_mute: said_if_set(user.self_mute),
        self_deaf: said_if_set(user.self_deaf),
        plugin_context: None,
        plugin_identity: None,
        priority_speaker: said_if_set(user.priority),
        recording: said_if_set(user.recording),
        temporary_access_tokens: Items::new(alloc),
        listening_channel_remove: Items::new(alloc),
    })
}

// The frame that reports all of a session.
pub(crate) fn frame_of_user(
    alloc: Global,
    roster: &Roster,
    user: &User,
) -> Result<Octets, OutOfMemory>
    requires { IsWithinFrame (user_payload (user_told roster.now user.now)) }
    ensures { IfOk result (λ frame. frame ≡ user_frame (user_told roster.now user.now)) }
{
    let told = user_told(alloc, roster, user)?;
    user_frame(alloc, &told)
}

fn number_of(session: Option<SessionId>) -> Option<u32>
    ensures { result ≡ option_map (λ session. session.0) session }
{
    match session {
        Some(session) => Some(session.0),
        None => None,
    }
}

// The session by which the edit is made, where it has one.
fn edited_by(edit: &Edit) -> Option<SessionId>
    ensures { result ≡ edited_by edit.now }
{
    match *edit {
        Edit::Kick { actor, .. }
        | Edit::RemoveChannel { actor, .. }
        | Edit::SetUser { actor, .. } => Some(actor),
        Edit::SetAcl { actor, .. } => actor,
        _ => None,
    }
}

fn gives_comment(edit: &Edit) -> bool
    ensures { result ≡ gives_comment edit.now }
{
    match edit {
        Edit::SetUser { comment, .. } => comment.is_some(),
        _ => false,
    }
}

// A flag that is another, also where it became false.
fn flag_told(was: bool, now: bool) -> Option<bool>
    ensures { result ≡ flag_told was now }
{
    match (was, now) {
        (true, true) | (false, false) => None,
        _ => Some(now),
    }
}

// The comment, where the edit gives another.
fn comment_told(edit: &Edit, was: &Text, now: &Text) -> Result<Option<Text>, OutOfMemory>
    ensures { IfOk result (λ said. said
        ≡ said_unless (not (gives_comment edit.now) || bytes_eq was.now now.now) now.now) }
{
    if gives_comment(edit) {
        text_unless_same(was, now)
    } else {
        Ok(None)
    }
}

// The channels of these pairs to which the session does not listen in the other roster.
fn channels_not_in(
    alloc: Global,
    other: &Roster,
    session: SessionId,
    pairs: &[ListenerPair],
) -> Result<Items<u32>, OutOfMemory>
    ensures { IfOk result (λ listed. listed ≡ map (λ pair. pair.channel.0)
        (filter (λ pair. not (listens other.now session pair.channel)) pairs.now)) }
{
    let mut listed = Vec::new(alloc);
    for pair in pairs {
        if !other.listens(session, pair.channel) {
            listed.push(pair.channel.0)?;
        }
    }
    Ok(Items::from_vec(listed))
}

// The channels that a session listens to in one roster and not in the other.
fn listened_only_in(
    alloc: Global,
    roster: &Roster,
    other: &Roster,
    session: SessionId,
) -> Result<Items<u32>, OutOfMemory>
    ensures { IfOk result (λ listed. listed ≡ listened_only_in roster.now other.now session) }
{
    channels_not_in(alloc, other, session, roster.pairs_of(session))
}

// What of a session is another.
fn user_change_told(
    alloc: Global,
    before: &Roster,
    edit: &Edit,
    after: &Roster,
    was: &User,
    now: &User,
) -> Result<UserState, OutOfMemory>
    ensures { IfOk result (λ told. told
        ≡ user_change_told before.now edit.now after.now was.now now.now) }
{
    Ok(UserState {
        comment: comment_told(edit, &was.comment, &now.comment)?,
        listening_channel_add: listened_only_in(alloc, after, before, now.session)?,
        listening_channel_remove: listened_only_in(alloc, before, after, now.session)?,
        session: Some(now.session.0),
        actor: number_of(edited_by(edit)),
        name: None,
        user_id: None,
        channel_id: number_unless(was.channel.0, now.channel.0),
        mute: flag_told(was.mute, now.mute),
        deaf: flag_told(was.deaf, now.deaf),
        suppress: flag_told(was.suppress, now.suppress),
        self_mute: flag_told(was.self_mute, now.self_mute),
        self_deaf: flag_told(was.self_deaf, now.self_deaf),
        plugin_context: None,
        plugin_identity: None,
        priority_speaker: flag_told(was.priority, now.priority),
        recording: flag_told(was.recording, now.recording),
        temporary_access_tokens: Items::new(alloc),
    })
}

// Whether the message names something beside the session and the actor.
fn tells_of_user(message: &UserState) -> bool
    ensures { result ≡ tells_of_user message.now }
{
    message.channel_id.is_some()
        || message.mute.is_some()
        || message.deaf.is_some()
        || message.suppress.is_some()
        || message.self_mute.is_some()
        || message.self_deaf.is_some()
        || message.comment.is_some()
        || message.priority_speaker.is_some()
        || message.recording.is_some()
        || !message.listening_channel_add.as_slice().is_empty()
        || !message.listening_channel_remove.as_slice().is_empty()
}

// One frame more, where the message reports something.
fn push_difference(
    alloc: Global,
    frames: &mut Vec<Octets>,
    told: &UserState,
) -> Result<(), OutOfMemory>
    requires { IsWithinFrame (user_payload told.now) }
    ensures { OnOk result (frames.new.items ≡ frames.old.items
        ++ map user_frame (if_it_tells tells_of_user told.now)) }
{
    if !tells_of_user(told) {
        return Ok(());
    }
    frames.push(user_frame(alloc, told)?)?;
    Ok(())
}

// One frame more, where something of the session is another.
fn add_difference(
    alloc: Global,
    frames: &mut Vec<Octets>,
    before: &State,
    edit: &Edit,
    after: &State,
    now: &User,
) -> Result<(), OutOfMemory>
    requires { IsTrue (is_sound_user now.now) }
    ensures { OnOk result (frames.new.items ≡ frames.old.items
        ++ map user_frame (user_difference before.now edit.now after.now now.now)) }
{
    let old = before.roster();
    let new = after.roster();
    let Some(was) = old.session(now.session) else {
        return Ok(());
    };
    let told = user_change_told(alloc, old, edit, new, was, now)?;
    push_difference(alloc, frames, &told)
}

// The frames of all sessions that are others.
fn differences(
    alloc: Global,
    before: &State,
    edit: &Edit,
    after: &State,
    users: &[User],
) -> Result<Vec<Octets>, OutOfMemory>
    requires { IsTrue (list_all is_sound_user users.now) }
    ensures { IfOk result (λ frames. frames.items
        ≡ map user_frame (flat_map (user_difference before.now edit.now after.now) users.now)) }
{
    let mut frames = Vec::new(alloc);
    for user in users {
        add_difference(alloc, &mut frames, before, edit, after, user)?;
    }
    Ok(frames)
}

// The frame of one session, if it is there and another.
fn difference_of(
    alloc: Global,
    before: &State,
    edit: &Edit,
    after: &State,
    session: SessionId,
) -> Result<Vec<Octets>, OutOfMemory>
    ensures { IfOk result (λ frames. frames.items ≡ map user_frame
        (flat_map (user_difference before.now edit.now after.now)
        (watched (One session) after.now.roster))) }
{
    let mut frames = Vec::new(alloc);
    let roster = after.roster();
    let Some(user) = roster.session(session) else {
        return Ok(frames);
    };
    add_difference(alloc, &mut frames, before, edit, after, user)?;
    Ok(frames)
}

// The frames that report sessions that the edit made others, where it takes a channel away or not.
pub(crate) fn user_change_frames(
    alloc: Global,
    before: &State,
    edit: &Edit,
    after: &State,
    closes: bool,
) -> Result<Vec<Octets>, OutOfMemory>
    ensures { IfOk result (λ frames. frames.items
        ≡ map user_frame (user_changes_told before.now edit.now after.now closes)) }
{
    match whom_to_watch(edit, closes) {
        Watch::Nobody => Ok(Vec::new(alloc)),
        Watch::One(session) => difference_of(alloc, before, edit, after, session),
        Watch::Everybody => {
            let roster = after.roster();
            differences(alloc, before, edit, after, roster.users())
        }
    }
}
