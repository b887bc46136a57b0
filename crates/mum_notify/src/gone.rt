//! What is reported of channels and sessions that go.

ghost use Rattle.std.specs.Prelude.{◌≡◌, [], ◌∷◌, ◌++◌, IfOk, OnOk, filter, map};
ghost use Rattle.mum_state.specs.Followed.{left_by, temporary_around};
ghost use Rattle.mum_tree.specs.Rows.{is_temporary};
ghost use Rattle.mum_notify.specs.Channels.{channel_ids};
ghost use Rattle.mum_notify.specs.Gone.{channel_gone, channels_gone, departure, is_told_gone, last_parcel, user_kicked, user_left};
ghost use Rattle.mum_notify.specs.Notices.{FitsFrame};
ghost use Rattle.mum_notify.specs.Parcels.{channel_gone_frame, to_each, user_gone_frame};

use crate::channels::text_unless_empty;
use crate::children::channel_ids;
use crate::frames::{channel_gone_frame, user_gone_frame};
use crate::notice::Notice;
use crate::parcels::tell_each;
use crate::users::said_if_set;
use mum_base::{ChannelId, Octets, OutOfMemory, SessionId, Text};
use mum_msg_state::{ChannelRemove, UserRemove};
use mum_state::{Edit, State};
use mum_tree::Tree;
use mum_users::User;
use std::alloc::Global;

// The channel in which a session is, if it is temporary.
fn temporary_around(state: &State, session: SessionId) -> Option<ChannelId>
    ensures { result ≡ temporary_around state.now session }
{
    let user = state.roster().session(session)?;
    let channel = state.tree().channel(user.channel)?;
    if channel.temporary {
        Some(user.channel)
    } else {
        None
    }
}

// The temporary channel in which the session is that goes or enters another.
fn left_by(state: &State, edit: &Edit) -> Option<ChannelId>
    ensures { result ≡ left_by state.now edit.now }
{
    match *edit {
        Edit::Leave { session } | Edit::Kick { session, .. } => temporary_around(state, session),
        Edit::MakeChannel {
            temporary: true,
            maker: Some(maker),
            ..
        } => temporary_around(state, maker),
        Edit::SetUser {
            session,
            channel: Some(_),
            ..
        } => temporary_around(state, session),
        _ => None,
    }
}

fn is_temporary(tree: &Tree, id: ChannelId) -> bool
    ensures { result ≡ is_temporary tree.now.channels id }
{
    match tree.channel(id) {
        Some(channel) => channel.temporary,
        None => false,
    }
}

// The channel is gone, and is reported: the topmost, and each temporary one.
fn is_told_gone(top: ChannelId, before: &Tree, after: &Tree, id: ChannelId) -> bool
    ensures { result ≡ is_told_gone top before.now after.now id }
{
    (id.0 == top.0 || is_temporary(before, id)) && !after.is_there(id)
}

// Of these channels those that are gone and are reported.
fn told_gone(
    alloc: Global,
    ids: &[ChannelId],
    before: &Tree,
    after: &Tree,
    top: ChannelId,
) -> Result<Vec<ChannelId>, OutOfMemory>
    ensures { IfOk result (λ gone. gone.items
        ≡ filter (is_told_gone top before.now after.now) ids.now) }
{
    let mut gone = Vec::new(alloc);
    for id in ids {
        if is_told_gone(top, before, after, *id) {
            gone.push(*id)?;
        }
    }
    Ok(gone)
}

// The channels whose going is reported where one is removed with all below it, in order of number.
fn removed_channels(
    alloc: Global,
    before: &Tree,
    after: &Tree,
    top: ChannelId,
) -> Result<Vec<ChannelId>, OutOfMemory>
    ensures { IfOk result (λ gone. gone.items
        ≡ filter (is_told_gone top before.now after.now) (channel_ids before.now)) }
{
    let ids = channel_ids(alloc, before)?;
    told_gone(alloc, ids.as_slice(), before, after, top)
}

// The channels whose going is reported, in order of number.
pub(crate) fn channels_gone(
    alloc: Global,
    before: &State,
    edit: &Edit,
    after: &State,
) -> Result<Vec<ChannelId>, OutOfMemory>
    ensures { IfOk result (λ gone. gone.items ≡ channels_gone before.now edit.now after.now) }
{
    if let Edit::RemoveChannel { id, .. } = *edit {
        return removed_channels(alloc, before.tree(), after.tree(), id);
    }
    let mut gone = Vec::new(alloc);
    let Some(id) = left_by(before, edit) else {
        return Ok(gone);
    };
    if after.tree().is_there(id) {
        return Ok(gone);
    }
    gone.push(id)?;
    Ok(gone)
}

fn tell_gone(alloc: Global, frames: &mut Vec<Octets>, id: ChannelId) -> Result<(), OutOfMemory>
    ensures { OnOk result (frames.new.items
        ≡ frames.old.items ++ channel_gone_frame (channel_gone id) ∷ []) }
{
    let told = ChannelRemove {
        channel_id: Some(id.0),
    };
    frames.push(channel_gone_frame(alloc, &told)?)?;
    Ok(())
}

// The frames that report channels that went.
pub(crate) fn channel_gone_frames(
    alloc: Global,
    gone: &[ChannelId],
) -> Result<Vec<Octets>, OutOfMemory>
    ensures { IfOk result (λ frames. frames.items
        ≡ map (λ id. channel_gone_frame (channel_gone id)) gone.now) }
{
    let mut frames = Vec::with_capacity(alloc, gone.len())?;
    for id in gone {
        tell_gone(alloc, &mut frames, *id)?;
    }
    Ok(frames)
}

fn user_left(session: SessionId) -> UserRemove
    ensures { result ≡ user_left session }
{
    UserRemove {
        session: Some(session.0),
        actor: None,
        reason: None,
        ban: None,
    }
}

pub(crate) fn user_kicked(
    session: SessionId,
    actor: SessionId,
    reason: &Text,
    ban: bool,
) -> Result<UserRemove, OutOfMemory>
    ensures { IfOk result (λ told. told ≡ user_kicked session actor reason.now ban) }
{
    Ok(UserRemove {
        session: Some(session.0),
        actor: Some(actor.0),
        reason: text_unless_empty(reason)?,
        ban: said_if_set(ban),
    })
}

// A parcel that is the last for this session.
fn last_parcel(session: SessionId, bytes: Octets, user: &User) -> Notice
    ensures { result ≡ last_parcel session bytes user.now }
{
    Notice {
        to: user.session,
        slot: user.slot,
        bytes,
        last: user.session.0 == session.0,
    }
}

fn tell_last(
    list: &mut Vec<Notice>,
    session: SessionId,
    user: &User,
    frame: &Octets,
) -> Result<(), OutOfMemory>
    ensures { OnOk result (list.new.items
        ≡ list.old.items ++ last_parcel session frame.now user.now ∷ []) }
{
    list.push(last_parcel(session, frame.share()?, user))?;
    Ok(())
}

// One that is kicked is reported to all that were there, and gets nothing more itself.
fn tell_of_kick(
    list: &mut Vec<Notice>,
    users: &[User],
    session: SessionId,
    frame: &Octets,
) -> Result<(), OutOfMemory>
    ensures { OnOk result (list.new.items
        ≡ list.old.items ++ map (last_parcel session frame.now) users.now) }
{
    for user in users {
        tell_last(list, session, user, frame)?;
    }
    Ok(())
}

// One that leaves is reported to those that are left.
fn tell_of_leave(
    alloc: Global,
    list: &mut Vec<Notice>,
    users: &[User],
    session: SessionId,
) -> Result<(), OutOfMemory>
    ensures { OnOk result (list.new.items
        ≡ list.old.items ++ to_each users.now (user_gone_frame (user_left session))) }
{
    let told = user_left(session);
    let frame = user_gone_frame(alloc, &told)?;
    tell_each(list, users, &frame)
}

// Reports who went.
pub(crate) fn tell_of_departure(
    alloc: Global,
    list: &mut Vec<Notice>,
    before: &State,
    edit: &Edit,
    after: &State,
) -> Result<(), OutOfMemory>
    requires { FitsFrame edit.now }
    ensures { OnOk result (list.new.items
        ≡ list.old.items ++ departure before.now edit.now after.now) }
{
    match edit {
        Edit::Leave { session } => {
            let roster = after.roster();
            tell_of_leave(alloc, list, roster.users(), *session)
        }
        Edit::Kick {
            session,
            actor,
            reason,
            ban,
        } => {
            let told = user_kicked(*session, *actor, reason, *ban)?;
            let frame = user_gone_frame(alloc, &told)?;
            let roster = before.roster();
            tell_of_kick(list, roster.users(), *session, &frame)
        }
        _ => Ok(()),
    }
}
