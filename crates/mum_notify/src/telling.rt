//! Who is sent what of an edit, in which order.

ghost use Rattle.std.specs.Prelude.{◌≡◌, ◌++◌, IfOk, OnOk, filter, map, not};
ghost use Rattle.mum_state.specs.Kinds.{is_empty};
ghost use Rattle.mum_users.specs.State.{has_number};
ghost use Rattle.mum_notify.specs.Channels.{channel_changes_told, new_channels_told};
ghost use Rattle.mum_notify.specs.Gone.{channel_gone, channels_gone};
ghost use Rattle.mum_notify.specs.Notices.{FitsFrame, arrival, closes, notices};
ghost use Rattle.mum_notify.specs.Parcels.{all_to_each, channel_frame, channel_gone_frame, to_each, user_frame};
ghost use Rattle.mum_notify.specs.Users.{user_changes_told};

use crate::channels::{channel_change_frames, new_channel_frames};
use crate::gone::{channel_gone_frames, channels_gone, tell_of_departure};
use crate::notice::{Notice, Notices};
use crate::parcels::{tell_all, tell_one};
use crate::sync::tell_state;
use crate::texts::{tell_of_policy, tell_of_text};
use crate::users::{frame_of_user, user_change_frames};
use mum_base::{ChannelId, Items, Octets, OutOfMemory, SessionId};
use mum_state::{Edit, State};
use mum_users::User;
use std::alloc::Global;

fn is_other(user: &User, session: SessionId) -> bool
    ensures { result ≡ not (has_number session user.now) }
{
    user.session.0 != session.0
}

// A frame for all sessions but one.
fn tell_others(
    list: &mut Vec<Notice>,
    users: &[User],
    session: SessionId,
    frame: &Octets,
) -> Result<(), OutOfMemory>
    ensures { OnOk result (list.new.items ≡ list.old.items
        ++ to_each (filter (λ user. not (has_number session user)) users.now) frame.now) }
{
    for user in users {
        if is_other(user, session) {
            tell_one(list, user, frame)?;
        }
    }
    Ok(())
}

// Sends everything to one that joins, and notifies the others of the newcomer.
fn tell_of_arrival(
    alloc: Global,
    list: &mut Vec<Notice>,
    after: &State,
    edit: &Edit,
) -> Result<(), OutOfMemory>
    ensures { OnOk result (list.new.items ≡ list.old.items ++ arrival after.now edit.now) }
{
    let Edit::Join { session, .. } = *edit else {
        return Ok(());
    };
    let roster = after.roster();
    let Some(user) = roster.session(session) else {
        return Ok(());
    };
    tell_state(alloc, list, after, user)?;
    let frame = frame_of_user(alloc, roster, user)?;
    tell_others(list, roster.users(), session, &frame)
}

// These frames, each for all sessions.
fn tell_here(list: &mut Vec<Notice>, state: &State, frames: &[Octets]) -> Result<(), OutOfMemory>
    ensures { OnOk result (list.new.items
        ≡ list.old.items ++ all_to_each state.now.roster.sessions frames.now) }
{
    let roster = state.roster();
    tell_all(list, roster.users(), frames)
}

// Reports channels that are new or others.
fn tell_of_channels(
    alloc: Global,
    list: &mut Vec<Notice>,
    before: &State,
    edit: &Edit,
    after: &State,
) -> Result<(), OutOfMemory>
    ensures { OnOk result (list.new.items ≡ (list.old.items
        ++ all_to_each after.now.roster.sessions
        (map channel_frame (new_channels_told after.now edit.now)))
        ++ all_to_each after.now.roster.sessions
        (map channel_frame (channel_changes_told before.now edit.now after.now))) }
{
    let made = new_channel_frames(alloc, after, edit)?;
    tell_here(list, after, made.as_slice())?;
    let changed = channel_change_frames(alloc, before, edit, after)?;
    tell_here(list, after, changed.as_slice())?;
    Ok(())
}

fn has_some(ids: &[ChannelId]) -> bool
    ensures { result ≡ not (is_empty ids.now) }
{
    !ids.is_empty()
}

// Reports sessions that are others, and then channels that are gone.
fn tell_of_changes(
    alloc: Global,
    list: &mut Vec<Notice>,
    before: &State,
    edit: &Edit,
    after: &State,
) -> Result<(), OutOfMemory>
    ensures { OnOk result (list.new.items ≡ (list.old.items
        ++ all_to_each after.now.roster.sessions (map user_frame
        (user_changes_told before.now edit.now after.now (closes before.now edit.now after.now))))
        ++ all_to_each after.now.roster.sessions
        (map (λ id. channel_gone_frame (channel_gone id))
        (channels_gone before.now edit.now after.now))) }
{
    let gone = channels_gone(alloc, before, edit, after)?;
    let ids = gone.as_slice();
    let closes = has_some(ids);
    let changed = user_change_frames(alloc, before, edit, after, closes)?;
    tell_here(list, after, changed.as_slice())?;
    let closed = channel_gone_frames(alloc, ids)?;
    tell_here(list, after, closed.as_slice())?;
    Ok(())
}

/// What each session is sent of an edit that leads from one state to another: of channels that are new,
/// then of those that are others, of who joins, of sessions that are others, of channels that are gone, of
/// who goes, a text, and what each may do where a policy was set. It costs in proportion to what the edit
/// can touch and to the parcels that it makes.
pub fn notices(
    alloc: Global,
    before: &State,
    edit: &Edit,
    after: &State,
) -> Result<Notices, OutOfMemory>
    requires { FitsFrame edit.now }
    ensures { IfOk result (λ told. told ≡ notices before.now edit.now after.now) }
{
    let mut list = Vec::new(alloc);
    tell_of_channels(alloc, &mut list, before, edit, after)?;
    tell_of_arrival(alloc, &mut list, after, edit)?;
    tell_of_changes(alloc, &mut list, before, edit, after)?;
    tell_of_departure(alloc, &mut list, before, edit, after)?;
    tell_of_text(alloc, &mut list, after, edit)?;
    tell_of_policy(alloc, &mut list, after, edit)?;
    Ok(Items::from_vec(list))
}
