//! Texts and whom they reach; and what a session is sent of its permissions.

ghost use Rattle.std.specs.Prelude.{◌≡◌, [], ◌∷◌, ◌++◌, IfOk, IsTrue, OnOk, filter, map};
ghost use Rattle.std.specs.List.{list_all, list_any};
ghost use Rattle.mum_state.specs.Permissions.{actor_from, granted_to};
ghost use Rattle.mum_tree.specs.Rows.{is_there, path};
ghost use Rattle.mum_notify.specs.Notices.{FitsFrame};
ghost use Rattle.mum_notify.specs.Parcels.{IsWithinFrame, text_frame, text_payload, to_each};
ghost use Rattle.mum_notify.specs.Channels.{numbers};
ghost use Rattle.mum_notify.specs.Sorted.{lists};
ghost use Rattle.mum_notify.specs.Texts.{NamesThese, is_for, is_reached, may_text, permission_parcel, permission_parcels, permissions_told, session_numbers, text_parcels, text_told};

use crate::channels::numbers;
use crate::frames::{permissions_frame, text_frame};
use crate::notice::Notice;
use crate::parcels::{parcel, tell_one};
use crate::sorted::Sorted;
use mum_base::{ChannelId, Items, Octets, OutOfMemory, Perm, SessionId, Text};
use mum_msg_rule::{PermissionQuery, TextMessage};
use mum_state::{Edit, State, home_of, who_is};
use mum_tree::Tree;
use mum_users::User;
use std::alloc::Global;

fn has_one(sorted: &Sorted, ids: &[ChannelId]) -> bool
    ensures { result ≡ list_any (λ id. lists sorted.now.numbers.items id.0) ids.now }
{
    ids.iter().any(|id| sorted.has(id.0))
}

// The channel is one of these, or below one of them.
fn is_below_one(tree: &Tree, tops: &Sorted, id: ChannelId) -> bool
    ensures { result
        ≡ list_any (λ channel. lists tops.now.numbers.items channel.0) (path tree.now.channels id) }
{
    match tree.path(id) {
        Some(path) => has_one(tops, path.as_slice()),
        None => false,
    }
}

// Whether the session may send texts to the channel.
fn may_text(state: &State, actor: SessionId, channel: ChannelId) -> bool
    ensures { result ≡ may_text state.now actor channel }
{
    let Some(user) = state.roster().session(actor) else {
        return false;
    };
    let home = home_of(state.tree(), user);
    match state.granted_to(&who_is(user, home.as_slice()), channel) {
        Some(held) => held.has(Perm::TEXT_MESSAGE),
        None => false,
    }
}

// A text, with all that it names.
#[derive(Drop)]
pub(crate) struct TextSent<'a> {
    pub(crate) actor: SessionId,
    pub(crate) sessions: &'a [SessionId],
    pub(crate) channels: &'a [ChannelId],
    pub(crate) trees: &'a [ChannelId],
}

// What a text names, to be looked up: its lists may be long.
#[derive(Drop)]
struct Named {
    sessions: Sorted,
    channels: Sorted,
    trees: Sorted,
}

impl Named {
    fn of(alloc: Global, text: &TextMessage) -> Result<Named, OutOfMemory>
        ensures { IfOk result (λ named. NamesThese named text.now.session text.now.channel_id text.now.tree_id) }
    {
        Ok(Named {
            sessions: Sorted::of(alloc, text.session.as_slice())?,
            channels: Sorted::of(alloc, text.channel_id.as_slice())?,
            trees: Sorted::of(alloc, text.tree_id.as_slice())?,
        })
    }
}

// Whether the text is for the session, as it is looked up: each list once for each session, and for each
// channel on the path to it.
fn is_reached(state: &State, actor: SessionId, named: &Named, user: &User) -> bool
    ensures { result ≡ is_reached state.now actor named.now user.now }
{
    user.session.0 != actor.0
        && (named.sessions.has(user.session.0)
            || named.channels.has(user.channel.0)
            || (is_below_one(state.tree(), &named.trees, user.channel)
                && may_text(state, actor, user.channel)))
}

// Whether the text is for the session.
fn is_for(state: &State, text: &TextSent<'_>, named: &Named, user: &User) -> bool
    requires { NamesThese named.now (session_numbers text.now.sessions.now)
        (numbers text.now.channels.now) (numbers text.now.trees.now) }
    ensures { result ≡ is_for state.now text.now.actor text.now.sessions.now
        text.now.channels.now text.now.trees.now user.now }
{
    is_reached(state, text.actor, named, user)
}

fn session_numbers(alloc: Global, sessions: &[SessionId]) -> Result<Items<u32>, OutOfMemory>
    ensures { IfOk result (λ listed. listed ≡ session_numbers sessions.now) }
{
    let mut listed = Vec::with_capacity(alloc, sessions.len())?;
    for session in sessions {
        listed.push(session.0)?;
    }
    Ok(Items::from_vec(listed))
}

pub(crate) fn text_told(
    alloc: Global,
    text: &TextSent<'_>,
    message: &Text,
) -> Result<TextMessage, OutOfMemory>
    ensures { IfOk result (λ told. told ≡ text_told text.now.actor text.now.sessions.now
        text.now.channels.now text.now.trees.now message.now) }
{
    Ok(TextMessage {
        actor: Some(text.actor.0),
        session: session_numbers(alloc, text.sessions)?,
        channel_id: numbers(alloc, text.channels)?,
        tree_id: numbers(alloc, text.trees)?,
        message: Some(message.share()?),
    })
}

// The frame of a text for those of these sessions whom it is for.
fn tell_text(
    list: &mut Vec<Notice>,
    state: &State,
    text: &TextSent<'_>,
    named: &Named,
    users: &[User],
    frame: &Octets,
) -> Result<(), OutOfMemory>
    requires { NamesThese named.now (session_numbers text.now.sessions.now)
        (numbers text.now.channels.now) (numbers text.now.trees.now) }
    ensures { OnOk result (list.new.items ≡ list.old.items
        ++ to_each (filter (is_for state.now text.now.actor text.now.sessions.now
        text.now.channels.now text.now.trees.now) users.now) frame.now) }
{
    for user in users {
        if is_for(state, text, named, user) {
            tell_one(list, user, frame)?;
        }
    }
    Ok(())
}

// Sends a text, of which this is the message, to those whom it is for.
fn send_text(
    alloc: Global,
    list: &mut Vec<Notice>,
    state: &State,
    text: &TextSent<'_>,
    told: &TextMessage,
) -> Result<(), OutOfMemory>
    requires within { IsWithinFrame (text_payload told.now) }
    requires sessions { told.now.session ≡ session_numbers text.now.sessions.now }
    requires channels { told.now.channel_id ≡ numbers text.now.channels.now }
    requires trees { told.now.tree_id ≡ numbers text.now.trees.now }
    ensures { OnOk result (list.new.items ≡ list.old.items
        ++ to_each (filter (is_for state.now text.now.actor text.now.sessions.now
        text.now.channels.now text.now.trees.now) state.now.roster.sessions) (text_frame told.now)) }
{
    let frame = text_frame(alloc, told)?;
    let named = Named::of(alloc, told)?;
    let roster = state.roster();
    tell_text(list, state, text, &named, roster.users(), &frame)
}

// Sends a text to those whom it is for.
pub(crate) fn tell_of_text(
    alloc: Global,
    list: &mut Vec<Notice>,
    after: &State,
    edit: &Edit,
) -> Result<(), OutOfMemory>
    requires { FitsFrame edit.now }
    ensures { OnOk result (list.new.items ≡ list.old.items ++ text_parcels after.now edit.now) }
{
    let Edit::Text {
        actor,
        sessions,
        channels,
        trees,
        message,
    } = edit
    else {
        return Ok(());
    };
    let sessions = sessions.as_slice();
    let channels = channels.as_slice();
    let trees = trees.as_slice();
    let text = TextSent {
        actor: *actor,
        sessions,
        channels,
        trees,
    };
    let told = text_told(alloc, &text, message)?;
    send_text(alloc, list, after, &text, &told)
}

// What a session may do in a channel that is there.
pub(crate) fn held_in(state: &State, user: &User, channel: ChannelId) -> Perm
    requires { IsTrue (is_there state.now.tree.channels channel) }
    ensures { result.0 ≡ granted_to state.now (actor_from state.now.tree user.now) channel }
{
    let home = home_of(state.tree(), user);
    match state.granted_to(&who_is(user, home.as_slice()), channel) {
        Some(held) => held,
        None => Perm::NONE,
    }
}

fn permissions_told(state: &State, user: &User) -> PermissionQuery
    requires { IsTrue (is_there state.now.tree.channels user.now.channel) }
    ensures { result ≡ permissions_told state.now user.now }
{
    PermissionQuery {
        channel_id: Some(user.channel.0),
        permissions: Some(held_in(state, user, user.channel).0),
        flush: Some(true),
    }
}

// One parcel more, of what a session may do where it is.
fn tell_permission(
    alloc: Global,
    list: &mut Vec<Notice>,
    state: &State,
    user: &User,
) -> Result<(), OutOfMemory>
    requires { IsTrue (is_there state.now.tree.channels user.now.channel) }
    ensures { OnOk result (list.new.items
        ≡ list.old.items ++ permission_parcel state.now user.now ∷ []) }
{
    let frame = permissions_frame(alloc, &permissions_told(state, user))?;
    list.push(parcel(frame, user))?;
    Ok(())
}

// Each of these sessions is sent what it may do where it is.
fn tell_permissions(
    alloc: Global,
    list: &mut Vec<Notice>,
    state: &State,
    users: &[User],
) -> Result<(), OutOfMemory>
    requires { IsTrue (list_all (λ user. is_there state.now.tree.channels user.channel) users.now) }
    ensures { OnOk result (list.new.items
        ≡ list.old.items ++ map (permission_parcel state.now) users.now) }
{
    for user in users {
        tell_permission(alloc, list, state, user)?;
    }
    Ok(())
}

// Notifies each session of what it may do where it is, where a policy was set.
pub(crate) fn tell_of_policy(
    alloc: Global,
    list: &mut Vec<Notice>,
    after: &State,
    edit: &Edit,
) -> Result<(), OutOfMemory>
    ensures { OnOk result (list.new.items ≡ list.old.items ++ permission_parcels after.now edit.now) }
{
    let Edit::SetAcl { .. } = edit else {
        return Ok(());
    };
    let roster = after.roster();
    tell_permissions(alloc, list, after, roster.users())
}
