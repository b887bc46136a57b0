//! Why a session lacks a permission in a channel.

ghost use Rattle.std.specs.Prelude.{◌≡◌, ◌<◌, length, reverse};
ghost use Rattle.mum_policy.specs.Member.{actor_of};
ghost use Rattle.mum_policy.specs.Walk.{on_root};
ghost use Rattle.mum_tree.specs.Rows.{path};
ghost use Rattle.mum_why.specs.Cut.{cut, cut_at, cut_of};

use crate::walk::{is_of, walk_for};
use arrayvec::ArrayVec;
use mum_base::{AccountId, ChannelId, Perm, SessionId, Steps};
use mum_policy::{Policies, Who};
use mum_state::{State, home_of, who_is};
use mum_tree::{PATH_LIMIT, Tree};
use mum_users::User;
use std::sync::ledger::Ledger;

/// What takes a permission away from a session that lacks it in a channel.
#[derive(Clone, Copy, Debug, PartialEq, Eq)]
pub enum Cut {
    /// This entry of the channel's access control list, the first being 0, denies it, and no later entry that
    /// counts grants it again.
    Denied(ChannelId, usize),
    /// The entries from the root down to this channel of the path leave neither Traverse nor Write.
    Closed(ChannelId),
    /// The permission means something on the root alone, and the channel is another.
    RootOnly,
    /// SuperUser may do everything but speak and whisper.
    SuperUser,
    /// No entry that counts names it, and it is none of those that everybody has at first.
    NeverGiven,
}

// Whether the path ends at the root.
fn ends_at_root(path: &[ChannelId]) -> bool
    ensures { result ≡ on_root path.now }
{
    if path.is_empty() {
        return false;
    }
    let asked = path[path.len() - 1];
    asked == ChannelId::ROOT
}

// What takes a permission away from who lacks it in the last channel of the path.
fn cut_on<P: Policies, L: Ledger>(
    policies: &P,
    path: &[ChannelId],
    who: &Who<'_>,
    permission: Perm,
    steps: &mut Steps<L>,
) -> Cut
    ensures { result ≡ cut (P.policy_of policies.now) path.now (actor_of who.now) permission.0 }
{
    if !ends_at_root(path) && Perm::ROOT_ONLY.has(permission) {
        return Cut::RootOnly;
    }
    if is_of(who, AccountId::SUPER_USER) {
        return Cut::SuperUser;
    }
    walk_for(policies, path, who, permission, steps)
}

// The channels from the root to one; none where that is not there.
fn way_to(tree: &Tree, channel: ChannelId) -> ArrayVec<ChannelId, PATH_LIMIT>
    ensures { result.items ≡ path tree.now.channels channel }
{
    match tree.path(channel) {
        Some(path) => path,
        None => ArrayVec::new(),
    }
}

// What takes a permission away from a session that is there and lacks it in a channel.
pub(crate) fn cut_at<L: Ledger>(
    state: &State,
    user: &User,
    channel: ChannelId,
    permission: Perm,
    steps: &mut Steps<L>,
) -> Cut
    ensures { result ≡ cut_at state.now user.now channel permission }
{
    let way = way_to(state.tree(), channel);
    let home = home_of(state.tree(), user);
    cut_on(
        state,
        way.as_slice(),
        &who_is(user, home.as_slice()),
        permission,
        steps,
    )
}

/// What takes a permission away from a session in a channel; `None` where the session has it there, and where
/// one of the two is not there. What each answer says holds of one permission, not of a set of several.
///
/// A step is counted for each entry of an access control list that is read; how many is not said. The entries
/// on the path are read at most twice. That is not proved. It takes no memory.
pub fn cut_for<L: Ledger>(
    state: &State,
    session: SessionId,
    channel: ChannelId,
    permission: Perm,
    steps: &mut Steps<L>,
) -> Option<Cut>
    ensures { result ≡ cut_of state.now session channel permission }
{
    let Some(held) = state.permissions_of(session, channel, steps) else {
        return None;
    };
    if held.has(permission) {
        return None;
    }
    match state.roster().session(session) {
        Some(user) => Some(cut_at(state, user, channel, permission, steps)),
        None => None,
    }
}
