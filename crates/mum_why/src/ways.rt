//! The ways by which a packet may reach a session: an aim, and a channel in which the session is or to which it
//! listens.

ghost use Rattle.std.specs.Prelude.{◌≡◌, ◌==◌, All, IsTrue, false, find, length, map, true};
ghost use Rattle.std.specs.List.{list_any};
ghost use Rattle.std.specs.Option.{option_map};
ghost use Rattle.mum_base.specs.Channels.{is_among};
ghost use Rattle.mum_tree.specs.Rows.{is_there};
ghost use Rattle.mum_tree.specs.State.{below};
ghost use Rattle.mum_tree.specs.Walks.{linked};
ghost use Rattle.mum_users.specs.Listeners.{pairs_of};
ghost use Rattle.mum_route.specs.Cover.{spread};
ghost use Rattle.mum_route.specs.Hearing.{is_in_group, may};
ghost use Rattle.mum_route.specs.Route.{is_named};
ghost use Rattle.mum_why.specs.Aims.{aimed, IsMarked};
ghost use Rattle.mum_why.specs.Reason.{aims_of, channel_where, item_aim, one_names, spreads_over, stop_of, stops, way_from};

use crate::aim::{Aim, items_of};
use crate::stop::Stop;
use mum_base::{ChannelId, Perm, SessionId, Steps};
use mum_policy::is_member;
use mum_route::TALK;
use mum_state::{State, home_of, who_is};
use mum_tree::{Scratch, Tree};
use mum_users::{ListenerPair, TargetItem, User};
use std::sync::ledger::Ledger;

// A packet of a session to a target in a state, and a session that may hear it.
#[derive(Clone, Copy)]
pub(crate) struct Case<'a> {
    pub(crate) state: &'a State,
    pub(crate) speaker: &'a User,
    pub(crate) target: u8,
    pub(crate) hearer: &'a User,
}

// Whether a session has a permission in a channel.
pub(crate) fn may<L: Ledger>(
    state: &State,
    session: SessionId,
    permission: Perm,
    channel: ChannelId,
    steps: &mut Steps<L>,
) -> bool
    ensures { result ≡ may state.now session permission channel }
{
    match state.permissions_of(session, channel, steps) {
        Some(held) => held.has(permission),
        None => false,
    }
}

// Whether a session is in a group that has a name.
fn is_in_named(state: &State, group: &str, channel: ChannelId, user: &User) -> bool
    requires there { IsTrue (is_there state.now.tree.channels channel) }
    requires named { (length group.now == 0) ≡ false }
    ensures { result ≡ is_in_group state.now group.now channel user.now }
{
    match state.tree().path(channel) {
        Some(way) => {
            let place = way.len() - 1;
            let home = home_of(state.tree(), user);
            is_member(
                state,
                way.as_slice(),
                place,
                group,
                &who_is(user, home.as_slice()),
            )
        }
        None => false,
    }
}

// Whether a session is in a group, asked in a channel that is there for an entry of that channel.
fn is_in_group(state: &State, group: &str, channel: ChannelId, user: &User) -> bool
    requires { IsTrue (is_there state.now.tree.channels channel) }
    ensures { result ≡ is_in_group state.now group.now channel user.now }
{
    group.is_empty() || is_in_named(state, group, channel, user)
}

// Whether a channel is marked.
fn is_marked(scratch: &Scratch, channel: ChannelId) -> bool
    ensures { result ≡ is_among scratch.now channel }
{
    scratch.marked(channel)
}

// Whether a channel is the top, or below it.
fn is_below(tree: &Tree, top: ChannelId, channel: ChannelId) -> bool
    ensures { result ≡ is_among (below tree.now top) channel }
{
    tree.is_below(top, channel)
}

// Whether an aim that spreads from here does so over a channel.
fn reaches(
    tree: &Tree,
    aim: &Aim<'_>,
    top: ChannelId,
    scratch: &Scratch,
    channel: ChannelId,
) -> bool
    requires { IsTrue aim.now.links → scratch.now ≡ linked tree.now top }
    ensures { result ≡ is_among (spread tree.now aim.now.links aim.now.children top) channel }
{
    top.0 == channel.0
        || aim.links && is_marked(scratch, channel)
        || aim.children && is_below(tree, top, channel)
}

// Whether an aim spreads over a channel.
fn spreads_over(tree: &Tree, aim: &Aim<'_>, scratch: &Scratch, channel: ChannelId) -> bool
    requires { IsMarked tree.now (aimed aim.now) scratch.now }
    ensures { result ≡ spreads_over tree.now (aimed aim.now) channel }
{
    let Some(top) = aim.top else {
        return false;
    };
    if !tree.is_there(top) {
        return false;
    }
    reaches(tree, aim, top, scratch, channel)
}

// Where an aim stops on its way to a session that is in a channel, or listens to it.
fn stop_of<L: Ledger>(
    case: &Case<'_>,
    aim: &Aim<'_>,
    listens: bool,
    channel: ChannelId,
    scratch: &Scratch,
    steps: &mut Steps<L>,
) -> Stop
    requires there { IsTrue (is_there case.now.state.now.tree.channels channel) }
    requires marked { IsMarked case.now.state.now.tree (aimed aim.now) scratch.now }
    ensures { result ≡ stop_of case.now.state.now (aimed aim.now) case.now.hearer.now listens channel }
{
    let state = case.state;
    if !spreads_over(state.tree(), aim, scratch, channel) {
        return Stop::Elsewhere;
    }
    if !may(state, aim.speaker, aim.permission, channel, steps) {
        return Stop::LacksPermission;
    }
    if !is_in_group(state, aim.group, channel, case.hearer) {
        return Stop::NoMember;
    }
    if listens && !may(state, case.hearer.session, Perm::LISTEN, channel, steps) {
        return Stop::LacksListen;
    }
    Stop::Arrives
}

// The first channel to which a session listens in which an aim stops just there.
fn listened_where<L: Ledger>(
    case: &Case<'_>,
    aim: &Aim<'_>,
    pairs: &[ListenerPair],
    wanted: Stop,
    scratch: &Scratch,
    steps: &mut Steps<L>,
) -> Option<ChannelId>
    requires there { All (λ pair. IsTrue (is_there case.now.state.now.tree.channels pair.channel)) pairs.now }
    requires marked { IsMarked case.now.state.now.tree (aimed aim.now) scratch.now }
    ensures { result ≡ option_map (λ pair. pair.channel)
        (find (λ pair. stops case.now.state.now (aimed aim.now) case.now.hearer.now true wanted pair.channel) pairs.now) }
{
    'pairs: for pair in pairs {
        if stop_of(case, aim, true, pair.channel, scratch, steps).is(wanted) {
            return Some(pair.channel);
        }
    }
    None
}

// The channel of a session, or the first to which it listens, in which an aim stops just there.
fn channel_where<L: Ledger>(
    case: &Case<'_>,
    aim: &Aim<'_>,
    listens: bool,
    wanted: Stop,
    scratch: &mut Scratch,
    steps: &mut Steps<L>,
) -> Option<ChannelId>
    requires { IsTrue (is_there case.now.state.now.tree.channels case.now.hearer.now.channel) }
    ensures { result ≡ channel_where case.now.state.now (aimed aim.now) case.now.hearer.now listens wanted }
{
    let own = case.hearer.channel;
    aim.mark_links(case.state.tree(), scratch);
    if listens {
        let pairs = case.state.roster().pairs_of(case.hearer.session);
        return listened_where(case, aim, pairs, wanted, scratch, steps);
    }
    if stop_of(case, aim, false, own, scratch, steps).is(wanted) {
        Some(own)
    } else {
        None
    }
}

// The same over the items of a voice target, with the place of the first that stops there.
fn first_item<L: Ledger>(
    case: &Case<'_>,
    items: &[TargetItem],
    listens: bool,
    wanted: Stop,
    scratch: &mut Scratch,
    steps: &mut Steps<L>,
) -> Option<(usize, ChannelId)>
    requires { IsTrue (is_there case.now.state.now.tree.channels case.now.hearer.now.channel) }
    ensures { result ≡ way_from case.now.state.now case.now.hearer.now listens wanted 0
        (map (item_aim case.now.speaker.now.session) items.now) }
{
    'items: for (place, item) in items.iter().enumerate() {
        let aim = Aim::item(case.speaker.session, item);
        if let Some(channel) = channel_where(case, &aim, listens, wanted, scratch, steps) {
            return Some((place, channel));
        }
    }
    None
}

// Of what a packet is aimed at, the first that stops just there on its way to a session, by its place, with the
// channel: that of the session, or the first to which it listens.
pub(crate) fn first_way<L: Ledger>(
    case: &Case<'_>,
    listens: bool,
    wanted: Stop,
    scratch: &mut Scratch,
    steps: &mut Steps<L>,
) -> Option<(usize, ChannelId)>
    requires { IsTrue (is_there case.now.state.now.tree.channels case.now.hearer.now.channel) }
    ensures { result ≡ way_from case.now.state.now case.now.hearer.now listens wanted 0
        (aims_of case.now.state.now case.now.speaker.now case.now.target) }
{
    if case.target != TALK {
        let items = items_of(case.state, case.speaker.session, case.target);
        return first_item(case, items, listens, wanted, scratch, steps);
    }
    let aim = Aim::talk(case.speaker);
    match channel_where(case, &aim, listens, wanted, scratch, steps) {
        Some(channel) => Some((0, channel)),
        None => None,
    }
}

// Whether one of these is the session.
fn is_named(sessions: &[SessionId], user: &User) -> bool
    ensures { result ≡ is_named sessions.now user.now }
{
    sessions.iter().any(|one| one.0 == user.session.0)
}

// Whether one of these items names a session.
fn one_item_names(items: &[TargetItem], user: &User) -> bool
    ensures { result ≡ list_any (λ item. is_named item.sessions user.now) items.now }
{
    items
        .iter()
        .any(|item| is_named(item.sessions.as_slice(), user))
}

// Whether a packet is aimed at a session by name.
pub(crate) fn one_names(case: &Case<'_>) -> bool
    ensures { result ≡ one_names case.now.state.now case.now.speaker.now case.now.target case.now.hearer.now }
{
    let items = items_of(case.state, case.speaker.session, case.target);
    case.target != TALK && one_item_names(items, case.hearer)
}

// Whether a packet is aimed at nothing, since its voice target is not set.
pub(crate) fn is_unset(case: &Case<'_>) -> bool
    ensures { result ≡ (length (aims_of case.now.state.now case.now.speaker.now case.now.target) == 0) }
{
    case.target != TALK && items_of(case.state, case.speaker.session, case.target).is_empty()
}
