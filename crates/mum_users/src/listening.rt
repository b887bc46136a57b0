//! Pairs of a session and a channel that it listens to, and the two orders of such pairs.

ghost use Rattle.std.specs.Prelude.{◌≡◌, ◌+◌, ◌≤◌, ◌<◌, ◌==◌, ◌||◌, ◌&&◌, not, nat_lt, filter, length, position, slice_index_or, IsTrue, [], ◌∷◌};
ghost use Rattle.std.specs.Vec.{vec_capacity, vec_len};
ghost use Rattle.std.specs.List.{list_any, position_or_len};
ghost use Rattle.mum_base.specs.Channels.{is_among};
ghost use Rattle.mum_users.specs.Edit.{staying};
ghost use Rattle.mum_users.specs.Listeners.{below_in, channel_below, pair_below, with_pair};
ghost use Rattle.mum_users.specs.Order.{Rises};
ghost use Rattle.mum_users.specs.State.{is_of_channel, is_of_session, is_pair};

use crate::channel_list::ChannelList;
use mum_base::{ChannelId, SessionId};

/// The most sessions that listen to a channel.
pub const CHANNEL_LISTENERS: usize = 64;

/// The most channels that a session listens to.
pub const LISTENED_CHANNELS: usize = 32;

/// A session that listens to a channel.
#[derive(Clone, Copy)]
pub struct ListenerPair {
    pub session: SessionId,
    pub channel: ChannelId,
}

// An order of pairs.
#[derive(Clone, Copy)]
pub(crate) enum PairOrder {
    /// By their sessions, those of one session by their channels.
    BySession,
    /// By their channels, those of one channel by their sessions.
    ByChannel,
}

impl PairOrder {
    fn is_below(self, pair: ListenerPair, other: ListenerPair) -> bool
        ensures { result ≡ below_in self pair other }
    {
        match self {
            PairOrder::BySession => is_below(pair, other),
            PairOrder::ByChannel => is_below_by_channel(pair, other),
        }
    }
}

fn is_below(pair: ListenerPair, other: ListenerPair) -> bool
    ensures { result ≡ pair_below pair other }
{
    pair.session.0 < other.session.0
        || pair.session.0 == other.session.0 && pair.channel.0 < other.channel.0
}

fn is_below_by_channel(pair: ListenerPair, other: ListenerPair) -> bool
    ensures { result ≡ channel_below pair other }
{
    pair.channel.0 < other.channel.0
        || pair.channel.0 == other.channel.0 && pair.session.0 < other.session.0
}

// How many pairs are below this one, found by binary search.
fn place_of(order: PairOrder, pairs: &[ListenerPair], new: ListenerPair) -> usize
    requires { Rises (below_in order) pairs.now }
    ensures place { result ≡ position_or_len (λ pair. not (below_in order pair new)) pairs.now }
    ensures within { result ≤ length pairs.now }
{
    pairs.partition_point(|pair| order.is_below(*pair, new))
}

// Puts a pair in at its place, if it is not there.
pub(crate) fn put_pair(order: PairOrder, pairs: &mut Vec<ListenerPair>, new: ListenerPair)
    requires rise { Rises (below_in order) pairs.old.items }
    requires room { vec_len pairs.old < vec_capacity pairs.old }
    ensures items { pairs.new.items ≡ with_pair (below_in order) new pairs.old.items }
    ensures len { vec_len pairs.new ≤ vec_len pairs.old + 1 }
    ensures room { vec_capacity pairs.old ≤ vec_capacity pairs.new }
{
    let place = place_of(order, pairs.as_slice(), new);
    if is_at(pairs.as_slice(), place, new) {
        return;
    }
    match pairs.insert(place, new) {
        Ok(()) => {}
        Err(_) => unreachable!(),
    }
}

// Whether the pair at a place is this one.
fn is_at(pairs: &[ListenerPair], place: usize, new: ListenerPair) -> bool
    ensures within { IsTrue result → place < length pairs.now }
    ensures same { (d : ListenerPair) → place < length pairs.now →
        is_pair new.session new.channel (slice_index_or pairs.now place d) ≡ result }
{
    place < pairs.len()
        && pairs[place].session == new.session
        && pairs[place].channel == new.channel
}

// Whether this pair comes before those of the session.
fn is_before_session(pair: ListenerPair, session: SessionId) -> bool
    ensures { result ≡ nat_lt pair.session.0 session.0 }
{
    pair.session.0 < session.0
}

// Whether this pair comes before those of the channel.
fn is_before_channel(pair: ListenerPair, channel: ChannelId) -> bool
    ensures { result ≡ nat_lt pair.channel.0 channel.0 }
{
    pair.channel.0 < channel.0
}

fn other_session(pairs: &[ListenerPair], session: SessionId) -> Option<usize>
    ensures { result ≡ position (λ pair. not (is_of_session session pair)) pairs.now }
{
    pairs.iter().position(|pair| pair.session != session)
}

fn other_channel(pairs: &[ListenerPair], channel: ChannelId) -> Option<usize>
    ensures { result ≡ position (λ pair. not (is_of_channel channel pair)) pairs.now }
{
    pairs.iter().position(|pair| pair.channel != channel)
}

// How many pairs are of the session, from the first on.
fn session_count(pairs: &[ListenerPair], session: SessionId) -> usize
    ensures count { result ≡ position_or_len (λ pair. not (is_of_session session pair)) pairs.now }
    ensures within { result ≤ length pairs.now }
{
    other_session(pairs, session).unwrap_or(pairs.len())
}

fn channel_count(pairs: &[ListenerPair], channel: ChannelId) -> usize
    ensures count { result ≡ position_or_len (λ pair. not (is_of_channel channel pair)) pairs.now }
    ensures within { result ≤ length pairs.now }
{
    other_channel(pairs, channel).unwrap_or(pairs.len())
}

// The pairs of a session among pairs by their sessions. The first is found by binary search.
pub(crate) fn pairs_of_session(pairs: &[ListenerPair], session: SessionId) -> &[ListenerPair]
    requires { Rises pair_below pairs.now }
    ensures { result.now ≡ filter (is_of_session session) pairs.now }
{
    let first = pairs.partition_point(|pair| is_before_session(*pair, session));
    let rest = &pairs[first..];
    let count = session_count(rest, session);
    &rest[..count]
}

// The pairs of a channel among pairs by their channels. The first is found by binary search.
pub(crate) fn pairs_of_channel(pairs: &[ListenerPair], channel: ChannelId) -> &[ListenerPair]
    requires { Rises channel_below pairs.now }
    ensures { result.now ≡ filter (is_of_channel channel) pairs.now }
{
    let first = pairs.partition_point(|pair| is_before_channel(*pair, channel));
    let rest = &pairs[first..];
    let count = channel_count(rest, channel);
    &rest[..count]
}

// Leaves out the pairs of a session.
pub(crate) fn drop_session(pairs: &mut Vec<ListenerPair>, session: SessionId)
    ensures { pairs.new.items ≡ filter (λ pair. not (is_of_session session pair)) pairs.old.items }
{
    pairs.retain(|pair| pair.session != session);
}

/// A set of channels: those that are removed.
pub trait ChannelSet {
    ghost use Rattle.std.specs.Prelude.{Bool};
    ghost use Rattle.mum_base.specs.declared.number.ChannelId.{ChannelId};

    /// Whether a channel is one of them.
    ghost has_channel: { Self → ChannelId → Bool };

    fn has(&self, id: ChannelId) -> bool
        ensures { result ≡ has_channel self.now id };
}

// Leaves out the pairs of these channels.
pub(crate) fn drop_gone<G: ChannelSet>(pairs: &mut Vec<ListenerPair>, gone: &G)
    ensures { pairs.new.items ≡ filter (λ pair. not (G.has_channel gone.now pair.channel)) pairs.old.items }
{
    pairs.retain(|pair| !gone.has(pair.channel));
}

fn is_left(pair: ListenerPair, session: SessionId, left: &ChannelList) -> bool
    ensures { result ≡ (is_of_session session pair && is_among left.now pair.channel) }
{
    pair.session == session && left.contains(pair.channel)
}

// Leaves out the pairs of a session and these channels.
pub(crate) fn drop_channels(pairs: &mut Vec<ListenerPair>, session: SessionId, left: &ChannelList)
    ensures items { pairs.new.items ≡ staying session left.now pairs.old.items }
    ensures len { vec_len pairs.new ≤ vec_len pairs.old }
    ensures room { vec_capacity pairs.new ≡ vec_capacity pairs.old }
{
    pairs.retain(|pair| !is_left(*pair, session, left));
}

// Leaves out the pair of a session and a channel.
pub(crate) fn drop_pair(pairs: &mut Vec<ListenerPair>, session: SessionId, channel: ChannelId)
    ensures { pairs.new.items ≡ staying session (channel ∷ []) pairs.old.items }
{
    pairs.retain(|pair| !(pair.session == session && pair.channel == channel));
}
