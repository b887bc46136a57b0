//! Who listens to which channel, kept in two orders.

ghost use Rattle.std.specs.Prelude.{◌≡◌, ◌+◌, ◌≤◌, ◌<◌, not, [], ◌∷◌, OnOk, OnErr, IfOk, count_by, filter, length, if◌then◌else◌};
ghost use Rattle.std.specs.List.{list_any};
ghost use Rattle.std.specs.Vec.{vec_capacity, vec_len};
ghost use Rattle.mum_base.specs.Channels.{is_among};
ghost use Rattle.mum_users.specs.Edit.{staying, with_channels};
ghost use Rattle.mum_users.specs.Listeners.{IsIndexed, pair_below, with_pair};
ghost use Rattle.mum_users.specs.State.{is_of_channel, is_of_session, is_pair};

use crate::channel_list::ChannelList;
use crate::listening::{
    ChannelSet, ListenerPair, PairOrder, drop_channels, drop_gone, drop_pair, drop_session,
    pairs_of_channel, pairs_of_session, put_pair,
};
use mum_base::{ChannelId, OutOfMemory, SessionId};
use std::alloc::Global;
use std::marker::Model;

// Pairs of a session and a channel, by their sessions and by their channels. Contracts see them by
// their sessions.
#[derive(Drop)]
pub(crate) struct Listeners {
    by_session: Vec<ListenerPair>,
    by_channel: Vec<ListenerPair>,
}

impl Model for Listeners {
    ghost use Rattle.std.specs.Prelude.{List};
    ghost use Rattle.mum_users.specs.declared.listening.ListenerPair.{ListenerPair};
    ghost use Rattle.mum_users.specs.Listeners.{IsIndexed};

    ghost Value = { List ListenerPair };

    ghost view = { λ l. l.by_session.items };

    ghost invariant = { λ l. IsIndexed l.by_session.items l.by_channel.items };
}

fn one_is_of(pairs: &[ListenerPair], channel: ChannelId) -> bool
    ensures { result ≡ list_any (is_of_channel channel) pairs.now }
{
    pairs.iter().any(|pair| pair.channel == channel)
}

// Puts in the pair of a session and a channel, unless it leaves the channel.
fn put_channel(
    by_session: &mut Vec<ListenerPair>,
    by_channel: &mut Vec<ListenerPair>,
    new: ListenerPair,
    left: &ChannelList,
)
    requires indexed { IsIndexed by_session.old.items by_channel.old.items }
    requires room { vec_len by_session.old < vec_capacity by_session.old }
    requires channel_room { vec_len by_channel.old < vec_capacity by_channel.old }
    ensures items { by_session.new.items
        ≡ (if is_among left.now new.channel then by_session.old.items else with_pair pair_below new by_session.old.items) }
    ensures indexed { IsIndexed by_session.new.items by_channel.new.items }
    ensures len { vec_len by_session.new ≤ vec_len by_session.old + 1 }
    ensures room { vec_capacity by_session.old ≤ vec_capacity by_session.new }
    ensures channel_len { vec_len by_channel.new ≤ vec_len by_channel.old + 1 }
    ensures channel_room { vec_capacity by_channel.old ≤ vec_capacity by_channel.new }
{
    if left.contains(new.channel) {
        return;
    }
    put_pair(PairOrder::BySession, by_session, new);
    put_pair(PairOrder::ByChannel, by_channel, new);
}

// Puts in the pairs of a session and these channels, but for those that it leaves, from the last on.
fn put_channels(
    by_session: &mut Vec<ListenerPair>,
    by_channel: &mut Vec<ListenerPair>,
    session: SessionId,
    channels: &[ChannelId],
    left: &ChannelList,
)
    requires indexed { IsIndexed by_session.old.items by_channel.old.items }
    requires room { vec_len by_session.old + length channels.now ≤ vec_capacity by_session.old }
    requires channel_room { vec_len by_channel.old + length channels.now ≤ vec_capacity by_channel.old }
    ensures items { by_session.new.items
        ≡ with_channels session left.now channels.now by_session.old.items }
    ensures indexed { IsIndexed by_session.new.items by_channel.new.items }
{
    let mut rest = channels.len();
    'channels: while rest > 0 {
        rest -= 1;
        let channel = channels[rest];
        put_channel(
            by_session,
            by_channel,
            ListenerPair { session, channel },
            left,
        );
    }
}

impl Listeners {
    pub(crate) fn new(alloc: Global) -> Listeners
        ensures { result ≡ [] }
    {
        Listeners {
            by_session: Vec::new(alloc),
            by_channel: Vec::new(alloc),
        }
    }

    // The pairs of a session, by their channels.
    pub(crate) fn of_session(&self, session: SessionId) -> &[ListenerPair]
        ensures { result.now ≡ filter (is_of_session session) self.now }
    {
        pairs_of_session(self.by_session.as_slice(), session)
    }

    // The pairs of a channel, by their sessions.
    pub(crate) fn of_channel(&self, channel: ChannelId) -> &[ListenerPair]
        ensures { result.now ≡ filter (is_of_channel channel) self.now }
    {
        pairs_of_channel(self.by_channel.as_slice(), channel)
    }

    // How many channels a session listens to.
    pub(crate) fn channel_count(&self, session: SessionId) -> usize
        ensures { result ≡ count_by (is_of_session session) self.now }
    {
        self.of_session(session).len()
    }

    // How many sessions listen to a channel.
    pub(crate) fn session_count(&self, channel: ChannelId) -> usize
        ensures { result ≡ count_by (is_of_channel channel) self.now }
    {
        self.of_channel(channel).len()
    }

    pub(crate) fn has(&self, session: SessionId, channel: ChannelId) -> bool
        ensures { result ≡ list_any (is_pair session channel) self.now }
    {
        one_is_of(self.of_session(session), channel)
    }

    // One pair more, if it is not there.
    pub(crate) fn put(&mut self, new: ListenerPair) -> Result<(), OutOfMemory>
        ensures ok { OnOk result (self.new ≡ with_pair pair_below new self.old) }
        ensures err { OnErr result (self.new ≡ self.old) }
    {
        self.by_session.reserve(1)?;
        self.by_channel.reserve(1)?;
        put_pair(PairOrder::BySession, &mut self.by_session, new);
        put_pair(PairOrder::ByChannel, &mut self.by_channel, new);
        Ok(())
    }

    // The session listens to these channels, and leaves those.
    pub(crate) fn change(
        &mut self,
        session: SessionId,
        channels: &[ChannelId],
        left: &ChannelList,
    ) -> Result<(), OutOfMemory>
        ensures ok { OnOk result (self.new
            ≡ with_channels session left.now channels.now (staying session left.now self.old)) }
        ensures err { OnErr result (self.new ≡ self.old) }
    {
        self.by_session.reserve(channels.len())?;
        self.by_channel.reserve(channels.len())?;
        drop_channels(&mut self.by_session, session, left);
        drop_channels(&mut self.by_channel, session, left);
        put_channels(
            &mut self.by_session,
            &mut self.by_channel,
            session,
            channels,
            left,
        );
        Ok(())
    }

    // The session leaves this channel.
    pub(crate) fn leave(&mut self, session: SessionId, channel: ChannelId)
        ensures { self.new ≡ staying session (channel ∷ []) self.old }
    {
        drop_pair(&mut self.by_session, session, channel);
        drop_pair(&mut self.by_channel, session, channel);
    }

    // The session leaves every channel.
    pub(crate) fn leave_all(&mut self, session: SessionId)
        ensures { self.new ≡ filter (λ pair. not (is_of_session session pair)) self.old }
    {
        drop_session(&mut self.by_session, session);
        drop_session(&mut self.by_channel, session);
    }

    // Nobody listens to these channels any more.
    pub(crate) fn close<G: ChannelSet>(&mut self, gone: &G)
        ensures { self.new ≡ filter (λ pair. not (G.has_channel gone.now pair.channel)) self.old }
    {
        drop_gone(&mut self.by_session, gone);
        drop_gone(&mut self.by_channel, gone);
    }

    // Equal pairs.
    pub(crate) fn copy(&self, alloc: Global) -> Result<Listeners, OutOfMemory>
        ensures { IfOk result (λ copy. copy ≡ self.now) }
    {
        Ok(Listeners {
            by_session: Vec::from_slice(alloc, self.by_session.as_slice())?,
            by_channel: Vec::from_slice(alloc, self.by_channel.as_slice())?,
        })
    }
}
