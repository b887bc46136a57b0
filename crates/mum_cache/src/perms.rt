//! What sessions may do in channels, kept by slot and by the place of the channel.

ghost use Rattle.std.specs.Prelude.{◌≡◌, ◌+◌, ◌*◌, ◌<◌, IfOk, IsSome, IsTrue, MatchOption, None, Some, length, set, slice_index_or};
ghost use Rattle.mum_base.specs.declared.number.TheConstants.{PLACES, SLOTS};
ghost use Rattle.mum_tree.specs.Rows.{is_there};
ghost use Rattle.mum_users.specs.Sessions.{session_of};
ghost use Rattle.mum_state.specs.Permissions.{perm_of, visits_of};
ghost use Rattle.mum_cache.specs.Perms.{ArePermsSound, IsThere, answers, index_of, kept_at, no_perm, no_perms, perm_entry, visits_at};
ghost use Rattle.mum_cache.specs.Keys.{IsKey, answers_key};

use crate::table::Table;
use mum_base::{ChannelId, OutOfMemory, PLACES, Perm, SLOTS, SessionId, Steps};
use mum_policy::Who;
use mum_route::Rights;
use mum_state::State;
use mum_users::User;
use std::alloc::Global;
use std::marker::Model;
use std::sync::ledger::Ledger;

// What a session may do in a channel, with the counts of the state that said so.
#[derive(Clone, Copy, Debug)]
pub(crate) struct PermEntry {
    pub(crate) used: bool,
    pub(crate) session: SessionId,
    pub(crate) channel: ChannelId,
    pub(crate) value: Perm,
    pub(crate) policy: u64,
    /// The count of the session's slot.
    pub(crate) count: u64,
}

/// Answers about permissions, kept by slot and by the place of a channel.
#[derive(Drop)]
pub struct PermCache {
    entries: Table<PermEntry>,
}

impl Model for PermCache {
    ghost use Rattle.std.specs.Prelude.{◌≡◌, ◌*◌, List, length};
    ghost use Rattle.mum_base.specs.declared.number.TheConstants.{PLACES, SLOTS};
    ghost use Rattle.mum_cache.specs.declared.perms.PermEntry.{PermEntry};

    ghost Value = { List PermEntry };

    ghost view = { λ c. c.entries };

    ghost invariant = { λ c. length c.entries ≡ SLOTS * PLACES };
}

// Where the answer for a session and a channel is kept, and the counts that it is to have.
#[derive(Clone, Copy)]
pub(crate) struct Key {
    pub(crate) index: usize,
    pub(crate) policy: u64,
    pub(crate) count: u64,
}

// The key of a session and a channel, where both are there.
fn key_of(state: &State, session: SessionId, channel: ChannelId) -> Option<Key>
    ensures { MatchOption result (perm_of state.now session channel ≡ None) (IsKey state.now session channel) }
{
    let Some(user) = state.roster().session(session) else {
        return None;
    };
    let Some(place) = state.place(channel) else {
        return None;
    };
    Some(Key {
        index: place as usize * SLOTS + user.slot.0 as usize,
        policy: state.stamps().policy,
        count: state.session_stamp(user.slot),
    })
}

impl PermEntry {
    // Whether this is the answer for a session and a channel.
    fn answers(&self, session: SessionId, channel: ChannelId, key: &Key) -> bool
        ensures { result ≡ answers_key session channel key.now self.now }
    {
        self.used
            && self.session.0 == session.0
            && self.channel.0 == channel.0
            && self.policy == key.policy
            && self.count == key.count
    }
}

// What a session may do in a channel, where both are there, by the entries of access control lists.
fn walked<L: Ledger>(
    state: &State,
    session: SessionId,
    channel: ChannelId,
    steps: &mut Steps<L>,
) -> Perm
    requires { IsThere state.now session channel }
    ensures value { perm_of state.now session channel ≡ Some result.0 }
    ensures steps { steps.new ≡ steps.old + visits_of state.now session channel }
{
    match state.permissions_of(session, channel, steps) {
        Some(held) => held,
        None => unreachable!(),
    }
}

// What a session may do in a channel, where both are there: as it is kept, or else by a walk, which is kept.
fn answer<L: Ledger>(
    entries: &mut Table<PermEntry>,
    key: Key,
    state: &State,
    session: SessionId,
    channel: ChannelId,
    steps: &mut Steps<L>,
) -> Perm
    requires room { length entries.old ≡ SLOTS * PLACES }
    requires key { IsKey state.now session channel key }
    requires sound { ArePermsSound state.now entries.old }
    ensures value { perm_of state.now session channel ≡ Some result.0 }
    ensures steps { steps.new ≡ steps.old + visits_at state.now session channel entries.old }
    ensures kept { entries.new
        ≡ set entries.old (index_of state.now session channel) (perm_entry state.now session channel result) }
    ensures sound { ArePermsSound state.now entries.new }
{
    let entry = entries.at(key.index);
    if entry.answers(session, channel, &key) {
        return entry.value;
    }
    let value = walked(state, session, channel, steps);
    let entry = PermEntry {
        used: true,
        session,
        channel,
        policy: key.policy,
        count: key.count,
        value,
    };
    entries.put(key.index, entry);
    value
}

impl PermCache {
    /// Nothing is kept. The room is for each slot and each place that there may be: 32 bytes each, 33.5 MB in all.
    /// It is reserved here and not written: 16 KiB are resident for each place of a channel, up to the greatest one
    /// in which a permission was asked.
    pub fn new(alloc: Global) -> Result<PermCache, OutOfMemory>
        ensures { IfOk result (λ cache. cache ≡ no_perms) }
    {
        let none = PermEntry {
            used: false,
            session: SessionId(0),
            channel: ChannelId(0),
            policy: 0,
            count: 0,
            value: Perm(0),
        };
        Ok(PermCache {
            entries: Table::new(alloc, SLOTS * PLACES, none)?,
        })
    }

    /// What a session may do in a channel, where both are there. Where the entry of the two is valid no step is
    /// counted, else one for each entry of an access control list that is read. The answer is kept, with the
    /// counts of the state. It takes no memory.
    pub fn permissions_at<L: Ledger>(
        &mut self,
        state: &State,
        session: SessionId,
        channel: ChannelId,
        steps: &mut Steps<L>,
    ) -> Perm
        requires there { IsThere state.now session channel }
        requires sound { ArePermsSound state.now self.old }
        ensures value { perm_of state.now session channel ≡ Some result.0 }
        ensures steps { steps.new ≡ steps.old + visits_at state.now session channel self.old }
        ensures kept { self.new
            ≡ set self.old (index_of state.now session channel) (perm_entry state.now session channel result) }
        ensures stands { IsTrue (answers state.now session channel (kept_at state.now session channel self.new)) }
        ensures sound { ArePermsSound state.now self.new }
    {
        match key_of(state, session, channel) {
            Some(key) => answer(&mut self.entries, key, state, session, channel, steps),
            None => unreachable!(),
        }
    }
}

impl Rights for PermCache {
    ghost use Rattle.mum_cache.specs.Perms.{ArePermsSound, KeepsAnswer, visits_at};

    ghost sound = { λ cache state. ArePermsSound state cache };

    ghost kept = { λ before state session channel answer later. KeepsAnswer state session channel answer before later };

    ghost cost = { λ cache state session channel. visits_at state session channel cache };

    fn held<L: Ledger>(
        &mut self,
        state: &State,
        session: SessionId,
        channel: ChannelId,
        steps: &mut Steps<L>,
    ) -> Option<Perm> {
        match key_of(state, session, channel) {
            Some(key) => Some(answer(&mut self.entries, key, state, session, channel, steps)),
            None => None,
        }
    }

    fn held_as<L: Ledger>(
        &mut self,
        state: &State,
        user: &User,
        _who: &Who<'_>,
        channel: ChannelId,
        steps: &mut Steps<L>,
    ) -> Option<Perm> {
        self.held(state, user.session, channel, steps)
    }
}
