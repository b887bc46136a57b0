//! The roster, and its calls.

ghost use Rattle.std.specs.Prelude.{◌≡◌, ℕ, ◌+◌, ◌*◌, ◌<◌, ◌≤◌, IfOk, IfSome, if◌then◌else◌};
ghost use Rattle.std.specs.Int.{bit_at};
ghost use Rattle.std.specs.List.{list_any};
ghost use Rattle.std.specs.Option.{option_copied};
ghost use Rattle.mum_base.specs.Refusal.{Gives, Settles, SettlesInPlace};
ghost use Rattle.mum_users.specs.Fault.{named_cause};

use crate::edit::{UserChange, change_row, crowds_one, listens_to_too_many};
use crate::fault::UserFault;
use crate::flags::FlagChange;
use crate::listeners::Listeners;
use crate::listening::{CHANNEL_LISTENERS, ChannelSet, LISTENED_CHANNELS, ListenerPair};
use crate::masks::{
    MaskRow, clear_pairs, clear_slot, copy_of_masks, drop_masks, has_row, mask_at, move_slot,
    put_members, set_pairs, set_slot,
};
use crate::placing::{Placements, place_each};
use crate::sessions::{
    SessionSlot, copy_of_users, free_slot, index_of, is_here, name_in_use, row_at, row_of,
    take_slot, take_user,
};
use crate::target::{
    LAST_TARGET, Target, TargetRow, copy_of_targets, put_target, row_of_target, take_target,
    take_targets,
};
use crate::user::{
    DEFAULT_SESSIONS_LIMIT, User, change_flags, change_texts, copy_of_octets, joining_user,
    shared_texts,
};
use mum_base::{AccountId, ChannelId, OutOfMemory, SLOTS, SessionId, Slot, Text};
use std::alloc::Global;
use std::marker::Model;

/// The sessions that are here, the channels they listen to, and their voice targets.
#[derive(Drop)]
pub struct Roster {
    alloc: Global,
    // By their slots.
    users: Vec<User>,
    // By their numbers.
    slots: Vec<SessionSlot>,
    // The slots of those in each channel, with room for a row of each session.
    member_rows: Vec<MaskRow>,
    listeners: Listeners,
    // The slots of those that listen to each channel.
    listener_rows: Vec<MaskRow>,
    // By their sessions, then their numbers.
    targets: Vec<TargetRow>,
    last: u32,
    limit: u16,
}

impl Model for Roster {
    ghost use Rattle.mum_users.specs.State.{RosterState};
    ghost use Rattle.std.specs.Vec.{vec_capacity};
    ghost use Rattle.mum_users.specs.Numbers.{IsKept};

    ghost Value = { RosterState };

    ghost view = { λ r. record {
      sessions = r.users.items;
      listeners = r.listeners;
      targets = r.targets.items;
      last = r.last;
      limit = r.limit;
    } };

    ghost invariant = { λ r. IsKept (record {
      sessions = r.users.items;
      listeners = r.listeners;
      targets = r.targets.items;
      last = r.last;
      limit = r.limit;
    }) r.slots.items r.member_rows.items (vec_capacity r.member_rows) r.listener_rows.items };
}

impl Roster {
    ghost use Rattle.mum_users.specs.State.{empty_roster, has_number, is_in};
    ghost use Rattle.mum_users.specs.Placed.{with_placements};
    ghost use Rattle.mum_users.specs.Proper.{IsProper};
    ghost use Rattle.mum_users.specs.SlotMasks.{has_listener_at, has_member_at};
    ghost use Rattle.mum_users.specs.declared.masks.TheConstants.{WORD_SLOTS};
    ghost use Rattle.mum_users.specs.Sessions.{absent_fault, join_fault, joined, left, next_join, next_number, placed, session_at, session_of, suppressed, with_flags, with_texts, with_tokens, IsLeastFree};
    ghost use Rattle.mum_users.specs.Listeners.{listen_fault, listening, listens, pairs_of, without_channels};
    ghost use Rattle.mum_users.specs.Edit.{edit_fault, edited, not_listening, user_edit_of};
    ghost use Rattle.mum_users.specs.Targets.{target_fault, target_of, targeted};

    /// No session is here, and none was.
    pub fn new(alloc: Global) -> Result<Roster, OutOfMemory>
        ensures empty { IfOk result (λ roster. roster ≡ empty_roster) }
        ensures proper { IfOk result (λ roster. IsProper roster) }
    {
        Ok(Roster {
            alloc,
            users: Vec::with_capacity(alloc, SLOTS)?,
            slots: Vec::with_capacity(alloc, SLOTS)?,
            member_rows: Vec::with_capacity(alloc, SLOTS)?,
            listeners: Listeners::new(alloc),
            listener_rows: Vec::new(alloc),
            targets: Vec::new(alloc),
            last: 0,
            limit: DEFAULT_SESSIONS_LIMIT,
        })
    }

    /// The row of a session, in a number of steps that grows as the logarithm of the number of
    /// sessions.
    pub fn session(&self, session: SessionId) -> Option<&User>
        ensures row { option_copied result ≡ session_of self.now session }
        ensures proper { IsProper self.now }
    {
        row_of(self.users.as_slice(), self.slots.as_slice(), session)
    }

    /// The row of the session in a slot, in a number of steps that grows as the logarithm of the
    /// number of sessions.
    pub fn at(&self, slot: Slot) -> Option<&User>
        ensures row { option_copied result ≡ session_at self.now slot }
        ensures proper { IsProper self.now }
    {
        row_at(self.users.as_slice(), slot)
    }

    /// The sessions that are here, by their slots.
    pub fn users(&self) -> &[User]
        ensures { result.now ≡ self.now.sessions }
    {
        self.users.as_slice()
    }

    /// Whether a session is in the channel, in a number of steps that grows as the logarithm of the
    /// number of sessions.
    pub fn has_member(&self, channel: ChannelId) -> bool
        ensures { result ≡ list_any (is_in channel) self.now.sessions }
    {
        has_row(self.member_rows.as_slice(), channel)
    }

    /// The slots of those in a channel, as masks: bit b is set exactly where a session in slot
    /// 128 * `word` + b is in the channel. It takes no memory, and a number of steps that grows as the
    /// logarithm of the number of sessions.
    pub fn members(&self, channel: ChannelId, word: usize) -> u128
        ensures { (bit : ℕ) → bit < WORD_SLOTS →
            bit_at result bit ≡ (if has_member_at self.now channel (WORD_SLOTS * word + bit) then 1 else 0) }
    {
        mask_at(self.member_rows.as_slice(), channel, word)
    }

    /// The slots of those that listen to a channel, as masks: bit b is set exactly where a session in
    /// slot 128 * `word` + b listens to the channel. It takes no memory, and a number of steps that grows
    /// as the logarithm of the number of pairs.
    pub fn listeners(&self, channel: ChannelId, word: usize) -> u128
        ensures { (bit : ℕ) → bit < WORD_SLOTS →
            bit_at result bit ≡ (if has_listener_at self.now channel (WORD_SLOTS * word + bit) then 1 else 0) }
    {
        mask_at(self.listener_rows.as_slice(), channel, word)
    }

    /// The most sessions that may be here at a time.
    pub fn limit(&self) -> u16
        ensures limit { result ≡ self.now.limit }
        ensures proper { IsProper self.now }
    {
        self.limit
    }

    /// Raises the limit of sessions, which is not above 512.
    pub fn set_limit(&mut self, sessions: u16)
        requires rises { self.old.limit ≤ sessions }
        requires within { sessions ≤ SLOTS }
        ensures outcome { self.new ≡ record self.old { limit = sessions } }
        ensures proper { IsProper self.new }
    {
        self.limit = sessions;
    }

    /// The number and the slot that the next join takes; `None` where as many sessions are here
    /// as the limit says, or the number 4,294,967,295 was given.
    pub fn next_join(&self) -> Option<(SessionId, Slot)>
        ensures next { result ≡ next_join self.now }
        ensures least { IfSome result (λ next. IsLeastFree self.now.sessions next.1.0) }
        ensures proper { IsProper self.now }
    {
        if self.users.len() >= self.limit as usize || self.last == u32::MAX {
            return None;
        }
        let slot = free_slot(self.users.as_slice());
        Some((SessionId(self.last + 1), Slot(slot as u16)))
    }

    /// Takes a session in, with the least free slot, the next number, the root channel and no flag.
    ///
    /// Refused in this order: `NameInUse` where a session has the name, `Full` where as many sessions are
    /// here as the limit says, `SessionsUsedUp` where the number 4,294,967,295 was given.
    pub fn join(
        &mut self,
        name: &str,
        account: Option<AccountId>,
        tokens: &[Text],
    ) -> Result<SessionId, UserFault>
        ensures outcome { Gives named_cause (join_fault self.old name.now) (next_number self.old)
            (joined self.old name.now account tokens.now) self.old result self.new }
        ensures proper { IsProper self.new }
    {
        if let Some(cause) = self.cause_against_joining(name) {
            return Err(cause);
        }
        self.slots.reserve(1)?;
        let place = free_slot(self.users.as_slice());
        let session = SessionId(self.last + 1);
        let slot = Slot(place as u16);
        let user = joining_user(self.alloc, session, slot, name, account, tokens)?;
        self.users.insert(place, user)?;
        self.slots.push_reserved(SessionSlot { session, slot });
        set_slot(&mut self.member_rows, ChannelId::ROOT, slot);
        self.last += 1;
        Ok(session)
    }

    /// Takes a session out, with its listening and its targets. Refused as `NoSession` where it is not
    /// here.
    pub fn leave(&mut self, session: SessionId) -> Result<(), UserFault>
        ensures outcome { SettlesInPlace (absent_fault self.old session) (left self.old session)
            self.old result self.new }
        ensures proper { IsProper self.new }
    {
        let Some(index) = index_of(self.users.as_slice(), self.slots.as_slice(), session) else {
            return Err(UserFault::NoSession);
        };
        let user = &self.users[index];
        let channel = user.channel;
        let slot = user.slot;
        clear_slot(&mut self.member_rows, channel, slot);
        take_user(&mut self.users, session);
        take_slot(&mut self.slots, session);
        clear_pairs(
            &mut self.listener_rows,
            self.listeners.of_session(session),
            slot,
        );
        self.listeners.leave_all(session);
        take_targets(&mut self.targets, session);
        Ok(())
    }

    /// Puts a session into a channel. Refused as `NoSession` where it is not here.
    pub fn place(&mut self, session: SessionId, channel: ChannelId) -> Result<(), UserFault>
        ensures outcome { SettlesInPlace (absent_fault self.old session) (placed self.old session channel)
            self.old result self.new }
        ensures proper { IsProper self.new }
    {
        match index_of(self.users.as_slice(), self.slots.as_slice(), session) {
            None => Err(UserFault::NoSession),
            Some(index) => {
                let user = &mut self.users[index];
                let from = user.channel;
                let slot = user.slot;
                user.channel = channel;
                move_slot(&mut self.member_rows, slot, from, channel);
                Ok(())
            }
        }
    }

    /// Whether a session may not speak where it is. Refused as `NoSession` where it is not here.
    pub fn suppress(&mut self, session: SessionId, on: bool) -> Result<(), UserFault>
        ensures outcome { SettlesInPlace (absent_fault self.old session) (suppressed self.old session on)
            self.old result self.new }
        ensures proper { IsProper self.new }
    {
        match index_of(self.users.as_slice(), self.slots.as_slice(), session) {
            None => Err(UserFault::NoSession),
            Some(index) => {
                let user = &mut self.users[index];
                user.suppress = on;
                Ok(())
            }
        }
    }

    /// Changes the flags of a session. Refused as `NoSession` where it is not here.
    pub fn set_flags(&mut self, session: SessionId, change: FlagChange) -> Result<(), UserFault>
        ensures outcome { SettlesInPlace (absent_fault self.old session) (with_flags self.old session change)
            self.old result self.new }
        ensures proper { IsProper self.new }
    {
        match index_of(self.users.as_slice(), self.slots.as_slice(), session) {
            None => Err(UserFault::NoSession),
            Some(index) => {
                change_flags(&mut self.users[index], change);
                Ok(())
            }
        }
    }

    /// Replaces the tokens of a session. Refused as `NoSession` where it is not here.
    pub fn set_tokens(&mut self, session: SessionId, tokens: &[Text]) -> Result<(), UserFault>
        ensures outcome { Settles named_cause (absent_fault self.old session)
            (with_tokens self.old session tokens.now) self.old result self.new }
        ensures proper { IsProper self.new }
    {
        match index_of(self.users.as_slice(), self.slots.as_slice(), session) {
            None => Err(UserFault::NoSession),
            Some(index) => {
                let tokens = shared_texts(self.alloc, tokens)?;
                let user = &mut self.users[index];
                user.tokens = tokens;
                Ok(())
            }
        }
    }

    /// Sets the comment and the plugin context of a session, as far as they are given. Refused as
    /// `NoSession` where it is not here.
    pub fn set_texts(
        &mut self,
        session: SessionId,
        comment: Option<&str>,
        context: Option<&[u8]>,
    ) -> Result<(), UserFault>
        ensures outcome { Settles named_cause (absent_fault self.old session)
            (with_texts self.old session (option_copied comment.entry) (option_copied context.entry))
            self.old result self.new }
        ensures proper { IsProper self.new }
    {
        match index_of(self.users.as_slice(), self.slots.as_slice(), session) {
            None => Err(UserFault::NoSession),
            Some(index) => {
                let comment = Text::of_given(self.alloc, comment)?;
                let context = copy_of_octets(self.alloc, context)?;
                change_texts(&mut self.users[index], comment, context);
                Ok(())
            }
        }
    }

    /// Whether a session listens to a channel.
    pub fn listens(&self, session: SessionId, channel: ChannelId) -> bool
        ensures { result ≡ listens self.now session channel }
    {
        self.listeners.has(session, channel)
    }

    /// Lets a session listen to a channel. If it does already, nothing changes.
    ///
    /// Refused in this order: `NoSession` where it is not here, and, where the pair is new,
    /// `ListenerLimit` where 64 sessions listen to the channel, and `UserListenerLimit` where the
    /// session listens to 32 channels.
    pub fn listen(&mut self, session: SessionId, channel: ChannelId) -> Result<(), UserFault>
        ensures outcome { Settles named_cause (listen_fault self.old session channel)
            (listening self.old session channel) self.old result self.new }
        ensures proper { IsProper self.new }
    {
        let Some(index) = index_of(self.users.as_slice(), self.slots.as_slice(), session) else {
            return Err(UserFault::NoSession);
        };
        if self.listeners.has(session, channel) {
            return Ok(());
        }
        if self.listeners.session_count(channel) >= CHANNEL_LISTENERS {
            return Err(UserFault::ListenerLimit);
        }
        if self.listeners.channel_count(session) >= LISTENED_CHANNELS {
            return Err(UserFault::UserListenerLimit);
        }
        self.listener_rows.reserve(1)?;
        self.listeners.put(ListenerPair { session, channel })?;
        let slot = self.users[index].slot;
        set_slot(&mut self.listener_rows, channel, slot);
        Ok(())
    }

    /// Ends a session's listening to a channel, if it listens. Refused as `NoSession` where it is not
    /// here.
    pub fn unlisten(&mut self, session: SessionId, channel: ChannelId) -> Result<(), UserFault>
        ensures outcome { SettlesInPlace (absent_fault self.old session)
            (not_listening self.old session channel) self.old result self.new }
        ensures proper { IsProper self.new }
    {
        let Some(index) = index_of(self.users.as_slice(), self.slots.as_slice(), session) else {
            return Err(UserFault::NoSession);
        };
        let slot = self.users[index].slot;
        self.listeners.leave(session, channel);
        clear_slot(&mut self.listener_rows, channel, slot);
        Ok(())
    }

    /// The pairs of a session and the channels that it listens to, by the channels. The first is found by
    /// binary search.
    pub fn pairs_of(&self, session: SessionId) -> &[ListenerPair]
        ensures { result.now ≡ pairs_of self.now session }
    {
        self.listeners.of_session(session)
    }

    /// Changes several parts of a session at once, or, if it is refused, none.
    ///
    /// Refused in this order: `NoSession` where it is not here; `ListenerLimit` where more than 64
    /// sessions would listen to one of the channels; `UserListenerLimit` where the session would listen
    /// to more than 32. The limits are those of the roster after the change, so a session that listens
    /// to 32 channels may leave one for another.
    pub fn edit(&mut self, session: SessionId, change: &UserChange) -> Result<(), UserFault>
        ensures outcome { Settles named_cause (edit_fault self.old session (user_edit_of change.now))
            (edited self.old session (user_edit_of change.now)) self.old result self.new }
        ensures proper { IsProper self.new }
    {
        let Some(index) = index_of(self.users.as_slice(), self.slots.as_slice(), session) else {
            return Err(UserFault::NoSession);
        };
        if let Some(cause) = self.cause_against_editing(session, change) {
            return Err(cause);
        }
        let comment = Text::share_given(change.comment)?;
        let context = copy_of_octets(self.alloc, change.context)?;
        let before = Vec::from_slice(self.alloc, self.listeners.of_session(session))?;
        self.listener_rows.reserve(LISTENED_CHANNELS)?;
        self.listeners
            .change(session, change.listen, change.unlisten)?;
        let user = &mut self.users[index];
        let from = user.channel;
        let slot = user.slot;
        change_row(user, change, comment, context);
        let to = user.channel;
        move_slot(&mut self.member_rows, slot, from, to);
        clear_pairs(&mut self.listener_rows, before.as_slice(), slot);
        set_pairs(
            &mut self.listener_rows,
            self.listeners.of_session(session),
            slot,
        );
        Ok(())
    }

    /// Ends all listening to channels that go.
    pub fn close<G: ChannelSet>(&mut self, gone: &G)
        ensures outcome { self.new ≡ without_channels self.old (G.has_channel gone.now) }
        ensures proper { IsProper self.new }
    {
        self.listeners.close(gone);
        drop_masks(&mut self.listener_rows, gone);
    }

    /// The voice target of a session under a number, in a number of steps that grows as the logarithm
    /// of the number of targets. `None` where the session is not here or has none under the number. It takes no
    /// memory.
    pub fn target(&self, session: SessionId, id: u8) -> Option<&Target>
        ensures { option_copied result ≡ target_of self.now session id }
    {
        match row_of_target(self.targets.as_slice(), session, id) {
            None => None,
            Some(row) => Some(&row.target),
        }
    }

    /// Sets a session's voice target under a number, or, if it has no items, unsets it.
    ///
    /// Refused in this order: `NoSession` where the session is not here, `TargetId` where the number
    /// is not 1 to 30, `TargetSize` where the target has more than 16 items, names more than 128
    /// sessions over all its items together, or names a group of more than 128 bytes.
    pub fn set_target(
        &mut self,
        session: SessionId,
        id: u8,
        target: &Target,
    ) -> Result<(), UserFault>
        ensures outcome { Settles named_cause (target_fault self.old session id target.now)
            (targeted self.old session id target.now) self.old result self.new }
        ensures proper { IsProper self.new }
    {
        if !is_here(self.users.as_slice(), self.slots.as_slice(), session) {
            return Err(UserFault::NoSession);
        }
        if id == 0 || id > LAST_TARGET {
            return Err(UserFault::TargetId);
        }
        if target.is_oversize() {
            return Err(UserFault::TargetSize);
        }
        if target.items.as_slice().is_empty() {
            take_target(&mut self.targets, session, id);
            return Ok(());
        }
        let target = target.copy(self.alloc)?;
        put_target(
            &mut self.targets,
            TargetRow {
                session,
                id,
                target,
            },
        )?;
        Ok(())
    }

    /// The first cause for which a session of this name is not taken in: `NameInUse`, `Full` or
    /// `SessionsUsedUp`. It takes no memory.
    pub fn cause_against_joining(&self, name: &str) -> Option<UserFault>
        ensures { result ≡ join_fault self.now name.now }
    {
        if name_in_use(self.users.as_slice(), name) {
            return Some(UserFault::NameInUse);
        }
        if self.users.len() >= self.limit as usize {
            return Some(UserFault::Full);
        }
        if self.last == u32::MAX {
            return Some(UserFault::SessionsUsedUp);
        }
        None
    }

    /// The first cause for which a change of a session is refused, as `edit` names them. It takes no
    /// memory.
    pub fn cause_against_editing(
        &self,
        session: SessionId,
        change: &UserChange,
    ) -> Option<UserFault>
        ensures { result ≡ edit_fault self.now session (user_edit_of change.now) }
    {
        if !is_here(self.users.as_slice(), self.slots.as_slice(), session) {
            return Some(UserFault::NoSession);
        }
        if crowds_one(&self.listeners, session, change) {
            return Some(UserFault::ListenerLimit);
        }
        if listens_to_too_many(&self.listeners, session, change) {
            return Some(UserFault::UserListenerLimit);
        }
        None
    }

    /// Whether a session is here, found by binary search.
    pub fn is_here(&self, session: SessionId) -> bool
        ensures { result ≡ list_any (has_number session) self.now.sessions }
    {
        is_here(self.users.as_slice(), self.slots.as_slice(), session)
    }

    /// Places every session: the channel in which it is, and whether it may speak there. It takes
    /// no memory. The masks of members are made again only where a session is in another channel.
    pub fn place_all<S: Placements>(&mut self, placements: &S)
        ensures outcome { self.new ≡ with_placements (S.placement_of placements.now) self.old }
        ensures proper { IsProper self.new }
    {
        if place_each(&mut self.users, placements) {
            put_members(&mut self.member_rows, self.users.as_slice());
        }
    }

    /// An equal roster, with its slots and the last session number that was given.
    pub fn copy(&self, alloc: Global) -> Result<Roster, OutOfMemory>
        ensures equal { IfOk result (λ copy. copy ≡ self.now) }
        ensures proper { IfOk result (λ copy. IsProper copy) }
    {
        Ok(Roster {
            alloc,
            users: copy_of_users(alloc, self.users.as_slice())?,
            slots: Vec::from_slice(alloc, self.slots.as_slice())?,
            member_rows: copy_of_masks(alloc, self.member_rows.as_slice())?,
            listeners: self.listeners.copy(alloc)?,
            listener_rows: Vec::from_slice(alloc, self.listener_rows.as_slice())?,
            targets: copy_of_targets(alloc, self.targets.as_slice())?,
            last: self.last,
            limit: self.limit,
        })
    }
}
