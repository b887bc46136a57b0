//! Whether an edit fits.

ghost use Rattle.std.specs.Prelude.{◌≡◌, ◌==◌, ◌&&◌, ◌||◌, ◌+◌, ◌++◌, ◌^◌, ◌<◌, not, nat_le, nat_lt, is_none, length, true, false};
ghost use Rattle.std.specs.List.{list_all, list_any};
ghost use Rattle.std.specs.Option.{option_map_or};
ghost use Rattle.mum_base.specs.declared.number.TheConstants.{PLACES, SLOTS};
ghost use Rattle.mum_tree.specs.Change.{change_of, fault_of_edit};
ghost use Rattle.mum_tree.specs.Refusals.{fault_of_add, fault_of_remove};
ghost use Rattle.mum_tree.specs.Rows.{is_there};
ghost use Rattle.mum_users.specs.Edit.{edit_fault, user_edit_of};
ghost use Rattle.mum_users.specs.Sessions.{join_fault, next_join, next_number, next_slot};
ghost use Rattle.mum_users.specs.State.{are_tokens, has_number, is_context};
ghost use Rattle.mum_users.specs.Targets.{is_oversize};
ghost use Rattle.mum_users.specs.declared.target.TheConstants.{LAST_TARGET};
ghost use Rattle.mum_state.specs.Fits.{fits, gives_right_numbers, has_room_for, holds_of_given, is_countable, sets_properly};
ghost use Rattle.mum_state.specs.Parts.{channel_change, user_change};
ghost use Rattle.mum_state.specs.Named.{given, named_account, named_channels, named_sessions};
ghost use Rattle.mum_state.specs.Proper.{are_permissions, is_name, is_short, is_sound_entry, is_sound_policy, is_text};
ghost use Rattle.mum_state.specs.State.{has_account, is_named};

use crate::account::ACCOUNT_LIMIT;
use crate::change::{channel_change, user_change};
use crate::count::EDIT_LIMIT;
use crate::edit::Edit;
use crate::kind::{changes_paths, changes_routes, is_of_configuration};
use crate::parts::Parts;
use mum_base::name::{NAME_LIMIT, check_name, check_text};
use mum_base::{AccountId, ChannelId, Items, Octets, PLACES, Perm, SLOTS, SessionId, Slot, Text};
use mum_policy::{AclEntry, ChannelPolicy, Group};
use mum_tree::ChannelInfo;
use mum_users::Target;
use mum_users::target::LAST_TARGET;
use mum_users::user::{are_tokens, is_context};

fn is_name(name: &Text) -> bool
    ensures { result ≡ is_name name.now }
{
    check_name(name.as_str()).is_ok()
}

fn is_text(text: &Text) -> bool
    ensures { result ≡ is_text text.now }
{
    check_text(text.as_str()).is_ok()
}

fn is_short(name: &Text) -> bool
    ensures { result ≡ is_short name.now }
{
    name.as_slice().len() <= NAME_LIMIT
}

fn is_name_if_given(name: &Option<Text>) -> bool
    ensures { result ≡ holds_of_given is_name name.now }
{
    match name {
        Some(name) => is_name(name),
        None => true,
    }
}

fn is_text_if_given(text: &Option<Text>) -> bool
    ensures { result ≡ holds_of_given is_text text.now }
{
    match text {
        Some(text) => is_text(text),
        None => true,
    }
}

fn is_context_if_given(context: &Option<Octets>) -> bool
    ensures { result ≡ holds_of_given is_context context.now }
{
    match context {
        Some(context) => is_context(context.as_slice()),
        None => true,
    }
}

fn are_permissions(set: Perm) -> bool
    ensures { result ≡ are_permissions set }
{
    Perm::ALL.has(set)
}

fn is_sound_entry(entry: &AclEntry) -> bool
    ensures { result ≡ is_sound_entry entry.now }
{
    are_permissions(entry.grant) && are_permissions(entry.deny)
}

fn are_named_groups(groups: &[Group]) -> bool
    ensures { result ≡ list_all (λ group. is_name group.name) groups.now }
{
    groups.iter().all(|group| is_name(&group.name))
}

fn are_sound_entries(entries: &[AclEntry]) -> bool
    ensures { result ≡ list_all is_sound_entry entries.now }
{
    entries.iter().all(|entry| is_sound_entry(entry))
}

// Within the limits, with good names of groups, and only permissions that there are.
fn is_sound_policy(policy: &ChannelPolicy) -> bool
    ensures { result ≡ is_sound_policy policy.now }
{
    !policy.is_large()
        && are_named_groups(policy.groups.as_slice())
        && are_sound_entries(policy.acls.as_slice())
}

// The number is one that a target may have, and the target is not too large.
fn may_be_target(id: u8, target: &Target) -> bool
    ensures { result ≡ (not ((id == 0) || nat_lt LAST_TARGET id) && not (is_oversize target.now)) }
{
    !(id == 0 || id > LAST_TARGET) && !target.is_oversize()
}

// Whether the count may rise over the revision, if the edit raises it.
fn has_room_for(raises: bool, revision: u64, count: u64) -> bool
    requires { revision < 2 ^ 63 }
    ensures { result ≡ has_room_for raises revision count }
{
    !raises || count < revision + EDIT_LIMIT
}

impl Parts {
    // The sessions that an edit names are here.
    fn sessions_here(&self, edit: &Edit) -> bool
        ensures { result ≡ list_all (λ session. list_any (has_number session) self.now.roster.sessions)
            (named_sessions edit.now) }
    {
        match *edit {
            Edit::Leave { session }
            | Edit::SetTokens { session, .. }
            | Edit::SetTarget { session, .. } => self.roster.is_here(session),
            Edit::Kick { session, actor, .. } | Edit::SetUser { session, actor, .. } => {
                self.roster.is_here(session) && self.roster.is_here(actor)
            }
            Edit::MakeChannel {
                maker: Some(actor),
                ..
            }
            | Edit::EditChannel {
                actor: Some(actor),
                ..
            }
            | Edit::SetAcl {
                actor: Some(actor),
                ..
            }
            | Edit::RemoveChannel { actor, .. }
            | Edit::Text { actor, .. } => self.roster.is_here(actor),
            _ => true,
        }
    }

    fn is_there_if_given(&self, channel: Option<ChannelId>) -> bool
        ensures { result ≡ list_all (is_there self.now.tree.channels) (given channel) }
    {
        match channel {
            Some(channel) => self.channels.tree().is_there(channel),
            None => true,
        }
    }

    fn are_there(&self, channels: &[ChannelId]) -> bool
        ensures { result ≡ list_all (is_there self.now.tree.channels) channels.now }
    {
        let tree = self.channels.tree();
        channels.iter().all(|id| tree.is_there(*id))
    }

    fn are_all_there(
        &self,
        channel: Option<ChannelId>,
        some: &[ChannelId],
        others: &[ChannelId],
    ) -> bool
        ensures { result ≡ list_all (is_there self.now.tree.channels)
            (given channel ++ some.now ++ others.now) }
    {
        self.is_there_if_given(channel) && self.are_there(some) && self.are_there(others)
    }

    // The channels that an edit names are there.
    fn channels_there(&self, edit: &Edit) -> bool
        ensures { result ≡ list_all (is_there self.now.tree.channels) (named_channels edit.now) }
    {
        let tree = self.channels.tree();
        match *edit {
            Edit::MakeChannel { parent, .. } => tree.is_there(parent),
            Edit::EditChannel {
                id,
                parent,
                ref links_add,
                ref links_remove,
                ..
            } => {
                tree.is_there(id)
                    && self.are_all_there(parent, links_add.as_slice(), links_remove.as_slice())
            }
            Edit::RemoveChannel { id, .. } => tree.is_there(id),
            Edit::SetUser {
                channel,
                ref listen,
                ref unlisten,
                ..
            } => self.are_all_there(channel, listen.as_slice(), unlisten.as_slice()),
            Edit::SetAcl { channel, .. } => tree.is_there(channel),
            _ => true,
        }
    }

    // The account that an edit names is there.
    fn account_there(&self, edit: &Edit) -> bool
        ensures { result ≡ option_map_or (has_account self.now) (named_account edit.now) true }
    {
        match *edit {
            Edit::Join {
                account: Some(account),
                ..
            } => self.accounts.has_number(account),
            _ => true,
        }
    }

    // Neither limit falls, and neither passes the greatest.
    fn may_set_limits(&self, sessions: u16, channels: u32) -> bool
        ensures { result ≡ ((nat_le self.now.roster.limit sessions && nat_le self.now.tree.limit channels)
            && (nat_le sessions SLOTS && nat_le channels PLACES)) }
    {
        self.roster.limit() <= sessions
            && self.channels.tree().limit() <= channels
            && sessions as usize <= SLOTS
            && channels as usize <= PLACES
    }

    fn may_add(&self, account: AccountId, name: &Text) -> bool
        ensures { result ≡ (not (has_account self.now account) && not (list_any (is_named name.now) self.now.accounts)
            && is_short name.now && nat_lt (length self.now.accounts) ACCOUNT_LIMIT) }
    {
        !self.accounts.has_number(account)
            && !self.accounts.has_name(name.as_str())
            && is_short(name)
            && self.accounts.len() < ACCOUNT_LIMIT
    }

    // No cause refuses the name and the tokens, and the number and the slot are those that are
    // next.
    fn may_join(&self, session: SessionId, slot: Slot, name: &Text, tokens: &Items<Text>) -> bool
        ensures { result ≡ (((session.0 == (next_number self.now.roster).0)
            && (slot.0 == (next_slot self.now.roster).0))
            && (is_none (join_fault self.now.roster name.now)
            && is_short name.now && are_tokens tokens.now)) }
    {
        self.roster.cause_against_joining(name.as_str()).is_none()
            && is_short(name)
            && are_tokens(tokens.as_slice())
            && self.takes_next(session, slot)
    }

    // The number and the slot are those that the next join takes.
    fn takes_next(&self, session: SessionId, slot: Slot) -> bool
        ensures { result ≡ option_map_or (λ next. (session.0 == next.0.0) && (slot.0 == next.1.0))
            (next_join self.now.roster) false }
    {
        match self.roster.next_join() {
            Some((next, free)) => session.0 == next.0 && slot.0 == free.0,
            None => false,
        }
    }

    // The number is above all that channels had.
    fn is_new_number(&self, id: ChannelId) -> bool
        ensures { result ≡ nat_lt self.now.tree.greatest id.0 }
    {
        match self.channels.tree().next_id() {
            Some(next) => next.0 <= id.0,
            None => false,
        }
    }

    fn may_make(&self, id: ChannelId, parent: ChannelId, name: &Text, info: &ChannelInfo) -> bool
        ensures { result ≡ (nat_lt self.now.tree.greatest id.0
            && (is_none (fault_of_add self.now.tree id parent name.now)
            && is_name name.now && is_text info.now.description)) }
    {
        self.is_new_number(id)
            && self
                .channels
                .tree()
                .cause_against_adding(id, parent, name.as_str())
                .is_none()
            && is_name(name)
            && is_text(&info.description)
    }

    fn may_remove(&self, id: ChannelId) -> bool
        ensures { result ≡ is_none (fault_of_remove self.now.tree id) }
    {
        self.channels.tree().cause_against_removing(id).is_none()
    }

    // No cause refuses the change of a channel.
    fn may_edit_channel(&self, id: ChannelId, edit: &Edit) -> bool
        ensures { result ≡ option_map_or (λ change. is_none (fault_of_edit self.now.tree id change))
            (channel_change edit.now) true }
    {
        match channel_change(edit) {
            Some(change) => self
                .channels
                .tree()
                .cause_against_editing(id, &change)
                .is_none(),
            None => true,
        }
    }

    // No cause refuses the change of a session.
    fn may_edit_user(&self, session: SessionId, edit: &Edit) -> bool
        ensures { result ≡ option_map_or (λ change. is_none (edit_fault self.now.roster session change))
            (user_change edit.now) true }
    {
        match user_change(edit) {
            Some(change) => self
                .roster
                .cause_against_editing(session, &change)
                .is_none(),
            None => true,
        }
    }

    // The same, and the name and the description are as they may be.
    fn may_change_channel(
        &self,
        id: ChannelId,
        edit: &Edit,
        name: &Option<Text>,
        description: &Option<Text>,
    ) -> bool
        ensures { result ≡ (option_map_or (λ change. is_none (fault_of_edit self.now.tree id change))
            (channel_change edit.now) true
            && holds_of_given is_name name.now && holds_of_given is_text description.now) }
    {
        self.may_edit_channel(id, edit) && is_name_if_given(name) && is_text_if_given(description)
    }

    // No cause refuses the change of a session, and its texts are as they may be.
    fn may_change_user(
        &self,
        session: SessionId,
        edit: &Edit,
        comment: &Option<Text>,
        context: &Option<Octets>,
    ) -> bool
        ensures { result ≡ (option_map_or (λ change. is_none (edit_fault self.now.roster session change))
            (user_change edit.now) true
            && holds_of_given is_text comment.now && holds_of_given is_context context.now) }
    {
        self.may_edit_user(session, edit)
            && is_text_if_given(comment)
            && is_context_if_given(context)
    }

    // The numbers that an edit gives are right, and what it sets is as it may be.
    fn is_allowed(&self, edit: &Edit) -> bool
        ensures { result ≡ (gives_right_numbers self.now edit.now && sets_properly self.now edit.now) }
    {
        match *edit {
            Edit::SetServer { ref welcome, .. } => is_text(welcome),
            Edit::SetLimits { sessions, channels } => self.may_set_limits(sessions, channels),
            Edit::AddAccount {
                account,
                ref name,
                ..
            } => self.may_add(account, name),
            Edit::Join {
                session,
                slot,
                ref name,
                ref tokens,
                ..
            } => self.may_join(session, slot, name, tokens),
            Edit::MakeChannel {
                id,
                parent,
                ref name,
                ref info,
                ..
            } => self.may_make(id, parent, name, info),
            Edit::EditChannel {
                id,
                ref name,
                ref description,
                ..
            } => self.may_change_channel(id, edit, name, description),
            Edit::RemoveChannel { id, .. } => self.may_remove(id),
            Edit::SetUser {
                session,
                ref comment,
                ref context,
                ..
            } => self.may_change_user(session, edit, comment, context),
            Edit::SetTokens { ref tokens, .. } => are_tokens(tokens.as_slice()),
            Edit::SetTarget { id, ref target, .. } => may_be_target(id, target),
            Edit::SetAcl { ref policy, .. } => is_sound_policy(policy),
            _ => true,
        }
    }

    // An edit can be counted.
    fn is_countable(&self, edit: &Edit) -> bool
        requires { self.now.counts.revision < 2 ^ 63 }
        ensures { result ≡ is_countable self.now edit.now }
    {
        if is_of_configuration(edit) {
            has_room_for(changes_paths(edit), self.revision, self.stamps.policy)
                && has_room_for(changes_routes(edit), self.revision, self.stamps.routing)
        } else {
            self.revision < EDIT_LIMIT
        }
    }

    // Whether an edit fits: whom and what it names is there, it is allowed, and it can be counted.
    pub(crate) fn fits(&self, edit: &Edit) -> bool
        requires { self.now.counts.revision < 2 ^ 63 }
        ensures { result ≡ fits self.now edit.now }
    {
        self.sessions_here(edit)
            && self.channels_there(edit)
            && self.account_there(edit)
            && self.is_allowed(edit)
            && self.is_countable(edit)
    }
}
