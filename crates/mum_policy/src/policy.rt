//! What a channel holds of groups and access control entries.

ghost use Rattle.std.specs.Prelude.{◌≡◌, IfOk};
ghost use Rattle.std.specs.List.{list_any};
ghost use Rattle.std.specs.Option.{option_copied};
ghost use Rattle.mum_policy.specs.Limits.{is_large_group, is_large_policy, is_long_whom};

use mum_base::name::NAME_LIMIT;
use mum_base::{AccountId, ChannelId, Items, OutOfMemory, Perm, SessionId, Text};
use std::alloc::Global;

/// The most groups of a channel.
pub const GROUPS: usize = 64;

/// The most accounts that a group adds, and the most that it removes.
pub const GROUP_ACCOUNTS: usize = 256;

/// The most entries of a channel's access control list.
pub const ENTRIES: usize = 128;

/// The limits of a policy. This does nothing: its contract is what they are.
pub fn limits()
    ensures groups { GROUPS ≡ 64 }
    ensures accounts { GROUP_ACCOUNTS ≡ 256 }
    ensures entries { ENTRIES ≡ 128 }
{}

/// A group as a channel defines it: accounts that it adds to those from the channels above, and
/// accounts that it then removes.
#[derive(Drop)]
pub struct Group {
    pub name: Text,
    /// Whether the accounts of the channels above count here.
    pub inherit: bool,
    /// Whether these accounts count in the channels below.
    pub inheritable: bool,
    pub add: Items<AccountId>,
    pub remove: Items<AccountId>,
}

fn copy_of_accounts(alloc: Global, accounts: &[AccountId]) -> Result<Items<AccountId>, OutOfMemory>
    ensures { IfOk result (λ copy. copy ≡ accounts.now) }
{
    Ok(Items::from_vec(Vec::from_slice(alloc, accounts)?))
}

impl Group {
    /// An equal copy. It shares the text of the name.
    pub fn copy(&self, alloc: Global) -> Result<Group, OutOfMemory>
        ensures { IfOk result (λ copy. copy ≡ self.now) }
    {
        Ok(Group {
            name: self.name.share()?,
            inherit: self.inherit,
            inheritable: self.inheritable,
            add: copy_of_accounts(alloc, self.add.as_slice())?,
            remove: copy_of_accounts(alloc, self.remove.as_slice())?,
        })
    }
}

fn is_large(group: &Group) -> bool
    ensures { result ≡ is_large_group group.now }
{
    group.add.as_slice().len() > GROUP_ACCOUNTS || group.remove.as_slice().len() > GROUP_ACCOUNTS
}

/// Whom an entry is for.
#[derive(Drop)]
pub enum Whom {
    Account(AccountId),
    /// A group name, with its prefixes.
    Group(Text),
}

impl Whom {
    /// An equal copy, which shares the text of the name.
    pub fn share(&self) -> Result<Whom, OutOfMemory>
        ensures { IfOk result (λ shared. shared ≡ self.now) }
    {
        match self {
            Whom::Account(account) => Ok(Whom::Account(*account)),
            Whom::Group(name) => Ok(Whom::Group(name.share()?)),
        }
    }

    // Whether the group name, with its prefixes, has more than 128 bytes.
    fn is_long(&self) -> bool
        ensures { result ≡ is_long_whom self.now }
    {
        match self {
            Whom::Account(_) => false,
            Whom::Group(name) => name.as_slice().len() > NAME_LIMIT,
        }
    }
}

/// An entry of an access control list.
#[derive(Drop)]
pub struct AclEntry {
    pub whom: Whom,
    /// Whether the entry applies in its own channel.
    pub here: bool,
    /// Whether the entry applies in the channels below.
    pub subs: bool,
    pub grant: Perm,
    pub deny: Perm,
}

impl AclEntry {
    /// An equal copy, which shares the text of the name.
    pub fn share(&self) -> Result<AclEntry, OutOfMemory>
        ensures { IfOk result (λ shared. shared ≡ self.now) }
    {
        Ok(AclEntry {
            whom: self.whom.share()?,
            here: self.here,
            subs: self.subs,
            grant: self.grant,
            deny: self.deny,
        })
    }
}

/// The groups and the access control list of a channel.
#[derive(Drop)]
pub struct ChannelPolicy {
    /// Whether the set begins with what the channels above leave; else with the start set.
    pub inherit_acls: bool,
    pub groups: Items<Group>,
    /// The entries in the order in which they are taken.
    pub acls: Items<AclEntry>,
}

fn copy_of_groups(alloc: Global, groups: &[Group]) -> Result<Items<Group>, OutOfMemory>
    ensures { IfOk result (λ copy. copy ≡ groups.now) }
{
    let mut copies = Vec::with_capacity(alloc, groups.len())?;
    for group in groups {
        copies.push(group.copy(alloc)?)?;
    }
    Ok(Items::from_vec(copies))
}

fn copy_of_entries(alloc: Global, entries: &[AclEntry]) -> Result<Items<AclEntry>, OutOfMemory>
    ensures { IfOk result (λ copy. copy ≡ entries.now) }
{
    let mut copies = Vec::with_capacity(alloc, entries.len())?;
    for entry in entries {
        copies.push(entry.share()?)?;
    }
    Ok(Items::from_vec(copies))
}

fn has_large_group(groups: &[Group]) -> bool
    ensures { result ≡ list_any is_large_group groups.now }
{
    groups.iter().any(|group| is_large(group))
}

fn has_long_name(entries: &[AclEntry]) -> bool
    ensures { result ≡ list_any (λ entry. is_long_whom entry.whom) entries.now }
{
    entries.iter().any(|entry| entry.whom.is_long())
}

impl ChannelPolicy {
    /// An equal copy. It shares the texts of names.
    pub fn copy(&self, alloc: Global) -> Result<ChannelPolicy, OutOfMemory>
        ensures { IfOk result (λ copy. copy ≡ self.now) }
    {
        Ok(ChannelPolicy {
            inherit_acls: self.inherit_acls,
            groups: copy_of_groups(alloc, self.groups.as_slice())?,
            acls: copy_of_entries(alloc, self.acls.as_slice())?,
        })
    }

    /// Whether it has more than 64 groups or 128 entries, a group that adds or removes more than 256
    /// accounts, or an entry whose group name has more than 128 bytes.
    pub fn is_large(&self) -> bool
        ensures { result ≡ is_large_policy self.now }
    {
        let groups = self.groups.as_slice();
        let entries = self.acls.as_slice();
        groups.len() > GROUPS
            || entries.len() > ENTRIES
            || has_large_group(groups)
            || has_long_name(entries)
    }
}

/// A session, as entries and groups see it.
#[derive(Clone, Copy)]
pub struct Who<'a> {
    pub session: SessionId,
    /// The account that the session is of. Account 0 is SuperUser.
    pub account: Option<AccountId>,
    /// The channel in which the session is.
    pub channel: ChannelId,
    /// The path from the root to `channel`. Only the group `sub` depends on it.
    pub home: &'a [ChannelId],
    /// The access tokens that the session gave.
    pub tokens: &'a [Text],
}

/// Channels with their policies.
pub trait Policies {
    ghost use Rattle.std.specs.Prelude.{Option};
    ghost use Rattle.mum_base.specs.declared.number.ChannelId.{ChannelId};
    ghost use Rattle.mum_policy.specs.declared.policy.ChannelPolicy.{ChannelPolicy};

    /// The policy of each channel that exists.
    ghost policy_of: { Self → ChannelId → Option ChannelPolicy };

    /// The policy of this channel; None exactly where no such channel exists.
    fn policy(&self, id: ChannelId) -> Option<&ChannelPolicy>
        ensures { option_copied result ≡ policy_of self.now id };
}
