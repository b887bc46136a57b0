//! The ACL message that reports a channel's policy.

ghost use Rattle.std.specs.Prelude.{◌≡◌, IfOk, map};
ghost use Rattle.mum_rules_tree.specs.Outcome.{answer_frame};
ghost use Rattle.mum_rules_tree.specs.Policy.{account_told, acl_told, group_name_told, group_told, line_told, numbers};

use mum_base::{AccountId, ChannelId, Items, OutOfMemory, Text};
use mum_frame::Frame;
use mum_frame::kind::ACL;
use mum_msg_rule::{Acl, AclGroup, AclLine, Message};
use mum_policy::{AclEntry, ChannelPolicy, Group, Whom};
use std::alloc::Global;

fn numbers(alloc: Global, accounts: &[AccountId]) -> Result<Items<u32>, OutOfMemory>
    ensures { IfOk result (λ listed. listed ≡ numbers accounts.now) }
{
    let mut listed = Vec::with_capacity(alloc, accounts.len())?;
    for account in accounts {
        listed.push(account.0)?;
    }
    Ok(Items::from_vec(listed))
}

fn group_told(alloc: Global, group: &Group) -> Result<AclGroup, OutOfMemory>
    ensures { IfOk result (λ told. told ≡ group_told group.now) }
{
    Ok(AclGroup {
        name: Some(group.name.share()?),
        inherited: Some(false),
        inherit: Some(group.inherit),
        inheritable: Some(group.inheritable),
        add: numbers(alloc, group.add.as_slice())?,
        remove: numbers(alloc, group.remove.as_slice())?,
        inherited_members: Items::new(alloc),
    })
}

fn account_told(whom: &Whom) -> Option<u32>
    ensures { result ≡ account_told whom.now }
{
    match whom {
        Whom::Account(account) => Some(account.0),
        Whom::Group(_) => None,
    }
}

fn group_name_told(whom: &Whom) -> Result<Option<Text>, OutOfMemory>
    ensures { IfOk result (λ name. name ≡ group_name_told whom.now) }
{
    match whom {
        Whom::Account(_) => Ok(None),
        Whom::Group(name) => Ok(Some(name.share()?)),
    }
}

fn line_told(entry: &AclEntry) -> Result<AclLine, OutOfMemory>
    ensures { IfOk result (λ told. told ≡ line_told entry.now) }
{
    Ok(AclLine {
        apply_here: Some(entry.here),
        apply_subs: Some(entry.subs),
        inherited: Some(false),
        user_id: account_told(&entry.whom),
        group: group_name_told(&entry.whom)?,
        grant: Some(entry.grant.0),
        deny: Some(entry.deny.0),
    })
}

fn groups_told(alloc: Global, groups: &[Group]) -> Result<Items<AclGroup>, OutOfMemory>
    ensures { IfOk result (λ told. told ≡ map group_told groups.now) }
{
    let mut told = Vec::with_capacity(alloc, groups.len())?;
    for group in groups {
        told.push(group_told(alloc, group)?)?;
    }
    Ok(Items::from_vec(told))
}

fn lines_told(alloc: Global, entries: &[AclEntry]) -> Result<Items<AclLine>, OutOfMemory>
    ensures { IfOk result (λ told. told ≡ map line_told entries.now) }
{
    let mut told = Vec::with_capacity(alloc, entries.len())?;
    for entry in entries {
        told.push(line_told(entry)?)?;
    }
    Ok(Items::from_vec(told))
}

/// The ACL message that reports the policy of channel `id`: its own groups and entries, none inherited.
pub fn acl_told(alloc: Global, id: ChannelId, policy: &ChannelPolicy) -> Result<Acl, OutOfMemory>
    ensures { IfOk result (λ told. told ≡ acl_told id policy.now) }
{
    Ok(Acl {
        channel_id: Some(id.0),
        inherit_acls: Some(policy.inherit_acls),
        groups: groups_told(alloc, policy.groups.as_slice())?,
        acls: lines_told(alloc, policy.acls.as_slice())?,
        query: None,
    })
}

// The frame that answers a query for a channel's policy.
pub(crate) fn answer_frame(
    alloc: Global,
    id: ChannelId,
    policy: &ChannelPolicy,
) -> Result<Frame, OutOfMemory>
    ensures { IfOk result (λ frame. frame ≡ answer_frame id policy.now) }
{
    let told = acl_told(alloc, id, policy)?;
    Ok(Frame {
        kind: ACL,
        payload: told.encode(alloc)?,
    })
}
