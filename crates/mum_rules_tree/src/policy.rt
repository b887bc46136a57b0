//! The policy that an ACL message sets.

ghost use Rattle.std.specs.Prelude.{◌≡◌, IfOk, filter, map, not};
ghost use Rattle.std.specs.List.{list_all, list_any};
ghost use Rattle.std.specs.Str.{bytes_eq};
ghost use Rattle.mum_state.specs.Proper.{is_name};
ghost use Rattle.mum_rules_tree.specs.Decision.{first_standing};
ghost use Rattle.mum_rules_tree.specs.Limits.{limits_of_policy};
ghost use Rattle.mum_rules_tree.specs.Policy.{account, accounts, entry_asked, group_asked, has_twice, is_inherited, permissions_among, policy_asked, true_unless_said, whom_asked};

use mum_base::{AccountId, DenyType, Items, OutOfMemory, Perm, Text, check_name};
use mum_msg_rule::{Acl, AclGroup, AclLine};
use mum_policy::{AclEntry, ChannelPolicy, Group, Whom};
use std::alloc::Global;

fn is_inherited(said: Option<bool>) -> bool
    ensures { result ≡ is_inherited said }
{
    said.unwrap_or(false)
}

fn true_unless_said(said: Option<bool>) -> bool
    ensures { result ≡ true_unless_said said }
{
    said.unwrap_or(true)
}

fn account_numbered(number: u32) -> AccountId
    ensures { result ≡ account number }
{
    AccountId(number)
}

fn accounts(alloc: Global, numbers: &[u32]) -> Result<Items<AccountId>, OutOfMemory>
    ensures { IfOk result (λ listed. listed ≡ accounts numbers.now) }
{
    let mut listed = Vec::with_capacity(alloc, numbers.len())?;
    for number in numbers {
        listed.push(account_numbered(*number))?;
    }
    Ok(Items::from_vec(listed))
}

fn group_asked(alloc: Global, group: &AclGroup) -> Result<Group, OutOfMemory>
    ensures { IfOk result (λ asked. asked ≡ group_asked group.now) }
{
    Ok(Group {
        name: Text::share_or_empty(alloc, &group.name)?,
        inherit: true_unless_said(group.inherit),
        inheritable: true_unless_said(group.inheritable),
        add: accounts(alloc, group.add.as_slice())?,
        remove: accounts(alloc, group.remove.as_slice())?,
    })
}

fn whom_asked(alloc: Global, line: &AclLine) -> Result<Whom, OutOfMemory>
    ensures { IfOk result (λ whom. whom ≡ whom_asked line.now) }
{
    match line.user_id {
        Some(number) => Ok(Whom::Account(account_numbered(number))),
        None => Ok(Whom::Group(Text::share_or_empty(alloc, &line.group)?)),
    }
}

fn permissions_among(bits: Option<u32>) -> Perm
    ensures { result ≡ permissions_among bits }
{
    Perm(bits.unwrap_or(0) & Perm::ALL.0)
}

fn entry_asked(alloc: Global, line: &AclLine) -> Result<AclEntry, OutOfMemory>
    ensures { IfOk result (λ asked. asked ≡ entry_asked line.now) }
{
    Ok(AclEntry {
        whom: whom_asked(alloc, line)?,
        here: true_unless_said(line.apply_here),
        subs: true_unless_said(line.apply_subs),
        grant: permissions_among(line.grant),
        deny: permissions_among(line.deny),
    })
}

// The groups that are the channel's own.
fn own_groups(alloc: Global, groups: &[AclGroup]) -> Result<Items<Group>, OutOfMemory>
    ensures { IfOk result (λ own. own
        ≡ map group_asked (filter (λ group. not (is_inherited group.inherited)) groups.now)) }
{
    let mut own = Vec::new(alloc);
    for group in groups {
        if !is_inherited(group.inherited) {
            own.push(group_asked(alloc, group)?)?;
        }
    }
    Ok(Items::from_vec(own))
}

// The entries that are the channel's own.
fn own_entries(alloc: Global, lines: &[AclLine]) -> Result<Items<AclEntry>, OutOfMemory>
    ensures { IfOk result (λ own. own
        ≡ map entry_asked (filter (λ line. not (is_inherited line.inherited)) lines.now)) }
{
    let mut own = Vec::new(alloc);
    for line in lines {
        if !is_inherited(line.inherited) {
            own.push(entry_asked(alloc, line)?)?;
        }
    }
    Ok(Items::from_vec(own))
}

/// The policy that an ACL message sets: its groups and entries that are not inherited, with no bits but
/// those of permissions. Its limits are not tested here.
pub fn policy_asked(alloc: Global, message: &Acl) -> Result<ChannelPolicy, OutOfMemory>
    ensures { IfOk result (λ policy. policy ≡ policy_asked message.now) }
{
    Ok(ChannelPolicy {
        inherit_acls: true_unless_said(message.inherit_acls),
        groups: own_groups(alloc, message.groups.as_slice())?,
        acls: own_entries(alloc, message.acls.as_slice())?,
    })
}

fn are_named(groups: &[Group]) -> bool
    ensures { result ≡ list_all (λ group. is_name group.name) groups.now }
{
    groups
        .iter()
        .all(|group| check_name(group.name.as_str()).is_ok())
}

// Whether one of these groups has this name.
fn is_among(name: &str, groups: &[Group]) -> bool
    ensures { result ≡ list_any (bytes_eq name.now) (map (λ group. group.name) groups.now) }
{
    for group in groups {
        if name == group.name.as_str() {
            return true;
        }
    }
    false
}

// Whether two of these groups have one name.
fn has_twice(groups: &[Group]) -> bool
    ensures { result ≡ has_twice (map (λ group. group.name) groups.now) }
{
    for at in 0..groups.len() {
        if is_among(groups[at].name.as_str(), &groups[at + 1..]) {
            return true;
        }
    }
    false
}

// The first limit that forbids a policy. All have one type.
pub(crate) fn limit_of_policy(policy: &ChannelPolicy) -> Option<DenyType>
    ensures { result ≡ first_standing (limits_of_policy policy.now) }
{
    let groups = policy.groups.as_slice();
    if policy.is_large() || !are_named(groups) || has_twice(groups) {
        return Some(DenyType::Text);
    }
    None
}
