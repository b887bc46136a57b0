//! The policy that a payload holds.

ghost use Rattle.std.specs.Prelude.{◌≡◌, IfOk};
ghost use Rattle.std.specs.List.{list_all};
ghost use Rattle.mum_policy.specs.Walk.{holds};
ghost use Rattle.mum_state.specs.Proper.{is_name, is_sound_entry, is_sound_policy};
ghost use Rattle.mum_state.specs.State.{open_policy};
ghost use Rattle.mum_rules_tree.specs.Policy.{policy_asked};
ghost use Rattle.mum_kept.specs.Policy.{are_known_bits, has_known_bits, holds_policy, is_about, is_answer_of, message_in, policy_in};

use mum_base::{ChannelId, Items, OutOfMemory, Perm, check_name};
use mum_fields::MessageFault;
use mum_msg_rule::{Acl, AclLine, Message};
use mum_policy::{AclEntry, ChannelPolicy, Group};
use mum_rules_tree::policy_asked;
use std::alloc::{AllocError, Global};
use std::mem::drop;

fn are_named(groups: &[Group]) -> bool
    ensures { result ≡ list_all (λ group. is_name group.name) groups.now }
{
    groups
        .iter()
        .all(|group| check_name(group.name.as_str()).is_ok())
}

fn holds(set: u32, bits: u32) -> bool
    ensures { result ≡ holds set bits }
{
    set & bits == bits
}

fn is_sound_entry(entry: &AclEntry) -> bool
    ensures { result ≡ is_sound_entry entry.now }
{
    holds(Perm::ALL.0, entry.grant.0) && holds(Perm::ALL.0, entry.deny.0)
}

fn are_sound_entries(entries: &[AclEntry]) -> bool
    ensures { result ≡ list_all is_sound_entry entries.now }
{
    entries.iter().all(|entry| is_sound_entry(entry))
}

// Within the limits, with good names of groups, and only permissions that exist.
fn is_sound_policy(policy: &ChannelPolicy) -> bool
    ensures { result ≡ is_sound_policy policy.now }
{
    !policy.is_large()
        && are_named(policy.groups.as_slice())
        && are_sound_entries(policy.acls.as_slice())
}

fn are_known_bits(bits: Option<u32>) -> bool
    ensures { result ≡ are_known_bits bits }
{
    holds(Perm::ALL.0, bits.unwrap_or(0))
}

fn has_known_bits(line: &AclLine) -> bool
    ensures { result ≡ has_known_bits line.now }
{
    are_known_bits(line.grant) && are_known_bits(line.deny)
}

fn have_known_bits(lines: &[AclLine]) -> bool
    ensures { result ≡ list_all has_known_bits lines.now }
{
    lines.iter().all(|line| has_known_bits(line))
}

fn is_about(id: ChannelId, message: &Acl) -> bool
    ensures { result ≡ is_about id message.now }
{
    match message.channel_id {
        Some(number) => number == id.0,
        None => false,
    }
}

// Whether the message answers a query for the policy of the channel.
fn is_answer_of(alloc: Global, id: ChannelId, message: &Acl) -> Result<bool, OutOfMemory>
    ensures { IfOk result (λ answers. answers ≡ is_answer_of id message.now) }
{
    if !is_about(id, message)
        || message.query.unwrap_or(false)
        || !have_known_bits(message.acls.as_slice())
    {
        return Ok(false);
    }
    let policy = policy_asked(alloc, message)?;
    let sound = is_sound_policy(&policy);
    drop(policy);
    Ok(sound)
}

// The message that a payload is, if it is one.
fn message_in(alloc: Global, payload: &[u8]) -> Result<Option<Acl>, OutOfMemory>
    ensures { IfOk result (λ found. found ≡ message_in payload.now) }
{
    match Acl::decode(alloc, payload) {
        Ok(message) => Ok(Some(message)),
        Err(MessageFault::Field(_)) => Ok(None),
        Err(MessageFault::MissingField { .. }) => Ok(None),
        Err(MessageFault::OutOfMemory) => Err(AllocError),
    }
}

// Whether the payload holds a policy that this channel may have.
pub(crate) fn holds_policy(
    alloc: Global,
    id: ChannelId,
    payload: &[u8],
) -> Result<bool, OutOfMemory>
    ensures { IfOk result (λ holds. holds ≡ holds_policy id payload.now) }
{
    let Some(message) = message_in(alloc, payload)? else {
        return Ok(false);
    };
    let answers = is_answer_of(alloc, id, &message);
    drop(message);
    answers
}

fn open_policy(alloc: Global) -> ChannelPolicy
    ensures { result ≡ open_policy }
{
    ChannelPolicy {
        inherit_acls: true,
        groups: Items::new(alloc),
        acls: Items::new(alloc),
    }
}

// The policy that the payload holds; an open one where it is no message.
pub(crate) fn policy_in(alloc: Global, payload: &[u8]) -> Result<ChannelPolicy, OutOfMemory>
    ensures { IfOk result (λ policy. policy ≡ policy_in payload.now) }
{
    let Some(message) = message_in(alloc, payload)? else {
        return Ok(open_policy(alloc));
    };
    let policy = policy_asked(alloc, &message);
    drop(message);
    policy
}
