//! Which sessions are in a group.

ghost use Rattle.std.specs.Prelude.{◌≡◌, ◌<◌, None, codes, length, map, reverse, slice_index_or, true, false, if◌then◌else◌};
ghost use Rattle.std.specs.Option.{option_copied};
ghost use Rattle.std.specs.Str.{bytes_eq, str_eq_ignore_ascii_case};
ghost use Rattle.mum_policy.specs.Name.{asks_of};
ghost use Rattle.mum_policy.specs.Member.{IsFound, actor_of, definition, definitions, has_token, is_in, is_listed, lists, meets, member, upwards};

use crate::found::policy_at;
use crate::name::{Asked, understand};
use crate::policy::{ChannelPolicy, Group, Policies, Who};
use crate::subtree::is_in_subtree;
use mum_base::{AccountId, ChannelId, Text};

fn is_token(token: &Text, word: &[u8]) -> bool
    ensures { result ≡ str_eq_ignore_ascii_case token.now word.now }
{
    token.as_slice().eq_ignore_ascii_case(word)
}

// Whether one of the tokens is the word, ASCII case ignored.
#[tactic(auto, unfolding(crate::specs::Member::has_token))]
fn one_is(tokens: &[Text], word: &[u8]) -> bool
    ensures { result ≡ has_token tokens.now word.now }
{
    tokens.iter().any(|token| is_token(token, word))
}

// The first group of this name.
#[tactic(auto, unfolding(crate::specs::Member::definition))]
fn named<'a>(policy: &'a ChannelPolicy, name: &[u8]) -> Option<&'a Group>
    ensures { option_copied result ≡ definition (Some policy.now) name.now }
{
    policy
        .groups
        .as_slice()
        .iter()
        .find(|group| group.name.as_slice() == name)
}

// Whether the definition removes the account (false), else adds it (true), else does not name it.
fn decides(group: &Group, account: AccountId) -> Option<bool>
    ensures { result ≡ (if lists group.now.remove account then Some false
        else if lists group.now.add account then Some true else None) }
{
    if group.remove.as_slice().contains(&account) {
        Some(false)
    } else if group.add.as_slice().contains(&account) {
        Some(true)
    } else {
        None
    }
}

// The definition of a name by the channel at a place.
#[tactic(auto, unfolding(crate::specs::Member::definition))]
fn definition_of<'a, P: Policies>(
    policies: &'a P,
    found: &[Option<&'a ChannelPolicy>],
    place: usize,
    channel: ChannelId,
    name: &[u8],
) -> Option<&'a Group>
    requires { place < length found.now
        → option_copied (slice_index_or found.now place None) ≡ P.policy_of policies.now channel }
    ensures { option_copied result ≡ definition (P.policy_of policies.now channel) name.now }
{
    match policy_at(policies, found, place, channel) {
        Some(policy) => named(policy, name),
        None => None,
    }
}

// Whether the account is in the group that the channels of the path define, the last of them chosen.
// The nearest definition that names the account decides.
fn is_in_defined<'a, P: Policies>(
    policies: &'a P,
    found: &[Option<&'a ChannelPolicy>],
    path: &[ChannelId],
    name: &[u8],
    account: AccountId,
) -> bool
    requires { IsFound (P.policy_of policies.now) path.now (map option_copied found.now) }
    ensures { result ≡ is_listed
        (definitions name.now (map (P.policy_of policies.now) (reverse path.now))) (Some account) }
{
    let mut above = false;
    let mut up = path;
    'upwards: while let Some((channel, rest)) = up.split_last() {
        if let Some(group) = definition_of(policies, found, rest.len(), *channel, name) {
            if above && !group.inheritable {
                return false;
            }
            if let Some(decided) = decides(group, account) {
                return decided;
            }
            if !group.inherit {
                return false;
            }
        }
        above = true;
        up = rest;
    }
    false
}

/// Whether the session is in the group of this name, evaluated for the channel that ends the path and
/// an entry of the channel at `acl_at` of it. The name may have the prefixes `!`, `~`, `#` and `$`. The
/// answer means what the manual says where `who.home` is the path from the root to `who.channel`; it is
/// taken as it is given.
pub fn is_member<P: Policies>(
    policies: &P,
    path: &[ChannelId],
    acl_at: usize,
    name: &str,
    who: &Who,
) -> bool
    requires { acl_at < length path.now }
    ensures { result ≡ member (P.policy_of policies.now) path.now acl_at name.now (actor_of who.now) }
{
    member_of(policies, &[], path, acl_at, name, who)
}

// Whether a name is `all` without a prefix, which is what most entries name.
fn is_everybody(name: &[u8]) -> bool
    ensures { result ≡ bytes_eq name.now (codes "all") }
{
    name == b"all".as_slice()
}

// The same, where these are the policies of the first channels of the path. A name that is `all` is not read
// further.
#[tactic(auto, unfolding(crate::specs::Member::member))]
pub(crate) fn member_of<'a, P: Policies>(
    policies: &'a P,
    found: &[Option<&'a ChannelPolicy>],
    path: &[ChannelId],
    acl_at: usize,
    name: &str,
    who: &Who,
) -> bool
    requires within { acl_at < length path.now }
    requires found { IsFound (P.policy_of policies.now) path.now (map option_copied found.now) }
    ensures { result ≡ member (P.policy_of policies.now) path.now acl_at name.now (actor_of who.now) }
{
    let name = name.as_bytes();
    if is_everybody(name) {
        return true;
    }
    let name = understand(name);
    name.negated != meets_asked(policies, found, path, acl_at, name.at_acl, who, name.asked)
}

// Whether the session is in the channel at a place of the path.
fn is_in(path: &[ChannelId], place: usize, who: &Who) -> bool
    requires { place < length path.now }
    ensures { result ≡ is_in (actor_of who.now) (upwards path.now place) }
{
    let chosen = path[place];
    chosen == who.channel
}

// Whether the session meets what is asked. The channel of the ACL is chosen, or the last of the path.
#[tactic(auto, unfolding(crate::specs::Member::meets, crate::specs::Member::is_listed))]
fn meets_asked<'a, P: Policies>(
    policies: &'a P,
    found: &[Option<&'a ChannelPolicy>],
    path: &[ChannelId],
    acl_at: usize,
    at_acl: bool,
    who: &Who,
    asked: Asked,
) -> bool
    requires within { acl_at < length path.now }
    requires found { IsFound (P.policy_of policies.now) path.now (map option_copied found.now) }
    ensures { result ≡ meets (P.policy_of policies.now)
        (record { path = path.now; acl_at = acl_at }) at_acl (actor_of who.now) (asks_of asked.entry) }
{
    let chosen = if at_acl { acl_at } else { path.len() - 1 };
    match asked {
        Asked::Nobody => false,
        Asked::Everybody => true,
        Asked::Registered => who.account.is_some(),
        Asked::Inside => is_in(path, chosen, who),
        Asked::Outside => !is_in(path, chosen, who),
        Asked::Token(word) => one_is(who.tokens, word),
        Asked::Subtree(list) => is_in_subtree(path, acl_at, list, who.home),
        Asked::Defined(name) => match who.account {
            Some(account) => is_in_defined(policies, found, &path[..=chosen], name, account),
            None => false,
        },
    }
}
