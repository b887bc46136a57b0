//! The walk over the access control lists from the root to a channel.

ghost use Rattle.std.specs.Prelude.{◌≡◌, ◌+◌, ◌<◌, ◌==◌, All, IsSome, length, map};
ghost use Rattle.std.specs.Option.{option_copied};
ghost use Rattle.mum_policy.specs.Member.{IsFound, actor_of};
ghost use Rattle.mum_policy.specs.Walk.{BeginsAtRoot, after_match, after_policy, entering, finished, full_set, goes_on, holds, is_account, marked, matches, on_root, perm, visits, walk_start};

use crate::found::{found_on, policy_at};
use crate::group::member_of;
use crate::policy::{AclEntry, ChannelPolicy, Policies, Who, Whom};
use mum_base::{AccountId, ChannelId, Perm, Steps};
use std::marker::Brand;
use std::sync::ledger::{Blank, Ledger};

// How far a walk has come.
#[derive(Clone, Copy)]
pub(crate) struct Walk {
    pub(crate) set: Perm,
    /// Whether the session may pass the channels so far.
    pub(crate) traverse: bool,
    /// Whether Write was granted on the way, with which it may pass too.
    pub(crate) write: bool,
}

impl Walk {
    fn start() -> Walk
        ensures { result ≡ walk_start }
    {
        Walk {
            set: Perm::START,
            traverse: true,
            write: false,
        }
    }

    fn goes_on(self) -> bool
        ensures { result ≡ goes_on self }
    {
        self.traverse || self.write
    }

    // The walk on entering a channel that inherits, or not.
    fn enter(self, inherit: bool) -> Walk
        ensures { result ≡ entering inherit self }
    {
        if inherit {
            self
        } else {
            Walk {
                set: Perm::START,
                ..self
            }
        }
    }

    // The walk after an entry that matches, of the asked channel or of one above.
    #[tactic(auto, unfolding(crate::specs::Walk::after_match))]
    fn pass(self, entry: &AclEntry, asked: bool) -> Walk
        ensures { result ≡ after_match asked entry.now self }
    {
        let applies = if asked { entry.here } else { entry.subs };
        Walk {
            set: if applies {
                self.set.with(entry.grant).without(entry.deny)
            } else {
                self.set
            },
            traverse: marked(self.traverse, entry, Perm::TRAVERSE),
            write: marked(self.write, entry, Perm::WRITE),
        }
    }
}

fn is_held(set: Perm, bits: Perm) -> bool
    ensures { result ≡ holds set.0 bits.0 }
{
    set.has(bits)
}

// The mark of a permission, which an entry sets where it grants it, and then clears where it denies it.
fn marked(mark: bool, entry: &AclEntry, bit: Perm) -> bool
    ensures { result ≡ marked mark entry.now bit.0 }
{
    (mark || is_held(entry.grant, bit)) && !is_held(entry.deny, bit)
}

fn is_of(who: &Who, account: AccountId) -> bool
    ensures { result ≡ is_account who.now.account account }
{
    match who.account {
        Some(own) => own == account,
        None => false,
    }
}

// Whether an entry of the channel at this place of the path matches.
#[tactic(auto, unfolding(crate::specs::Walk::matches))]
fn speaks_of<'a, P: Policies>(
    policies: &'a P,
    found: &[Option<&'a ChannelPolicy>],
    path: &[ChannelId],
    who: &Who,
    place: usize,
    entry: &AclEntry,
) -> bool
    requires within { place < length path.now }
    requires found { IsFound (P.policy_of policies.now) path.now (map option_copied found.now) }
    ensures { result ≡ matches (P.policy_of policies.now) path.now (actor_of who.now) place entry.now }
{
    match &entry.whom {
        Whom::Account(account) => is_of(who, *account),
        Whom::Group(name) => member_of(policies, found, path, place, name.as_str(), who),
    }
}

// The walk after the channel at this place of the path, which has this policy. A step is an entry. That an entry is
// matched once a step is not proved; `bench/run` measures a decision beside one walk.
fn pass_channel<'a, P: Policies, L: Ledger>(
    policies: &'a P,
    found: &[Option<&'a ChannelPolicy>],
    path: &[ChannelId],
    who: &Who,
    place: usize,
    policy: &ChannelPolicy,
    walk: Walk,
    steps: &mut Steps<L>,
) -> Walk
    requires within { place < length path.now }
    requires found { IsFound (P.policy_of policies.now) path.now (map option_copied found.now) }
    ensures walk { result
        ≡ after_policy (P.policy_of policies.now) path.now (actor_of who.now) place
        (place + 1 == length path.now) policy.now walk }
    ensures steps { steps.new ≡ steps.old + length policy.now.acls }
{
    let asked = place + 1 == path.len();
    let mut walk = walk.enter(policy.inherit_acls);
    let entries = policy.acls.as_slice();
    'entries: for entry in entries {
        steps.tick();
        if speaks_of(policies, found, path, who, place, entry) {
            walk = walk.pass(entry, asked);
        }
    }
    walk
}

fn full_permissions(on_root: bool) -> Perm
    ensures { result.0 ≡ full_set on_root }
{
    if on_root {
        Perm::BY_WRITE.with(Perm::ROOT_ONLY)
    } else {
        Perm::BY_WRITE
    }
}

// What the session may do, by the set at the end of a walk.
fn finish(on_root: bool, set: Perm) -> Perm
    ensures { result.0 ≡ finished on_root set.0 }
{
    let held = if is_held(set, Perm::WRITE) {
        set.with(full_permissions(on_root))
    } else {
        set
    };
    if on_root {
        held
    } else {
        held.without(Perm::ROOT_ONLY)
    }
}

fn ends_at_root(path: &[ChannelId]) -> bool
    requires { 0 < length path.now }
    ensures { result ≡ on_root path.now }
{
    let asked = path[path.len() - 1];
    asked == ChannelId::ROOT
}

/// What the session may do in the last channel of the path, which leads there from the root. A step
/// is counted for each entry that is read. `who.home` is to be the path from the root to `who.channel`,
/// as in `is_member`.
pub fn permissions<P: Policies, L: Ledger>(
    policies: &P,
    path: &[ChannelId],
    who: &Who,
    steps: &mut Steps<L>,
) -> Perm
    requires root { BeginsAtRoot path.now }
    requires there { All (λ channel. IsSome (P.policy_of policies.now channel)) path.now }
    ensures value { result.0 ≡ perm (P.policy_of policies.now) path.now (actor_of who.now) }
    ensures steps { steps.new ≡ steps.old + visits (P.policy_of policies.now) path.now (actor_of who.now) }
{
    let on_root = ends_at_root(path);
    if is_of(who, AccountId::SUPER_USER) {
        return full_permissions(on_root);
    }
    let found = found_on(policies, path);
    let mut walk = Walk::start();
    'channels: for (place, channel) in path.iter().enumerate() {
        let policy = policy_at(policies, &found, place, *channel).unwrap();
        walk = pass_channel(policies, &found, path, who, place, policy, walk, steps);
        if !walk.goes_on() {
            return Perm::NONE;
        }
    }
    finish(on_root, walk.set)
}

// The same over a counter of its own.
fn counted<P: Policies, L: Ledger>(
    blank: Blank,
    policies: &P,
    path: &[ChannelId],
    who: &Who,
) -> Perm
    requires root { BeginsAtRoot path.now }
    requires there { All (λ channel. IsSome (P.policy_of policies.now channel)) path.now }
    requires name { blank.name ≡ L.name }
    requires parts { blank.parts ≡ L.parts }
    requires some { 0 < blank.parts }
    ensures { result.0 ≡ perm (P.policy_of policies.now) path.now (actor_of who.now) }
{
    let mut steps = Steps::<L>::new(blank);
    permissions(policies, path, who, &mut steps)
}

/// The same without a count of steps.
pub fn permitted<P: Policies>(policies: &P, path: &[ChannelId], who: &Who) -> Perm
    requires root { BeginsAtRoot path.now }
    requires there { All (λ channel. IsSome (P.policy_of policies.now channel)) path.now }
    ensures { result.0 ≡ perm (P.policy_of policies.now) path.now (actor_of who.now) }
{
    counted::<P, Brand>(Blank::new(1), policies, path, who)
}
