//! The walk from the root to a channel that finds where it ends, and the last entry that names a permission.

ghost use Rattle.std.specs.Prelude.{◌≡◌, ◌+◌, ◌<◌, ◌==◌, ◌&&◌, ◌||◌, [], None, Some, false, length, not, true, if◌then◌else◌};
ghost use Rattle.std.specs.Option.{option_map, option_map_or, option_or};
ghost use Rattle.mum_base.specs.declared.perm.TheConstants.Perm.{TRAVERSE, WRITE};
ghost use Rattle.mum_policy.specs.Laws.{names_permission};
ghost use Rattle.mum_policy.specs.Member.{actor_of};
ghost use Rattle.mum_policy.specs.Walk.{applies, is_account, marked, matches};
ghost use Rattle.mum_why.specs.Cut.{by_entry, closed_below, decides, last_along};
ghost use Rattle.mum_why.specs.Passed.{passed, progressed};

use crate::cut::Cut;
use mum_base::{AccountId, ChannelId, Perm, Steps};
use mum_policy::{AclEntry, Policies, Who, Whom, is_member};
use std::sync::ledger::Ledger;

// What the entries of one channel leave: whether Traverse and Write are granted so far, and the place of the last
// entry that decides the permission.
#[derive(Clone, Copy)]
pub(crate) struct Passed {
    traverse: bool,
    write: bool,
    last: Option<usize>,
}

// How far a walk has come: whether Traverse and Write are granted so far, and the last entry that decides the
// permission, by its channel and its place there.
#[derive(Clone, Copy)]
pub(crate) struct Progress {
    traverse: bool,
    write: bool,
    last: Option<(ChannelId, usize)>,
}

// Whether a session is of an account.
pub(crate) fn is_of(who: &Who<'_>, account: AccountId) -> bool
    ensures { result ≡ is_account who.now.account account }
{
    match who.account {
        Some(own) => own == account,
        None => false,
    }
}

// Whether an entry of the channel at this place of the path matches.
#[tactic(auto, unfolding(mum_policy::specs::Walk::matches))]
fn matches<P: Policies>(
    policies: &P,
    path: &[ChannelId],
    who: &Who<'_>,
    place: usize,
    entry: &AclEntry,
) -> bool
    requires { place < length path.now }
    ensures { result ≡ matches (P.policy_of policies.now) path.now (actor_of who.now) place entry.now }
{
    match &entry.whom {
        Whom::Account(account) => is_of(who, *account),
        Whom::Group(name) => is_member(policies, path, place, name.as_str(), who),
    }
}

// Whether an entry applies, and grants or denies the permission.
fn names(entry: &AclEntry, asked: bool, permission: Perm) -> bool
    ensures { result ≡ (applies asked entry.now && names_permission permission.0 entry.now) }
{
    let applies = if asked { entry.here } else { entry.subs };
    applies && (entry.grant.has(permission) || entry.deny.has(permission))
}

// The mark of a permission, which an entry sets where it grants it, and then clears where it denies it.
fn marked(mark: bool, entry: &AclEntry, permission: Perm) -> bool
    ensures { result ≡ marked mark entry.now permission.0 }
{
    (mark || entry.grant.has(permission)) && !entry.deny.has(permission)
}

impl Passed {
    // The same after one more entry, which matches and is at this place.
    fn pass(self, entry: &AclEntry, index: usize, asked: bool, permission: Perm) -> Passed
        ensures { result ≡ record {
          traverse = marked self.traverse entry.now TRAVERSE.0;
          write = marked self.write entry.now WRITE.0;
          last = (if applies asked entry.now && names_permission permission.0 entry.now
              then Some index else self.last);
        } }
    {
        Passed {
            traverse: marked(self.traverse, entry, Perm::TRAVERSE),
            write: marked(self.write, entry, Perm::WRITE),
            last: if names(entry, asked, permission) {
                Some(index)
            } else {
                self.last
            },
        }
    }
}

// A walk: along which path, for whom, and for which permission.
#[derive(Drop)]
struct Walk<'a, P> {
    policies: &'a P,
    path: &'a [ChannelId],
    who: &'a Who<'a>,
    permission: Perm,
}

// What these entries of the channel at this place leave. A step is an entry.
fn pass_entries<P: Policies, L: Ledger>(
    walk: &Walk<'_, P>,
    place: usize,
    entries: &[AclEntry],
    before: Progress,
    steps: &mut Steps<L>,
) -> Passed
    requires { place < length walk.now.path.now }
    ensures value { result ≡ passed (matches (P.policy_of walk.now.policies.now) walk.now.path.now (actor_of walk.now.who.now) place)
        (decides (P.policy_of walk.now.policies.now) walk.now.path.now (actor_of walk.now.who.now) walk.now.permission.0 place
        (place + 1 == length walk.now.path.now)) before.traverse before.write entries.now }
    ensures steps { steps.new ≡ steps.old + length entries.now }
{
    let asked = place + 1 == walk.path.len();
    let mut passed = Passed {
        traverse: before.traverse,
        write: before.write,
        last: None,
    };
    'entries: for (index, entry) in entries.iter().enumerate() {
        steps.tick();
        if matches(walk.policies, walk.path, walk.who, place, entry) {
            passed = passed.pass(entry, index, asked, walk.permission);
        }
    }
    passed
}

impl Progress {
    fn start() -> Progress
        ensures { result ≡ record { traverse = true; write = false; last = None } }
    {
        Progress {
            traverse: true,
            write: false,
            last: None,
        }
    }

    // Whether the walk goes on.
    fn goes_on(self) -> bool
        ensures { result ≡ (self.traverse || self.write) }
    {
        self.traverse || self.write
    }

    // The last entry that decides the permission, where a channel that inherits or not comes next.
    fn kept(self, inherit: bool) -> Option<(ChannelId, usize)>
        ensures { result ≡ (if not inherit then None else self.last) }
    {
        if inherit { self.last } else { None }
    }
}

// The last entry that decides the permission: that of a channel at this place, or the one before.
fn later(
    channel: ChannelId,
    index: Option<usize>,
    before: Option<(ChannelId, usize)>,
) -> Option<(ChannelId, usize)>
    ensures { result ≡ option_or (option_map (λ place. (channel, place)) index) before }
{
    match index {
        Some(index) => Some((channel, index)),
        None => before,
    }
}

// How far a walk has come after the channel at this place.
fn pass_channel<P: Policies, L: Ledger>(
    walk: &Walk<'_, P>,
    place: usize,
    channel: ChannelId,
    before: Progress,
    steps: &mut Steps<L>,
) -> Progress
    requires { place < length walk.now.path.now }
    ensures { result ≡ progressed (P.policy_of walk.now.policies.now) walk.now.path.now (actor_of walk.now.who.now)
        walk.now.permission.0 place (place + 1 == length walk.now.path.now) channel before }
{
    let Some(policy) = walk.policies.policy(channel) else {
        return before;
    };
    let entries = policy.acls.as_slice();
    let passed = pass_entries(walk, place, entries, before, steps);
    let kept = before.kept(policy.inherit_acls);
    Progress {
        traverse: passed.traverse,
        write: passed.write,
        last: later(channel, passed.last, kept),
    }
}

// What the last entry that decides the permission says of who lacks it.
fn by_entry(last: Option<(ChannelId, usize)>) -> Cut
    ensures { result ≡ by_entry last }
{
    match last {
        Some((channel, index)) => Cut::Denied(channel, index),
        None => Cut::NeverGiven,
    }
}

// What takes a permission away from who lacks it in the last channel of the path, is not SuperUser, and is not in
// want of a permission of the root elsewhere.
pub(crate) fn walk_for<P: Policies, L: Ledger>(
    policies: &P,
    path: &[ChannelId],
    who: &Who<'_>,
    permission: Perm,
    steps: &mut Steps<L>,
) -> Cut
    ensures { result ≡ option_map_or Cut.Closed
        (closed_below (P.policy_of policies.now) path.now (actor_of who.now) [] path.now)
        (by_entry (last_along (P.policy_of policies.now) path.now (actor_of who.now) permission.0 0 path.now)) }
{
    let walk = Walk {
        policies,
        path,
        who,
        permission,
    };
    let mut progress = Progress::start();
    'channels: for (place, channel) in path.iter().enumerate() {
        progress = pass_channel(&walk, place, *channel, progress, steps);
        if !progress.goes_on() {
            return Cut::Closed(*channel);
        }
    }
    by_entry(progress.last)
}
