//! The channels with their policies.

ghost use Rattle.std.specs.Prelude.{◌≡◌, ◌+◌, ◌<◌, ◌≤◌, ◌&&◌, ℕ, None, IfOk, IsTrue, OnErr, OnOk, false, true, length, not, slice_index_or, slice_set, if◌then◌else◌};
ghost use Rattle.std.specs.List.{All};
ghost use Rattle.std.specs.Option.{option_map};
ghost use Rattle.mum_policy.specs.Member.{actor_of};
ghost use Rattle.mum_tree.specs.Change.{change_of, fault_of_edit, with_change};
ghost use Rattle.mum_tree.specs.Places.{has_place};
ghost use Rattle.mum_tree.specs.Proper.{IsProper};
ghost use Rattle.mum_tree.specs.Refusals.{fault_of_add, fault_of_remove, fault_of_set_info};
ghost use Rattle.mum_tree.specs.Rows.{is_there};
ghost use Rattle.mum_tree.specs.State.{with_info, with_new, without_subtree};
ghost use Rattle.mum_tree.specs.declared.channel.Row.{Row};
ghost use Rattle.mum_state.specs.Channels.{granted_where_in, root_channel, speaks_where_in, visits_in, with_channel_made, without_channel};
ghost use Rattle.mum_state.specs.Set.{with_policy};
ghost use Rattle.mum_state.specs.State.{open_policy};
ghost use Rattle.mum_state.specs.Stored.{is_left};

use crate::who::who_is;
use mum_base::{ChannelId, Items, OutOfMemory, PLACES, Perm, Steps};
use mum_policy::{ChannelPolicy, Policies, Who, permissions, permitted};
use mum_tree::{CHANNEL_LIMIT, ChannelChange, ChannelInfo, Tree};
use mum_users::User;
use std::alloc::{AllocError, Global};
use std::marker::Model;
use std::sync::ledger::Ledger;

// The channels, each with a policy. Contracts see the tree, and the policies in order of the
// channels' numbers.
#[derive(Drop)]
pub(crate) struct Channels {
    alloc: Global,
    tree: Tree,
    /// By the places that channels keep, one for each below the limit. At a place that no channel has lies the
    /// open policy.
    policies: Vec<ChannelPolicy>,
}

impl Model for Channels {
    ghost use Rattle.std.specs.Prelude.{◌≡◌, ℕ, false, length, slice_index_or};
    ghost use Rattle.mum_tree.specs.Places.{has_place};
    ghost use Rattle.mum_tree.specs.Proper.{IsProper};
    ghost use Rattle.mum_state.specs.Channels.{ChannelsState};
    ghost use Rattle.mum_state.specs.State.{open_policy};
    ghost use Rattle.mum_state.specs.Stored.{policies_by_place};

    ghost Value = { ChannelsState };

    ghost view = { λ c. record {
      tree = c.tree;
      policies = policies_by_place c.policies.items c.tree.channels;
    } };

    ghost invariant = { λ c. record {
      proper : IsProper c.tree;
      whole : length c.policies.items ≡ c.tree.limit;
      free : (place : ℕ) → has_place c.tree.channels place ≡ false
          → slice_index_or c.policies.items place open_policy ≡ open_policy;
    } };
}

// The policy of a new channel: it inherits, and adds nothing.
fn open_policy(alloc: Global) -> ChannelPolicy
    ensures { result ≡ open_policy }
{
    ChannelPolicy {
        inherit_acls: true,
        groups: Items::new(alloc),
        acls: Items::new(alloc),
    }
}

// As many open policies.
fn open_policies(alloc: Global, count: usize) -> Result<Vec<ChannelPolicy>, OutOfMemory>
    ensures whole { IfOk result (λ policies. length policies.items ≡ count) }
    ensures opened { IfOk result (λ policies. (place : ℕ) →
        slice_index_or policies.items place open_policy ≡ open_policy) }
{
    let mut policies = Vec::with_capacity(alloc, count)?;
    for _place in 0..count {
        policies.push(open_policy(alloc))?;
    }
    Ok(policies)
}

// Equal policies in the same order.
fn copy_of_policies(
    alloc: Global,
    policies: &[ChannelPolicy],
) -> Result<Vec<ChannelPolicy>, OutOfMemory>
    ensures { IfOk result (λ copy. copy.items ≡ policies.now) }
{
    let mut copies = Vec::with_capacity(alloc, policies.len())?;
    for policy in policies {
        copies.push(policy.copy(alloc)?)?;
    }
    Ok(copies)
}

// The places that channels have.
fn taken_places(tree: &Tree) -> [bool; PLACES]
    ensures { (place : ℕ) → slice_index_or result place false ≡ has_place tree.now.channels place }
{
    let mut taken = [false; PLACES];
    tree.taken_places(&mut taken);
    taken
}

// Whether a channel had the place before, and none has it after.
fn is_left(before: &[bool], after: &[bool], place: usize) -> bool
    requires before { place < length before.now }
    requires after { place < length after.now }
    ensures { result
        ≡ (slice_index_or before.now place false && not (slice_index_or after.now place false)) }
{
    before[place] && !after[place]
}

// The open policy lies at the place, if its channel is gone.
fn open_where(policies: &mut Vec<ChannelPolicy>, place: usize, is_left: bool, alloc: Global)
    requires { place < length policies.old.items }
    ensures { policies.new.items
        ≡ (if is_left then slice_set policies.old.items place open_policy else policies.old.items) }
{
    if is_left {
        policies[place] = open_policy(alloc);
    }
}

// The open policy lies at each place that a channel had before and none has now. No other place is written.
fn open_left_places(before: &[bool], tree: &Tree, policies: &mut Vec<ChannelPolicy>, alloc: Global)
    requires places { length before.now ≡ PLACES }
    requires few { length policies.old.items ≤ PLACES }
    ensures whole { length policies.new.items ≡ length policies.old.items }
    ensures opened { (place : ℕ) → is_left before.now tree.now.channels place ≡ true →
        slice_index_or policies.new.items place open_policy ≡ open_policy }
    ensures kept { (place : ℕ) → is_left before.now tree.now.channels place ≡ false →
        slice_index_or policies.new.items place open_policy
        ≡ slice_index_or policies.old.items place open_policy }
{
    let after = taken_places(tree);
    for place in 0..policies.len() {
        let left = is_left(before, &after, place);
        open_where(policies, place, left, alloc);
    }
}

// Adds a channel that no cause refuses.
fn grow(
    tree: &mut Tree,
    id: ChannelId,
    parent: ChannelId,
    name: &str,
    temporary: bool,
) -> Result<(), OutOfMemory>
    requires above { tree.old.greatest < id.0 }
    requires allowed { fault_of_add tree.old id parent name.now ≡ None }
    ensures ok { OnOk result (tree.new ≡ with_new tree.old id parent name.now temporary) }
    ensures err { OnErr result (tree.new ≡ tree.old) }
    ensures proper { IsProper tree.new }
{
    match tree.add(id, parent, name, temporary) {
        Ok(()) => Ok(()),
        Err(_) => Err(AllocError),
    }
}

// Gives a channel that is there another info.
fn describe(tree: &mut Tree, id: ChannelId, info: ChannelInfo)
    requires { fault_of_set_info tree.old id ≡ None }
    ensures info { tree.new ≡ with_info tree.old id info }
    ensures proper { IsProper tree.new }
{
    match tree.set_info(id, info) {
        Ok(()) => {}
        Err(_) => unreachable!(),
    }
}

// Makes a change of a channel that no cause refuses.
fn edit_tree(tree: &mut Tree, id: ChannelId, change: &ChannelChange<'_>) -> Result<(), OutOfMemory>
    requires { fault_of_edit tree.old id (change_of change.now) ≡ None }
    ensures ok { OnOk result (tree.new ≡ with_change tree.old id (change_of change.now)) }
    ensures err { OnErr result (tree.new ≡ tree.old) }
    ensures proper { IsProper tree.new }
{
    match tree.edit(id, change) {
        Ok(()) => Ok(()),
        Err(_) => Err(AllocError),
    }
}

// Removes a channel and all below it, which no cause refuses.
fn shrink(tree: &mut Tree, id: ChannelId)
    requires { fault_of_remove tree.old id ≡ None }
    ensures removed { tree.new ≡ without_subtree tree.old id }
    ensures proper { IsProper tree.new }
{
    match tree.remove_subtree(id) {
        Ok(()) => {}
        Err(_) => unreachable!(),
    }
}

impl Channels {
    // The root alone, with a policy that is open.
    pub(crate) fn new(alloc: Global) -> Result<Channels, OutOfMemory>
        ensures root { IfOk result (λ channels. channels ≡ root_channel) }
        ensures proper { IfOk result (λ channels. IsProper channels.tree) }
    {
        Ok(Channels {
            alloc,
            policies: open_policies(alloc, CHANNEL_LIMIT)?,
            tree: Tree::new(alloc)?,
        })
    }

    // Equal channels, with their places.
    pub(crate) fn copy(&self, alloc: Global) -> Result<Channels, OutOfMemory>
        ensures { IfOk result (λ copy. copy ≡ self.now) }
    {
        Ok(Channels {
            alloc,
            policies: copy_of_policies(alloc, self.policies.as_slice())?,
            tree: self.tree.copy(alloc)?,
        })
    }

    // The channels and their links.
    pub(crate) fn tree(&self) -> &Tree
        ensures tree { result.now ≡ self.now.tree }
        ensures proper { IsProper self.now.tree }
    {
        &self.tree
    }

    // What the actor may do in a channel; `None` where there is no such channel.
    pub(crate) fn granted_to(&self, who: &Who<'_>, channel: ChannelId) -> Option<Perm>
        ensures { option_map (λ perm. perm.0) result
            ≡ granted_where_in self.now (actor_of who.now) channel }
    {
        match self.tree.path(channel) {
            Some(path) => Some(permitted(self, path.as_slice(), who)),
            None => None,
        }
    }

    // The same, with a step counted for each entry that is read.
    pub(crate) fn counted_to<L: Ledger>(
        &self,
        who: &Who<'_>,
        channel: ChannelId,
        steps: &mut Steps<L>,
    ) -> Option<Perm>
        ensures value { option_map (λ perm. perm.0) result
            ≡ granted_where_in self.now (actor_of who.now) channel }
        ensures steps { steps.new
            ≡ steps.old + visits_in self.now (actor_of who.now) channel }
    {
        match self.tree.path(channel) {
            Some(path) => Some(permissions(self, path.as_slice(), who, steps)),
            None => None,
        }
    }

    // Whether a session may speak in the channel in which it is, if that is there.
    pub(crate) fn may_speak(&self, user: &User) -> bool
        ensures { result ≡ speaks_where_in self.now user.now }
    {
        match self.tree.path(user.channel) {
            Some(home) => {
                let who = who_is(user, home.as_slice());
                permitted(self, home.as_slice(), &who).has(Perm::SPEAK)
            }
            None => false,
        }
    }

    // One channel more, with this info and a policy that is open. After it ran out of memory the channels
    // are as they were.
    pub(crate) fn make(
        &mut self,
        id: ChannelId,
        parent: ChannelId,
        name: &str,
        temporary: bool,
        info: &ChannelInfo,
    ) -> Result<(), OutOfMemory>
        requires above { self.old.tree.greatest < id.0 }
        requires allowed { fault_of_add self.old.tree id parent name.now ≡ None }
        ensures ok { OnOk result (self.new
            ≡ with_channel_made self.old id parent name.now temporary info.now) }
        ensures err { OnErr result (self.new ≡ self.old) }
    {
        let info = info.share()?;
        grow(&mut self.tree, id, parent, name, temporary)?;
        describe(&mut self.tree, id, info);
        Ok(())
    }

    // Makes a change of a channel that no cause refuses. After it ran out of memory the channels are as they
    // were.
    pub(crate) fn edit(
        &mut self,
        id: ChannelId,
        change: &ChannelChange<'_>,
    ) -> Result<(), OutOfMemory>
        requires { fault_of_edit self.old.tree id (change_of change.now) ≡ None }
        ensures ok { OnOk result (self.new
            ≡ record self.old { tree = with_change self.old.tree id (change_of change.now) }) }
        ensures err { OnErr result (self.new ≡ self.old) }
    {
        edit_tree(&mut self.tree, id, change)?;
        Ok(())
    }

    // Takes away a channel and all below it, with their policies. It takes no memory.
    pub(crate) fn remove(&mut self, id: ChannelId)
        requires { fault_of_remove self.old.tree id ≡ None }
        ensures { self.new ≡ without_channel self.old id }
    {
        let before = taken_places(&self.tree);
        shrink(&mut self.tree, id);
        open_left_places(&before, &self.tree, &mut self.policies, self.alloc);
    }

    // Raises the limit of channels. The policy at each further place is open. After it ran out of memory the
    // channels are as they were.
    pub(crate) fn set_limit(&mut self, channels: u32) -> Result<(), OutOfMemory>
        requires raised { self.old.tree.limit ≤ channels }
        requires within { channels ≤ PLACES }
        ensures ok { OnOk result (self.new
            ≡ record self.old { tree = record self.old.tree { limit = channels } }) }
        ensures err { OnErr result (self.new ≡ self.old) }
    {
        let count = channels as usize - self.policies.len();
        let mut further = open_policies(self.alloc, count)?;
        self.policies.append(&mut further)?;
        self.tree.set_limit(channels);
        Ok(())
    }

    // Gives a channel another policy. It takes no memory.
    pub(crate) fn set_policy(&mut self, id: ChannelId, policy: ChannelPolicy)
        requires { IsTrue (is_there self.old.tree.channels id) }
        ensures { self.new
            ≡ record self.old { policies = with_policy id policy self.old.policies } }
    {
        match self.tree.place(id) {
            Some(place) => self.policies[place as usize] = policy,
            None => unreachable!(),
        }
    }
}

impl Policies for Channels {
    ghost use Rattle.mum_state.specs.Channels.{policy_map};

    ghost policy_of = { policy_map };

    fn policy(&self, id: ChannelId) -> Option<&ChannelPolicy> {
        let policies = self.policies.as_slice();
        match self.tree.place(id) {
            Some(place) => Some(&policies[place as usize]),
            None => None,
        }
    }
}
