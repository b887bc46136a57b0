//! The state, what is read from it, and how edits change it.

ghost use Rattle.std.specs.Prelude.{◌≡◌, ◌+◌, ◌<◌, IfOk, IsOk, IsTrue, OnErr, OnOk, Some, slice_get};
ghost use Rattle.std.specs.Option.{option_copied, option_map};
ghost use Rattle.mum_base.specs.declared.number.TheConstants.{SLOTS};
ghost use Rattle.mum_policy.specs.Member.{actor_of};
ghost use Rattle.mum_tree.specs.Rows.{row_of};
ghost use Rattle.mum_state.specs.Applied.{applied};
ghost use Rattle.mum_state.specs.Fits.{fits};
ghost use Rattle.mum_state.specs.Kinds.{needs_no_memory};
ghost use Rattle.mum_state.specs.Permissions.{granted_where_there, perm_of, visits_of};
ghost use Rattle.mum_state.specs.Proper.{IsProper};
ghost use Rattle.mum_state.specs.State.{account_named, empty_state};

use crate::account::Account;
use crate::count::Stamps;
use crate::edit::Edit;
use crate::parts::Parts;
use crate::server::Server;
use mum_base::{ChannelId, OutOfMemory, Perm, SessionId, Slot, Steps};
use mum_policy::{ChannelPolicy, Policies, Who};
use mum_tree::Tree;
use mum_users::Roster;
use std::alloc::Global;
use std::marker::Model;
use std::sync::ledger::Ledger;

/// All that the server knows. Two states with equal parts are equal, whatever edits led to them.
#[derive(Drop)]
pub struct State {
    parts: Parts,
}

impl Model for State {
    ghost use Rattle.mum_state.specs.Proper.{IsProper};
    ghost use Rattle.mum_state.specs.State.{StateValue};

    ghost Value = { StateValue };

    ghost view = { λ s. s.parts };

    ghost invariant = { λ s. IsProper s.parts };
}

impl State {
    /// The root alone, with a policy that is open, and no session.
    pub fn empty(alloc: Global) -> Result<State, OutOfMemory>
        ensures empty { IfOk result (λ state. state ≡ empty_state) }
        ensures proper { IfOk result IsProper }
    {
        Ok(State {
            parts: Parts::empty(alloc)?,
        })
    }

    /// An equal state, with its places, the greatest numbers that were given, and its counts.
    pub fn copy(&self, alloc: Global) -> Result<State, OutOfMemory>
        ensures equal { IfOk result (λ state. state ≡ self.now) }
        ensures proper { IfOk result IsProper }
    {
        Ok(State {
            parts: self.parts.copy(alloc)?,
        })
    }

    /// Whether an edit fits: whom and what it names is there, the numbers that it gives are right, and
    /// no cause refuses it. It takes no memory, and costs in proportion to what the edit names.
    pub fn fits(&self, edit: &Edit) -> bool
        ensures { result ≡ fits self.now edit.now }
    {
        self.parts.fits(edit)
    }

    /// Makes an edit. After it ran out of memory the state is as it was. A session that leaves or is kicked, a
    /// channel that is removed and a text take no memory, and are never refused.
    pub fn apply(&mut self, edit: &Edit) -> Result<(), OutOfMemory>
        requires { IsTrue (fits self.old edit.now) }
        ensures ok { OnOk result (self.new ≡ applied self.old edit.now) }
        ensures err { OnErr result (self.new ≡ self.old) }
        ensures in_place { IsTrue (needs_no_memory edit.now) → IsOk result }
        ensures proper { IsProper self.new }
    {
        self.parts.apply(edit)
    }

    /// How many edits sessions made. Those of a configuration, which have no actor and no maker, are
    /// not counted.
    pub fn revision(&self) -> u64
        ensures { result ≡ self.now.counts.revision }
    {
        self.parts.revision
    }

    /// The channel's place, which it keeps while it is there. It takes no memory.
    pub fn place(&self, id: ChannelId) -> Option<u16>
        ensures { result ≡ option_map (λ row. row.place) (row_of self.now.tree.channels id) }
    {
        self.parts.channels.tree().place(id)
    }

    /// The counts of edits that changed policies or paths, and of those that changed what a route
    /// reads; those of a configuration are counted here too.
    pub fn stamps(&self) -> Stamps
        ensures policy { result.policy ≡ self.now.counts.policy }
        ensures routing { result.routing ≡ self.now.counts.routing }
    {
        self.parts.stamps
    }

    /// How many edits joined a session into this slot, or changed the channel or set the tokens of the
    /// session in it.
    pub fn session_stamp(&self, slot: Slot) -> u64
        requires { slot.0 < SLOTS }
        ensures { slice_get self.now.counts.slots slot.0 ≡ Some result }
    {
        self.parts.slot_counts[slot.0 as usize]
    }

    /// What the actor may do in a channel, also with tokens for this once; `None` where there is no
    /// such channel. It takes no memory.
    pub fn granted_to(&self, who: &Who<'_>, channel: ChannelId) -> Option<Perm>
        ensures { option_map (λ perm. perm.0) result
            ≡ granted_where_there self.now (actor_of who.now) channel }
    {
        self.parts.channels.granted_to(who, channel)
    }

    /// What a session may do in a channel; `None` where one of the two is not there. A step is counted
    /// for each entry that is read. It takes no memory.
    pub fn permissions_of<L: Ledger>(
        &self,
        session: SessionId,
        channel: ChannelId,
        steps: &mut Steps<L>,
    ) -> Option<Perm>
        ensures value { option_map (λ perm. perm.0) result ≡ perm_of self.now session channel }
        ensures steps { steps.new ≡ steps.old + visits_of self.now session channel }
    {
        self.parts.permissions_of(session, channel, steps)
    }

    /// The channels and their links.
    pub fn tree(&self) -> &Tree
        ensures tree { result.now ≡ self.now.tree }
        ensures proper { IsProper self.now }
    {
        self.parts.channels.tree()
    }

    /// The sessions, to what they listen, and their voice targets.
    pub fn roster(&self) -> &Roster
        ensures roster { result.now ≡ self.now.roster }
        ensures proper { IsProper self.now }
    {
        &self.parts.roster
    }

    /// The settings of the server.
    pub fn server(&self) -> &Server
        ensures { result.now ≡ self.now.server }
    {
        &self.parts.server
    }

    /// The account of a name, found by binary search; `None` exactly where no account has it.
    pub fn account_named(&self, name: &str) -> Option<&Account>
        ensures { option_copied result ≡ account_named self.now name.now }
    {
        self.parts.accounts.named(name)
    }
}

impl Policies for State {
    ghost use Rattle.mum_state.specs.State.{policy_of};

    ghost policy_of = { policy_of };

    fn policy(&self, id: ChannelId) -> Option<&ChannelPolicy> {
        self.parts.channels.policy(id)
    }
}
