//! The parts of a state, and how they lie in memory.

ghost use Rattle.std.specs.Prelude.{◌≡◌, ◌+◌, IfOk};
ghost use Rattle.std.specs.Option.{option_map};
ghost use Rattle.mum_state.specs.Permissions.{perm_of, visits_of};
ghost use Rattle.mum_state.specs.Proper.{IsProper};
ghost use Rattle.mum_state.specs.State.{empty_state};

use crate::accounts::Accounts;
use crate::channels::Channels;
use crate::count::Stamps;
use crate::server::{DEFAULT_BANDWIDTH, Server};
use crate::who::{home_of, who_is};
use mum_base::{ChannelId, OutOfMemory, Perm, SLOTS, SessionId, Steps, Text};
use mum_users::Roster;
use std::alloc::Global;
use std::marker::Model;
use std::sync::ledger::Ledger;

// The parts of a state. Each keeps what its own type promises; what a state promises of all of them
// together may not hold in the midst of an edit.
#[derive(Drop)]
pub(crate) struct Parts {
    pub(crate) alloc: Global,
    pub(crate) server: Server,
    pub(crate) accounts: Accounts,
    pub(crate) channels: Channels,
    pub(crate) roster: Roster,
    /// How many edits sessions made.
    pub(crate) revision: u64,
    pub(crate) stamps: Stamps,
    /// For each slot, how many edits changed what is asked of the session in it.
    pub(crate) slot_counts: Vec<u64>,
}

impl Model for Parts {
    ghost use Rattle.mum_state.specs.State.{StateValue};

    ghost Value = { StateValue };

    ghost view = { λ p. record {
      server = p.server;
      accounts = p.accounts;
      tree = p.channels.tree;
      policies = p.channels.policies;
      roster = p.roster;
      counts = record { revision = p.revision; policy = p.stamps.policy; routing = p.stamps.routing; slots = p.slot_counts.items };
    } };
}

impl Parts {
    // Those of a state with the root alone and no session.
    pub(crate) fn empty(alloc: Global) -> Result<Parts, OutOfMemory>
        ensures empty { IfOk result (λ parts. parts ≡ empty_state) }
        ensures proper { IfOk result IsProper }
    {
        Ok(Parts {
            alloc,
            slot_counts: vec![in alloc; 0; SLOTS]?,
            channels: Channels::new(alloc)?,
            roster: Roster::new(alloc)?,
            accounts: Accounts::new(alloc),
            server: Server {
                welcome: Text::empty(alloc),
                bandwidth: DEFAULT_BANDWIDTH,
                password: None,
            },
            revision: 0,
            stamps: Stamps {
                policy: 0,
                routing: 0,
            },
        })
    }

    // Equal parts.
    pub(crate) fn copy(&self, alloc: Global) -> Result<Parts, OutOfMemory>
        ensures { IfOk result (λ parts. parts ≡ self.now) }
    {
        Ok(Parts {
            alloc,
            slot_counts: Vec::from_slice(alloc, self.slot_counts.as_slice())?,
            server: self.server.copy(alloc)?,
            accounts: self.accounts.copy(alloc)?,
            channels: self.channels.copy(alloc)?,
            roster: self.roster.copy(alloc)?,
            revision: self.revision,
            stamps: self.stamps,
        })
    }

    // What a session may do in a channel; `None` where one of the two is not there. A step is counted
    // for each entry that is read.
    pub(crate) fn permissions_of<L: Ledger>(
        &self,
        session: SessionId,
        channel: ChannelId,
        steps: &mut Steps<L>,
    ) -> Option<Perm>
        ensures value { option_map (λ perm. perm.0) result ≡ perm_of self.now session channel }
        ensures steps { steps.new ≡ steps.old + visits_of self.now session channel }
    {
        match self.roster.session(session) {
            Some(user) => {
                let home = home_of(self.channels.tree(), user);
                self.channels
                    .counted_to(&who_is(user, home.as_slice()), channel, steps)
            }
            None => None,
        }
    }
}
