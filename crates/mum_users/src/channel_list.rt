//! A list of channels in which one is looked up.

ghost use Rattle.std.specs.Prelude.{◌≡◌, [], IfOk};
ghost use Rattle.std.specs.List.Sorted.{IsNonDecreasingBy};
ghost use Rattle.mum_base.specs.Channels.{is_among};
ghost use Rattle.mum_base.specs.declared.number.ChannelId.{ChannelId};
ghost use Rattle.mum_users.specs.ChannelLists.{IsByNumber};

use mum_base::{ChannelId, Items, OutOfMemory};
use std::alloc::Global;
use std::marker::Model;

/// Channels in the order in which they were named, and beside them the same by their numbers, so that one
/// is found by binary search. Contracts see them as they were named.
#[derive(Drop)]
pub struct ChannelList {
    named: Items<ChannelId>,
    // The same channels by their numbers.
    sorted: Vec<ChannelId>,
}

impl Model for ChannelList {
    ghost use Rattle.std.specs.Prelude.{List};
    ghost use Rattle.mum_base.specs.declared.number.ChannelId.{ChannelId};
    ghost use Rattle.mum_users.specs.ChannelLists.{IsByNumber};

    ghost Value = { List ChannelId };

    ghost view = { λ l. l.named };

    ghost invariant = { λ l. IsByNumber l.named l.sorted.items };
}

// A copy of these channels, by their numbers.
fn by_number(alloc: Global, channels: &[ChannelId]) -> Result<Vec<ChannelId>, OutOfMemory>
    ensures { IfOk result (λ sorted. IsByNumber channels.now sorted.items) }
{
    let mut sorted = Vec::from_slice(alloc, channels)?;
    sorted.sort_unstable_by_key(|channel| channel.0);
    Ok(sorted)
}

// Whether a channel is one of these, which are in the order of their numbers.
fn is_found(sorted: &[ChannelId], channel: ChannelId) -> bool
    requires { IsNonDecreasingBy (λ (own : ChannelId). own.0) sorted.now }
    ensures { result ≡ is_among sorted.now channel }
{
    sorted.binary_search_by_key(&channel.0, |own| own.0).is_ok()
}

impl ChannelList {
    /// No channel. It takes no memory.
    pub fn new(alloc: Global) -> ChannelList
        ensures { result ≡ [] }
    {
        ChannelList {
            named: Items::new(alloc),
            sorted: Vec::new(alloc),
        }
    }

    /// These channels, whose list is kept without a copy.
    pub fn from_items(alloc: Global, named: Items<ChannelId>) -> Result<ChannelList, OutOfMemory>
        ensures { IfOk result (λ list. list ≡ named) }
    {
        let sorted = by_number(alloc, named.as_slice())?;
        Ok(ChannelList { named, sorted })
    }

    /// The channels in the order in which they were named.
    pub fn as_slice(&self) -> &[ChannelId]
        ensures { result.now ≡ self.now }
    {
        self.named.as_slice()
    }

    /// Whether a channel is one of them, found by binary search.
    pub fn contains(&self, channel: ChannelId) -> bool
        ensures { result ≡ is_among self.now channel }
    {
        is_found(self.sorted.as_slice(), channel)
    }
}
