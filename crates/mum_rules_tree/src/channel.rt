//! Channels as messages name them.

ghost use Rattle.std.specs.Prelude.{◌≡◌};
ghost use Rattle.mum_tree.specs.Refusals.{name_of, parent_of};
ghost use Rattle.std.specs.List.{list_all};
ghost use Rattle.mum_state.specs.Fits.{holds_of_given};
ghost use Rattle.mum_rules_tree.specs.Asked.{channel, channel_or_root, is_number_there};
ghost use Rattle.mum_rules_tree.specs.Limits.{new_number};

use mum_base::ChannelId;
use mum_tree::Tree;

/// The channel of a number.
pub fn channel_numbered(number: u32) -> ChannelId
    ensures { result ≡ channel number }
{
    ChannelId(number)
}

/// The channel of a number, or the root where a message has none.
pub fn channel_or_root(number: Option<u32>) -> ChannelId
    ensures { result ≡ channel_or_root number }
{
    match number {
        Some(number) => ChannelId(number),
        None => ChannelId::ROOT,
    }
}

/// Whether the channel that is named, if one is, is there.
pub fn is_there_if_named(tree: &Tree, number: Option<u32>) -> bool
    ensures { result ≡ holds_of_given (is_number_there tree.now) number }
{
    match number {
        Some(number) => tree.is_there(ChannelId(number)),
        None => true,
    }
}

/// Whether each of these channels is there.
pub fn are_there(tree: &Tree, numbers: &[u32]) -> bool
    ensures { result ≡ list_all (is_number_there tree.now) numbers.now }
{
    numbers
        .iter()
        .all(|number| tree.is_there(ChannelId(*number)))
}

// The name of a channel, or an empty one where it is not there.
pub(crate) fn name_of(tree: &Tree, id: ChannelId) -> &str
    ensures { result.now ≡ name_of tree.now id }
{
    match tree.channel(id) {
        Some(channel) => channel.name.as_str(),
        None => "",
    }
}

// The channel above this one; the root, or one that is not there, is its own.
pub(crate) fn parent_of(tree: &Tree, id: ChannelId) -> ChannelId
    ensures { result ≡ parent_of tree.now id }
{
    match tree.channel(id) {
        Some(channel) => channel.parent,
        None => id,
    }
}

// The number of a new channel, or that of the root where none is left.
pub(crate) fn new_number(tree: &Tree) -> ChannelId
    ensures { result ≡ new_number tree.now }
{
    tree.next_id().unwrap_or(ChannelId::ROOT)
}
