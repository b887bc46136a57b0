//! Look-ups in kept channels, which are in order of number.

ghost use Rattle.std.specs.Prelude.{◌≡◌, ◌<◌, length, slice_index_or, MatchOption, None, Some};
ghost use Rattle.std.specs.Option.{option_copied, option_map};
ghost use Rattle.mum_tree.specs.Refusals.{parent_of};
ghost use Rattle.mum_tree.specs.Rows.{is_root, is_there, row_of, Rise};
ghost use Rattle.mum_kept.specs.Rows.{tree_of, tree_row, tree_rows};
ghost use Rattle.mum_kept.specs.declared.rows.KeptChannel.{KeptChannel};

use crate::rows::KeptChannel;
use mum_base::ChannelId;

// The index of a channel.
fn locate(channels: &[KeptChannel], id: ChannelId) -> Option<usize>
    requires { Rise (tree_rows channels.now) }
    ensures { MatchOption result (row_of (tree_rows channels.now) id ≡ None)
        (λ at. (at < length channels.now) × ((other : KeptChannel) →
        row_of (tree_rows channels.now) id ≡ Some (tree_row (slice_index_or channels.now at other)))) }
{
    channels
        .binary_search_by_key(&id.0, |channel| channel.id.0)
        .ok()
}

// The channel of a number.
pub(crate) fn find(channels: &[KeptChannel], id: ChannelId) -> Option<&KeptChannel>
    requires { Rise (tree_rows channels.now) }
    ensures { option_map tree_row (option_copied result) ≡ row_of (tree_rows channels.now) id }
{
    match locate(channels, id) {
        Some(at) => Some(&channels[at]),
        None => None,
    }
}

// Whether a channel is there.
pub(crate) fn is_there(channels: &[KeptChannel], id: ChannelId) -> bool
    requires { Rise (tree_rows channels.now) }
    ensures { result ≡ is_there (tree_rows channels.now) id }
{
    match find(channels, id) {
        Some(_) => true,
        None => false,
    }
}

// Whether the number is that of the root.
pub(crate) fn is_root(id: ChannelId) -> bool
    ensures { result ≡ is_root id }
{
    id.0 == ChannelId::ROOT.0
}

// The parent of a channel; itself where it is not there.
pub(crate) fn parent_of(channels: &[KeptChannel], id: ChannelId) -> ChannelId
    requires { Rise (tree_rows channels.now) }
    ensures { result ≡ parent_of (tree_of channels.now) id }
{
    match find(channels, id) {
        Some(channel) => channel.parent,
        None => id,
    }
}
