//! Changes of kept rows.

use mum_base::ChannelId;
use mum_kept::KeptChannel;

/// A change of kept rows.
#[derive(Drop)]
pub enum Change {
    /// This is the row of the channel of its number, whether there was one before or not.
    Put(KeptChannel),
    /// There is no row of the channel of this number.
    Drop(ChannelId),
    /// There is a link between these two channels.
    Link(ChannelId, ChannelId),
    /// There is no link between these two channels.
    Unlink(ChannelId, ChannelId),
}
