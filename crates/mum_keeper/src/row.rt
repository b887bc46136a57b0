//! What channels and links have in common as rows that are kept.

ghost use Rattle.std.specs.Prelude.{◌≡◌, Bool, IfOk};
ghost use Rattle.mum_keeper.specs.Changes.{channel_before, drop_of, is_same_channel, is_same_info, link_before, linked_by, put_of, unlink_of};
ghost use Rattle.mum_keeper.specs.Order.{any_like};
ghost use Rattle.mum_keeper.specs.declared.change.Change.{Change};

use crate::change::Change;
use mum_base::{ChannelId, OutOfMemory};
use mum_kept::KeptChannel;
use mum_tree::ChannelInfo;

// A row of a list that rises.
pub(crate) trait Row: Drop {
    ghost before: { Self → Self → Bool };

    ghost same: { Self → Self → Bool };

    ghost gone: { Self → Change };

    ghost come: { Self → Change };

    /// Whether it comes before the other.
    fn is_before(&self, other: &Self) -> bool
        ensures { result ≡ before self.now other.now };

    /// Whether it is the other, of two of which neither comes before the other.
    fn is_same(&self, other: &Self) -> bool
        ensures { result ≡ same self.now other.now };

    /// The change after which it is gone.
    fn removal(&self) -> Change
        ensures { result ≡ gone self.now };

    /// The change after which it is there.
    fn addition(&self) -> Result<Change, OutOfMemory>
        ensures { IfOk result (λ change. change ≡ come self.now) };
}

// The row of a channel once more, without a copy of its texts.
pub(crate) fn share(channel: &KeptChannel) -> Result<KeptChannel, OutOfMemory>
    ensures { IfOk result (λ shared. shared ≡ channel.now) }
{
    Ok(KeptChannel {
        id: channel.id,
        parent: channel.parent,
        name: channel.name.share()?,
        info: channel.info.share()?,
        policy: channel.policy.share()?,
    })
}

fn is_same_info(info: &ChannelInfo, other: &ChannelInfo) -> bool
    ensures { result ≡ is_same_info info.now other.now }
{
    info.description.as_str() == other.description.as_str()
        && info.position == other.position
        && info.max_users == other.max_users
}

impl Row for KeptChannel {
    ghost before = { channel_before };

    ghost same = { is_same_channel };

    ghost gone = { drop_of };

    ghost come = { put_of };

    fn is_before(&self, other: &KeptChannel) -> bool {
        self.id.0 < other.id.0
    }

    fn is_same(&self, other: &KeptChannel) -> bool {
        self.parent.0 == other.parent.0
            && self.name.as_str() == other.name.as_str()
            && is_same_info(&self.info, &other.info)
            && self.policy.as_slice() == other.policy.as_slice()
    }

    fn removal(&self) -> Change {
        Change::Drop(self.id)
    }

    fn addition(&self) -> Result<Change, OutOfMemory> {
        Ok(Change::Put(share(self)?))
    }
}

impl Row for (ChannelId, ChannelId) {
    ghost before = { link_before };

    ghost same = { any_like };

    ghost gone = { unlink_of };

    ghost come = { linked_by };

    fn is_before(&self, other: &(ChannelId, ChannelId)) -> bool {
        self.0.0 < other.0.0 || (other.0.0 == self.0.0 && self.1.0 < other.1.0)
    }

    fn is_same(&self, _other: &(ChannelId, ChannelId)) -> bool {
        true
    }

    fn removal(&self) -> Change {
        Change::Unlink(self.0, self.1)
    }

    fn addition(&self) -> Result<Change, OutOfMemory> {
        Ok(Change::Link(self.0, self.1))
    }
}
