//! The policies of a path, each looked up once.

ghost use Rattle.std.specs.Prelude.{◌≡◌, ◌<◌, None, length, map, slice_index_or};
ghost use Rattle.std.specs.Option.{option_copied};
ghost use Rattle.mum_policy.specs.Member.{IsFound};

use crate::policy::{ChannelPolicy, Policies};
use mum_base::ChannelId;

// The most policies of a path that are kept during a walk. No path of a tree is longer.
pub(crate) const KEPT: usize = 33;

// The policies of the first channels of a path, by their places.
pub(crate) fn found_on<'a, P: Policies>(
    policies: &'a P,
    path: &[ChannelId],
) -> [Option<&'a ChannelPolicy>; KEPT]
    ensures { IsFound (P.policy_of policies.now) path.now (map option_copied result) }
{
    let mut found = [None; KEPT];
    for (place, channel) in path.iter().enumerate() {
        if place < KEPT {
            found[place] = policies.policy(*channel);
        }
    }
    found
}

// The policy of the channel at a place, which is looked up where it is not among those that were found.
pub(crate) fn policy_at<'a, P: Policies>(
    policies: &'a P,
    found: &[Option<&'a ChannelPolicy>],
    place: usize,
    channel: ChannelId,
) -> Option<&'a ChannelPolicy>
    requires { place < length found.now
        → option_copied (slice_index_or found.now place None) ≡ P.policy_of policies.now channel }
    ensures { option_copied result ≡ P.policy_of policies.now channel }
{
    if place < found.len() {
        return found[place];
    }
    policies.policy(channel)
}
