//! Who makes, changes, moves, links and removes channels, and who is sent their policies. These functions do nothing:
//! each contract is a theorem.

ghost use Rattle.mum_command_laws.specs.ChannelCommands.{LinkersLink, MakersMake, WritersDescribe, WritersMove, WritersReadPolicies, WritersRemove};

/// A channel is made only for a session that has the permission under its parent: MakeTempChannel for a temporary
/// channel, MakeChannel for any other.
pub fn makers_make()
    ensures { MakersMake }
{}

/// The name, the description, the position and the greatest number of users of a channel are set only by a session
/// that has Write on it.
pub fn writers_describe()
    ensures { WritersDescribe }
{}

/// A channel is moved only by a session that has Write on it and MakeChannel on its new parent.
pub fn writers_move()
    ensures { WritersMove }
{}

/// Links are added and removed only by a session that has LinkChannel at both ends.
pub fn linkers_link()
    ensures { LinkersLink }
{}

/// A channel is removed only by a session that has Write on it.
pub fn writers_remove()
    ensures { WritersRemove }
{}

/// The only answer to a message on channels is the policy of the channel that an ACL message names, and it is sent only
/// to a session that has Write on this channel or on its parent.
pub fn writers_read_policies()
    ensures { WritersReadPolicies }
{}
