//! That a message on channels changes what it asks for, and no other channel. These functions do nothing: each contract is a
//! theorem.

ghost use Rattle.mum_rights_laws.specs.Contents.{LinksAreDone, PoliciesAreDone};
ghost use Rattle.mum_rights_laws.specs.ChannelRequests.{ChannelStatesAreDone, ChannelsAreMadeAsAsked, OtherChannelsStand};

/// The channel that a ChannelState names has the name, the parent and the description that it asks for; what it does not ask
/// for stays, and so does each other channel.
pub fn channel_states_are_done()
    ensures done { ChannelStatesAreDone }
    ensures others { OtherChannelsStand }
{}

/// A channel that comes is as the message asks; what that does not say is empty, false or 0.
pub fn channels_are_made_as_asked()
    ensures { ChannelsAreMadeAsAsked }
{}

/// The channel that a ChannelState names is linked to what it was linked to or the message adds, without what the message
/// removes.
pub fn links_are_done()
    ensures { LinksAreDone }
{}

/// The channel that an ACL message names has the policy of the message, without the groups and the entries that it says are
/// inherited.
pub fn policies_are_done()
    ensures { PoliciesAreDone }
{}
