//! For want of which permission a message on channels is denied, and for which limit it is refused. These functions do
//! nothing: each contract is a theorem.

ghost use Rattle.mum_limits_laws.specs.ChannelNeeds.{ChangesAreDeniedForTheFirst, NewChannelsAreDeniedForTheFirst, PoliciesAreDeniedForTheFirst, RemovalsAreDeniedForTheFirst};
ghost use Rattle.mum_limits_laws.specs.ChannelLimits.{ChangesAreRefusedForTheFirst, NewChannelsAreRefusedForTheFirst, PoliciesAreRefusedForTheFirst, RemovalsAreRefusedForTheFirst};

/// A denial names the first permission that is missing, in this order. A new channel needs MakeChannel under its
/// parent, a temporary one MakeTempChannel. A change needs Write for a name, a description, a position or a user
/// limit; for a different parent Write, then MakeChannel there; for links LinkChannel on the channel, then on each
/// other one. A removal needs Write, a policy Write on the channel or on its parent. Whoever is not denied lacks none.
pub fn channel_denials_name_the_first()
    ensures made { NewChannelsAreDeniedForTheFirst }
    ensures changed { ChangesAreDeniedForTheFirst }
    ensures removed { RemovalsAreDeniedForTheFirst }
    ensures policies { PoliciesAreDeniedForTheFirst }
{}

/// A refusal has the number of the first limit that applies, and against what is accepted applies none: of a new
/// channel a name that is none or is there (3), a temporary parent (6), a 33rd step below the root (10), the number of
/// channels (11), a description of more than 20,000 bytes (4); of a change the root (0), a name (3), a parent below
/// the channel (0) or temporary (6), the depth (10), a description (4), more than 64 links (0); of a removal the root
/// (0); of a policy more than 64 groups, 128 entries or 256 accounts of a group, then a group without a name, then one
/// that comes twice (0).
pub fn channel_refusals_name_the_first()
    ensures made { NewChannelsAreRefusedForTheFirst }
    ensures changed { ChangesAreRefusedForTheFirst }
    ensures removed { RemovalsAreRefusedForTheFirst }
    ensures policies { PoliciesAreRefusedForTheFirst }
{}
