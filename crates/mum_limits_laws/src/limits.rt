//! How much there is of each thing, and that what is full takes nothing more. These functions do nothing: each
//! contract is a theorem.

ghost use Rattle.mum_limits_laws.specs.Full.{ChannelsTooManyAreRefused, FullChannelsAreNotEntered, ListenersTooManyAreRefused, PoliciesTooLargeAreRefused, SixtyFifthLinksAreRefused, TargetsTooLargeAreRefused};
ghost use Rattle.mum_limits_laws.specs.Within.{TreeCommandsKeepWithin, UserCommandsKeepWithin, ValidStatesAreWithin};

/// Each valid state, so each that an accepted message leads to, is within the limits: of a channel 64 links and 64
/// listeners, 32 channels to which a session listens, 32 steps below the root, 2,048 channels at the most; and of the
/// lengths of names, texts, tokens, lists and voice targets.
pub fn states_are_within_limits()
    ensures valid { ValidStatesAreWithin }
    ensures channels { TreeCommandsKeepWithin }
    ensures users { UserCommandsKeepWithin }
{}

/// Nobody enters, or is moved to, a channel in which there are as many as it takes.
pub fn full_channels_are_not_entered()
    ensures { FullChannelsAreNotEntered }
{}

/// A channel with 64 links gets no more by a message that adds one, and no channel is made where there are as many as
/// may be, or under one that is 32 below the root. Nor is a policy set with more than 128 entries or 64 groups, or a
/// voice target with more than 16 items; and nobody begins to listen to a channel to which 64 listen, or that listens
/// to 32 already.
pub fn no_more_is_let_in()
    ensures links { SixtyFifthLinksAreRefused }
    ensures channels { ChannelsTooManyAreRefused }
    ensures policies { PoliciesTooLargeAreRefused }
    ensures targets { TargetsTooLargeAreRefused }
    ensures listeners { ListenersTooManyAreRefused }
{}
