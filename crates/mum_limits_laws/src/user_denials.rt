//! For want of which permission a message on users is denied, and for which limit it is refused. These functions do
//! nothing: each contract is a theorem.

ghost use Rattle.mum_limits_laws.specs.UserNeeds.{KicksAreDeniedForTheFirst, TextsAreDeniedForTheFirst, UserChangesAreDeniedForTheFirst};
ghost use Rattle.mum_limits_laws.specs.UserLimits.{KicksAreRefusedForTheFirst, TargetsAreRefusedForTheFirst, TextsAreRefusedForTheFirst, UserChangesAreRefusedForTheFirst};

/// A denial names the first permission that is missing, in this order. To enter a channel needs Enter or Move there; to
/// move another Move where it is, then Move there, or the other's Enter; then comes MuteDeafen where it is, for whoever
/// is heard, and Listen in each channel. Somebody is kicked with Kick or Ban on the root, and banned with Ban. A text
/// needs TextMessage in the channel of each session, then in each channel, then at the top of each tree.
pub fn user_denials_name_the_first()
    ensures changed { UserChangesAreDeniedForTheFirst }
    ensures kicked { KicksAreDeniedForTheFirst }
    ensures written { TextsAreDeniedForTheFirst }
{}

/// A refusal has the number of the first limit that applies, and against what is accepted applies none: of a change
/// SuperUser (2), a full channel (9), more than 64 listeners (12), more than 32 channels (13), a comment of more than
/// 20,000 bytes or a context of more than 1,024 (4); of a removal SuperUser (2); of a text more than 20,000 bytes (4);
/// of a voice target a number that is none from 1 to 30 (0), then more than 16 items, 128 sessions over all of them, or
/// 128 bytes of a group (0).
pub fn user_refusals_name_the_first()
    ensures changed { UserChangesAreRefusedForTheFirst }
    ensures kicked { KicksAreRefusedForTheFirst }
    ensures written { TextsAreRefusedForTheFirst }
    ensures targets { TargetsAreRefusedForTheFirst }
{}
