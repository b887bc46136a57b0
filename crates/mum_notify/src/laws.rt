//! What holds of all that is sent, as theorems. The functions do nothing: their contracts are what they
//! say.

ghost use Rattle.mum_notify.specs.Laws.{CommentsStand, EachHasItsSession, EachIsOneFrame, FirstIsFrames, GoesBySlots, GoneAreTold, LastOnlyForKicked, OtherChannelsStand, OtherSessionsStand, ParentsComeFirst, SenderIsToldNothing};

/// Each parcel goes to a session that is there after the edit or, where one is kicked, was there
/// before, in the slot of that session.
pub fn each_has_its_session()
    ensures { EachHasItsSession }
{}

/// One frame goes out by the slots of those who get it.
pub fn goes_by_slots()
    ensures { GoesBySlots }
{}

/// A parcel is the last only for a session that is kicked.
pub fn last_only_for_kicked()
    ensures { LastOnlyForKicked }
{}

/// Whoever sends a text is sent nothing of it.
pub fn sender_is_told_nothing()
    ensures { SenderIsToldNothing }
{}

/// A channel that an edit does not name among those that it edits is as it was, and linked to those to
/// which it was, but for those that are gone.
pub fn other_channels_stand()
    ensures { OtherChannelsStand }
{}

/// A session that is not looked at for an edit is as it was, and listens to what it did.
pub fn other_sessions_stand()
    ensures { OtherSessionsStand }
{}

/// A session has another comment only where the edit gives one.
pub fn comments_stand()
    ensures { CommentsStand }
{}

/// No temporary channel goes that is not reported.
pub fn gone_are_told()
    ensures { GoneAreTold }
{}

/// Where a session joins, it is sent each channel after its parent.
pub fn parents_come_first()
    ensures { ParentsComeFirst }
{}

/// Each parcel is one whole frame within the limit of a frame, where the message of an edit that puts one
/// out or sends a text is.
pub fn each_is_one_frame()
    ensures told { EachIsOneFrame }
    ensures first { FirstIsFrames }
{}
