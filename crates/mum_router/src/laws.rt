//! What holds of all that a router keeps, as theorems. The functions do nothing: their contracts are what they
//! say.

ghost use Rattle.mum_router.specs.Laws.{EntriesStay, OtherBoxesStay};

/// A route changes the pass of no box in whose slot nobody hears the packet.
pub fn other_boxes_stay()
    ensures { OtherBoxesStay }
{}

/// A route that was found is kept for its speaker and target while other packets are routed, until another route is
/// found for the same two, or the speaker is gone.
pub fn entries_stay()
    ensures { EntriesStay }
{}
