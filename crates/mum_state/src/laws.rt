//! What holds of states and edits, as theorems. The functions do nothing: their contracts are what
//! they say.

ghost use Rattle.mum_state.specs.Laws.{CountsNeverFall, FitsWhereProper, KeepsProper, NumbersNeverFall, PermissionsStand, PresentWasPresent, RoutesStand, SeatsStand, SuppressedWhereSilent};

/// Edits that fit lead from a proper state to a proper one.
pub fn keeps_proper()
    ensures { KeepsProper }
{}

/// An edit that names only what is there, and gives right numbers, fits exactly where what it sets is
/// proper, and the state after it is.
pub fn fits_where_proper()
    ensures { FitsWhereProper }
{}

/// No count falls, whatever the edits are.
pub fn counts_never_fall()
    ensures { CountsNeverFall }
{}

/// By edits that fit, the greatest number that a channel had, and that a session had, never fall.
pub fn numbers_never_fall()
    ensures { NumbersNeverFall }
{}

/// While a session is there it keeps its slot, and a channel keeps its place.
pub fn seats_stand()
    ensures { SeatsStand }
{}

/// A session or a channel that is there after edits that fit, under a number not above the greatest that was
/// given before, was there before.
pub fn present_was_present()
    ensures { PresentWasPresent }
{}

/// Who joins, enters another channel or has its tokens set is suppressed exactly where it lacks Speak in its
/// channel in the state after the edit, and so is everybody where a policy is set; but for a session that the
/// same edit lets speak.
pub fn suppressed_where_silent()
    ensures { SuppressedWhereSilent }
{}

/// What a session may do in a channel stays the same while the session is there and neither the policy count
/// nor the count of its slot rises.
pub fn permissions_stand()
    ensures { PermissionsStand }
{}

/// What a route reads stays the same while the routing count does not rise.
pub fn routes_stand()
    ensures { RoutesStand }
{}
