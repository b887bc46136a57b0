//! What holds of every reason and every cut, as theorems. The functions do nothing: their contracts are what they
//! say.

ghost use Rattle.mum_why.specs.CutLaws.{CutsAreAlone, CutsAreGiven, CutsHold};
ghost use Rattle.mum_why.specs.ReasonLaws.{ReasonsAreFirst, ReasonsAreRoutes, ReasonsHold};

/// What takes a permission away is given exactly where the session and the channel are there and the session lacks
/// the permission. That it is one of the root and the channel another is given before all else, then that it is
/// SuperUser, who may not speak or whisper. A channel that is named is the first on the path that the session does
/// not pass. Where it passes each, an entry that is named is on the path, matches, applies and denies the
/// permission, and none that counts after it names it; and where none is named, no entry that counts names the
/// permission, and nobody has it at first. No two of these hold at once.
pub fn cuts_hold()
    ensures given { CutsAreGiven }
    ensures hold { CutsHold }
    ensures alone { CutsAreAlone }
{}

/// A session hears in a context exactly where the route has it with the number of this context, so a reason of
/// exclusion is given exactly where the route does not have it.
pub fn reasons_are_routes()
    ensures { ReasonsAreRoutes }
{}

/// What a reason says holds, in the words of the route.
pub fn reasons_hold()
    ensures { ReasonsHold }
{}

/// No reason holds that comes before the one that is given, in the order of the variants of `Reason`.
pub fn reasons_are_first()
    ensures { ReasonsAreFirst }
{}
