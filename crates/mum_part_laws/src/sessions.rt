//! For which cause a change of the sessions is refused. These functions do nothing: each contract is a theorem.

ghost use Rattle.mum_part_laws.specs.Rosters.{EditsNameTheFirst, JoinsNameTheFirst, ListeningNamesTheFirst, TargetsNameTheFirst};

/// A join is refused for the first of these: somebody has the name, as many are here as may be, or no number is left.
pub fn joins_name_the_first()
    ensures { JoinsNameTheFirst }
{}

/// To listen is refused for the first of these: the session is not here, 64 listen to the channel, or the session
/// listens to 32 channels; but not to what it listens to already.
pub fn listening_names_the_first()
    ensures { ListeningNamesTheFirst }
{}

/// A change of a session is refused for the first of these: the session is not here, more than 64 would listen to a
/// channel that it is to listen to, or it would listen to more than 32.
pub fn edits_name_the_first()
    ensures { EditsNameTheFirst }
{}

/// A voice target is refused for the first of these: the session is not here, its number is none from 1 to 30, or it
/// is too large.
pub fn targets_name_the_first()
    ensures { TargetsNameTheFirst }
{}
