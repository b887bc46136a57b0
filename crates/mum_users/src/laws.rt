//! When calls on a roster are refused, in one sentence, and what a change leaves. These functions do
//! nothing: their contracts are what they say.

ghost use Rattle.mum_users.specs.Laws.{EditsWhereProper, JoinsWhereProper, ListensAsTold, ListensWhereProper, OthersListenAsBefore, TargetsWhereProper, UnsetStaysProper};

/// A join is refused exactly where the roster after it would not be proper.
pub fn joins_where_proper()
    ensures { JoinsWhereProper }
{}

/// A session that is here may listen to a channel exactly where the roster after it is proper.
pub fn listens_where_proper()
    ensures { ListensWhereProper }
{}

/// Several parts of a session that is here change exactly where the roster after it is proper.
pub fn edits_where_proper()
    ensures { EditsWhereProper }
{}

/// A session that is here may set a voice target with items exactly where the roster after it is proper.
/// To unset one never leaves a roster that is not.
pub fn targets_where_proper()
    ensures proper { TargetsWhereProper }
    ensures unset { UnsetStaysProper }
{}

/// After a change a session listens exactly to what it listened to or is to listen to, but for what it is
/// to leave. All others listen to what they did.
pub fn listens_as_told()
    ensures own { ListensAsTold }
    ensures others { OthersListenAsBefore }
{}
