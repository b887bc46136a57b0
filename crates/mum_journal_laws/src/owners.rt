//! For whom an owner decides. These functions do nothing: each contract is a theorem.

ghost use Rattle.mum_journal_laws.specs.Following.{DecisionsAreForTheirLogins, DecisionsWereAskedFor, LoginsLast};

use mum_doorway::Entrance;

/// Each command that turns decide, from the opening of an owner on, is decided for the session that the last accepted
/// login of its connection gave, among the decisions before it, and for nobody where there was none: whatever session
/// it named as it came.
pub fn decisions_are_for_their_logins<D: Entrance>()
    ensures { DecisionsAreForTheirLogins D D.Peer D.facts D.Peer.facts }
{}

/// Whoever logged in keeps its session: a login that was accepted is the last of its connection, whatever is decided
/// later.
pub fn logins_last<D: Entrance>()
    ensures { LoginsLast D D.Peer D.facts D.Peer.facts }
{}

/// A frame asked for each command that turns decide, unless it is that its connection goes.
pub fn decisions_were_asked_for<D: Entrance>()
    ensures { DecisionsWereAskedFor D D.Peer D.facts D.Peer.facts }
{}
