//! What an owner counts and writes down is what it decided. These functions do nothing: each contract is a theorem.

ghost use Rattle.mum_serve_laws.specs.Decisions.{ConnectionsAreThoseGiven, DecisionsAreForTheirSessions, DecisionsAreOfTheDesk, EditsAreTheDecisions, EntriesAreTheDecisions, LoginsAreTheDecisions, NoEntriesUnasked};

use mum_doorway::Entrance;

/// The edits that were appended are those of the commands that turns decided, in order, each decided at the state after
/// all that was accepted before it.
pub fn accepted_edits_are_the_decisions<D: Entrance>()
    ensures { EditsAreTheDecisions D D.Peer D.facts D.Peer.facts }
{}

/// The logins that were accepted are those of the commands that turns decided, in order: each of the connection of its
/// command, with the session that it was given.
pub fn accepted_logins_are_the_decisions<D: Entrance>()
    ensures { LoginsAreTheDecisions D D.Peer D.facts D.Peer.facts }
{}

/// Where a journal was asked for, its control entries are those of the commands that turns decided, one for each and in
/// order: also of those that were denied or ignored.
pub fn entries_are_the_decisions<D: Entrance>()
    ensures asked { EntriesAreTheDecisions D D.Peer D.facts D.Peer.facts }
    // Without a journal there are none.
    ensures unasked { NoEntriesUnasked D D.Peer D.facts D.Peer.facts }
{}

/// Each command that turns decided is one that was given to the control owner, or a leave that is counted as decided,
/// in their order and no two the same: so it came from the desk, as `commands_are_given_once` says of these.
pub fn decisions_are_of_the_desk<D: Entrance>()
    ensures { DecisionsAreOfTheDesk D D.Peer D.facts D.Peer.facts }
{}

/// Each command is decided for the session that is kept for its connection, whatever session it named as it came.
pub fn decisions_are_for_their_sessions<D: Entrance>()
    ensures { DecisionsAreForTheirSessions D D.Peer D.facts D.Peer.facts }
{}

/// As many connections are counted as the door gave in the turns.
pub fn connections_are_those_given<D: Entrance>()
    ensures { ConnectionsAreThoseGiven D D.Peer D.facts D.Peer.facts }
{}
