//! The turns of an owner as steps of the core. These functions do nothing: each contract is a theorem.

ghost use Rattle.mum_step_laws.specs.OwnerSteps.{PublishesArePublishes};
ghost use Rattle.mum_step_laws.specs.OwnerTurns.{OwnersAreOwners};

use mum_doorway::Entrance;

/// What an owner publishes in its turn is the step Publish.
pub fn publishes_are_published<D: Entrance>()
    ensures { PublishesArePublishes D D.Peer }
{}

/// A turn of an owner is a run of steps of the core, each allowed where it comes, that leave the core what the
/// control owner has: an edit where a command was decided, a publish where it was published, and so on in the order
/// of the turn.
pub fn a_turn_of_the_owner_is_steps<D: Entrance>()
    ensures { OwnersAreOwners D D.Peer D.facts D.Peer.facts }
{}
