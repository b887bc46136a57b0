//! What a role has of the core is changed by its own steps alone. These functions do nothing: each contract is a
//! theorem.

ghost use Rattle.mum_step_laws.specs.Apart.{OwnersAreApart, WorkersAreApart};

/// What the control owner has of the core no step changes but Edit, Publish and Post: so the steps of all other roles
/// may come between those of its turns.
pub fn owners_are_apart()
    ensures { OwnersAreApart }
{}

/// A worker of the core no step changes but its looks and offers, and the frames and the replies of its connections.
pub fn workers_are_apart()
    ensures { WorkersAreApart }
{}
