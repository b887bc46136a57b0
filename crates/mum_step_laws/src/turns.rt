//! The turns of a worker as the steps of one worker of the core. These functions do nothing: each contract is a
//! theorem.

ghost use Rattle.mum_step_laws.specs.WorkerRuns.{NotesAreTold, WorkerStepsAreSteps, WorkersAreWorkers};

use mum_io::Link;

/// What a step is to one worker is what the core makes of that worker, and is allowed exactly where the core allows it.
pub fn worker_steps_are_steps()
    ensures { WorkerStepsAreSteps }
{}

/// A note that a worker learns is that of the step Tell: the least revision of its next look is the same.
pub fn notes_are_told()
    ensures { NotesAreTold }
{}

/// Over any turns from its opening on a worker is a worker of the core: the replies that it heard, the packets that
/// it routed and the copies that it offered are steps, each allowed where it comes, that leave a worker of the core
/// where it is.
pub fn a_worker_is_a_worker_of_the_core<L: Link>()
    ensures { WorkersAreWorkers L.facts }
{}
