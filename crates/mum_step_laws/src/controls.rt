//! What the control owner does as steps of the core. These functions do nothing: each contract is a theorem.

ghost use Rattle.mum_step_laws.specs.ControlSteps.{CommandsAreEdits, FullBoxesLag, NoticesArePosted};

/// What the control owner makes of a command is the step Edit of its connection: the same edits are accepted, the same
/// notices are pending, the outcome and the bytes of the reply are the same, and the reply may be sent with its note. A
/// command that was dropped, since memory ran out, is no step.
pub fn commands_are_edits()
    ensures { CommandsAreEdits }
{}

/// A notice that is posted is that of the step Post: the first that is pending, once, to the box of its slot.
pub fn notices_are_posted()
    ensures { NoticesArePosted }
{}

/// A notice that found its box full reports its session as one that lags: its connection may end in the core for that.
pub fn full_boxes_lag()
    ensures { FullBoxesLag }
{}
