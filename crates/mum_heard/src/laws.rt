//! Commands as their own frames have them. This function does nothing: its contract is a theorem.

ghost use Rattle.mum_heard.specs.Again.{CommandsAreHeardAgain, LeavesAreHeardAgain, RequestsAreHeardAgain};

/// A command is decided, by whoever has its own frame and the version that its login reported, as it is decided itself,
/// for every actor and at every state.
pub fn commands_are_heard_again()
    // So it is of each command for which a frame asked.
    ensures frames { CommandsAreHeardAgain }
    // A leave has no frame.
    ensures leaves { LeavesAreHeardAgain }
    // So it is of each command that lies on the desk of the control owner.
    ensures requests { RequestsAreHeardAgain }
{}
