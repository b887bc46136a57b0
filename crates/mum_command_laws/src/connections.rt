//! What becomes of what a connection sent, of what it asks for, and of what it is answered. These functions do nothing:
//! each contract is a theorem.

ghost use Rattle.std.specs.Prelude.{◌≡◌, None, Some};
ghost use Rattle.mum_base.specs.declared.number.SessionId.{SessionId};
ghost use Rattle.mum_base.specs.declared.number.Slot.{Slot};
ghost use Rattle.mum_base.specs.declared.reply.ReplyEnd.TheVariants.{Decided, Joined, Rejected};
ghost use Rattle.mum_session.specs.Machine.{Machine, answered, session_of};
ghost use Rattle.mum_command_laws.specs.Connections.{CommandsAreAsked, VersionsStay};

/// A connection that sent its version is never without one again.
pub fn versions_stay()
    ensures { VersionsStay }
{}

/// Each frame of a session that is a command is asked as a command of this session, unless it cannot be read or is longer
/// than a command may be.
pub fn commands_are_asked()
    ensures { CommandsAreAsked }
{}

/// A connection has a session once its login is accepted, none once it is rejected, and the one that it had, if any,
/// after any other reply.
pub fn sessions_follow_replies()
    ensures joined { (machine : Machine) (session : SessionId) (slot : Slot) →
        session_of (answered (Joined session slot) machine).stage ≡ Some session }
    ensures decided { (machine : Machine) → (answered Decided machine).stage ≡ machine.stage }
    ensures rejected { (machine : Machine) → session_of (answered Rejected machine).stage ≡ None }
{}
