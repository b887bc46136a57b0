//! What is decided of the command of a control entry.

ghost use Rattle.std.specs.Prelude.{◌≡◌, ◌==◌, ◌||◌, IfOk, IfSome};
ghost use Rattle.std.specs.Option.{option_copied};
ghost use Rattle.mum_frame.specs.Frame.{IsOneFrame};
ghost use Rattle.mum_frame.specs.declared.kind.TheConstants.{PING as ping, UDP_TUNNEL as udp_tunnel, VERSION as version_kind};
ghost use Rattle.mum_rules_tree.specs.Decision.{FitsWhereAccepted};
ghost use Rattle.mum_session.specs.Action as spec_action;
ghost use Rattle.mum_session.specs.Machine.{resumed};
ghost use Rattle.mum_audit.specs.Acted.{IsAsked, IsVerdict};
ghost use Rattle.mum_audit.specs.Acted as spec_acted;
ghost use Rattle.mum_audit.specs.Decision.{asked_verdict, frame_verdict, takes_nothing};
ghost use Rattle.mum_audit.specs.Decision as spec;

use mum_base::{OutOfMemory, Reason, SessionId};
use mum_frame::kind::{PING, UDP_TUNNEL, VERSION};
use mum_frame::{FrameView, whole_frame};
use mum_rules_tree::takes_no_edits;
use mum_rules_user::UserMessage;
use mum_session::{Action, Asked, Session, Stage, decide};
use mum_state::{State, Verdict};
use std::alloc::Global;

// Whether nothing that the actor asks is taken: its session is gone, or no edit can be made any more.
fn takes_nothing(state: &State, actor: Option<SessionId>) -> bool
    ensures { result ≡ spec.takes_nothing state.now actor }
{
    match actor {
        Some(session) => state.roster().session(session).is_none() || takes_no_edits(state),
        None => takes_no_edits(state),
    }
}

// Whether a frame of this type is no command, though a connection may send it.
fn is_no_command(kind: u16) -> bool
    ensures { result ≡ ((kind == version_kind) || (kind == udp_tunnel) || (kind == ping)) }
{
    matches!(kind, VERSION | UDP_TUNNEL | PING)
}

// How far a connection has come whose actor this is.
fn stage_of(actor: Option<SessionId>) -> Stage
    ensures { result ≡ spec_acted.stage_of actor }
{
    match actor {
        Some(session) => Stage::LoggedIn(session),
        None => Stage::BeforeLogin,
    }
}

// What is decided where the machine of frames asks for a command, or for nothing.
fn verdict_of(alloc: Global, state: &State, action: Action) -> Result<Verdict, OutOfMemory>
    requires { IsAsked action }
    ensures verdict { IfOk result (IsVerdict state.now action) }
    ensures fits { IfOk result (FitsWhereAccepted state.now) }
{
    match action {
        Action::Ask(command) => decide(alloc, state, command.session, &command.what),
        Action::Ignore { why } => Ok(Verdict::Ignored { why }),
        _ => unreachable!(),
    }
}

// What the machine of a connection makes of a frame that is no voice, no Version and no Ping.
fn action_of(
    alloc: Global,
    actor: Option<SessionId>,
    version: Option<u32>,
    frame: &FrameView<'_>,
) -> Result<Action, OutOfMemory>
    ensures { IfOk result (λ action. action
        ≡ spec_action.action (resumed 0 0 version (spec_acted.stage_of actor)) frame.now.kind frame.now.payload.now) }
{
    let mut session = Session::resumed(0, 0, version, stage_of(actor));
    session.frame(alloc, frame.to_frame(alloc)?)
}

// What is decided of a frame of an actor.
fn decide_frame(
    alloc: Global,
    state: &State,
    actor: Option<SessionId>,
    version: Option<u32>,
    frame: &FrameView<'_>,
) -> Result<Verdict, OutOfMemory>
    ensures verdict { IfOk result (λ decided. decided
        ≡ frame_verdict state.now actor version frame.now.kind frame.now.payload.now) }
    ensures fits { IfOk result (FitsWhereAccepted state.now) }
{
    if is_no_command(frame.kind) {
        return Ok(Verdict::ignored(Reason::NotRead));
    }
    let action = action_of(alloc, actor, version, frame)?;
    verdict_of(alloc, state, action)
}

// What is decided of a command of an actor: a frame, or a leave.
fn decide_asked(
    alloc: Global,
    state: &State,
    actor: Option<SessionId>,
    version: Option<u32>,
    frame: Option<&[u8]>,
) -> Result<Verdict, OutOfMemory>
    requires { IfSome (option_copied frame) IsOneFrame }
    ensures verdict { IfOk result (λ decided. decided
        ≡ asked_verdict state.now actor version (option_copied frame.entry)) }
    ensures fits { IfOk result (FitsWhereAccepted state.now) }
{
    let Some(bytes) = frame else {
        return decide(alloc, state, actor, &Asked::User(UserMessage::Leave));
    };
    let Some(view) = whole_frame(bytes) else {
        unreachable!();
    };
    decide_frame(alloc, state, actor, version, &view)
}

// What is decided at a state of what an actor asks, where an Authenticate may have a Version number. An
// accepted edit fits the state.
#[tactic(auto, unfolding(crate::specs::Decision::decided))]
pub(crate) fn decided(
    alloc: Global,
    state: &State,
    actor: Option<SessionId>,
    version: Option<u32>,
    frame: Option<&[u8]>,
) -> Result<Verdict, OutOfMemory>
    requires { IfSome (option_copied frame) IsOneFrame }
    ensures verdict { IfOk result
        (λ verdict. verdict ≡ spec.decided state.now actor version (option_copied frame.entry)) }
    ensures fits { IfOk result (FitsWhereAccepted state.now) }
{
    if takes_nothing(state, actor) {
        return Ok(Verdict::ignored(Reason::Gone));
    }
    decide_asked(alloc, state, actor, version, frame)
}
