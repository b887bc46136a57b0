//! What is decided of a message on users.

ghost use Rattle.std.specs.Prelude.{◌≡◌, IfOk, IsTrue, None, Some};
ghost use Rattle.std.specs.List.{list_any};
ghost use Rattle.mum_policy.specs.Member.{actor_of};
ghost use Rattle.mum_users.specs.Sessions.{session_of};
ghost use Rattle.mum_users.specs.State.{has_number};
ghost use Rattle.mum_rules_tree.specs.Decision.{FitsWhereAccepted};
ghost use Rattle.mum_rules_tree.specs.Tokens.{tokens_for_once};
ghost use Rattle.mum_state.specs.Permissions.{actor_with};
ghost use Rattle.mum_rules_user.specs.Asked.{command_of, names_there};
ghost use Rattle.mum_rules_user.specs.Verdict.{command_verdict, tokens_brought, user_verdict};

use crate::change::decide_change;
use crate::heard::{is_too_long, reason_to_ignore};
use crate::kick::decide_kick;
use crate::login::{decide_login, decide_renewal};
use crate::message::UserMessage;
use crate::query::decide_query;
use crate::target::decide_target;
use crate::text::decide_text;
use mum_base::{OutOfMemory, Reason, SessionId, Text};
use mum_policy::Who;
use mum_rules_tree::{takes_no_edits, tokens_for_once};
use mum_state::{Edit, State, Verdict, home_of, who_is, who_with};
use mum_users::User;
use std::alloc::Global;

// What is decided of a message of the actor, where the session that it names is here.
fn decide_command(
    alloc: Global,
    state: &State,
    who: &Who<'_>,
    message: &UserMessage,
) -> Result<Verdict, OutOfMemory>
    requires actor { IsTrue (list_any (has_number who.now.session) state.now.roster.sessions) }
    requires named { IsTrue (names_there state.now message.now) }
    ensures { IfOk result (λ verdict. verdict ≡ command_verdict state.now (actor_of who.now)
        who.now.session (command_of who.now.session message.now)) }
{
    match message {
        UserMessage::Join(message, _) => decide_renewal(alloc, who.session, message),
        UserMessage::User(message) => decide_change(alloc, state, who, message),
        UserMessage::Kick(message) => decide_kick(alloc, state, who, message),
        UserMessage::Text(message) => decide_text(alloc, state, who, message),
        UserMessage::Target(message) => decide_target(alloc, who.session, message),
        UserMessage::Query(message) => decide_query(alloc, state, who, message),
        UserMessage::Leave => Ok(Verdict::Accepted(Edit::Leave {
            session: who.session,
        })),
    }
}

// The same, where the session asks with these tokens too, for this once.
fn decide_with_tokens(
    alloc: Global,
    state: &State,
    user: &User,
    message: &UserMessage,
    tokens: &[Text],
) -> Result<Verdict, OutOfMemory>
    requires actor { session_of state.now.roster user.now.session ≡ Some user.now }
    requires named { IsTrue (names_there state.now message.now) }
    ensures { IfOk result (λ verdict. verdict ≡ command_verdict state.now
        (actor_with state.now.tree user.now (tokens_for_once user.now.tokens tokens.now))
        user.now.session (command_of user.now.session message.now)) }
{
    let home = home_of(state.tree(), user);
    if tokens.is_empty() {
        let who = who_is(user, home.as_slice());
        return decide_command(alloc, state, &who, message);
    }
    let tokens = tokens_for_once(alloc, user.tokens.as_slice(), tokens)?;
    let who = who_with(user, tokens.as_slice(), home.as_slice());
    decide_command(alloc, state, &who, message)
}

// The tokens that a message brings for itself alone.
fn tokens_brought(message: &UserMessage) -> &[Text]
    ensures { result.now ≡ tokens_brought message.now }
{
    match message {
        UserMessage::User(message) => message.temporary_access_tokens.as_slice(),
        _ => &[],
    }
}

// What is decided of a message of a session.
fn decide_for(
    alloc: Global,
    state: &State,
    actor: SessionId,
    message: &UserMessage,
) -> Result<Verdict, OutOfMemory>
    ensures decided { IfOk result
        (λ verdict. verdict ≡ user_verdict state.now (Some actor) message.now) }
    ensures fits { IfOk result (FitsWhereAccepted state.now) }
{
    let Some(user) = state.roster().session(actor) else {
        return Ok(Verdict::ignored(Reason::Gone));
    };
    if takes_no_edits(state) {
        return Ok(Verdict::ignored(Reason::Gone));
    }
    if let Some(reason) = reason_to_ignore(state, actor, message) {
        return Ok(Verdict::ignored(reason));
    }
    decide_with_tokens(alloc, state, user, message, tokens_brought(message))
}

// What is decided of a message of a connection that has no session.
fn decide_for_nobody(
    alloc: Global,
    state: &State,
    message: &UserMessage,
) -> Result<Verdict, OutOfMemory>
    ensures { IfOk result (λ verdict. verdict ≡ user_verdict state.now None message.now) }
{
    if takes_no_edits(state) {
        return Ok(Verdict::ignored(Reason::Gone));
    }
    match message {
        UserMessage::Leave => Ok(Verdict::ignored(Reason::Gone)),
        UserMessage::Join(login, version) => {
            if is_too_long(message) {
                return Ok(Verdict::ignored(Reason::TooLong));
            }
            decide_login(alloc, state, *version, login)
        }
        _ => Ok(Verdict::ignored(Reason::NotLoggedIn)),
    }
}

/// What is decided of a message of a session, or of a connection that has none. It is decided whole, and
/// in this order.
///
/// It is ignored where the session is gone or no edit is taken any more, where a connection without a
/// session asks for anything but a login, where its payload as this server encodes it has more than 65,000
/// bytes, where a session or a channel that it names is not there (those of a text or of a voice target
/// need not be), where it sets for another session what each sets for itself, or where a text is empty.
/// Then the first permission that is missing is named, with its channel; then the first limit that applies,
/// by its type. Else it is an edit, which fits the state, or the answer to a query. The state stays as it
/// is.
pub fn decide_user(
    alloc: Global,
    state: &State,
    actor: Option<SessionId>,
    message: &UserMessage,
) -> Result<Verdict, OutOfMemory>
    ensures decided { IfOk result (λ verdict. verdict ≡ user_verdict state.now actor message.now) }
    ensures fits { IfOk result (FitsWhereAccepted state.now) }
{
    match actor {
        Some(actor) => decide_for(alloc, state, actor, message),
        None => decide_for_nobody(alloc, state, message),
    }
}
