//! Whom a command removes with a ban, and why.

ghost use Rattle.std.specs.Prelude.{◌≡◌};
ghost use Rattle.mum_owner.specs.Banning.{banned_by, banned_in, reason_in};

use mum_base::SessionId;
use mum_rules_user::UserMessage;
use mum_session::{Asked, Command};

// The session that a message removes with a ban, if it does: that of the actor, where it names none.
fn banned_by(actor: Option<SessionId>, what: &Asked) -> Option<SessionId>
    ensures { result ≡ banned_by actor what.now }
{
    let Asked::User(UserMessage::Kick(message)) = what else {
        return None;
    };
    if !message.ban.unwrap_or(false) {
        return None;
    }
    match message.session {
        Some(number) => Some(SessionId(number)),
        None => actor,
    }
}

// The session that a command removes with a ban, if it does.
pub(crate) fn banned_in(command: &Command) -> Option<SessionId>
    ensures { result ≡ banned_in command.now }
{
    banned_by(command.session, &command.what)
}

// The reason that a removal gives, or none.
pub(crate) fn reason_in(what: &Asked) -> &str
    ensures { result.now ≡ reason_in what.now }
{
    match what {
        Asked::User(UserMessage::Kick(message)) => match &message.reason {
            Some(reason) => reason.as_str(),
            None => "",
        },
        _ => "",
    }
}
