//! Whom an edit can make another.

ghost use Rattle.std.specs.Prelude.{◌≡◌};
ghost use Rattle.mum_notify.specs.Users.{watch_given, watch_own, whom_to_watch};

use mum_base::SessionId;
use mum_state::Edit;

// Whose row, or whose listening, an edit can change.
#[derive(Clone, Copy)]
pub(crate) enum Watch {
    Nobody,
    One(SessionId),
    Everybody,
}

fn watch_given(session: Option<SessionId>) -> Watch
    ensures { result ≡ watch_given session }
{
    match session {
        Some(session) => Watch::One(session),
        None => Watch::Nobody,
    }
}

// The session whose own change the edit is.
fn watch_own(edit: &Edit) -> Watch
    ensures { result ≡ watch_own edit.now }
{
    match *edit {
        Edit::RemoveChannel { .. } | Edit::SetAcl { .. } => Watch::Everybody,
        Edit::SetTokens { session, .. } | Edit::SetUser { session, .. } => Watch::One(session),
        Edit::MakeChannel {
            temporary,
            maker,
            ..
        } => watch_given(if temporary { maker } else { None }),
        _ => Watch::Nobody,
    }
}

// Whom the edit can make another, where it takes a channel away or not.
pub(crate) fn whom_to_watch(edit: &Edit, closes: bool) -> Watch
    ensures { result ≡ whom_to_watch edit.now closes }
{
    if closes {
        Watch::Everybody
    } else {
        watch_own(edit)
    }
}
