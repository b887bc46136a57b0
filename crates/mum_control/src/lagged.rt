//! The sessions whose box was full.

ghost use Rattle.std.specs.Prelude.{◌≡◌, ◌&&◌, ◌≤◌, filter, not};
ghost use Rattle.std.specs.Vec.{vec_capacity};
ghost use Rattle.mum_base.specs.declared.number.TheConstants.{SLOTS};
ghost use Rattle.mum_state.specs.Proper.{IsProper};
ghost use Rattle.mum_control.specs.Kept.{IsListing, is_listed, is_there};
ghost use Rattle.mum_control.specs.Posting.{with_lagging};

use crate::sessions::is_there;
use mum_base::SessionId;
use mum_state::State;

fn is_listed(sessions: &[SessionId], session: SessionId) -> bool
    ensures { result ≡ is_listed sessions.now session }
{
    sessions.contains(&session)
}

// Whether a session is in the state and not listed yet.
fn is_to_list(sessions: &[SessionId], state: &State, session: SessionId) -> bool
    ensures value { result ≡ (is_there state.now session && not (is_listed sessions.now session)) }
    ensures proper { IsProper state.now }
{
    is_there(state, session) && !is_listed(sessions, session)
}

// Lists a session, once, while it is in the state. It takes no memory.
pub(crate) fn list_lagging(sessions: &mut Vec<SessionId>, state: &State, session: SessionId)
    requires room { SLOTS ≤ vec_capacity sessions.old }
    requires listing { IsListing state.now sessions.old.items }
    ensures items { sessions.new.items ≡ with_lagging state.now sessions.old.items session }
    ensures listing { IsListing state.now sessions.new.items }
    ensures room { vec_capacity sessions.new ≡ vec_capacity sessions.old }
{
    if !is_to_list(sessions.as_slice(), state, session) {
        return;
    }
    sessions.push_reserved(session);
}

// Leaves out the sessions that are not in the state.
pub(crate) fn keep_present(sessions: &mut Vec<SessionId>, state: &State)
    ensures items { sessions.new.items ≡ filter (is_there state.now) sessions.old.items }
    ensures room { vec_capacity sessions.new ≡ vec_capacity sessions.old }
{
    sessions.retain(|session| is_there(state, *session));
}
