//! Listening to channels from outside.

ghost use Rattle.std.specs.Prelude.{◌≡◌, IsTrue, map};
ghost use Rattle.std.specs.List.{list_any};
ghost use Rattle.mum_base.specs.declared.perm.TheConstants.Perm.{LISTEN};
ghost use Rattle.mum_policy.specs.Member.{actor_of};
ghost use Rattle.mum_users.specs.Edit.{user_edit_of};
ghost use Rattle.mum_users.specs.State.{has_number};
ghost use Rattle.mum_rules_tree.specs.Decision.{all_met, first_standing, need};
ghost use Rattle.mum_rules_user.specs.Asked.{channels};
ghost use Rattle.mum_rules_user.specs.Codes.{listening_type_of};
ghost use Rattle.mum_rules_user.specs.Limits.{limits_of_listening};

use mum_base::{ChannelId, DenyType, Perm, SessionId};
use mum_policy::Who;
use mum_rules_tree::{Lack, MetPlaces, channel_numbered, need_once};
use mum_state::State;
use mum_users::{ChannelList, FlagChange, Roster, UserChange, UserFault};
use std::alloc::Global;

// No flag changes.
const NO_FLAGS: FlagChange = FlagChange {
    mute: None,
    deaf: None,
    suppress: None,
    self_mute: None,
    self_deaf: None,
    priority: None,
    recording: None,
};

// Listen in each of these channels.
pub(crate) fn need_to_listen(state: &State, who: &Who<'_>, numbers: &[u32]) -> Result<(), Lack>
    ensures { result ≡ all_met state.now
        (map (need (actor_of who.now) LISTEN) (channels numbers.now)) }
{
    let mut met = MetPlaces::none();
    for number in numbers {
        need_once(
            state,
            who,
            Perm::LISTEN,
            channel_numbered(*number),
            &mut met,
        )?;
    }
    Ok(())
}

// Nothing changes but that a session listens to these channels too, and leaves those.
fn listening_too<'a>(listen: &'a [ChannelId], unlisten: &'a ChannelList) -> UserChange<'a>
    ensures listen { (user_edit_of result).listen ≡ listen.now }
    ensures unlisten { (user_edit_of result).unlisten ≡ unlisten.now }
{
    UserChange {
        channel: None,
        flags: NO_FLAGS,
        comment: None,
        context: None,
        listen,
        unlisten,
    }
}

// For what listening is denied that the roster would refuse.
fn listening_type_of(fault: UserFault) -> DenyType
    ensures { result ≡ listening_type_of fault }
{
    match fault {
        UserFault::ListenerLimit => DenyType::ChannelListenerLimit,
        UserFault::UserListenerLimit => DenyType::UserListenerLimit,
        _ => DenyType::Text,
    }
}

// The first limit that forbids listening to these channels too. What the session leaves by the
// same message does not make room.
pub(crate) fn limit_of_listening(
    alloc: Global,
    roster: &Roster,
    session: SessionId,
    listen: &[ChannelId],
) -> Option<DenyType>
    requires { IsTrue (list_any (has_number session) roster.now.sessions) }
    ensures { result ≡ first_standing (limits_of_listening roster.now session listen.now) }
{
    let none = ChannelList::new(alloc);
    let change = listening_too(listen, &none);
    match roster.cause_against_editing(session, &change) {
        Some(fault) => Some(listening_type_of(fault)),
        None => None,
    }
}
