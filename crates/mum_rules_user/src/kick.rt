//! Who is kicked.

ghost use Rattle.std.specs.Prelude.{◌≡◌, IfOk};
ghost use Rattle.mum_policy.specs.Member.{actor_of};
ghost use Rattle.mum_rules_tree.specs.Decision.{all_met};
ghost use Rattle.mum_rules_user.specs.Asked.{Command, session_or};
ghost use Rattle.mum_rules_user.specs.Needs.{is_ban, needs_to_kick};
ghost use Rattle.mum_rules_user.specs.Verdict.{command_verdict};

use crate::moving::may_either;
use crate::session::{is_protected, session_or};
use mum_base::{ChannelId, DenyType, OutOfMemory, Perm, Text};
use mum_msg_state::UserRemove;
use mum_policy::Who;
use mum_rules_tree::{Lack, need};
use mum_state::{Edit, State, Verdict};
use std::alloc::Global;

fn is_ban(message: &UserRemove) -> bool
    ensures { result ≡ is_ban message.now }
{
    message.ban.unwrap_or(false)
}

// Kick or Ban on the root, of which a denial names Kick; and then, for a ban, Ban.
fn need_to_kick(state: &State, who: &Who<'_>, message: &UserRemove) -> Result<(), Lack>
    ensures { result ≡ all_met state.now (needs_to_kick (actor_of who.now) message.now) }
{
    if !may_either(state, who, Perm::KICK, Perm::BAN, ChannelId::ROOT) {
        return Err(Lack {
            perm: Perm::KICK,
            channel: ChannelId::ROOT,
        });
    }
    if is_ban(message) {
        need(state, who, Perm::BAN, ChannelId::ROOT)
    } else {
        Ok(())
    }
}

// What is decided of putting somebody out.
pub(crate) fn decide_kick(
    alloc: Global,
    state: &State,
    who: &Who<'_>,
    message: &UserRemove,
) -> Result<Verdict, OutOfMemory>
    ensures { IfOk result (λ verdict. verdict ≡ command_verdict state.now (actor_of who.now)
        who.now.session
        (Command.kick (session_or who.now.session message.now.session) message.now)) }
{
    let session = session_or(who.session, message.session);
    if let Err(lack) = need_to_kick(state, who, message) {
        return Ok(lack.verdict());
    }
    if is_protected(state.roster(), who.session, session) {
        return Ok(Verdict::refused(DenyType::SuperUser));
    }
    Ok(Verdict::Accepted(Edit::Kick {
        session,
        actor: who.session,
        reason: Text::share_or_empty(alloc, &message.reason)?,
        ban: is_ban(message),
    }))
}
