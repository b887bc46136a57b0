//! Channels that go.

ghost use Rattle.std.specs.Prelude.{◌≡◌};
ghost use Rattle.mum_policy.specs.Member.{actor_of};
ghost use Rattle.mum_rules_tree.specs.Asked.{Command};
ghost use Rattle.mum_rules_tree.specs.Verdict.{command_verdict};

use crate::needs::need;
use mum_base::{ChannelId, DenyType, Perm};
use mum_policy::Who;
use mum_state::{Edit, State, Verdict};

// What is decided of the removal of a channel.
pub(crate) fn decide_removal(state: &State, who: &Who<'_>, id: ChannelId) -> Verdict
    ensures { result
        ≡ command_verdict state.now (actor_of who.now) who.now.session (Command.remove id) }
{
    if let Err(lack) = need(state, who, Perm::WRITE, id) {
        return lack.verdict();
    }
    if id.0 == ChannelId::ROOT.0 {
        return Verdict::refused(DenyType::Text);
    }
    Verdict::Accepted(Edit::RemoveChannel {
        id,
        actor: who.session,
    })
}
