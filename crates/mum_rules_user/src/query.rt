//! Queries for permissions.

ghost use Rattle.std.specs.Prelude.{◌≡◌, IfOk};
ghost use Rattle.mum_policy.specs.Member.{actor_of};
ghost use Rattle.mum_rules_tree.specs.Asked.{channel_or_root};
ghost use Rattle.mum_rules_user.specs.Asked.{Command};
ghost use Rattle.mum_rules_user.specs.Outcome.{answer_frame};
ghost use Rattle.mum_rules_user.specs.Verdict.{command_verdict};

use mum_base::{ChannelId, OutOfMemory, Perm, Reason};
use mum_frame::Frame;
use mum_frame::kind::PERMISSION_QUERY;
use mum_msg_rule::{Message, PermissionQuery};
use mum_policy::Who;
use mum_rules_tree::channel_or_root;
use mum_state::{State, Verdict};
use std::alloc::Global;

// The frame that reports the permissions in a channel.
fn answer_frame(alloc: Global, id: ChannelId, held: Perm) -> Result<Frame, OutOfMemory>
    ensures { IfOk result (λ frame. frame ≡ answer_frame id held.0) }
{
    let told = PermissionQuery {
        channel_id: Some(id.0),
        permissions: Some(held.0),
        flush: None,
    };
    Ok(Frame {
        kind: PERMISSION_QUERY,
        payload: told.encode(alloc)?,
    })
}

// What is decided of a query. It needs nothing.
pub(crate) fn decide_query(
    alloc: Global,
    state: &State,
    who: &Who<'_>,
    message: &PermissionQuery,
) -> Result<Verdict, OutOfMemory>
    ensures { IfOk result (λ verdict. verdict ≡ command_verdict state.now (actor_of who.now)
        who.now.session (Command.query (channel_or_root message.now.channel_id))) }
{
    let id = channel_or_root(message.channel_id);
    match state.granted_to(who, id) {
        Some(held) => Ok(Verdict::Answer(answer_frame(alloc, id, held)?)),
        None => Ok(Verdict::ignored(Reason::NotThere)),
    }
}
