//! Groups and access control lists: queries for them, and others in their place.

ghost use Rattle.std.specs.Prelude.{◌≡◌, ◌∷◌, IfOk, []};
ghost use Rattle.mum_policy.specs.Member.{actor_of};
ghost use Rattle.mum_rules_tree.specs.Asked.{Command};
ghost use Rattle.mum_rules_tree.specs.Decision.{all_met};
ghost use Rattle.mum_rules_tree.specs.Needs.{need_to_rule};
ghost use Rattle.mum_rules_tree.specs.Outcome.{answer_to_query};
ghost use Rattle.mum_rules_tree.specs.Verdict.{command_verdict};

use crate::answer::answer_frame;
use crate::channel::parent_of;
use crate::needs::{Lack, may};
use crate::policy::{limit_of_policy, policy_asked};
use mum_base::{ChannelId, OutOfMemory, Perm, Reason};
use mum_msg_rule::Acl;
use mum_policy::{Policies, Who};
use mum_state::{Edit, State, Verdict};
use std::alloc::Global;

// Write on the channel or on its parent. A denial names the channel.
fn need_to_rule(state: &State, who: &Who<'_>, id: ChannelId) -> Result<(), Lack>
    ensures { result
        ≡ all_met state.now (need_to_rule state.now.tree (actor_of who.now) id ∷ []) }
{
    if may(state, who, Perm::WRITE, id)
        || may(state, who, Perm::WRITE, parent_of(state.tree(), id))
    {
        Ok(())
    } else {
        Err(Lack {
            perm: Perm::WRITE,
            channel: id,
        })
    }
}

fn answer_to_query(alloc: Global, state: &State, id: ChannelId) -> Result<Verdict, OutOfMemory>
    ensures { IfOk result (λ verdict. verdict ≡ answer_to_query state.now id) }
{
    match state.policy(id) {
        Some(policy) => Ok(Verdict::Answer(answer_frame(alloc, id, policy)?)),
        None => Ok(Verdict::ignored(Reason::NotThere)),
    }
}

// What is decided of a query.
pub(crate) fn decide_query(
    alloc: Global,
    state: &State,
    who: &Who<'_>,
    id: ChannelId,
) -> Result<Verdict, OutOfMemory>
    ensures { IfOk result (λ verdict. verdict
        ≡ command_verdict state.now (actor_of who.now) who.now.session (Command.query id)) }
{
    if let Err(lack) = need_to_rule(state, who, id) {
        return Ok(lack.verdict());
    }
    answer_to_query(alloc, state, id)
}

// What is decided of another policy.
pub(crate) fn decide_policy(
    alloc: Global,
    state: &State,
    who: &Who<'_>,
    id: ChannelId,
    message: &Acl,
) -> Result<Verdict, OutOfMemory>
    ensures { IfOk result (λ verdict. verdict
        ≡ command_verdict state.now (actor_of who.now) who.now.session (Command.set id message.now)) }
{
    if let Err(lack) = need_to_rule(state, who, id) {
        return Ok(lack.verdict());
    }
    let policy = policy_asked(alloc, message)?;
    if let Some(kind) = limit_of_policy(&policy) {
        return Ok(Verdict::refused(kind));
    }
    Ok(Verdict::Accepted(Edit::SetAcl {
        channel: id,
        actor: Some(who.session),
        policy,
    }))
}
