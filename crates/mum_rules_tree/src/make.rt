//! New channels.

ghost use Rattle.std.specs.Prelude.{◌≡◌, IfOk, IsTrue};
ghost use Rattle.mum_policy.specs.Member.{actor_of};
ghost use Rattle.mum_tree.specs.Rows.{is_there};
ghost use Rattle.mum_rules_tree.specs.Asked.{Command, is_to_be_temporary, parent_of_new};
ghost use Rattle.mum_rules_tree.specs.Decision.{first_standing};
ghost use Rattle.mum_rules_tree.specs.Limits.{limits_of_new};
ghost use Rattle.mum_rules_tree.specs.Needs.{making};
ghost use Rattle.mum_rules_tree.specs.Outcome.{edit_to_make, info_of_new};
ghost use Rattle.mum_rules_tree.specs.Verdict.{command_verdict};

use crate::channel::{channel_or_root, new_number};
use crate::deny::deny_type_of;
use crate::needs::need;
use mum_base::{ChannelId, DenyType, OutOfMemory, Perm, SessionId, Text, check_name, check_text};
use mum_msg_state::ChannelState;
use mum_policy::Who;
use mum_state::{Edit, State, Verdict};
use mum_tree::{ChannelInfo, Tree};
use std::alloc::Global;

fn is_to_be_temporary(message: &ChannelState) -> bool
    ensures { result ≡ is_to_be_temporary message.now }
{
    message.temporary.unwrap_or(false)
}

// The permission to make it.
fn making(message: &ChannelState) -> Perm
    ensures { result ≡ making message.now }
{
    if is_to_be_temporary(message) {
        Perm::MAKE_TEMP_CHANNEL
    } else {
        Perm::MAKE_CHANNEL
    }
}

// The first limit that forbids a new channel.
fn limit_of_new(tree: &Tree, parent: ChannelId, name: &str, description: &str) -> Option<DenyType>
    requires { IsTrue (is_there tree.now.channels parent) }
    ensures { result
        ≡ first_standing (limits_of_new tree.now parent name.now description.now) }
{
    if check_name(name).is_err() {
        return Some(DenyType::ChannelName);
    }
    if let Some(fault) = tree.cause_against_adding(new_number(tree), parent, name) {
        return Some(deny_type_of(fault));
    }
    if tree.next_id().is_none() {
        return Some(DenyType::ChannelCountLimit);
    }
    if check_text(description).is_err() {
        return Some(DenyType::TextTooLong);
    }
    None
}

fn info_of_new(alloc: Global, message: &ChannelState) -> Result<ChannelInfo, OutOfMemory>
    ensures { IfOk result (λ info. info ≡ info_of_new message.now) }
{
    Ok(ChannelInfo {
        description: Text::share_or_empty(alloc, &message.description)?,
        position: message.position.unwrap_or(0),
        max_users: message.max_users.unwrap_or(0),
    })
}

fn edit_to_make(
    alloc: Global,
    tree: &Tree,
    actor: SessionId,
    message: &ChannelState,
) -> Result<Edit, OutOfMemory>
    ensures { IfOk result (λ edit. edit ≡ edit_to_make tree.now actor message.now) }
{
    Ok(Edit::MakeChannel {
        id: new_number(tree),
        parent: channel_or_root(message.parent),
        name: Text::share_or_empty(alloc, &message.name)?,
        temporary: is_to_be_temporary(message),
        info: info_of_new(alloc, message)?,
        maker: Some(actor),
    })
}

// What is decided of a new channel whose parent is there.
pub(crate) fn decide_new(
    alloc: Global,
    state: &State,
    who: &Who<'_>,
    message: &ChannelState,
) -> Result<Verdict, OutOfMemory>
    requires { IsTrue (is_there state.now.tree.channels (parent_of_new message.now)) }
    ensures { IfOk result (λ verdict. verdict
        ≡ command_verdict state.now (actor_of who.now) who.now.session (Command.make message.now)) }
{
    let tree = state.tree();
    let parent = channel_or_root(message.parent);
    if let Err(lack) = need(state, who, making(message), parent) {
        return Ok(lack.verdict());
    }
    let name = Text::or_empty(&message.name);
    let description = Text::or_empty(&message.description);
    if let Some(kind) = limit_of_new(tree, parent, name, description) {
        return Ok(Verdict::refused(kind));
    }
    Ok(Verdict::Accepted(edit_to_make(alloc, tree, who.session, message)?))
}
