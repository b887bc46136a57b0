//! Other parts of a channel.

ghost use Rattle.std.specs.Prelude.{◌≡◌, ◌∷◌, ◌++◌, ◌||◌, IfOk, Some, IsTrue, [], map};
ghost use Rattle.std.specs.List.{list_any};
ghost use Rattle.std.specs.Option.{option_copied};
ghost use Rattle.mum_policy.specs.Member.{actor_of};
ghost use Rattle.mum_state.specs.Fits.{holds_of_given};
ghost use Rattle.mum_state.specs.Proper.{is_name, is_text};
ghost use Rattle.mum_tree.specs.Change.{change_of, names_there};
ghost use Rattle.mum_rules_tree.specs.Asked.{names_there as message_names_there};
ghost use Rattle.mum_rules_tree.specs.Codes.{is_of_links, is_of_root};
ghost use Rattle.mum_rules_tree.specs.Asked.{Command, change_asked, describes, is_other, linked_others, new_name, new_parent, others};
ghost use Rattle.mum_rules_tree.specs.Decision.{all_met, first_standing, need, AreMet};
ghost use Rattle.mum_rules_tree.specs.Limits.{limit_by_cause, limits_of_change, without_parting};
ghost use Rattle.mum_rules_tree.specs.Needs.{needs, needs_to_describe, needs_to_link, needs_to_move};
ghost use Rattle.mum_rules_tree.specs.Outcome.{edit_to_change};
ghost use Rattle.mum_rules_tree.specs.Verdict.{command_verdict};

use crate::channel::{channel_numbered, name_of, parent_of};
use crate::deny::deny_type_of;
use crate::message::TreeMessage;
use crate::met::{MetPlaces, need_once};
use crate::needs::{Lack, need};
use mum_base::{
    ChannelId, DenyType, Items, OutOfMemory, Perm, SessionId, Text, check_name, check_text,
};
use mum_msg_state::ChannelState;
use mum_policy::Who;
use mum_state::{Edit, State, Verdict};
use mum_tree::{ChannelChange, Tree, TreeFault};
use std::alloc::Global;

// The name that is given, where it is not the channel's own.
fn new_name<'a>(tree: &Tree, id: ChannelId, message: &'a ChannelState) -> Option<&'a Text>
    ensures { option_copied result ≡ new_name tree.now id message.now }
{
    let name = message.name.as_ref()?;
    if name.as_str() == name_of(tree, id) {
        None
    } else {
        Some(name)
    }
}

// The parent that is given, where it is not the channel's own.
fn new_parent(tree: &Tree, id: ChannelId, message: &ChannelState) -> Option<ChannelId>
    ensures { result ≡ new_parent tree.now id message.now }
{
    let parent = message.parent?;
    if parent == parent_of(tree, id).0 {
        None
    } else {
        Some(ChannelId(parent))
    }
}

// The other channels of these, in their order.
fn others(alloc: Global, id: ChannelId, numbers: &[u32]) -> Result<Items<ChannelId>, OutOfMemory>
    ensures { IfOk result (λ channels. channels ≡ others id numbers.now) }
{
    let mut channels = Vec::with_capacity(alloc, numbers.len())?;
    for number in numbers {
        if *number != id.0 {
            channels.push(channel_numbered(*number))?;
        }
    }
    Ok(Items::from_vec(channels))
}

fn describes(message: &ChannelState) -> bool
    ensures { result ≡ describes message.now }
{
    message.name.is_some()
        || message.description.is_some()
        || message.position.is_some()
        || message.max_users.is_some()
}

fn need_to_describe(
    state: &State,
    who: &Who<'_>,
    id: ChannelId,
    message: &ChannelState,
) -> Result<(), Lack>
    ensures { result
        ≡ all_met state.now (needs_to_describe (actor_of who.now) id message.now) }
{
    if describes(message) {
        need(state, who, Perm::WRITE, id)
    } else {
        Ok(())
    }
}

fn need_to_move(
    state: &State,
    who: &Who<'_>,
    id: ChannelId,
    parent: Option<ChannelId>,
) -> Result<(), Lack>
    ensures { result ≡ all_met state.now (needs_to_move (actor_of who.now) id parent) }
{
    let Some(parent) = parent else {
        return Ok(());
    };
    need(state, who, Perm::WRITE, id)?;
    need(state, who, Perm::MAKE_CHANNEL, parent)
}

// LinkChannel on each other channel of these.
fn need_on_others(
    state: &State,
    who: &Who<'_>,
    id: ChannelId,
    numbers: &[u32],
    met: &mut MetPlaces,
) -> Result<(), Lack>
    requires { AreMet state.now (actor_of who.now) Perm.LINK_CHANNEL met.old.marks }
    ensures value { result ≡ all_met state.now
        (map (need (actor_of who.now) Perm.LINK_CHANNEL) (others id numbers.now)) }
    ensures kept { AreMet state.now (actor_of who.now) Perm.LINK_CHANNEL met.new.marks }
{
    for number in numbers {
        if *number != id.0 {
            need_once(
                state,
                who,
                Perm::LINK_CHANNEL,
                channel_numbered(*number),
                met,
            )?;
        }
    }
    Ok(())
}

// Whether another channel is among these.
fn has_other(id: ChannelId, numbers: &[u32]) -> bool
    ensures { result ≡ list_any (is_other id) numbers.now }
{
    numbers.iter().any(|number| *number != id.0)
}

// Whether another channel is linked or unlinked.
fn links_other(id: ChannelId, message: &ChannelState) -> bool
    ensures { result ≡ (list_any (is_other id) message.now.links_add
        || list_any (is_other id) message.now.links_remove) }
{
    has_other(id, message.links_add.as_slice()) || has_other(id, message.links_remove.as_slice())
}

// LinkChannel on the channel, then on each other one.
fn need_on_linked(
    state: &State,
    who: &Who<'_>,
    id: ChannelId,
    message: &ChannelState,
) -> Result<(), Lack>
    ensures { result ≡ all_met state.now (need (actor_of who.now) Perm.LINK_CHANNEL id ∷ []
        ++ map (need (actor_of who.now) Perm.LINK_CHANNEL) (others id message.now.links_add)
        ++ map (need (actor_of who.now) Perm.LINK_CHANNEL) (others id message.now.links_remove)) }
{
    need(state, who, Perm::LINK_CHANNEL, id)?;
    let mut met = MetPlaces::none();
    need_on_others(state, who, id, message.links_add.as_slice(), &mut met)?;
    need_on_others(state, who, id, message.links_remove.as_slice(), &mut met)
}

fn need_to_link(
    state: &State,
    who: &Who<'_>,
    id: ChannelId,
    message: &ChannelState,
) -> Result<(), Lack>
    ensures { result ≡ all_met state.now
        (needs_to_link (actor_of who.now) id (linked_others id message.now)) }
{
    if links_other(id, message) {
        need_on_linked(state, who, id, message)
    } else {
        Ok(())
    }
}

// Whether the name that is given, if one is, is a name.
fn is_name_given(name: Option<&str>) -> bool
    ensures { result ≡ holds_of_given is_name (option_copied name.entry) }
{
    match name {
        Some(name) => check_name(name).is_ok(),
        None => true,
    }
}

/// Whether the text that is given, if one is, is not too long.
pub fn is_text_given(text: Option<&Text>) -> bool
    ensures { result ≡ holds_of_given is_text (option_copied text.entry) }
{
    match text {
        Some(text) => check_text(text.as_str()).is_ok(),
        None => true,
    }
}

// Whether it is the root that stays as it is.
fn is_of_root(cause: Option<TreeFault>) -> bool
    ensures { result ≡ is_of_root cause }
{
    match cause {
        Some(TreeFault::RootFixed) => true,
        _ => false,
    }
}

// Whether nothing is said against the change but for its links, if anything is.
fn is_of_links(cause: Option<TreeFault>) -> bool
    ensures { result ≡ is_of_links cause }
{
    match cause {
        Some(TreeFault::LinkCount) | None => true,
        _ => false,
    }
}

// The first limit that applies, by what the tree says against a change, and whether its name and its
// description are as they may be.
fn limit_by_cause(cause: Option<TreeFault>, named: bool, short: bool) -> Option<DenyType>
    ensures { result ≡ limit_by_cause cause named short }
{
    if !is_of_root(cause) && !named {
        return Some(DenyType::ChannelName);
    }
    if is_of_links(cause) && !short {
        return Some(DenyType::TextTooLong);
    }
    match cause {
        Some(fault) => Some(deny_type_of(fault)),
        None => None,
    }
}

// The first limit that forbids other parts of a channel, of which no link goes.
fn limit_of_change(tree: &Tree, id: ChannelId, change: &ChannelChange<'_>) -> Option<DenyType>
    requires there { IsTrue (names_there tree.now id (change_of change.now)) }
    requires none_goes { change.now.links_remove.now ≡ [] }
    ensures { result ≡ first_standing (limits_of_change tree.now id (change_of change.now)) }
{
    let cause = tree.cause_against_editing(id, change);
    let named = is_name_given(change.name);
    let short = is_text_given(change.description);
    limit_by_cause(cause, named, short)
}

fn need_for_edit(
    state: &State,
    who: &Who<'_>,
    id: ChannelId,
    message: &ChannelState,
) -> Result<(), Lack>
    ensures { result
        ≡ all_met state.now (needs state.now.tree (actor_of who.now) (Command.edit id message.now)) }
{
    need_to_describe(state, who, id, message)?;
    need_to_move(state, who, id, new_parent(state.tree(), id, message))?;
    need_to_link(state, who, id, message)
}

fn str_of(text: Option<&Text>) -> Option<&str>
    ensures { option_copied result ≡ option_copied text.entry }
{
    match text {
        Some(text) => Some(text.as_str()),
        None => None,
    }
}

// What becomes another of the channel, before any link goes. The tree takes links without a copy.
fn change_asked<'a>(
    tree: &Tree,
    id: ChannelId,
    message: &'a ChannelState,
    links_add: &'a [ChannelId],
) -> ChannelChange<'a>
    ensures change { change_of result
        ≡ record (without_parting (change_asked tree.now id message.now)) { links_add = links_add.now } }
    ensures none_goes { result.links_remove.now ≡ [] }
{
    ChannelChange {
        name: str_of(new_name(tree, id, message)),
        parent: new_parent(tree, id, message),
        description: message.description.as_ref(),
        position: message.position,
        max_users: message.max_users,
        links_add,
        links_remove: &[],
    }
}

fn edit_to_change(
    alloc: Global,
    tree: &Tree,
    actor: SessionId,
    id: ChannelId,
    message: &ChannelState,
) -> Result<Edit, OutOfMemory>
    ensures { IfOk result (λ edit. edit ≡ edit_to_change tree.now actor id message.now) }
{
    Ok(Edit::EditChannel {
        id,
        actor: Some(actor),
        name: Text::share_given(new_name(tree, id, message))?,
        parent: new_parent(tree, id, message),
        description: Text::share_given(message.description.as_ref())?,
        position: message.position,
        max_users: message.max_users,
        links_add: others(alloc, id, message.links_add.as_slice())?,
        links_remove: others(alloc, id, message.links_remove.as_slice())?,
    })
}

// The first limit that forbids an edit, where all that it names is there.
fn limit_of_edit(
    alloc: Global,
    tree: &Tree,
    id: ChannelId,
    message: &ChannelState,
) -> Result<Option<DenyType>, OutOfMemory>
    requires { IsTrue (names_there tree.now id (change_asked tree.now id message.now)) }
    ensures { IfOk result (λ limit. limit
        ≡ first_standing (limits_of_change tree.now id (change_asked tree.now id message.now))) }
{
    let links_add = others(alloc, id, message.links_add.as_slice())?;
    let change = change_asked(tree, id, message, links_add.as_slice());
    Ok(limit_of_change(tree, id, &change))
}

// What is decided of other parts of a channel, where all that the message names is there.
pub(crate) fn decide_edit(
    alloc: Global,
    state: &State,
    who: &Who<'_>,
    id: ChannelId,
    message: &ChannelState,
) -> Result<Verdict, OutOfMemory>
    requires asked { message.now.channel_id ≡ Some id.0 }
    requires named { IsTrue (message_names_there state.now.tree (TreeMessage.State message.now)) }
    ensures { IfOk result (λ verdict. verdict
        ≡ command_verdict state.now (actor_of who.now) who.now.session (Command.edit id message.now)) }
{
    if let Err(lack) = need_for_edit(state, who, id, message) {
        return Ok(lack.verdict());
    }
    let tree = state.tree();
    if let Some(kind) = limit_of_edit(alloc, tree, id, message)? {
        return Ok(Verdict::refused(kind));
    }
    let edit = edit_to_change(alloc, tree, who.session, id, message)?;
    Ok(Verdict::Accepted(edit))
}
