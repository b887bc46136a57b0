//! The edits of what is given of a channel beside its seat.

ghost use Rattle.std.specs.Prelude.{◌≡◌, ◌++◌, OnOk};
ghost use Rattle.serde_json.specs.View.{view};
ghost use Rattle.mum_config.specs.Channel.{info_of, policy_edits, root_edits};
ghost use Rattle.mum_document.specs.Given.{given_policy, policy_rows};
ghost use Rattle.mum_document.specs.Object.{rows_fault};
ghost use Rattle.mum_document.specs.Reading.{Reads};

use mum_base::{ChannelId, Items, OutOfMemory};
use mum_document::{DocumentError, GivenInfo, GivenPolicy, Object, or_empty};
use mum_policy::ChannelPolicy;
use mum_state::Edit;
use mum_tree::ChannelInfo;
use std::alloc::Global;

// Info in which what is not given is plain.
pub(crate) fn info_of(alloc: Global, given: GivenInfo) -> ChannelInfo
    ensures { result ≡ info_of given }
{
    ChannelInfo {
        description: or_empty(alloc, given.description),
        position: given.position.unwrap_or(0),
        max_users: given.max_users.unwrap_or(0),
    }
}

// Adds the edit of the root that sets what is given, if something is.
pub(crate) fn push_root_edit(
    alloc: Global,
    given: GivenInfo,
    edits: &mut Vec<Edit>,
) -> Result<(), OutOfMemory>
    ensures { OnOk result (edits.new.items ≡ edits.old.items ++ root_edits given) }
{
    let GivenInfo {
        position,
        max_users,
        description,
    } = given;
    if position.is_some() || max_users.is_some() || description.is_some() {
        edits.push(Edit::EditChannel {
            id: ChannelId::ROOT,
            actor: None,
            name: None,
            parent: None,
            description,
            position,
            max_users,
            links_add: Items::new(alloc),
            links_remove: Items::new(alloc),
        })?;
    }
    Ok(())
}

// Adds the edit that gives the channel this policy, if something of one is given.
fn push_policy(
    alloc: Global,
    given: GivenPolicy,
    channel: ChannelId,
    edits: &mut Vec<Edit>,
) -> Result<(), OutOfMemory>
    ensures { OnOk result (edits.new.items ≡ edits.old.items ++ policy_edits channel given) }
{
    let GivenPolicy {
        inherit_acls,
        groups,
        acls,
    } = given;
    if inherit_acls.is_some() || groups.is_some() || acls.is_some() {
        edits.push(Edit::SetAcl {
            channel,
            actor: None,
            policy: ChannelPolicy {
                inherit_acls: inherit_acls.unwrap_or(true),
                groups: groups.unwrap_or(Items::new(alloc)),
                acls: acls.unwrap_or(Items::new(alloc)),
            },
        })?;
    }
    Ok(())
}

// Adds the edit of the policy that an object gives the channel, if it gives something of one.
pub(crate) fn add_policy(
    object: &Object<'_>,
    channel: ChannelId,
    edits: &mut Vec<Edit>,
) -> Result<(), DocumentError>
    ensures reads { Reads (rows_fault object.now.dot.now (policy_rows (view object.now.value.now)))
        tt result }
    ensures edits { OnOk result (edits.new.items
        ≡ edits.old.items ++ policy_edits channel (given_policy (view object.now.value.now))) }
{
    let policy = GivenPolicy::read(object)?;
    push_policy(object.alloc, policy, channel, edits)?;
    Ok(())
}
