//! What is given of a channel beside its seat: its info, and its policy.

ghost use Rattle.std.specs.Prelude.{◌≡◌, ◌++◌};
ghost use Rattle.serde_json.specs.View.{view};
ghost use Rattle.mum_document.specs.Given.{acls_at, entry_list_rows, given_info, given_policy, group_list_rows, groups_at, info_rows, policy_rows};
ghost use Rattle.mum_document.specs.Object.{rows_fault};
ghost use Rattle.mum_document.specs.Reading.{Reads};

use crate::entry::read_entries;
use crate::fault::DocumentError;
use crate::group::read_groups;
use crate::object::Object;
use mum_base::name::TEXT_LIMIT;
use mum_base::{Items, Text};
use mum_policy::policy::{ENTRIES, GROUPS};
use mum_policy::{AclEntry, Group};

/// What is given of a channel's info.
#[derive(Drop)]
pub struct GivenInfo {
    pub position: Option<i32>,
    pub max_users: Option<u32>,
    pub description: Option<Text>,
}

/// What is given of a channel's policy.
#[derive(Drop)]
pub struct GivenPolicy {
    pub inherit_acls: Option<bool>,
    pub groups: Option<Items<Group>>,
    pub acls: Option<Items<AclEntry>>,
}

impl GivenInfo {
    /// The info at the keys `position`, `max_users` and `description`, each of which may be left out.
    pub fn read(object: &Object<'_>) -> Result<GivenInfo, DocumentError>
        ensures { Reads (rows_fault object.now.dot.now (info_rows (view object.now.value.now)))
            (given_info (view object.now.value.now)) result }
    {
        let position = object.signed("position")?;
        let max_users = object.number("max_users", 0, u32::MAX)?;
        let description = object.text("description", TEXT_LIMIT)?;
        Ok(GivenInfo {
            position,
            max_users,
            description,
        })
    }
}

// The groups at the key `groups`, if it is there.
fn groups_in(object: &Object<'_>) -> Result<Option<Items<Group>>, DocumentError>
    ensures { let value = view object.now.value.now in
        Reads (rows_fault object.now.dot.now (group_list_rows value)) (groups_at value) result }
{
    match object.list("groups", GROUPS)? {
        Some(values) => {
            let groups = object.at("groups", read_groups(object.alloc, values))?;
            Ok(Some(groups))
        }
        None => Ok(None),
    }
}

// The entries at the key `acls`, if it is there.
fn acls_in(object: &Object<'_>) -> Result<Option<Items<AclEntry>>, DocumentError>
    ensures { let value = view object.now.value.now in
        Reads (rows_fault object.now.dot.now (entry_list_rows value)) (acls_at value) result }
{
    match object.list("acls", ENTRIES)? {
        Some(values) => {
            let entries = object.at("acls", read_entries(object.alloc, values))?;
            Ok(Some(entries))
        }
        None => Ok(None),
    }
}

impl GivenPolicy {
    /// The policy at the keys `inherit_acls`, `groups` and `acls`, each of which may be left out.
    pub fn read(object: &Object<'_>) -> Result<GivenPolicy, DocumentError>
        ensures { Reads (rows_fault object.now.dot.now (policy_rows (view object.now.value.now)))
            (given_policy (view object.now.value.now)) result }
    {
        let inherit_acls = object.flag("inherit_acls")?;
        let groups = groups_in(object)?;
        let acls = acls_in(object)?;
        Ok(GivenPolicy {
            inherit_acls,
            groups,
            acls,
        })
    }
}
