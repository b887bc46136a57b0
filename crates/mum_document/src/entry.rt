//! Entries of a channel's access control list.

ghost use Rattle.std.specs.Prelude.{◌≡◌, ◌++◌, [], ◌∷◌, OnOk, codes, map};
ghost use Rattle.serde_json.specs.Find.{get};
ghost use Rattle.serde_json.specs.View.{view};
ghost use Rattle.mum_document.specs.Fault.{within};
ghost use Rattle.mum_document.specs.Object.{each_fault, rows_fault};
ghost use Rattle.mum_document.specs.Policy.{entry_fault, entry_of, lacks_whom, permissions_at, right_rows, rights_of, whom_of, whom_rows};
ghost use Rattle.mum_document.specs.Reading.{Reads};
ghost use Rattle.mum_document.specs.Value.{number_fault, wanted};

use crate::fault::{ConfigFault, DocumentError, at_place};
use crate::object::Object;
use crate::value::or_empty;
use mum_base::name::NAME_LIMIT;
use mum_base::{AccountId, Items, OutOfMemory, Perm, Text};
use mum_policy::{AclEntry, Whom};
use serde_json::Value;
use std::alloc::Global;
use std::mem::drop;

const KEYS: [&str; 6] = ["account", "group", "here", "subs", "grant", "deny"];

// Whether an entry speaks of nobody.
fn lacks_whom(object: &Object<'_>) -> bool
    ensures { result ≡ lacks_whom (view object.now.value.now) }
{
    !object.has("account") && !object.has("group")
}

// Whom an entry speaks of: an account, if one is given, or else a group.
fn whom_in(object: &Object<'_>) -> Result<Whom, DocumentError>
    ensures { Reads (rows_fault object.now.dot.now (whom_rows (view object.now.value.now)))
        (whom_of (view object.now.value.now)) result }
{
    let account = object.number("account", 0, u32::MAX)?;
    object.refuse_if(lacks_whom(object), "account", ConfigFault::WrongKind)?;
    let group = object.text("group", NAME_LIMIT)?;
    match account {
        Some(account) => Ok(Whom::Account(AccountId(account))),
        None => Ok(Whom::Group(or_empty(object.alloc, group))),
    }
}

// A set of permissions, of which those that there are count.
fn permissions_in(object: &Object<'_>, name: &str) -> Result<Perm, DocumentError>
    ensures { let value = view object.now.value.now in
        Reads (within (object.now.dot.now ++ name.now)
        (wanted (number_fault 0 Perm.ALL.0) (get name.now value)))
        (permissions_at name.now value) result }
{
    let bits = object.number(name, 0, Perm::ALL.0)?;
    Ok(Perm(bits.unwrap_or(0) & Perm::ALL.0))
}

// Where an entry holds, and what it grants and denies.
#[derive(Clone, Copy)]
pub(crate) struct Rights {
    pub here: bool,
    pub subs: bool,
    pub grant: Perm,
    pub deny: Perm,
}

fn rights_in(object: &Object<'_>) -> Result<Rights, DocumentError>
    ensures { Reads (rows_fault object.now.dot.now (right_rows (view object.now.value.now)))
        (rights_of (view object.now.value.now)) result }
{
    let here = object.flag("here")?;
    let subs = object.flag("subs")?;
    let grant = permissions_in(object, "grant")?;
    let deny = permissions_in(object, "deny")?;
    Ok(Rights {
        here: here.unwrap_or(true),
        subs: subs.unwrap_or(true),
        grant,
        deny,
    })
}

fn push_entry(whom: Whom, rights: Rights, entries: &mut Vec<AclEntry>) -> Result<(), OutOfMemory>
    ensures { OnOk result (entries.new.items ≡ entries.old.items ++ record {
      whom = whom;
      here = rights.here;
      subs = rights.subs;
      grant = rights.grant;
      deny = rights.deny;
    } ∷ []) }
{
    entries.push(AclEntry {
        whom,
        here: rights.here,
        subs: rights.subs,
        grant: rights.grant,
        deny: rights.deny,
    })?;
    Ok(())
}

// Adds an entry.
fn read_entry(
    alloc: Global,
    value: &Value,
    entries: &mut Vec<AclEntry>,
) -> Result<(), DocumentError>
    ensures reads { Reads (entry_fault (view value.now)) tt result }
    ensures entries { OnOk result
        (entries.new.items ≡ entries.old.items ++ entry_of (view value.now) ∷ []) }
{
    let object = Object {
        alloc,
        value,
        dot: ".",
    };
    object.open(&KEYS)?;
    let whom = whom_in(&object)?;
    match rights_in(&object) {
        Ok(rights) => Ok(push_entry(whom, rights, entries)?),
        Err(error) => {
            drop(whom);
            Err(error)
        }
    }
}

// The entries of a channel, in order.
pub(crate) fn read_entries(
    alloc: Global,
    values: &[Value],
) -> Result<Items<AclEntry>, DocumentError>
    ensures { Reads (each_fault entry_fault 0 (map view values.now))
        (map entry_of (map view values.now)) result }
{
    let mut entries = Vec::with_capacity(alloc, values.len())?;
    for (place, value) in values.iter().enumerate() {
        at_place(alloc, place, read_entry(alloc, value, &mut entries))?;
    }
    Ok(Items::from_vec(entries))
}
