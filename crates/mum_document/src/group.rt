//! Groups of a channel.

ghost use Rattle.std.specs.Prelude.{◌≡◌, ◌++◌, [], ◌∷◌, OnOk, map};
ghost use Rattle.serde_json.specs.View.{view};
ghost use Rattle.mum_document.specs.Value.{greatest, number_fault};
ghost use Rattle.mum_document.specs.Object.{each_fault, elements_fault, rows_fault};
ghost use Rattle.mum_document.specs.Policy.{account_of, accounts_at, group_fault, group_of, id_rows, with_group_met};
ghost use Rattle.mum_document.specs.Reading.{Reads};

use crate::fault::{DocumentError, at_place, fault_at};
use crate::name::new_name;
use crate::object::Object;
use crate::value::read_number;
use indexmap::IndexSet;
use mum_base::{AccountId, Items, OutOfMemory, Text};
use mum_policy::Group;
use mum_policy::policy::GROUP_ACCOUNTS;
use serde_json::Value;
use std::alloc::Global;
use std::mem::drop;

const KEYS: [&str; 5] = ["name", "inherit", "inheritable", "add", "remove"];

// The number of an account, which need not be there.
fn read_account(alloc: Global, value: &Value) -> Result<AccountId, DocumentError>
    ensures { Reads (number_fault 0 greatest (view value.now)) (account_of (view value.now)) result }
{
    match read_number(value, 0, u32::MAX) {
        Ok(number) => Ok(AccountId(number)),
        Err(cause) => Err(fault_at(alloc, cause, "")),
    }
}

fn read_accounts(alloc: Global, values: &[Value]) -> Result<Items<AccountId>, DocumentError>
    ensures { Reads (each_fault (number_fault 0 greatest) 0 (map view values.now))
        (map account_of (map view values.now)) result }
{
    let mut accounts = Vec::with_capacity(alloc, values.len())?;
    for (place, value) in values.iter().enumerate() {
        let account = at_place(alloc, place, read_account(alloc, value))?;
        accounts.push(account)?;
    }
    Ok(Items::from_vec(accounts))
}

// The accounts at a key of a group; none where it is left out.
fn accounts_in(object: &Object<'_>, name: &str) -> Result<Items<AccountId>, DocumentError>
    ensures { let value = view object.now.value.now in
        Reads (rows_fault object.now.dot.now (id_rows name.now value)) (accounts_at name.now value) result }
{
    match object.list(name, GROUP_ACCOUNTS)? {
        Some(values) => object.at(name, read_accounts(object.alloc, values)),
        None => Ok(Items::new(object.alloc)),
    }
}

// Adds a group of this name, with these accounts.
fn push_group(
    alloc: Global,
    name: &str,
    inherit: bool,
    inheritable: bool,
    add: Items<AccountId>,
    remove: Items<AccountId>,
    groups: &mut Vec<Group>,
) -> Result<(), OutOfMemory>
    ensures { OnOk result (groups.new.items ≡ groups.old.items ++ record {
      name = name.now;
      inherit = inherit;
      inheritable = inheritable;
      add = add;
      remove = remove;
    } ∷ []) }
{
    match Text::of(alloc, name) {
        Ok(name) => {
            groups.push(Group {
                name,
                inherit,
                inheritable,
                add,
                remove,
            })?;
            Ok(())
        }
        Err(error) => {
            drop(add);
            drop(remove);
            Err(error)
        }
    }
}

// Adds a group, whose name none of those before it has.
fn read_group<'a>(
    alloc: Global,
    value: &'a Value,
    names: &mut IndexSet<&'a str>,
    groups: &mut Vec<Group>,
) -> Result<(), DocumentError>
    ensures reads { Reads (group_fault (map (λ n. n.now) names.old.keys) (view value.now)) tt result }
    ensures names { OnOk result (map (λ n. n.now) names.new.keys
        ≡ with_group_met (map (λ n. n.now) names.old.keys) (view value.now)) }
    ensures groups { OnOk result
        (groups.new.items ≡ groups.old.items ++ group_of (view value.now) ∷ []) }
{
    let object = Object {
        alloc,
        value,
        dot: ".",
    };
    object.open(&KEYS)?;
    let name = new_name(&object, names)?;
    let inherit = object.flag("inherit")?;
    let inheritable = object.flag("inheritable")?;
    let add = accounts_in(&object, "add")?;
    match accounts_in(&object, "remove") {
        Ok(remove) => {
            let inherit = inherit.unwrap_or(true);
            let inheritable = inheritable.unwrap_or(true);
            push_group(alloc, name, inherit, inheritable, add, remove, groups)?;
            Ok(())
        }
        Err(error) => {
            drop(add);
            Err(error)
        }
    }
}

// Adds groups to others, of which no two have one name.
fn add_groups<'a>(
    alloc: Global,
    values: &'a [Value],
    names: &mut IndexSet<&'a str>,
    groups: &mut Vec<Group>,
) -> Result<(), DocumentError>
    ensures reads { Reads (elements_fault group_fault with_group_met (map (λ n. n.now) names.old.keys) 0
        (map view values.now)) tt result }
    ensures groups { OnOk result
        (groups.new.items ≡ groups.old.items ++ map group_of (map view values.now)) }
{
    for (place, value) in values.iter().enumerate() {
        at_place(alloc, place, read_group(alloc, value, names, groups))?;
    }
    Ok(())
}

// The groups of a channel, of which no two have one name.
pub(crate) fn read_groups(alloc: Global, values: &[Value]) -> Result<Items<Group>, DocumentError>
    ensures { Reads (elements_fault group_fault with_group_met [] 0 (map view values.now))
        (map group_of (map view values.now)) result }
{
    let mut groups = Vec::with_capacity(alloc, values.len())?;
    let mut names = IndexSet::new(alloc);
    let added = add_groups(alloc, values, &mut names, &mut groups);
    drop(names);
    match added {
        Ok(()) => Ok(Items::from_vec(groups)),
        Err(error) => {
            drop(groups);
            Err(error)
        }
    }
}
