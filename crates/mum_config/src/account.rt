//! Accounts.

ghost use Rattle.std.specs.Prelude.{◌≡◌, ◌++◌, [], ◌∷◌, OnOk, map};
ghost use Rattle.serde_json.specs.View.{view};
ghost use Rattle.mum_config.specs.Account.{AccountsMet, account_edit, account_fault, account_name, account_number, no_accounts, with_account_met};
ghost use Rattle.mum_state.specs.declared.edit.Edit.TheVariants.{AddAccount};
ghost use Rattle.mum_document.specs.Object.{elements_fault};
ghost use Rattle.mum_document.specs.Reading.{Reads};

use indexmap::IndexSet;
use mum_base::{AccountId, OutOfMemory, Text};
use mum_document::{ConfigFault, DocumentError, Object, at_place, new_name};
use mum_state::Edit;
use serde_json::Value;
use std::alloc::Global;

const KEYS: [&str; 3] = ["id", "name", "password_sha256"];

// Adds the edit that adds an account.
fn push_account(
    alloc: Global,
    number: u32,
    name: &str,
    digest: [u8; 32],
    edits: &mut Vec<Edit>,
) -> Result<(), OutOfMemory>
    ensures { OnOk result (edits.new.items
        ≡ edits.old.items ++ AddAccount (record { 0 = number }) name.now digest ∷ []) }
{
    let name = Text::of(alloc, name)?;
    edits.push(Edit::AddAccount {
        account: AccountId(number),
        name,
        digest,
    })?;
    Ok(())
}

// Adds the edit that adds an account, whose number and name none of those before it has.
fn read_account<'a>(
    alloc: Global,
    value: &'a Value,
    numbers: &mut IndexSet<u32>,
    names: &mut IndexSet<&'a str>,
    edits: &mut Vec<Edit>,
) -> Result<(), DocumentError>
    ensures reads { Reads (account_fault (record {
      numbers = numbers.old.keys;
      names = map (λ n. n.now) names.old.keys;
    }) (view value.now)) tt result }
    ensures numbers { OnOk result
        (numbers.new.keys ≡ numbers.old.keys ++ account_number (view value.now) ∷ []) }
    ensures names { OnOk result (map (λ n. n.now) names.new.keys
        ≡ map (λ n. n.now) names.old.keys ++ account_name (view value.now) ∷ []) }
    ensures edits { OnOk result
        (edits.new.items ≡ edits.old.items ++ account_edit (view value.now) ∷ []) }
{
    let object = Object {
        alloc,
        value,
        dot: ".",
    };
    object.open(&KEYS)?;
    let number = object.needed_number("id", 0, u32::MAX)?;
    let new_number = numbers.insert(number)?;
    object.refuse_if(!new_number, "id", ConfigFault::Twice)?;
    let name = new_name(&object, names)?;
    let digest = object.needed_digest("password_sha256")?;
    push_account(alloc, number, name, digest, edits)?;
    Ok(())
}

// Adds the edits that add accounts, whose numbers and names none of those before them has.
fn add_accounts<'a>(
    alloc: Global,
    values: &'a [Value],
    numbers: &mut IndexSet<u32>,
    names: &mut IndexSet<&'a str>,
    edits: &mut Vec<Edit>,
) -> Result<(), DocumentError>
    ensures reads { Reads (elements_fault account_fault with_account_met (record {
      numbers = numbers.old.keys;
      names = map (λ n. n.now) names.old.keys;
    }) 0 (map view values.now)) tt result }
    ensures edits { OnOk result
        (edits.new.items ≡ edits.old.items ++ map account_edit (map view values.now)) }
{
    for (place, value) in values.iter().enumerate() {
        at_place(
            alloc,
            place,
            read_account(alloc, value, numbers, names, edits),
        )?;
    }
    Ok(())
}

// Adds the edits that add accounts, at the end of others.
pub(crate) fn read_accounts(
    alloc: Global,
    values: &[Value],
    edits: &mut Vec<Edit>,
) -> Result<(), DocumentError>
    ensures reads { Reads (elements_fault account_fault with_account_met no_accounts 0
        (map view values.now)) tt result }
    ensures edits { OnOk result
        (edits.new.items ≡ edits.old.items ++ map account_edit (map view values.now)) }
{
    let mut numbers = IndexSet::new(alloc);
    let mut names = IndexSet::new(alloc);
    add_accounts(alloc, values, &mut numbers, &mut names, edits)
}
