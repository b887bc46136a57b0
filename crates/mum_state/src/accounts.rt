//! All accounts of a server.

ghost use Rattle.std.specs.Prelude.{◌≡◌, ◌==◌, ◌<◌, ◌≤◌, [], IfOk, IsTrue, OnErr, OnOk, find, length, false, not, slice_index_or};
ghost use Rattle.std.specs.List.{insert, list_any, position_or_len};
ghost use Rattle.std.specs.Option.{option_copied};
ghost use Rattle.std.specs.Vec.{vec_capacity, vec_len};
ghost use Rattle.mum_users.specs.Order.{Rises};
ghost use Rattle.mum_state.specs.State.{account_below, is_before, is_named, is_numbered, with_account};
ghost use Rattle.mum_state.specs.Stored.{number_below};

use crate::account::{Account, copy_of_accounts};
use mum_base::{AccountId, OutOfMemory};
use std::alloc::Global;
use std::marker::Model;

// Accounts, each under a name and a number of its own. Contracts see them by their names.
#[derive(Drop)]
pub(crate) struct Accounts {
    by_name: Vec<Account>,
    /// The numbers of the accounts, in order.
    numbers: Vec<AccountId>,
}

impl Model for Accounts {
    ghost use Rattle.std.specs.Prelude.{List};
    ghost use Rattle.mum_users.specs.Order.{Rises};
    ghost use Rattle.mum_state.specs.declared.account.Account.{Account};
    ghost use Rattle.mum_state.specs.State.{account_below};
    ghost use Rattle.mum_state.specs.Stored.{AreNumbers};

    ghost Value = { List Account };

    ghost view = { λ a. a.by_name.items };

    ghost invariant = { λ a. record {
      rise : Rises account_below a.by_name.items;
      numbers : AreNumbers a.numbers.items a.by_name.items;
    } };
}

// Whether the account's name comes before this one.
fn is_before(account: &Account, name: &str) -> bool
    ensures { result ≡ is_before name.now account.now }
{
    account.name.as_str().cmp(name).is_lt()
}

// How many accounts have names before this one, found by binary search.
fn place_of(accounts: &[Account], name: &str) -> usize
    requires { Rises account_below accounts.now }
    ensures place { result ≡ position_or_len (λ account. not (is_before name.now account)) accounts.now }
    ensures within { result ≤ length accounts.now }
{
    accounts.partition_point(|account| is_before(account, name))
}

// Whether the account at a place has the name.
fn is_at(accounts: &[Account], place: usize, name: &str) -> bool
    ensures within { IsTrue result → place < length accounts.now }
    ensures same { (d : Account) → place < length accounts.now →
        is_named name.now (slice_index_or accounts.now place d) ≡ result }
{
    place < accounts.len() && accounts[place].name.as_str() == name
}

// The account of a name, found by binary search.
fn find_account<'a>(accounts: &'a [Account], name: &str) -> Option<&'a Account>
    requires { Rises account_below accounts.now }
    ensures { option_copied result ≡ find (is_named name.now) accounts.now }
{
    let place = place_of(accounts, name);
    if is_at(accounts, place, name) {
        Some(&accounts[place])
    } else {
        None
    }
}

// Puts an account in at its place.
fn put_account(accounts: &mut Vec<Account>, account: Account)
    requires rise { Rises account_below accounts.old.items }
    requires room { vec_len accounts.old < vec_capacity accounts.old }
    ensures { accounts.new.items ≡ with_account account accounts.old.items }
{
    let place = place_of(accounts.as_slice(), account.name.as_str());
    match accounts.insert(place, account) {
        Ok(()) => {}
        Err(_) => unreachable!(),
    }
}

// How many numbers are below this one, found by binary search.
fn place_of_number(numbers: &[AccountId], number: AccountId) -> usize
    requires { Rises number_below numbers.now }
    ensures place { result ≡ position_or_len (λ one. not (number_below one number)) numbers.now }
    ensures within { result ≤ length numbers.now }
{
    numbers.partition_point(|one| one.0 < number.0)
}

// Puts a number in at its place.
fn put_number(numbers: &mut Vec<AccountId>, number: AccountId)
    requires rise { Rises number_below numbers.old.items }
    requires room { vec_len numbers.old < vec_capacity numbers.old }
    ensures { numbers.new.items ≡ insert numbers.old.items
        (position_or_len (λ one. not (number_below one number)) numbers.old.items) number }
{
    let place = place_of_number(numbers.as_slice(), number);
    match numbers.insert(place, number) {
        Ok(()) => {}
        Err(_) => unreachable!(),
    }
}

// Whether the number is among these, found by binary search.
fn has_number(numbers: &[AccountId], number: AccountId) -> bool
    requires { Rises number_below numbers.now }
    ensures { result ≡ list_any (λ one. one.0 == number.0) numbers.now }
{
    match numbers.binary_search_by_key(&number.0, |one| one.0) {
        Ok(_) => true,
        Err(_) => false,
    }
}

impl Accounts {
    pub(crate) fn new(alloc: Global) -> Accounts
        ensures { result ≡ [] }
    {
        Accounts {
            by_name: Vec::new(alloc),
            numbers: Vec::new(alloc),
        }
    }

    // Equal accounts.
    pub(crate) fn copy(&self, alloc: Global) -> Result<Accounts, OutOfMemory>
        ensures { IfOk result (λ copy. copy ≡ self.now) }
    {
        Ok(Accounts {
            numbers: Vec::from_slice(alloc, self.numbers.as_slice())?,
            by_name: copy_of_accounts(alloc, self.by_name.as_slice())?,
        })
    }

    pub(crate) fn len(&self) -> usize
        ensures { result ≡ length self.now }
    {
        self.by_name.len()
    }

    // The account of a name, found by binary search.
    pub(crate) fn named(&self, name: &str) -> Option<&Account>
        ensures { option_copied result ≡ find (is_named name.now) self.now }
    {
        find_account(self.by_name.as_slice(), name)
    }

    // Whether an account has the name.
    pub(crate) fn has_name(&self, name: &str) -> bool
        ensures { result ≡ list_any (is_named name.now) self.now }
    {
        self.named(name).is_some()
    }

    // Whether an account has the number, found by binary search.
    pub(crate) fn has_number(&self, number: AccountId) -> bool
        ensures { result ≡ list_any (is_numbered number) self.now }
    {
        has_number(self.numbers.as_slice(), number)
    }

    // One account more, under a name and a number that none has. After it ran out of memory the accounts
    // are as they were.
    pub(crate) fn add(&mut self, account: Account) -> Result<(), OutOfMemory>
        requires name { list_any (is_named account.name) self.old ≡ false }
        requires number { list_any (is_numbered account.account) self.old ≡ false }
        ensures ok { OnOk result (self.new ≡ with_account account self.old) }
        ensures err { OnErr result (self.new ≡ self.old) }
    {
        self.by_name.reserve(1)?;
        self.numbers.reserve(1)?;
        put_number(&mut self.numbers, account.account);
        put_account(&mut self.by_name, account);
        Ok(())
    }
}
