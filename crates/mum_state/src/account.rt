//! Accounts: names that a password protects.

ghost use Rattle.std.specs.Prelude.{◌≡◌, IfOk};

use mum_base::{AccountId, OutOfMemory, Text};
use std::alloc::Global;

/// The most accounts of a server.
pub const ACCOUNT_LIMIT: usize = 1024;

/// An account. Nobody but its owner logs in under its name.
#[derive(Drop)]
pub struct Account {
    /// Account 0 is SuperUser.
    pub account: AccountId,
    pub name: Text,
    /// The SHA-256 of its password.
    pub digest: [u8; 32],
}

impl Account {
    /// An account of its own that is equal.
    pub fn copy(&self, alloc: Global) -> Result<Account, OutOfMemory>
        ensures { IfOk result (λ copy. copy ≡ self.now) }
    {
        Ok(Account {
            account: self.account,
            name: self.name.share()?,
            digest: self.digest,
        })
    }
}

// Equal accounts in the same order.
pub(crate) fn copy_of_accounts(
    alloc: Global,
    accounts: &[Account],
) -> Result<Vec<Account>, OutOfMemory>
    ensures { IfOk result (λ copy. copy.items ≡ accounts.now) }
{
    let mut copies = Vec::with_capacity(alloc, accounts.len())?;
    for account in accounts {
        copies.push(account.copy(alloc)?)?;
    }
    Ok(copies)
}
