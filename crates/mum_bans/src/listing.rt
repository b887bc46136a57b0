//! The bans of a book as a BanList.

ghost use Rattle.std.specs.Prelude.{◌≡◌, IfOk, map};
ghost use Rattle.mum_bans.specs.Answer.{answer, entry_of, list_of_bans, unless_empty};

use crate::ban::Ban;
use crate::ban_entry::BanEntry;
use crate::ban_list::BanList;
use mum_base::{Items, Octets, OutOfMemory, Text};
use mum_fields::Message;
use std::alloc::Global;
use std::mem::drop;

// The same text once more, where it has a byte.
fn unless_empty(text: &Text) -> Result<Option<Text>, OutOfMemory>
    ensures { IfOk result (λ given. given ≡ unless_empty text.now) }
{
    if text.as_slice().is_empty() {
        return Ok(None);
    }
    Ok(Some(text.share()?))
}

fn entry_of(alloc: Global, ban: &Ban) -> Result<BanEntry, OutOfMemory>
    ensures { IfOk result (λ entry. entry ≡ entry_of ban.now) }
{
    Ok(BanEntry {
        mask: Some(u32::from(ban.mask)),
        duration: Some(ban.duration),
        address: Some(Octets::of(alloc, &ban.address)?),
        name: unless_empty(&ban.name)?,
        hash: unless_empty(&ban.hash)?,
        reason: unless_empty(&ban.reason)?,
    })
}

fn list_of(alloc: Global, bans: &[Ban]) -> Result<BanList, OutOfMemory>
    ensures { IfOk result (λ list. list ≡ list_of_bans bans.now) }
{
    let mut entries = Vec::with_capacity(alloc, bans.len())?;
    for ban in bans {
        entries.push(entry_of(alloc, ban)?)?;
    }
    Ok(BanList {
        bans: Items::from_vec(entries),
        query: None,
    })
}

// The payload of the BanList that has these bans. Texts are shared with them, not copied.
pub(crate) fn answer(alloc: Global, bans: &[Ban]) -> Result<Octets, OutOfMemory>
    ensures { IfOk result (λ payload. payload ≡ answer bans.now) }
{
    let list = list_of(alloc, bans)?;
    let payload = list.encode(alloc);
    drop(list);
    payload
}
