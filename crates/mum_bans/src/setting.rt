//! The bans that a BanList asks for.

ghost use Rattle.std.specs.Prelude.{◌≡◌, ◌<◌, ◌≤◌, ◌+◌, [], IfOk, IsTrue, OnOk, length, map, unwrap_or, vec_len, vec_capacity};
ghost use Rattle.std.specs.List.{list_all};
ghost use Rattle.mum_bans.specs.Limits.{is_sound_entry};
ghost use Rattle.mum_bans.specs.Book.{ban_from, first_start, set_ban};

use crate::ban::Ban;
use crate::ban_entry::BanEntry;
use mum_base::{Octets, OutOfMemory, Text};
use std::alloc::Global;

fn address_of(given: &Option<Octets>) -> [u8; 16]
    requires { length (unwrap_or given.now []) ≡ 16 }
    ensures { result ≡ unwrap_or given.now [] }
{
    let mut address = [0; 16];
    if let Some(octets) = given {
        address.copy_from_slice(octets.as_slice());
    }
    address
}

// The ban that an entry asks for, if it starts at this moment.
fn ban_from(alloc: Global, entry: &BanEntry, moment: u64) -> Result<Ban, OutOfMemory>
    requires { IsTrue (is_sound_entry entry.now) }
    ensures { IfOk result (λ ban. ban ≡ ban_from moment entry.now) }
{
    Ok(Ban {
        address: address_of(&entry.address),
        mask: entry.mask.unwrap_or(0) as u8,
        duration: entry.duration.unwrap_or(0),
        start: moment,
        name: Text::share_or_empty(alloc, &entry.name)?,
        hash: Text::share_or_empty(alloc, &entry.hash)?,
        reason: Text::share_or_empty(alloc, &entry.reason)?,
    })
}

// The start of the first of these bans that is the same, or the ban's own.
fn first_start(bans: &[Ban], ban: &Ban) -> u64
    ensures { result ≡ first_start bans.now ban.now }
{
    for other in bans {
        if other.is_same(ban) {
            return other.start;
        }
    }
    ban.start
}

// The ban that an entry asks for. Where it is there already, it keeps its start.
fn set_ban(alloc: Global, bans: &[Ban], entry: &BanEntry, moment: u64) -> Result<Ban, OutOfMemory>
    requires { IsTrue (is_sound_entry entry.now) }
    ensures { IfOk result (λ ban. ban ≡ set_ban bans.now moment entry.now) }
{
    let mut ban = ban_from(alloc, entry, moment)?;
    ban.start = first_start(bans, &ban);
    Ok(ban)
}

// The bans that these entries ask for, with room for one more. Texts are shared with the entries, not copied.
// Each entry is compared with each present ban.
pub(crate) fn set_bans(
    alloc: Global,
    bans: &[Ban],
    entries: &[BanEntry],
    moment: u64,
) -> Result<Vec<Ban>, OutOfMemory>
    requires few { length entries.now ≤ 1024 }
    requires sound { IsTrue (list_all is_sound_entry entries.now) }
    ensures bans { IfOk result (λ set. set.items ≡ map (set_ban bans.now moment) entries.now) }
    ensures room { IfOk result (λ set. vec_len set < vec_capacity set) }
{
    let mut set = Vec::with_capacity(alloc, entries.len() + 1)?;
    for entry in entries {
        set.push_reserved(set_ban(alloc, bans, entry, moment)?);
    }
    Ok(set)
}
