//! The book of bans.

ghost use Rattle.std.specs.Prelude.{◌≡◌, ◌≤◌, [], None, IfOk, IsOk, IsSome, IsTrue, OnErr, OnOk, length};
ghost use Rattle.mum_bans.specs.Ban.{refuses};
ghost use Rattle.mum_bans.specs.Book.{Reserves, added_ban, after_call, last_bans, with_added};
ghost use Rattle.mum_bans.specs.Limits.{is_sound_book};
ghost use Rattle.mum_bans.specs.Parts.{list_in};
ghost use Rattle.mum_bans.specs.Verdict.{FitsFrame, event_of, event_of_list, verdict_of, verdict_of_list};

use crate::ban::Ban;
use crate::ban_list::BanList;
use crate::limits::{BAN_LIMIT, MASK_LIMIT};
use crate::listing::answer;
use crate::reason::cut;
use crate::setting::set_bans;
use crate::verdict::BanVerdict;
use mum_base::{OutOfMemory, Text};
use std::alloc::Global;
use std::marker::Model;
use std::mem::{drop, replace};

/// The bans of a server in their order, 1,024 at most.
#[derive(Drop)]
pub struct BanBook {
    alloc: Global,
    bans: Vec<Ban>,
    // The reason of the ban for which there is room.
    reserved: Option<Text>,
}

impl Model for BanBook {
    ghost use Rattle.std.specs.Prelude.{◌<◌, ◌≤◌, IsTrue, length, vec_capacity, vec_len};
    ghost use Rattle.std.specs.Option.{ForSome};
    ghost use Rattle.mum_bans.specs.Book.{Book};
    ghost use Rattle.mum_bans.specs.Limits.{is_short, is_sound_book};

    ghost Value = { Book };

    ghost view = { λ b. record { bans = b.bans.items; reserved = b.reserved } };

    ghost invariant = { λ b. IsTrue (is_sound_book b.bans.items)
        × ForSome b.reserved (λ reason. vec_len b.bans < vec_capacity b.bans)
        × ForSome b.reserved (λ reason. IsTrue (is_short reason)) };
}

impl BanBook {
    /// A book without bans. It takes no memory.
    pub fn new(alloc: Global) -> BanBook
        ensures { result ≡ record { bans = []; reserved = None } }
    {
        BanBook {
            alloc,
            bans: Vec::new(alloc),
            reserved: None,
        }
    }

    /// The bans in their order.
    pub fn bans(&self) -> &[Ban]
        ensures bans { result.now ≡ self.now.bans }
        ensures sound { IsTrue (is_sound_book self.now.bans) }
    {
        self.bans.as_slice()
    }

    /// Whether some ban covers the address and is living at the moment, in seconds of the server's clock. It takes
    /// no memory.
    pub fn refuses(&self, address: &[u8; 16], moment: u64) -> bool
        ensures { result ≡ refuses self.now.bans address.now moment }
    {
        self.bans()
            .iter()
            .any(|ban| ban.is_living(moment) && ban.covers(address))
    }

    /// What a BanList with this payload comes to, from somebody who is allowed to ban or is not: it is ignored where
    /// it is malformed; else the sender lacks the permission, or asks for the bans and gets them, or is refused
    /// for a limit, or sets the bans. A ban that is set and was there already keeps its start, each other one
    /// starts at the moment, in seconds of the server's clock. Nothing is decoded, and no memory taken, for whoever is
    /// not allowed. Where memory runs out the book is as it was.
    pub fn decide(
        &mut self,
        alloc: Global,
        allowed: bool,
        payload: &[u8],
        moment: u64,
    ) -> Result<BanVerdict, OutOfMemory>
        ensures verdict { IfOk result (λ verdict.
            verdict ≡ verdict_of self.old.bans allowed (list_in payload.now)) }
        ensures bans { IfOk result (λ verdict.
            self.new.bans ≡ after_call self.old.bans (event_of moment verdict (list_in payload.now))) }
        ensures reserved { self.new.reserved ≡ self.old.reserved }
        ensures fits { IfOk result FitsFrame }
        ensures err { OnErr result (self.new ≡ self.old) }
        ensures starved { OnErr result (IsTrue allowed × IsOk (list_in payload.now)) }
    {
        if !BanList::is_list(payload) {
            return Ok(BanVerdict::Ignored);
        }
        if !allowed {
            return Ok(BanVerdict::Lacks);
        }
        let list = BanList::read(alloc, payload)?;
        let verdict = self.settle(alloc, &list, moment);
        drop(list);
        verdict
    }

    // What a list from somebody who is allowed to ban comes to.
    fn settle(
        &mut self,
        alloc: Global,
        list: &BanList,
        moment: u64,
    ) -> Result<BanVerdict, OutOfMemory>
        ensures verdict { IfOk result (λ verdict. verdict ≡ verdict_of_list self.old.bans list.now) }
        ensures bans { IfOk result (λ verdict.
            self.new.bans ≡ after_call self.old.bans (event_of_list moment verdict list.now)) }
        ensures reserved { self.new.reserved ≡ self.old.reserved }
        ensures fits { IfOk result FitsFrame }
        ensures err { OnErr result (self.new ≡ self.old) }
    {
        if list.query.unwrap_or(false) {
            return Ok(BanVerdict::Answer(answer(alloc, self.bans())?));
        }
        if !list.is_sound() {
            return Ok(BanVerdict::Refused);
        }
        let bans = set_bans(alloc, self.bans(), list.bans.as_slice(), moment)?;
        drop(replace(&mut self.bans, bans));
        Ok(BanVerdict::Set)
    }

    /// Takes the memory of one more ban with this reason, or as much of it as a ban may have: the longest front
    /// of whole characters that has at most 1,024 bytes. Where memory runs out the book is as it was.
    pub fn reserve(&mut self, reason: &str) -> Result<(), OutOfMemory>
        ensures ok { OnOk result (Reserves self.old reason.now self.new) }
        ensures err { OnErr result (self.new ≡ self.old) }
    {
        let reason = Text::of(self.alloc, cut(reason))?;
        self.bans.reserve_exact(1)?;
        drop(replace(&mut self.reserved, Some(reason)));
        Ok(())
    }

    /// Adds a ban of this address alone, without end, for the reason that was reserved. It starts at the moment,
    /// in seconds of the server's clock. Of 1,024 bans the first is dropped. It takes no memory.
    pub fn add(&mut self, address: [u8; 16], moment: u64)
        requires { IsSome self.old.reserved }
        ensures { self.new ≡ with_added self.old address moment }
    {
        let Some(reason) = self.reserved.take() else {
            unreachable!();
        };
        let ban = added_ban(self.alloc, &address, reason, moment);
        self.bans.push_reserved(ban);
        keep_last(&mut self.bans);
    }
}

// A ban of this address alone, without end.
fn added_ban(alloc: Global, address: &[u8; 16], reason: Text, moment: u64) -> Ban
    ensures ban { result ≡ added_ban address.now reason moment }
    ensures whole { length address.now ≡ 16 }
{
    Ban {
        address: *address,
        mask: MASK_LIMIT,
        name: Text::empty(alloc),
        hash: Text::empty(alloc),
        reason,
        duration: 0,
        start: moment,
    }
}

// Drops the first ban where there is one more than a book may have.
fn keep_last(bans: &mut Vec<Ban>)
    requires { length bans.old.items ≤ 1025 }
    ensures { bans.new.items ≡ last_bans bans.old.items }
{
    if bans.as_slice().len() > BAN_LIMIT {
        drop(bans.remove(0));
    }
}
