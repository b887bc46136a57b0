//! The warden.

ghost use Rattle.std.specs.Prelude.{◌≡◌, [], None, IfOk, IsSome, OnErr, OnOk};
ghost use Rattle.mum_bans.specs.Ban.{refuses};
ghost use Rattle.mum_bans.specs.Book.{Reserves, after_call};
ghost use Rattle.mum_bans.specs.Parts.{list_in};
ghost use Rattle.mum_bans.specs.Verdict.{event_of, verdict_of};
ghost use Rattle.mum_io.specs.Counts.{Rose};
ghost use Rattle.mum_warden.specs.Answer.{sent};
ghost use Rattle.mum_warden.specs.Warden.{event_in, noted, verdict_in};

use crate::answer::sent;
use mum_bans::BanBook;
use mum_base::{Octets, OutOfMemory, SessionId};
use mum_io::Clock;
use std::alloc::Global;
use std::marker::Model;
use std::mem::drop;

/// The book of bans of a server, and the clock by which its bans start and end.
#[derive(Drop)]
pub struct Warden<K: Clock> {
    clock: K,
    book: BanBook,
    alloc: Global,
    // What the clock answered last, where a ban is prepared.
    moment: u64,
}

impl<K: Clock> Model for Warden<K> {
    ghost use Rattle.mum_warden.specs.Warden.{WardenFacts};
    ghost use Rattle.std.specs.Prelude.{◌≡◌};
    ghost use Rattle.std.specs.Option.{ForSome};

    ghost Value = { WardenFacts };

    ghost view = { λ w. record { last = K.last w.clock; calls = K.calls w.clock; book = w.book } };

    ghost invariant = { λ w. ForSome w.book.reserved (λ reason. w.moment ≡ K.last w.clock) };
}

impl<K: Clock> Warden<K> {
    /// A warden with a book without bans, which asks this clock. It takes no memory.
    pub fn new(alloc: Global, clock: K) -> Warden<K>
        ensures { result ≡ record {
          last = K.last clock;
          calls = K.calls clock;
          book = record { bans = []; reserved = None };
        } }
    {
        Warden {
            clock,
            book: BanBook::new(alloc),
            alloc,
            moment: 0,
        }
    }

    /// The clock, when there is nothing more to ask it.
    pub fn finish(self) -> K
        ensures last { K.last result ≡ self.last }
        ensures calls { K.calls result ≡ self.calls }
    {
        let Warden {
            clock,
            book,
            alloc: _,
            moment: _,
        } = self;
        drop(book);
        clock
    }

    /// Whether a login from this address is refused: some ban covers it and is living at the time that the clock
    /// answers, in seconds. The clock is asked once. It takes no memory.
    pub fn refuses(&mut self, address: &[u8; 16]) -> bool
        ensures refused { result ≡ refuses self.new.book.bans address.now self.new.last }
        ensures book { self.new.book ≡ self.old.book }
        ensures asked { Rose self.old.calls self.new.calls }
    {
        let moment = self.clock.now();
        self.moment = moment;
        self.book.refuses(address, moment)
    }

    /// What a BanList with this payload comes to, from a session that is allowed to ban or is not: the bytes that
    /// the session is sent. The clock is asked once, and bans that are set start at its answer. Where memory runs
    /// out, the book is as it was.
    pub fn settle(
        &mut self,
        allowed: bool,
        session: SessionId,
        payload: &[u8],
    ) -> Result<Octets, OutOfMemory>
        ensures sent { IfOk result (λ bytes.
            bytes ≡ sent session (verdict_in self.old.book allowed payload.now)) }
        ensures bans { OnOk result (self.new.book.bans
            ≡ after_call self.old.book.bans (event_in self.old.book allowed payload.now self.new.last)) }
        ensures reserved { self.new.book.reserved ≡ self.old.book.reserved }
        ensures err { OnErr result (self.new.book ≡ self.old.book) }
        ensures asked { Rose self.old.calls self.new.calls }
    {
        let moment = self.clock.now();
        self.moment = moment;
        let verdict = self.book.decide(self.alloc, allowed, payload, moment)?;
        sent(self.alloc, session, verdict)
    }

    /// Takes the memory of one more ban for this reason, cut to the longest front of whole characters that a ban
    /// may have. The clock is asked once: at its answer the ban starts. Where memory runs out, the book is as it
    /// was.
    pub fn prepare(&mut self, reason: &str) -> Result<(), OutOfMemory>
        ensures ok { OnOk result (Reserves self.old.book reason.now self.new.book) }
        ensures err { OnErr result (self.new.book ≡ self.old.book) }
        ensures asked { Rose self.old.calls self.new.calls }
    {
        self.moment = self.clock.now();
        self.book.reserve(reason)
    }

    /// Adds the ban that was prepared, of this address alone and without end. It starts at the last answer of the
    /// clock. It takes no memory.
    pub fn note(&mut self, address: [u8; 16])
        requires { IsSome self.old.book.reserved }
        ensures { self.new ≡ noted address self.old }
    {
        self.book.add(address, self.moment);
    }
}
