//! What waits for the bell of a worker.

ghost use Rattle.std.specs.Prelude.{◌≡◌, ◌||◌, None, Some, is_some};
ghost use Rattle.mum_owner.specs.Banning.{has_note};
ghost use Rattle.mum_owner.specs.Ringing.{OffersKept};

use crate::bells::{Bells, offer_coming, offer_lag, offer_reply};
use mum_base::SessionId;
use mum_published::{Naming, Reply};
use std::marker::Model;
use std::sync::Wait;

/// A lag item: the connection, whose worker is to have it, and its session.
#[derive(Clone, Copy)]
pub struct Lag {
    pub connection: u32,
    pub session: SessionId,
}

/// A connection that is not yet handed over.
#[derive(Drop)]
pub struct Coming<L: Drop> {
    pub connection: u32,
    pub link: L,
}

// What a bell gave back as full, or what is not yet offered: at most one of each.
#[derive(Drop)]
pub(crate) struct Kept<L: Drop, N: Naming> {
    pub(crate) reply: Option<Reply<N>>,
    pub(crate) lag: Option<Lag>,
    pub(crate) coming: Option<Coming<L>>,
}

impl<L: Drop, N: Naming> Model for Kept<L, N> {
    ghost use Rattle.mum_owner.specs.Facts.{KeptFacts};

    ghost Value = { KeptFacts L };

    ghost view = { λ k. record { reply = k.reply; lag = k.lag; coming = k.coming } };
}

impl<L: Drop, N: Naming> Kept<L, N> {
    pub(crate) fn nothing() -> Kept<L, N>
        ensures { result ≡ record { reply = None; lag = None; coming = None } }
    {
        Kept {
            reply: None,
            lag: None,
            coming: None,
        }
    }

    // Whether a reply is kept.
    pub(crate) fn has_reply(&self) -> bool
        ensures { result ≡ is_some self.now.reply }
    {
        self.reply.is_some()
    }

    // Whether a reply with a note is kept.
    pub(crate) fn has_note(&self) -> bool
        ensures { result ≡ has_note self.now.reply }
    {
        match &self.reply {
            Some(reply) => reply.note.is_some(),
            None => false,
        }
    }

    // Whether a lag item is kept.
    pub(crate) fn has_lag(&self) -> bool
        ensures { result ≡ is_some self.now.lag }
    {
        self.lag.is_some()
    }

    // Whether a connection is kept.
    pub(crate) fn has_coming(&self) -> bool
        ensures { result ≡ is_some self.now.coming }
    {
        self.coming.is_some()
    }

    // Keeps a reply.
    pub(crate) fn keep_reply(&mut self, reply: Reply<N>)
        ensures { self.new ≡ record self.old { reply = Some reply } }
    {
        self.reply = Some(reply);
    }

    // Keeps a lag item.
    pub(crate) fn keep_lag(&mut self, lag: Lag)
        ensures { self.new ≡ record self.old { lag = Some lag } }
    {
        self.lag = Some(lag);
    }

    // Keeps a connection.
    pub(crate) fn keep_coming(&mut self, connection: u32, link: L)
        ensures { self.new ≡ record self.old { coming = Some (record { connection = connection; link = link }) } }
    {
        self.coming = Some(Coming { connection, link });
    }

    // Offers each item that is kept once to its bell, and, where the bells are to be notified, that no more
    // connections come. Answers whether a bell took one.
    pub(crate) fn offer<R: Wait>(
        &mut self,
        rt: &R,
        bells: &mut Bells<L, N>,
        is_ending: bool,
    ) -> bool
        ensures { OffersKept bells.old self.old is_ending result bells.new self.new }
    {
        let reply = offer_reply(rt, bells, &mut self.reply);
        let lag = offer_lag(rt, bells, &mut self.lag);
        let coming = offer_coming(rt, bells, &mut self.coming);
        let told = bells.tell_where(rt, is_ending);
        one_of(reply, lag, coming, told)
    }
}

// Whether one of them holds.
fn one_of(a: bool, b: bool, c: bool, d: bool) -> bool
    ensures { result ≡ (a || (b || (c || d))) }
{
    a || (b || (c || d))
}
