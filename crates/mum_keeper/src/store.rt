//! The store.

ghost use Rattle.std.specs.Prelude.{◌≡◌, ◌↔◌, IfErr, IfOk, IsTrue, true};
ghost use Rattle.mum_published.specs.Calls.{Learnt};
ghost use Rattle.mum_keeper.specs.Bell.{NoMore, Noted, ring_of};
ghost use Rattle.mum_keeper.specs.Keeping.{AreRowsOf};
ghost use Rattle.mum_keeper.specs.Look.{policies_left};
ghost use Rattle.mum_keeper.specs.Mirror.{IsSince, opening_of};
ghost use Rattle.mum_keeper.specs.Store.{HearsBell, Heeds, IsOpened, Observes, Settles, StoreTurned, turn_of};

use crate::item::{BellEnd, StoreItem, StoreNote};
use crate::keeper::{KeepEnd, Keeper};
use crate::look::{Found, look_once, ordered_rows};
use crate::mirror::Mirror;
use crate::naming::{KeeperOpening, Keeping};
use mum_crew::{Role, Turn};
use mum_kept::KeptRows;
use mum_outbox::Bell;
use mum_published::Pass;
use mum_state::State;
use std::alloc::Global;
use std::marker::Model;
use std::sync::Wait;

/// What a store leaves.
#[derive(Drop)]
pub struct StoreEnd<P: Drop> {
    pub keeper: P,
    /// It answered that it failed, in a turn or when it was settled, whether it succeeded later or not.
    pub keeper_failed: bool,
    /// Memory ran out, in a turn or when it was settled.
    pub no_memory: bool,
}

/// The role that brings a keeper to the rows that are kept of what is published.
#[derive(Drop)]
pub struct Store<P: Keeper, N: Keeping, R: Wait + Copy> {
    rt: R,
    alloc: Global,
    pass: Pass,
    bell: BellEnd<N>,
    mirror: Mirror<P, N>,
    // The policy count of the state whose rows the mirror has, where a look found them.
    policies: Option<u64>,
    ended: bool,
}

impl<P: Keeper, N: Keeping, R: Wait + Copy> Model for Store<P, N, R> {
    ghost use Rattle.std.specs.Prelude.{◌≡◌};
    ghost use Rattle.mum_keeper.specs.Look.{AreSeenAt};
    ghost use Rattle.mum_keeper.specs.Store.{StoreFacts};

    ghost Value = { StoreFacts P };

    ghost view = { λ s. record { pass = s.pass; bell = s.bell; mirror = s.mirror; ended = s.ended } };

    ghost invariant = { λ s. (s.pass.opening ≡ N.opening) × AreSeenAt s.pass s.mirror.rows s.policies };
}

fn turn_of(ended: bool, took: bool) -> Turn
    ensures { result ≡ turn_of ended took }
{
    if ended {
        return Turn::Done;
    }
    if took { Turn::Worked } else { Turn::Idle }
}

// The policy count of the state whose rows the mirror has after a comparison.
fn policies_left(end: KeepEnd, before: Option<u64>, now: u64) -> Option<u64>
    ensures { result ≡ policies_left end before now }
{
    match end {
        KeepEnd::Kept => Some(now),
        KeepEnd::Failed => before,
        KeepEnd::NoMemory => before,
    }
}

impl<P: Keeper, N: Keeping, R: Wait + Copy> Store<P, N, R> {
    /// A store over a keeper that has these rows, where its rows are known. It takes its items from the bell by
    /// a new pass. The error means that memory ran out, and hands the keeper back.
    pub fn open(
        rt: R,
        alloc: Global,
        pass: Pass,
        keeper: P,
        rows: KeptRows,
        bell: Bell<StoreItem<N>>,
    ) -> Result<Store<P, N, R>, P>
        requires opening { pass.opening ≡ N.opening }
        requires rows { AreRowsOf (P.facts keeper).rows rows }
        requires keeper { opening_of (P.facts keeper) ≡ N.keeper }
        ensures store { IfOk result (IsOpened pass keeper rows bell.queue) }
        ensures keeper { IfErr result (λ back. back ≡ keeper) }
    {
        Ok(Store {
            rt,
            alloc,
            pass,
            bell: BellEnd::new(bell),
            mirror: Mirror::new(keeper, rows),
            policies: None,
            ended: false,
        })
    }

    // One look, and one comparison with what is kept of the state that it found.
    fn observe(&mut self) -> KeepEnd
        ensures { Observes P.facts self.old result self.new }
    {
        let rt = self.rt;
        match look_once(
            &rt,
            self.alloc,
            &mut self.pass,
            self.mirror.rows(),
            self.policies,
        ) {
            Ok(found) => {
                let Found { rows, policies } = found;
                let end = self.mirror.compare(self.alloc, rows);
                self.policies = policies_left(end, self.policies, policies);
                end
            }
            Err(_) => self.mirror.starve(),
        }
    }

    fn learn(&mut self, note: &StoreNote<N>)
        ensures learnt { Learnt self.old.pass note.now.edits self.new.pass }
        ensures same { self.new ≡ record self.old { pass = self.new.pass } }
    {
        note.teach(&mut self.pass);
    }

    // A note is learnt before the look.
    fn heed_note(&mut self, note: StoreNote<N>) -> KeepEnd
        ensures { Heeds P.facts self.old (Noted note) result self.new }
    {
        self.learn(&note);
        self.observe()
    }

    fn end(&mut self)
        ensures { self.new ≡ record self.old { ended = true } }
    {
        self.ended = true;
    }

    // After the last item the store has ended.
    fn heed_last(&mut self) -> KeepEnd
        ensures { Heeds P.facts self.old NoMore result self.new }
    {
        self.end();
        self.observe()
    }

    // What is done about an item of the bell.
    fn heed(&mut self, item: StoreItem<N>) -> KeepEnd
        ensures { Heeds P.facts self.old (ring_of item) result self.new }
    {
        match item {
            StoreItem::Note(note) => self.heed_note(note),
            StoreItem::Last => self.heed_last(),
        }
    }

    // Takes at most one item from the bell. Whether there was one.
    fn hear(&mut self) -> bool
        ensures { HearsBell P.facts self.old result self.new }
    {
        let rt = self.rt;
        match self.bell.take(&rt) {
            Some(item) => {
                self.heed(item);
                true
            }
            None => false,
        }
    }

    /// Its pass, to be compared with what is published.
    pub fn pass(&self) -> &Pass
        ensures pass { result.now ≡ self.now.pass }
        ensures opening { result.now.opening ≡ N.opening }
    {
        &self.pass
    }

    fn has_ended(&self) -> bool
        ensures { result ≡ self.now.ended }
    {
        self.ended
    }

    /// One turn: it takes an item, if there is one, and then looks once and brings the keeper to the rows that
    /// are kept of the state that it found, where they differ from those to which it was brought last.
    pub fn turn(&mut self) -> Turn
        ensures turned { StoreTurned P.facts self.old result self.new }
        ensures ended { (result ≡ Turn.Done) ↔ IsTrue self.new.ended }
    {
        let took = self.hear();
        turn_of(self.has_ended(), took)
    }

    /// Brings the keeper to the rows that are kept of this state, where they differ from those to which it was
    /// brought last. Where they are equal it answers `Kept`.
    pub fn settle(&mut self, state: &State) -> KeepEnd
        ensures settles { Settles P.facts self.old.mirror state.now result self.new.mirror }
        ensures others { self.new ≡ record self.old { mirror = self.new.mirror } }
    {
        self.policies = None;
        match ordered_rows(self.alloc, state) {
            Ok(now) => self.mirror.compare(self.alloc, now),
            Err(_) => self.mirror.starve(),
        }
    }

    /// What it leaves.
    pub fn finish(self) -> StoreEnd<P>
        ensures keeper { result.keeper ≡ self.mirror.keeper }
        ensures failed { result.keeper_failed ≡ self.mirror.failed }
        ensures no_memory { result.no_memory ≡ self.mirror.no_memory }
        ensures rows { AreRowsOf (P.facts result.keeper).rows self.mirror.rows }
        ensures since { IsSince N.keeper (P.facts result.keeper) result.keeper_failed }
    {
        let Store {
            rt: _,
            alloc: _,
            pass: _,
            bell: _,
            mirror,
            policies: _,
            ended: _,
        } = self;
        let (keeper, keeper_failed, no_memory) = mirror.close();
        StoreEnd {
            keeper,
            keeper_failed,
            no_memory,
        }
    }
}

impl<P: Keeper, N: Keeping, R: Wait + Copy> Role for Store<P, N, R> {
    type Opening = KeeperOpening;

    ghost opening = { λ store. N.keeper };

    ghost has_ended = { λ store. store.ended };

    ghost turned = { StoreTurned P.facts };

    fn turn(&mut self) -> Turn {
        Store::turn(self)
    }
}
