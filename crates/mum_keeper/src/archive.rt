//! The bell of a store as whoever publishes has it.

ghost use Rattle.std.specs.Prelude.{◌≡◌, is_some};
ghost use Rattle.std.specs.Option.{option_map};
ghost use Rattle.mum_keeper.specs.Archive.{OffersNote, OffersRing, TellsEnd, TellsStore, is_archive_told, new_archive, queue_of};
ghost use Rattle.mum_keeper.specs.Bell.{ring_of};

use crate::item::{StoreItem, StoreNote};
use mum_outbox::{Bell, BoxPass};
use mum_published::Naming;
use std::marker::Model;
use std::mem::drop;
use std::sync::Wait;

// The bell, the pass by which it is offered items, and whether it took that no note comes any more.
#[derive(Drop)]
struct ArchiveSide<N: Naming> {
    bell: Bell<StoreItem<N>>,
    pass: BoxPass<StoreItem<N>>,
    is_told: bool,
}

impl<N: Naming> Model for ArchiveSide<N> {
    ghost use Rattle.std.specs.Prelude.{◌≡◌};
    ghost use Rattle.mum_keeper.specs.Archive.{ArchiveFacts, archive_facts};

    ghost Value = { ArchiveFacts };

    ghost view = { λ s. archive_facts s.pass s.is_told };

    ghost invariant = { λ s. s.pass.queue ≡ s.bell.queue };
}

impl<N: Naming> ArchiveSide<N> {
    fn of(bell: Bell<StoreItem<N>>) -> ArchiveSide<N>
        ensures { result ≡ new_archive bell.queue }
    {
        let mut bell = bell;
        let pass = bell.pass();
        ArchiveSide {
            bell,
            pass,
            is_told: false,
        }
    }

    // Offers an item. Whether the bell took it; else it is dropped.
    fn offer<R: Wait>(&mut self, rt: &R, item: StoreItem<N>) -> bool
        ensures { OffersRing (ring_of item) self.old result self.new }
    {
        self.bell.put_as(rt, &mut self.pass, item)
    }

    // Offers that no note comes any more, unless the bell took it before.
    fn tell<R: Wait>(&mut self, rt: &R) -> bool
        ensures { TellsEnd self.old result self.new }
    {
        if self.is_told {
            return false;
        }
        let took = self.offer(rt, StoreItem::Last);
        self.is_told = took;
        took
    }
}

/// The bell of a store, to which whoever publishes offers notes; or none, where nothing is kept.
#[derive(Drop)]
pub struct Archive<N: Naming> {
    side: Option<ArchiveSide<N>>,
}

impl<N: Naming> Model for Archive<N> {
    ghost use Rattle.std.specs.Prelude.{Option};
    ghost use Rattle.mum_keeper.specs.Archive.{ArchiveFacts};

    ghost Value = { Option ArchiveFacts };

    ghost view = { λ a. a.side };
}

impl<N: Naming> Archive<N> {
    /// The bell of a store, with a new pass of it.
    pub fn open(store: Option<Bell<StoreItem<N>>>) -> Archive<N>
        ensures { result ≡ option_map new_archive (queue_of store) }
    {
        match store {
            Some(bell) => Archive {
                side: Some(ArchiveSide::of(bell)),
            },
            None => Archive { side: None },
        }
    }

    /// Whether there is a store.
    pub fn is_there(&self) -> bool
        ensures { result ≡ is_some self.now }
    {
        self.side.is_some()
    }

    /// Whether the bell took that no note comes any more; where there is no store, it is so at once.
    pub fn is_told(&self) -> bool
        ensures { result ≡ is_archive_told self.now }
    {
        match &self.side {
            Some(side) => side.is_told,
            None => true,
        }
    }

    /// Offers a note once. Whether the bell took it; where it was full the note is dropped.
    pub fn offer_note<R: Wait>(&mut self, rt: &R, note: StoreNote<N>) -> bool
        ensures { OffersNote note self.old result self.new }
    {
        match &mut self.side {
            Some(side) => side.offer(rt, StoreItem::Note(note)),
            None => {
                drop(note);
                false
            }
        }
    }

    /// Offers once that no note comes any more, unless the bell took that before. Whether it took it now.
    pub fn tell<R: Wait>(&mut self, rt: &R) -> bool
        ensures { TellsStore self.old result self.new }
    {
        match &mut self.side {
            Some(side) => side.tell(rt),
            None => false,
        }
    }
}
