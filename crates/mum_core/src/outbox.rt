//! The bounded queue of voice copies that a slot's connection drains.

ghost use Rattle.std.specs.Prelude.{◌≡◌, ◌≤◌, ◌<◌, [], ◌∷◌, ◌++◌, length, IfOk, nat_lt, slice_get, slice_index_or, drop};
ghost use Rattle.mum_core.specs.Lists.{changed_at};
ghost use Rattle.std.specs.Option.{option_copied};

use mum_base::{Octets, OutOfMemory, SessionId, VOICE_CAPACITY};
use mum_voice::COPY_LIMIT;
use std::alloc::Global;
use std::collections::VecDeque;
use std::marker::Model;

/// The bytes of a copy: a voice packet as its recipient takes it, of at most 1,025 bytes.
#[derive(Drop)]
pub struct CopyBytes {
    bytes: Octets,
}

impl Model for CopyBytes {
    ghost use Rattle.std.specs.Prelude.{ℕ, List, ◌≤◌, length};
    ghost use Rattle.mum_voice.specs.declared.packet.TheConstants.{COPY_LIMIT};

    ghost Value = { List ℕ };

    ghost view = { λ c. c.bytes };

    ghost invariant = { λ c. length c.bytes ≤ COPY_LIMIT };
}

impl CopyBytes {
    pub fn of(alloc: Global, bytes: &[u8]) -> Result<CopyBytes, OutOfMemory>
        requires { length bytes.now ≤ COPY_LIMIT }
        ensures { IfOk result (λ copy. copy ≡ bytes.now) }
    {
        Ok(CopyBytes {
            bytes: Octets::of(alloc, bytes)?,
        })
    }

    pub fn as_slice(&self) -> &[u8]
        ensures value { result.now ≡ self.now }
        ensures short { length result.now ≤ COPY_LIMIT }
    {
        self.bytes.as_slice()
    }
}

/// A copy on its way to a session.
#[derive(Drop)]
pub struct Parcel {
    pub to: SessionId,
    pub bytes: CopyBytes,
}

/// The copies that wait for the connection of one slot, the oldest first.
#[derive(Drop)]
pub struct Outbox {
    parcels: VecDeque<Parcel>,
}

impl Model for Outbox {
    ghost use Rattle.std.specs.Prelude.{List, ◌≤◌, length};
    ghost use Rattle.std.specs.VecDeque.{deque_capacity};
    ghost use Rattle.mum_core.specs.declared.outbox.Parcel.{Parcel};
    ghost use Rattle.mum_base.specs.declared.number.TheConstants.{VOICE_CAPACITY};

    ghost Value = { List Parcel };

    ghost view = { λ o. o.parcels.items };

    ghost invariant = { λ o. VOICE_CAPACITY ≤ deque_capacity o.parcels };
}

impl Outbox {
    /// An empty outbox, with room for all that it may ever hold.
    pub fn new(alloc: Global) -> Result<Outbox, OutOfMemory>
        ensures { IfOk result (λ outbox. outbox ≡ []) }
    {
        Ok(Outbox {
            parcels: VecDeque::with_capacity(alloc, VOICE_CAPACITY)?,
        })
    }

    pub fn has_room(&self) -> bool
        ensures { result ≡ nat_lt (length self.now) VOICE_CAPACITY }
    {
        self.parcels.len() < VOICE_CAPACITY
    }

    /// Puts a parcel at the back, where there is room. It takes no memory.
    pub fn put(&mut self, parcel: Parcel)
        requires { length self.old < VOICE_CAPACITY }
        ensures { self.new ≡ self.old ++ parcel ∷ [] }
    {
        self.parcels.push_back_reserved(parcel);
    }

    /// The parcel at the front.
    pub fn front(&self) -> Option<&Parcel>
        ensures { option_copied result ≡ slice_get self.now 0 }
    {
        self.parcels.front()
    }

    /// Takes the parcel at the front.
    pub fn take(&mut self) -> Option<Parcel>
        ensures front { result ≡ slice_get self.old 0 }
        ensures others { self.new ≡ drop 1 self.old }
    {
        self.parcels.pop_front()
    }
}

/// Puts a parcel at the back of the outbox at a place, which has room for it.
pub fn put_at(outboxes: &mut Vec<Outbox>, place: usize, parcel: Parcel)
    requires { length (slice_index_or outboxes.old.items place []) < VOICE_CAPACITY }
    ensures { outboxes.new.items ≡ changed_at place (λ parcels. parcels ++ parcel ∷ []) outboxes.old.items }
{
    if let Some(outbox) = outboxes.get_mut(place) {
        outbox.put(parcel);
    }
}

/// Takes the parcel at the front of the outbox at a place.
pub fn take_at(outboxes: &mut Vec<Outbox>, place: usize)
    ensures { outboxes.new.items ≡ changed_at place (λ parcels. drop 1 parcels) outboxes.old.items }
{
    if let Some(outbox) = outboxes.get_mut(place) {
        let _ = outbox.take();
    }
}
