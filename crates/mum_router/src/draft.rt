//! The copy of a packet that was made last.

ghost use Rattle.std.specs.Prelude.{◌≡◌, ◌≤◌, [], length};
ghost use Rattle.mum_voice.specs.Packet.{IsPacket, plain_parts};
ghost use Rattle.mum_route.specs.Hearers.{IsInRange, copy_for};
ghost use Rattle.mum_router.specs.Drafts.{IsDraft, IsOfSame};

use arrayvec::ArrayVec;
use mum_base::SessionId;
use mum_published::Note;
use mum_route::Hearer;
use mum_voice::{COPY_LIMIT, Packet};

// A copy with what it was made for: all hearers in one context, with the position or without, get the same bytes. It
// has none before the first. Its note is that the edits after which the packet is routed are published.
#[derive(Drop)]
pub(crate) struct Draft {
    speaker: SessionId,
    note: Note,
    context: u8,
    same: bool,
    bytes: ArrayVec<u8, COPY_LIMIT>,
}

impl Draft {
    // No copy yet, of a packet of this speaker.
    pub(crate) fn new(speaker: SessionId, note: Note) -> Draft
        ensures empty { result.bytes.items ≡ [] }
        ensures speaker { result.speaker ≡ speaker }
        ensures note { result.note ≡ note }
    {
        Draft {
            speaker,
            note,
            context: 0,
            same: false,
            bytes: ArrayVec::new(),
        }
    }

    // The copy for a hearer of this packet, which is made unless the one before is the same.
    pub(crate) fn prepare(&mut self, packet: &Packet, hearer: &Hearer)
        requires packet { IsPacket (plain_parts packet.now) }
        requires range { IsInRange hearer.now }
        requires draft { IsDraft (plain_parts packet.now) self.old }
        ensures draft { IsDraft (plain_parts packet.now) self.new }
        ensures same { IsOfSame self.old self.new }
        ensures bytes { self.new.bytes.items ≡ copy_for self.new.speaker (plain_parts packet.now) hearer.now }
    {
        let is_made = !self.bytes.is_empty();
        if is_made && self.context == hearer.context && self.same == hearer.same {
            return;
        }
        self.bytes.clear();
        hearer.copy_into(self.speaker, packet, &mut self.bytes);
        self.context = hearer.context;
        self.same = hearer.same;
    }

    // Its note once more.
    pub(crate) fn note(&self) -> Note
        ensures { result ≡ self.now.note }
    {
        self.note.again()
    }

    // Its bytes.
    pub(crate) fn as_slice(&self) -> &[u8]
        ensures all { result.now ≡ self.now.bytes.items }
        ensures few { length result.now ≤ COPY_LIMIT }
    {
        self.bytes.as_slice()
    }
}
