//! A copy of a voice packet, on its way to its session.

use arrayvec::ArrayVec;
use mum_base::SessionId;
use mum_published::{Naming, Note};
use mum_voice::COPY_LIMIT;
use std::marker::{Model, PhantomData};

/// A copy of a voice packet for one session, the header and the sender among its bytes. It is the copy that
/// the rules give this session after the edits of its note.
#[derive(Drop)]
pub struct VoiceParcel<N: Naming> {
    pub to: SessionId,
    pub bytes: ArrayVec<u8, COPY_LIMIT>,
    /// That the edits after which the packet was routed are published.
    pub note: Note,
    /// The `open` of which the note is.
    pub of: PhantomData<N>,
}

impl<N: Naming> Model for VoiceParcel<N> {
    ghost use Rattle.std.specs.Prelude.{◌≡◌};
    ghost use Rattle.mum_parcel.specs.Facts.{VoiceFacts};
    ghost use Rattle.mum_parcel.specs.Rules.{IsCopy};

    ghost Value = { VoiceFacts };

    ghost view = { λ p. record { to = p.to; bytes = p.bytes.items; edits = p.note.edits } };

    ghost invariant = { λ p. (p.note.book ≡ N.opening.book)
        × IsCopy N.opening (record { to = p.to; bytes = p.bytes.items; edits = p.note.edits }) };
}
