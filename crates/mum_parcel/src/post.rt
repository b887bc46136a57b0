//! A notice, on its way to its session.

use mum_base::{Octets, SessionId};
use mum_published::{Naming, Note};
use std::marker::{Model, PhantomData};

/// A control frame for one session, which reports an edit among those of its note. After the last one the port closes.
#[derive(Drop)]
pub struct PostParcel<N: Naming> {
    pub to: SessionId,
    pub bytes: Octets,
    pub last: bool,
    /// That the edits are published which were when it was posted.
    pub note: Note,
    /// The `open` of which the note is.
    pub of: PhantomData<N>,
}

impl<N: Naming> Model for PostParcel<N> {
    ghost use Rattle.std.specs.Prelude.{◌≡◌};
    ghost use Rattle.mum_parcel.specs.Facts.{PostFacts};
    ghost use Rattle.mum_parcel.specs.Rules.{IsNotice};

    ghost Value = { PostFacts };

    ghost view = { λ p. record { to = p.to; bytes = p.bytes; last = p.last; edits = p.note.edits } };

    ghost invariant = { λ p. (p.note.book ≡ N.opening.book)
        × IsNotice N.opening (record { to = p.to; bytes = p.bytes; last = p.last; edits = p.note.edits }) };
}
