//! What a session gives a port.

ghost use Rattle.std.specs.Prelude.{◌≡◌, [], None};
ghost use Rattle.std.specs.Option.{ForSome};
ghost use Rattle.mum_parcel.specs.Rules.{IsCopy, IsNotice};
ghost use Rattle.mum_port.specs.Passes.{HaveTaken, NotesParcel};

use mum_base::Slot;
use mum_outbox::BoxPass;
use mum_parcel::{PostParcel, VoiceParcel};
use mum_published::{Naming, Note};
use std::marker::Model;

/// The slot of a session, and the passes with which its port takes from the boxes of that slot. What it took is true,
/// and of the lists of edits that came with it the longest is kept.
#[derive(Drop)]
pub struct Passes<N: Naming> {
    pub(crate) slot: Slot,
    pub(crate) post: BoxPass<PostParcel<N>>,
    pub(crate) voice: BoxPass<VoiceParcel<N>>,
    // None before the first parcel.
    pub(crate) told: Option<Note>,
}

impl<N: Naming> Model for Passes<N> {
    ghost use Rattle.mum_port.specs.Passes.{HaveTaken, PassesFacts};

    ghost Value = { PassesFacts };

    ghost view = { λ p. record { slot = p.slot; post = p.post; voice = p.voice; told = p.told } };

    ghost invariant = { λ p. HaveTaken N.opening
        (record { slot = p.slot; post = p.post; voice = p.voice; told = p.told }) };
}

impl<N: Naming> Passes<N> {
    /// Passes of the boxes of a slot, by which nothing was taken yet.
    pub fn new(
        slot: Slot,
        post: BoxPass<PostParcel<N>>,
        voice: BoxPass<VoiceParcel<N>>,
    ) -> Passes<N>
        requires post { post.taken ≡ [] }
        requires voice { voice.taken ≡ [] }
        ensures { result ≡ record { slot = slot; post = post; voice = voice; told = None } }
    {
        Passes {
            slot,
            post,
            voice,
            told: None,
        }
    }

    // The note of the longest list of edits that came with a parcel.
    pub(crate) fn told(&self) -> Option<Note>
        ensures note { result ≡ self.now.told }
        ensures taken { HaveTaken N.opening self.now }
    {
        match &self.told {
            Some(note) => Some(note.again()),
            None => None,
        }
    }
}

// The note of a notice.
pub(crate) fn note_of_notice<N: Naming>(parcel: &PostParcel<N>) -> Note
    ensures book { result.book ≡ N.opening.book }
    ensures edits { result.edits ≡ parcel.now.edits }
    ensures rules { IsNotice N.opening parcel.now }
{
    parcel.note.again()
}

// The note of a copy.
pub(crate) fn note_of_copy<N: Naming>(parcel: &VoiceParcel<N>) -> Note
    ensures book { result.book ≡ N.opening.book }
    ensures edits { result.edits ≡ parcel.now.edits }
    ensures rules { IsCopy N.opening parcel.now }
{
    parcel.note.again()
}

// A parcel with this note was taken.
pub(crate) fn note_parcel(told: &mut Option<Note>, note: Note)
    requires { ForSome told.old (λ one. one.book ≡ note.book) }
    ensures { NotesParcel told.old note told.new }
{
    match told.take() {
        Some(one) => {
            let mut one = one;
            one.take_up(note);
            drop(told.replace(one));
        }
        None => drop(told.replace(note)),
    }
}
