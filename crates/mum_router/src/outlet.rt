//! The voice box of one slot, as a worker offers to it.

ghost use Rattle.std.specs.Prelude.{◌≡◌, ◌≤◌, [], length, min};
ghost use Rattle.mum_outbox.specs.Calls.{Offers, new_pass};
ghost use Rattle.mum_base.specs.declared.number.TheConstants.{VOICE_CAPACITY};
ghost use Rattle.mum_parcel.specs.Facts.{VoiceFacts};
ghost use Rattle.mum_outbox.specs.declared.queue.Offered.{Offered};
ghost use Rattle.mum_outbox.specs.declared.rule.TheConstants.{LAST};
ghost use Rattle.mum_parcel.specs.Rules.{Hears};
ghost use Rattle.mum_router.specs.Offering.{is_sent};

use arrayvec::ArrayVec;
use mum_base::SessionId;
use mum_outbox::BoxPass;
use mum_parcel::{VoiceBox, VoiceParcel};
use mum_published::{Naming, Note};
use mum_voice::COPY_LIMIT;
use std::marker::{Model, PhantomData};
use std::sync::Wait;

// A voice box with the worker's own pass of it. A contract sees the pass.
#[derive(Drop)]
pub(crate) struct Out<N: Naming> {
    queue: VoiceBox<N>,
    pass: BoxPass<VoiceParcel<N>>,
    // How many copies were sent. It stays at its last value.
    sent: u64,
}

impl<N: Naming> Model for Out<N> {
    ghost use Rattle.std.specs.Prelude.{◌≡◌, length, min};
    ghost use Rattle.mum_parcel.specs.Facts.{VoiceFacts};
    ghost use Rattle.mum_outbox.specs.declared.rule.TheConstants.{LAST};
    ghost use Rattle.mum_outbox.specs.Facts.{PassFacts};

    ghost Value = { PassFacts VoiceFacts };

    ghost view = { λ o. o.pass };

    ghost invariant = { λ o. (o.pass.queue ≡ o.queue.queue) × (o.sent ≡ min (length o.pass.offered) LAST) };
}

// Puts these bytes into an empty list.
// Inlined, the whole list would be moved once more.
#[inline(never)]
fn fill(list: &mut ArrayVec<u8, COPY_LIMIT>, bytes: &[u8])
    requires empty { list.old.items ≡ [] }
    requires fits { length bytes.now ≤ COPY_LIMIT }
    ensures { list.new.items ≡ bytes.now }
{
    list.try_extend_from_slice(bytes).unwrap();
}

impl<N: Naming> Out<N> {
    // The box with a new pass of it.
    pub(crate) fn new(queue: VoiceBox<N>) -> Out<N>
        ensures { result ≡ new_pass queue }
    {
        let mut queue = queue;
        let pass = queue.pass();
        Out {
            queue,
            pass,
            sent: 0,
        }
    }

    // Offers a copy of these bytes to a session, and answers whether it was sent; else the box was full, and the copy is
    // dropped. It is the copy that the rules give this session after the edits of the note.
    pub(crate) fn offer<W: Wait>(&mut self, rt: &W, to: SessionId, bytes: &[u8], note: Note) -> bool
        requires fits { length bytes.now ≤ COPY_LIMIT }
        requires note { note.book ≡ N.opening.book }
        requires hears { Hears N.opening note.edits to bytes.now }
        ensures { (answer : Offered VoiceFacts)
            × Offers VOICE_CAPACITY self.old (record { to = to; bytes = bytes.now; edits = note.edits }) answer self.new
            × (result ≡ is_sent answer) }
    {
        let mut parcel = VoiceParcel {
            to,
            bytes: ArrayVec::new(),
            note,
            of: PhantomData,
        };
        fill(&mut parcel.bytes, bytes);
        if !self.queue.put_as(rt, &mut self.pass, parcel) {
            return false;
        }
        self.sent = self.sent.saturating_add(1);
        true
    }

    // How many copies were sent, as far as that is counted.
    pub(crate) fn sent(&self) -> u64
        ensures { result ≡ min (length self.now.offered) LAST }
    {
        self.sent
    }

    // How many copies found the box full.
    pub(crate) fn full(&self) -> u64
        ensures { result ≡ self.now.full }
    {
        self.pass.full()
    }
}
