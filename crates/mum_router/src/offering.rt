//! The copies of a packet, each offered to the box of its slot.

ghost use Rattle.std.specs.Prelude.{◌≡◌, ◌≤◌, [], length};
ghost use Rattle.std.specs.List.{All, Contains};
ghost use Rattle.mum_outbox.specs.declared.queue.Offered.{Offered};
ghost use Rattle.mum_parcel.specs.Facts.{VoiceFacts};
ghost use Rattle.mum_voice.specs.Packet.{IsPacket, plain_parts};
ghost use Rattle.mum_route.specs.Hearers.{IsInRange, hearers_at};
ghost use Rattle.mum_published.specs.Calls.{state_of};
ghost use Rattle.mum_router.specs.Drafts.{IsDraft, IsOfSame};
ghost use Rattle.mum_router.specs.Offering.{Delivers, DeliversEach, copies_of, full_of, is_sent};

use crate::draft::Draft;
use crate::marks::Marks;
use crate::outlet::Out;
use mum_base::SLOTS;
use mum_published::Naming;
use mum_record::Marked;
use mum_route::Hearer;
use mum_voice::Packet;
use std::sync::Wait;

/// What a route did.
#[derive(Clone, Copy, Debug, PartialEq, Eq)]
pub struct Routed {
    /// How many edits its look saw.
    pub revision: u64,
    /// How many copies were sent.
    pub sent: u32,
    /// How many copies found a full box, and were dropped.
    pub full: u32,
}

// Offers one copy to the box of its slot.
fn deliver<N: Naming, W: Wait>(
    rt: &W,
    packet: &Packet,
    hearer: &Hearer,
    draft: &mut Draft,
    outs: &mut Vec<Out<N>>,
) -> bool
    requires packet { IsPacket (plain_parts packet.now) }
    requires range { IsInRange hearer.now }
    requires draft { IsDraft (plain_parts packet.now) draft.old }
    requires note { draft.old.note.book ≡ N.opening.book }
    requires hears { Contains (hearers_at (state_of N.opening draft.old.note.edits) draft.old.speaker packet.now.target) hearer.now }
    requires boxes { length outs.old.items ≡ SLOTS }
    ensures draft { IsDraft (plain_parts packet.now) draft.new }
    ensures same { IsOfSame draft.old draft.new }
    ensures boxes { length outs.new.items ≡ SLOTS }
    ensures delivers { (answer : Offered VoiceFacts)
        × Delivers draft.old.note.edits draft.old.speaker (plain_parts packet.now) outs.old.items
        (record { hearer = hearer.now; answer = answer }) outs.new.items × (result ≡ is_sent answer) }
{
    draft.prepare(packet, hearer);
    let note = draft.note();
    let out = &mut outs[usize::from(hearer.slot.0)];
    out.offer(rt, hearer.session, draft.as_slice(), note)
}

// Offers a copy of a packet of the draft's speaker to each who hears it after the edits of the draft's note, in their
// order, and answers how many were sent.
pub(crate) fn deliver_each<N: Naming, W: Wait>(
    rt: &W,
    packet: &Packet,
    hearers: &[Hearer],
    draft: &mut Draft,
    outs: &mut Vec<Out<N>>,
    marks: &mut Marks,
) -> u32
    requires packet { IsPacket (plain_parts packet.now) }
    requires range { All IsInRange hearers.now }
    requires few { length hearers.now ≤ SLOTS }
    requires empty { draft.old.bytes.items ≡ [] }
    requires note { draft.old.note.book ≡ N.opening.book }
    requires hear { hearers.now
        ≡ hearers_at (state_of N.opening draft.old.note.edits) draft.old.speaker packet.now.target }
    requires boxes { length outs.old.items ≡ SLOTS }
    ensures boxes { length outs.new.items ≡ SLOTS }
    ensures few { result ≤ length hearers.now }
    ensures each { DeliversEach draft.old.note.edits draft.old.speaker (plain_parts packet.now) hearers.now
        outs.old.items outs.new.items marks.new result }
{
    marks.clear();
    let mut sent = 0;
    for hearer in hearers {
        let was_sent = deliver(rt, packet, hearer, draft, outs);
        marks.push(Marked {
            session: hearer.session,
            context: hearer.context,
            sent: was_sent,
        });
        sent += u32::from(was_sent);
    }
    sent
}

// How many copies were sent, as far as that is counted.
pub(crate) fn count_sent<N: Naming>(outs: &[Out<N>]) -> u64
    ensures { result ≡ copies_of outs.now }
{
    let mut total: u64 = 0;
    for out in outs {
        total = total.saturating_add(out.sent());
    }
    total
}

// How many copies found a full box, as far as that is counted.
pub(crate) fn count_full<N: Naming>(outs: &[Out<N>]) -> u64
    ensures { result ≡ full_of outs.now }
{
    let mut total: u64 = 0;
    for out in outs {
        total = total.saturating_add(out.full());
    }
    total
}
