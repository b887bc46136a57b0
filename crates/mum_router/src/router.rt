//! The router of a worker.

ghost use Rattle.std.specs.Prelude.{◌≡◌, ◌≤◌, [], ◌++◌, List, length, map, IfOk};
ghost use Rattle.mum_state.specs.Proper.{IsProper};
ghost use Rattle.mum_published.specs.Calls.{Admitted, Learnt};
ghost use Rattle.mum_voice.specs.Packet.{IsPacket, plain_parts};
ghost use Rattle.mum_outbox.specs.Calls.{new_pass};
ghost use Rattle.mum_router.specs.Offering.{copies_of, full_of};
ghost use Rattle.mum_router.specs.Picking.{EntryStood, Looks, Picks, looks_of};
ghost use Rattle.mum_router.specs.Routing.{Routes};

use crate::draft::Draft;
use crate::marks::Marks;
use crate::offering::{Routed, count_full, count_sent, deliver_each};
use crate::outlet::Out;
use crate::picking::look_for;
use mum_base::{OutOfMemory, SLOTS, SessionId, Steps};
use mum_cache::Caches;
use mum_parcel::VoiceBox;
use mum_published::{Naming, Note, Pass, Roll};
use mum_record::Marked;
use mum_route::{Audience, Hearer};
use mum_tree::Scratch;
use mum_voice::Packet;
use std::alloc::Global;
use std::marker::{Model, PhantomData};
use std::sync::Wait;
use std::sync::ledger::Ledger;

/// Routes the packets of one worker: to whom a packet goes is found by a look at what is published, and its
/// copies go to the voice boxes of their slots.
#[derive(Drop)]
pub struct Router<N: Naming> {
    pass: Pass,
    caches: Caches,
    scratch: Scratch,
    hearers: Audience,
    // One for each slot.
    outs: Vec<Out<N>>,
    marks: Marks,
    // How many looks there were. It stays at its last value.
    looks: u64,
    of: PhantomData<N>,
}

impl<N: Naming> Model for Router<N> {
    ghost use Rattle.std.specs.Prelude.{◌≡◌, length};
    ghost use Rattle.std.specs.List.{All};
    ghost use Rattle.mum_base.specs.declared.number.TheConstants.{SLOTS};
    ghost use Rattle.mum_state.specs.Proper.{IsProper};
    ghost use Rattle.mum_published.specs.Calls.{state_of};
    ghost use Rattle.mum_cache.specs.Caches.{AreSound};
    ghost use Rattle.mum_router.specs.Facts.{RouterFacts};
    ghost use Rattle.mum_router.specs.Picking.{looks_of};

    ghost Value = { RouterFacts };

    ghost view = { λ r. record {
      pass = r.pass;
      caches = r.caches;
      hearers = r.hearers;
      outs = r.outs.items;
      marks = r.marks;
    } };

    ghost invariant = { λ r. (r.pass.opening ≡ N.opening) × IsProper N.opening.state
        × AreSound (state_of N.opening r.pass.seen) r.caches
        × (length r.outs.items ≡ SLOTS) × (r.looks ≡ looks_of r.pass) };
}

// Each box with a new pass of it.
fn outs_of<N: Naming>(alloc: Global, voices: Vec<VoiceBox<N>>) -> Result<Vec<Out<N>>, OutOfMemory>
    ensures { IfOk result (λ outs. outs.items ≡ map new_pass voices.items) }
{
    let mut outs = Vec::new(alloc);
    for queue in voices {
        outs.push(Out::new(queue))?;
    }
    Ok(outs)
}

impl<N: Naming> Router<N> {
    /// A router that has routed nothing, over a pass that made no look and one voice box for each slot. It
    /// makes a pass of each box.
    pub fn open(
        alloc: Global,
        pass: Pass,
        voices: Vec<VoiceBox<N>>,
    ) -> Result<Router<N>, OutOfMemory>
        requires opening { pass.opening ≡ N.opening }
        requires proper { IsProper N.opening.state }
        requires no_look { pass.asks ≡ [] }
        requires boxes { length voices.items ≡ SLOTS }
        ensures pass { IfOk result (λ router. router.pass ≡ pass) }
        ensures outs { IfOk result (λ router. router.outs ≡ map new_pass voices.items) }
        ensures nobody { IfOk result (λ router. router.hearers ≡ []) }
        ensures marks { IfOk result (λ router. router.marks ≡ []) }
    {
        let outs = outs_of(alloc, voices)?;
        let scratch = Scratch::new(alloc)?;
        let marks = Marks::new(alloc)?;
        let caches = Caches::new(alloc)?;
        Ok(Router {
            pass,
            caches,
            scratch,
            hearers: Audience::new(),
            outs,
            marks,
            looks: 0,
            of: PhantomData,
        })
    }

    /// Learns what a note reports: no later look sees less. It takes no memory and waits for nobody.
    pub fn learn(&mut self, note: &Note)
        requires { note.now.book ≡ N.opening.book }
        ensures learnt { Learnt self.old.pass note.now.edits self.new.pass }
        ensures same { self.new ≡ record self.old { pass = self.new.pass } }
    {
        self.pass.learn(note);
    }

    /// Learns of the accepted logins of a roll. It takes no memory and waits for nobody.
    pub fn admit(&mut self, roll: &Roll)
        requires { roll.now.book ≡ N.opening.roll }
        ensures admitted { Admitted self.old.pass roll.now.log self.new.pass }
        ensures same { self.new ≡ record self.old { pass = self.new.pass } }
    {
        self.pass.admit(roll);
    }

    // One look for those who hear a packet, who are kept.
    fn look<W: Wait, L: Ledger>(
        &mut self,
        rt: &W,
        speaker: SessionId,
        packet: &Packet,
        steps: &mut Steps<L>,
    )
        requires { IsPacket (plain_parts packet.now) }
        ensures looks { Looks N.opening self.old speaker (plain_parts packet.now) self.new }
        ensures steps { EntryStood N.opening self.old speaker (plain_parts packet.now) self.new
            → steps.new ≡ steps.old }
    {
        look_for(
            rt,
            &mut self.pass,
            &mut self.caches,
            &mut self.scratch,
            &mut self.hearers,
            speaker,
            packet,
            steps,
        );
        self.looks = self.looks.saturating_add(1);
    }

    /// Who hears a packet of a session, in slot order, by one look. They are kept, each with its slot and
    /// whether the plugin contexts are equal, both at the state of that look. Nobody hears a session that is
    /// not there. The route is kept, but for loopback; where it was kept already and the state of the look has
    /// the same count of routing, no step is counted. It takes no memory, and only the look may try again.
    pub fn pick<W: Wait, L: Ledger>(
        &mut self,
        rt: &W,
        speaker: SessionId,
        packet: &Packet,
        steps: &mut Steps<L>,
    ) -> Audience
        requires { IsPacket (plain_parts packet.now) }
        ensures picks { Picks N.opening self.old speaker (plain_parts packet.now) self.new result }
        ensures steps { EntryStood N.opening self.old speaker (plain_parts packet.now) self.new
            → steps.new ≡ steps.old }
    {
        self.look(rt, speaker, packet, steps);
        self.hearers.copy()
    }

    /// One `pick`, and one offer for each who hears the packet, in their order: its copy goes to the box of its
    /// slot. A copy that finds a full box is dropped and counted. It takes no memory, and only the look and the
    /// offers may try again.
    pub fn route<W: Wait, L: Ledger>(
        &mut self,
        rt: &W,
        speaker: SessionId,
        packet: &Packet,
        steps: &mut Steps<L>,
    ) -> Routed
        requires { IsPacket (plain_parts packet.now) }
        ensures routes { Routes N.opening self.old speaker (plain_parts packet.now) self.new result }
        ensures steps { EntryStood N.opening self.old speaker (plain_parts packet.now) self.new
            → steps.new ≡ steps.old }
    {
        self.look(rt, speaker, packet, steps);
        let mut draft = Draft::new(speaker, self.pass.note());
        let hearers = self.hearers.as_slice();
        let count = hearers.len() as u32;
        let sent = deliver_each(
            rt,
            packet,
            hearers,
            &mut draft,
            &mut self.outs,
            &mut self.marks,
        );
        Routed {
            revision: self.pass.revision(),
            sent,
            full: count - sent,
        }
    }

    /// The pass that looks. It is of the opening that the router is named for.
    pub fn pass(&self) -> &Pass
        ensures pass { result.now ≡ self.now.pass }
        ensures opening { result.now.opening ≡ N.opening }
    {
        &self.pass
    }

    /// How many edits the pass knows: after a look, those that the look saw.
    pub fn revision(&self) -> u64
        ensures { result ≡ length self.now.pass.known }
    {
        self.pass.revision()
    }

    /// Who hears the packet of the last look, in slot order.
    pub fn hearers(&self) -> &[Hearer]
        ensures { result.now ≡ self.now.hearers }
    {
        self.hearers.as_slice()
    }

    /// What became of each copy of the last route, in their order.
    pub fn marks(&self) -> &[Marked]
        ensures all { result.now ≡ self.now.marks }
        ensures few { length result.now ≤ SLOTS }
    {
        self.marks.as_slice()
    }

    /// How many looks there were. It stays at its last value.
    pub fn looks(&self) -> u64
        ensures { result ≡ looks_of self.now.pass }
    {
        self.looks
    }

    /// How many copies were sent. It stays at its last value.
    pub fn copies(&self) -> u64
        ensures { result ≡ copies_of self.now.outs }
    {
        count_sent(&self.outs)
    }

    /// How many copies found a full box. It stays at its last value.
    pub fn full(&self) -> u64
        ensures { result ≡ full_of self.now.outs }
    {
        count_full(&self.outs)
    }
}
