//! One look for those who hear a packet.

ghost use Rattle.std.specs.Prelude.{◌≡◌, ◌+◌, ◌≤◌, ◌++◌, List, length, map};
ghost use Rattle.arrayvec.specs.ArrayVec.{array_vec_len};
ghost use Rattle.mum_published.specs.Calls.{MayMeet, looked, state_of};
ghost use Rattle.mum_route.specs.Route.{route};
ghost use Rattle.mum_state.specs.declared.edit.Edit.{Edit};
ghost use Rattle.mum_state.specs.Proper.{IsProper};
ghost use Rattle.mum_voice.specs.declared.packet.TheConstants.{PACKET_LIMIT};
ghost use Rattle.mum_voice.specs.Packet.{IsPacket, client_bytes, plain_parts};
ghost use Rattle.mum_cache.specs.Routes.{KeepsAsked, RouteAnswers};
ghost use Rattle.mum_cache.specs.Caches.{AreSound};
ghost use Rattle.mum_route.specs.Hearers.{hearers_at, member_of};
ghost use Rattle.mum_router.specs.Picking.{ask_of};

use arrayvec::ArrayVec;
use mum_base::{SessionId, Steps};
use mum_cache::Caches;
use mum_published::{Ask, Pass};
use mum_route::Audience;
use mum_state::State;
use mum_tree::Scratch;
use mum_voice::{PACKET_LIMIT, Packet};
use std::sync::Wait;
use std::sync::ledger::Ledger;

// Appends a part of a packet, which has room for it.
fn append(bytes: &mut ArrayVec<u8, PACKET_LIMIT>, part: &[u8])
    requires { array_vec_len bytes.old + length part.now ≤ PACKET_LIMIT }
    ensures items { bytes.new.items ≡ bytes.old.items ++ part.now }
    ensures len { array_vec_len bytes.new ≡ array_vec_len bytes.old + length part.now }
{
    bytes.try_extend_from_slice(part).unwrap();
}

// A packet as it came.
fn bytes_of(packet: &Packet) -> ArrayVec<u8, PACKET_LIMIT>
    requires { IsPacket (plain_parts packet.now) }
    ensures { result.items ≡ client_bytes (plain_parts packet.now) }
{
    let mut bytes = ArrayVec::new();
    bytes.push((packet.kind << 5) + packet.target);
    append(&mut bytes, packet.sequence);
    append(&mut bytes, packet.audio);
    append(&mut bytes, packet.position);
    bytes
}

// What a look asks for a packet.
fn ask_of(speaker: SessionId, packet: &Packet) -> Ask
    requires { IsPacket (plain_parts packet.now) }
    ensures { result ≡ ask_of speaker (plain_parts packet.now) }
{
    Ask {
        speaker,
        target: packet.target,
        packet: bytes_of(packet),
    }
}

// One look, for those who hear a packet. What is kept is sound where it was, and then where the look was.
pub(crate) fn look_for<W: Wait, L: Ledger>(
    rt: &W,
    pass: &mut Pass,
    caches: &mut Caches,
    scratch: &mut Scratch,
    hearers: &mut Audience,
    speaker: SessionId,
    packet: &Packet,
    steps: &mut Steps<L>,
)
    requires packet { IsPacket (plain_parts packet.now) }
    requires proper { IsProper pass.old.opening.state }
    requires sound { AreSound (state_of pass.old.opening pass.old.seen) caches.old }
    ensures { (edits : List Edit) × MayMeet pass.old edits
        × (pass.new ≡ looked pass.old edits (ask_of speaker (plain_parts packet.now)))
        × AreSound (state_of pass.old.opening edits) caches.new
        × (hearers.new ≡ hearers_at (state_of pass.old.opening edits) speaker packet.now.target)
        × (map member_of hearers.new ≡ route (state_of pass.old.opening edits) speaker packet.now.target)
        × KeepsAsked (state_of pass.old.opening edits) speaker packet.now.target caches.old.routes caches.new.routes
        × (RouteAnswers (state_of pass.old.opening edits) speaker packet.now.target caches.old.routes
        → steps.new ≡ steps.old) }
{
    let target = packet.target;
    let ask = ask_of(speaker, packet);
    pass.look(
        rt,
        ask,
        &mut |state: &State| { caches.route_at(state, speaker, target, scratch, steps, hearers) },
    );
}
