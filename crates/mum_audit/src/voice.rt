//! A voice entry: its revision, its packet, its connection and its copies are tested in this order.

ghost use Rattle.std.specs.Prelude.{◌≡◌, ◌≤◌, IfOk, length, map};
ghost use Rattle.mum_history.specs.View.{IsViewOf};
ghost use Rattle.mum_route.specs.Hearers.{member_of};
ghost use Rattle.mum_route.specs.declared.routes.TheConstants.{LOOPBACK};
ghost use Rattle.mum_voice.specs.Packet.{packet};
ghost use Rattle.mum_audit.specs.Finding.{members_of, same_member, same_members};
ghost use Rattle.mum_audit.specs.Past.{session_of};
ghost use Rattle.mum_audit.specs.Voice.{audience_finding, packet_finding, revision_finding, speaker_finding, voice_finding};

use crate::finding::{Finding, audiences_differ, numbers_differ, packet_is_faulty};
use crate::hearing::{Hearing, hear};
use crate::past::Past;
use mum_base::OutOfMemory;
use mum_record::Marked;
use mum_route::Hearer;
use mum_voice::Packet;
use std::alloc::Global;

// A voice entry.
#[derive(Clone, Copy)]
pub(crate) struct VoiceEntry<'a> {
    pub connection: u32,
    pub revision: u64,
    pub packet: &'a [u8],
    pub copies: &'a [Marked],
}

// What is wrong with a revision between these two.
fn check_revision(
    alloc: Global,
    least: u64,
    greatest: u64,
    revision: u64,
) -> Result<Option<Finding>, OutOfMemory>
    ensures { IfOk result (λ found. found ≡ revision_finding least greatest revision) }
{
    if revision < least {
        return Ok(Some(numbers_differ(alloc, revision, least)?));
    }
    if revision > greatest {
        return Ok(Some(numbers_differ(alloc, revision, greatest)?));
    }
    Ok(None)
}

// Whether a copy is for one who hears a packet, in the context of the hearer.
fn is_member(copy: &Marked, hearer: &Hearer) -> bool
    ensures { result ≡ same_member (copy.now.session, copy.now.context) (member_of hearer.now) }
{
    copy.session == hearer.session && copy.context == hearer.context
}

// Whether copies, as many as hear a packet, are for these in their order.
fn are_all_members(copies: &[Marked], hearers: &[Hearer]) -> bool
    requires { length copies.now ≡ length hearers.now }
    ensures { result ≡ same_members (members_of copies.now) (map member_of hearers.now) }
{
    for (i, copy) in copies.iter().enumerate() {
        if !is_member(copy, &hearers[i]) {
            return false;
        }
    }
    true
}

// Whether copies are for those who hear a packet.
fn are_members(copies: &[Marked], hearers: &[Hearer]) -> bool
    ensures { result ≡ same_members (members_of copies.now) (map member_of hearers.now) }
{
    if copies.len() == hearers.len() {
        are_all_members(copies, hearers)
    } else {
        false
    }
}

// What is wrong with the copies of a packet that these hear.
fn check_audience(
    alloc: Global,
    copies: &[Marked],
    hearers: &[Hearer],
) -> Result<Option<Finding>, OutOfMemory>
    ensures { IfOk result (λ found. found ≡ audience_finding (members_of copies.now) (map member_of hearers.now)) }
{
    if are_members(copies, hearers) {
        return Ok(None);
    }
    Ok(Some(audiences_differ(alloc, copies, hearers)?))
}

// What is wrong with the connection or the copies of an entry whose packet is for this target.
fn check_speaker(
    alloc: Global,
    past: &Past,
    hearing: &mut Hearing,
    entry: &VoiceEntry<'_>,
    target: u8,
) -> Result<Option<Finding>, OutOfMemory>
    requires view { IsViewOf past.now.opening past.now.accepted hearing.old.view }
    requires accepted { entry.now.revision ≤ length past.now.accepted }
    requires target { target ≤ LOOPBACK }
    ensures view { IsViewOf past.now.opening past.now.accepted hearing.new.view }
    ensures finding { IfOk result (λ found. found
        ≡ speaker_finding past.now entry.now.revision entry.now.connection entry.now.copies.now target
        (session_of past.now entry.now.connection)) }
{
    let Some(speaker) = past.session(entry.connection) else {
        return Ok(Some(numbers_differ(alloc, u64::from(entry.connection), 0)?));
    };
    hear(
        alloc,
        hearing,
        past.history(),
        entry.revision,
        speaker,
        target,
    )?;
    check_audience(alloc, entry.copies, hearing.audience.as_slice())
}

// What is wrong with the packet, the connection or the copies of an entry.
fn check_packet(
    alloc: Global,
    past: &Past,
    hearing: &mut Hearing,
    entry: &VoiceEntry<'_>,
) -> Result<Option<Finding>, OutOfMemory>
    requires view { IsViewOf past.now.opening past.now.accepted hearing.old.view }
    requires accepted { entry.now.revision ≤ length past.now.accepted }
    ensures view { IsViewOf past.now.opening past.now.accepted hearing.new.view }
    ensures finding { IfOk result (λ found. found
        ≡ packet_finding past.now entry.now.connection entry.now.revision entry.now.packet.now entry.now.copies.now
        (packet entry.now.packet.now)) }
{
    match Packet::parse(entry.packet) {
        Ok(packet) => check_speaker(alloc, past, hearing, entry, packet.target),
        Err(fault) => Ok(Some(packet_is_faulty(alloc, entry.packet, fault.code)?)),
    }
}

// What is wrong with a voice entry, where the revision before it is this one.
#[tactic(auto, unfolding(crate::specs::Voice::voice_finding))]
pub(crate) fn check_voice(
    alloc: Global,
    past: &Past,
    hearing: &mut Hearing,
    least: u64,
    entry: &VoiceEntry<'_>,
) -> Result<Option<Finding>, OutOfMemory>
    requires { IsViewOf past.now.opening past.now.accepted hearing.old.view }
    ensures view { IsViewOf past.now.opening past.now.accepted hearing.new.view }
    ensures finding { IfOk result (λ found. found
        ≡ voice_finding past.now least entry.now.connection entry.now.revision entry.now.packet.now entry.now.copies.now) }
{
    let greatest = past.history().revision();
    match check_revision(alloc, least, greatest, entry.revision)? {
        Some(finding) => Ok(Some(finding)),
        None => check_packet(alloc, past, hearing, entry),
    }
}
