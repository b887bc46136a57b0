//! What a port takes from its boxes, and what it writes.

ghost use Rattle.std.specs.Prelude.{◌≡◌, ◌<◌, ◌≤◌, [], length};
ghost use Rattle.mum_port.specs.Linking.{WritesLink};
ghost use Rattle.mum_port.specs.Taking.{Collects, Drains, HearsParcel, IsPassOf, IsPosted, IsVoiced, PostsParcel, PassesCollect, PassesDrain, foreign_count, has_taken};

use crate::outgoing::Outgoing;
use crate::passes::{Passes, note_of_copy, note_of_notice, note_parcel};
use crate::stage::{Parting, Stage, Went};
use mum_base::{Cause, SessionId};
use mum_io::{Link, PollWrite};
use mum_parcel::{PostBox, PostParcel, VoiceBox, VoiceParcel};
use mum_published::Naming;
use std::sync::Wait;

// What a look into a box came to.
#[derive(Clone, Copy)]
pub(crate) enum Taking {
    /// The box was not looked into.
    NotDue,
    /// It held nothing.
    Nothing,
    /// A parcel for the session of the port.
    Own,
    /// A parcel for another session, which is dropped.
    Foreign,
}

impl Taking {
    // Whether a parcel was taken.
    pub(crate) fn took(self) -> bool
        ensures { result ≡ has_taken self }
    {
        matches!(self, Taking::Own | Taking::Foreign)
    }

    // How many parcels for another session were taken.
    pub(crate) fn stale(self) -> u32
        ensures count { result ≡ foreign_count self }
        ensures one { result ≤ 1 }
    {
        match self {
            Taking::Foreign => 1,
            _ => 0,
        }
    }
}

// A parcel that was taken from the post box is written, where it is for this session. After the last one
// the port ends.
fn post<N: Naming>(
    parcel: PostParcel<N>,
    session: SessionId,
    out: &mut Outgoing,
    stage: &mut Stage,
) -> Taking
    requires { out.old ≡ [] }
    ensures { PostsParcel parcel session result out.new stage.old stage.new }
{
    let PostParcel {
        to,
        bytes,
        last,
        ..
    } = parcel;
    if to != session {
        drop(bytes);
        return Taking::Foreign;
    }
    out.hold(bytes);
    if last {
        *stage = Stage::Ending(Parting::Kicked);
    }
    Taking::Own
}

// A parcel that was taken from the voice box is written as a frame, where it is for this session.
fn hear<N: Naming>(parcel: &VoiceParcel<N>, session: SessionId, out: &mut Outgoing) -> Taking
    requires { out.old ≡ [] }
    ensures { HearsParcel parcel.now session result out.new }
{
    if parcel.to != session {
        return Taking::Foreign;
    }
    out.hold_voice(parcel.bytes.as_slice());
    Taking::Own
}

// Takes one parcel from the post box of the slot, where there is one.
fn take_post<N: Naming, R: Wait>(
    rt: &R,
    posts: &[PostBox<N>],
    session: SessionId,
    passes: &mut Passes<N>,
    out: &mut Outgoing,
    stage: &mut Stage,
) -> Taking
    requires empty { out.old ≡ [] }
    requires queue { IsPassOf posts.now passes.old.slot passes.old.post }
    ensures { PassesCollect posts.now session passes.old stage.old result passes.new out.new stage.new }
{
    let Some(queue) = posts.get(usize::from(passes.slot.0)) else {
        return Taking::NotDue;
    };
    match queue.take_as(rt, &mut passes.post) {
        None => Taking::Nothing,
        Some(parcel) => {
            note_parcel(&mut passes.told, note_of_notice(&parcel));
            post(parcel, session, out, stage)
        }
    }
}

// Takes one parcel from the voice box of the slot, where there is one.
fn take_voice<N: Naming, R: Wait>(
    rt: &R,
    voices: &[VoiceBox<N>],
    session: SessionId,
    passes: &mut Passes<N>,
    out: &mut Outgoing,
) -> Taking
    requires empty { out.old ≡ [] }
    requires queue { IsPassOf voices.now passes.old.slot passes.old.voice }
    ensures { PassesDrain voices.now session passes.old result passes.new out.new }
{
    let Some(queue) = voices.get(usize::from(passes.slot.0)) else {
        return Taking::NotDue;
    };
    match queue.take_as(rt, &mut passes.voice) {
        None => Taking::Nothing,
        Some(parcel) => {
            note_parcel(&mut passes.told, note_of_copy(&parcel));
            hear(&parcel, session, out)
        }
    }
}

// Takes one parcel from its post box, where it has one.
pub(crate) fn collect<N: Naming, R: Wait>(
    rt: &R,
    posts: &[PostBox<N>],
    session: SessionId,
    passes: &mut Option<Passes<N>>,
    out: &mut Outgoing,
    stage: &mut Stage,
) -> Taking
    requires empty { out.old ≡ [] }
    requires queue { IsPosted posts.now passes.old }
    ensures { Collects posts.now session passes.old stage.old result passes.new out.new stage.new }
{
    let Some(mut held) = passes.take() else {
        return Taking::NotDue;
    };
    let took = take_post(rt, posts, session, &mut held, out, stage);
    drop(passes.replace(held));
    took
}

// Takes one parcel from its voice box, where it has one.
pub(crate) fn drain<N: Naming, R: Wait>(
    rt: &R,
    voices: &[VoiceBox<N>],
    session: SessionId,
    passes: &mut Option<Passes<N>>,
    out: &mut Outgoing,
) -> Taking
    requires empty { out.old ≡ [] }
    requires queue { IsVoiced voices.now passes.old }
    ensures { Drains voices.now session passes.old result passes.new out.new }
{
    let Some(mut held) = passes.take() else {
        return Taking::NotDue;
    };
    let took = take_voice(rt, voices, session, &mut held, out);
    drop(passes.replace(held));
    took
}

// Writes once.
pub(crate) fn write<L: Link>(link: &mut L, out: &mut Outgoing) -> Went
    requires { 0 < length out.old }
    ensures { WritesLink L.facts link.old out.old result link.new out.new }
{
    match out.write_to(link) {
        PollWrite::Took(_) => Went::Worked,
        PollWrite::NotYet => Went::Stalled,
        PollWrite::Failed => Went::Closes(Cause::LinkFault),
    }
}
