//! Why a session does not hear another.

ghost use Rattle.std.specs.Prelude.{◌≡◌, ◌==◌, ◌&&◌, IsTrue, if◌then◌else◌};
ghost use Rattle.mum_tree.specs.Rows.{is_there};
ghost use Rattle.mum_state.specs.Proper.{IsProper};
ghost use Rattle.mum_route.specs.Hearing.{may};
ghost use Rattle.mum_route.specs.Laws.{needed_for};
ghost use Rattle.mum_route.specs.Route.{context_of};
ghost use Rattle.mum_why.specs.Reason.{aims_of, apart, by_aims, lacks_where_it_is, left_out, left_out_listening, left_out_there, one_names, reason, reason_between, silence};

use crate::cut::{Cut, cut_at, cut_for};
use crate::stop::Stop;
use crate::ways::{Case, first_way, is_unset, may, one_names};
use mum_base::{ChannelId, Perm, SessionId, Steps};
use mum_route::{Context, LOOPBACK, TALK};
use mum_state::State;
use mum_tree::Scratch;
use mum_users::User;
use std::sync::ledger::Ledger;

/// Why a session does not hear what another says to a target, or how it does. To talk the speaker needs Speak in
/// a channel, to whisper to a voice target Whisper.
#[derive(Clone, Copy, Debug, PartialEq, Eq)]
pub enum Reason {
    /// It hears it, in this context.
    Heard(Context),
    /// The speaker is not there.
    NoSpeaker,
    /// The hearer is not there.
    NoHearer,
    /// The speaker is muted.
    Muted,
    /// The speaker muted itself.
    MutedItself,
    /// The speaker is suppressed: it could not speak when this was decided last. With it what takes Speak away
    /// now, if anything does.
    Suppressed(Option<Cut>),
    /// The target is loopback, and the hearer is not the speaker.
    OnlyLoopback,
    /// The hearer is the speaker, and the target is not loopback.
    ItIsItself,
    /// The hearer is deaf.
    Deaf,
    /// The hearer deafened itself.
    DeafenedItself,
    /// The voice target is not set.
    Unset,
    /// The speaker lacks the permission in this channel, in which the hearer is. The packet is aimed at the
    /// channel, or at the hearer by name.
    SpeakerLacks(ChannelId, Cut),
    /// The item of the voice target at this place, the first being 0, covers this channel, in which the hearer is,
    /// and the hearer is not in the group of the item there. It is the first such item.
    OutsideGroup(usize, ChannelId),
    /// The hearer listens to this channel, which is covered, and lacks Listen there.
    ListenerLacks(ChannelId, Cut),
    /// The item of the voice target at this place covers this channel, to which the hearer listens, and the hearer
    /// is not in the group of the item there. It is the first such item.
    ListenerOutsideGroup(usize, ChannelId),
    /// The hearer listens to this channel, at which the packet is aimed, and the speaker lacks the permission there.
    SpeakerLacksAtListener(ChannelId, Cut),
    /// The packet is aimed neither at the hearer, nor at the channel in which it is, nor at one to which it listens.
    Uncovered,
}

// What a speaker needs in a channel where it is to be heard.
fn needed_for(target: u8) -> Perm
    ensures { result ≡ needed_for target }
{
    if target == TALK {
        Perm::SPEAK
    } else {
        Perm::WHISPER
    }
}

// The context for those who are in a channel that is covered.
fn inside_of(target: u8) -> Context
    ensures { result ≡ (if target == TALK then Context.Talk else Context.ChannelWhisper) }
{
    if target == TALK {
        Context::Talk
    } else {
        Context::ChannelWhisper
    }
}

// Whether the speaker has the permission where the hearer is.
fn may_there<L: Ledger>(case: &Case<'_>, steps: &mut Steps<L>) -> bool
    ensures { result ≡ may case.now.state.now case.now.speaker.now.session (needed_for case.now.target)
        case.now.hearer.now.channel }
{
    let permission = needed_for(case.target);
    may(
        case.state,
        case.speaker.session,
        permission,
        case.hearer.channel,
        steps,
    )
}

// Whether a packet is aimed at a session by name, and its speaker may be heard where that is.
fn is_named_there<L: Ledger>(case: &Case<'_>, steps: &mut Steps<L>) -> bool
    ensures { result ≡ (one_names case.now.state.now case.now.speaker.now case.now.target case.now.hearer.now
        && may case.now.state.now case.now.speaker.now.session (needed_for case.now.target) case.now.hearer.now.channel) }
{
    one_names(case) && may_there(case, steps)
}

// How the aims of a packet reach a session that can hear, if they do.
fn context_of<L: Ledger>(
    case: &Case<'_>,
    scratch: &mut Scratch,
    steps: &mut Steps<L>,
) -> Option<Context>
    requires proper { IsProper case.now.state.now }
    requires speaker { IsTrue (is_there case.now.state.now.tree.channels case.now.speaker.now.channel) }
    requires hearer { IsTrue (is_there case.now.state.now.tree.channels case.now.hearer.now.channel) }
    ensures { result ≡ context_of case.now.state.now case.now.speaker.now case.now.target case.now.hearer.now }
{
    if first_way(case, false, Stop::Arrives, scratch, steps).is_some() {
        return Some(inside_of(case.target));
    }
    if is_named_there(case, steps) {
        return Some(Context::DirectWhisper);
    }
    if first_way(case, true, Stop::Arrives, scratch, steps).is_some() {
        return Some(Context::Listener);
    }
    None
}

// Whether the speaker lacks the permission where a session is, at which or at whose channel the packet is aimed.
fn lacks_where_it_is<L: Ledger>(
    case: &Case<'_>,
    scratch: &mut Scratch,
    steps: &mut Steps<L>,
) -> bool
    requires { IsTrue (is_there case.now.state.now.tree.channels case.now.hearer.now.channel) }
    ensures { result ≡ lacks_where_it_is case.now.state.now case.now.speaker.now case.now.target
        (aims_of case.now.state.now case.now.speaker.now case.now.target) case.now.hearer.now }
{
    let lacking = first_way(case, false, Stop::LacksPermission, scratch, steps);
    if lacking.is_none() && !one_names(case) {
        return false;
    }
    !may_there(case, steps)
}

// By what is aimed at the channel where a session is, or at the session.
fn left_out_there<L: Ledger>(
    case: &Case<'_>,
    scratch: &mut Scratch,
    steps: &mut Steps<L>,
) -> Option<Reason>
    requires { IsTrue (is_there case.now.state.now.tree.channels case.now.hearer.now.channel) }
    ensures { result ≡ left_out_there case.now.state.now case.now.speaker.now case.now.target
        (aims_of case.now.state.now case.now.speaker.now case.now.target) case.now.hearer.now }
{
    if lacks_where_it_is(case, scratch, steps) {
        let (channel, permission) = (case.hearer.channel, needed_for(case.target));
        let cut = cut_at(case.state, case.speaker, channel, permission, steps);
        return Some(Reason::SpeakerLacks(channel, cut));
    }
    match first_way(case, false, Stop::NoMember, scratch, steps) {
        Some((place, channel)) => Some(Reason::OutsideGroup(place, channel)),
        None => None,
    }
}

// By what is aimed at the channels to which a session listens. Of several ways the one that goes furthest counts.
fn left_out_listening<L: Ledger>(
    case: &Case<'_>,
    scratch: &mut Scratch,
    steps: &mut Steps<L>,
) -> Option<Reason>
    requires { IsTrue (is_there case.now.state.now.tree.channels case.now.hearer.now.channel) }
    ensures { result ≡ left_out_listening case.now.state.now case.now.speaker.now case.now.target
        (aims_of case.now.state.now case.now.speaker.now case.now.target) case.now.hearer.now }
{
    if let Some((_, channel)) = first_way(case, true, Stop::LacksListen, scratch, steps) {
        let cut = cut_at(case.state, case.hearer, channel, Perm::LISTEN, steps);
        return Some(Reason::ListenerLacks(channel, cut));
    }
    if let Some((place, channel)) = first_way(case, true, Stop::NoMember, scratch, steps) {
        return Some(Reason::ListenerOutsideGroup(place, channel));
    }
    match first_way(case, true, Stop::LacksPermission, scratch, steps) {
        Some((_, channel)) => {
            let needed = needed_for(case.target);
            let cut = cut_at(case.state, case.speaker, channel, needed, steps);
            Some(Reason::SpeakerLacksAtListener(channel, cut))
        }
        None => None,
    }
}

// Why the aims of a packet do not reach a session that can hear.
fn left_out<L: Ledger>(case: &Case<'_>, scratch: &mut Scratch, steps: &mut Steps<L>) -> Reason
    requires { IsTrue (is_there case.now.state.now.tree.channels case.now.hearer.now.channel) }
    ensures { result ≡ left_out case.now.state.now case.now.speaker.now case.now.target
        (aims_of case.now.state.now case.now.speaker.now case.now.target) case.now.hearer.now }
{
    if is_unset(case) {
        return Reason::Unset;
    }
    if let Some(reason) = left_out_there(case, scratch, steps) {
        return reason;
    }
    match left_out_listening(case, scratch, steps) {
        Some(reason) => reason,
        None => Reason::Uncovered,
    }
}

// Why the aims of a packet do not reach a session that can hear, or how they do.
fn reason_by_aims<L: Ledger>(case: &Case<'_>, scratch: &mut Scratch, steps: &mut Steps<L>) -> Reason
    requires proper { IsProper case.now.state.now }
    requires speaker { IsTrue (is_there case.now.state.now.tree.channels case.now.speaker.now.channel) }
    requires hearer { IsTrue (is_there case.now.state.now.tree.channels case.now.hearer.now.channel) }
    ensures { result ≡ by_aims case.now.state.now case.now.speaker.now case.now.target case.now.hearer.now }
{
    match context_of(case, scratch, steps) {
        Some(context) => Reason::Heard(context),
        None => left_out(case, scratch, steps),
    }
}

// Why a session that is there is heard by nobody else, if it is so.
fn silence<L: Ledger>(state: &State, own: &User, steps: &mut Steps<L>) -> Option<Reason>
    ensures { result ≡ silence state.now own.now }
{
    if own.mute {
        return Some(Reason::Muted);
    }
    if own.self_mute {
        return Some(Reason::MutedItself);
    }
    if own.suppress {
        let cut = cut_for(state, own.session, own.channel, Perm::SPEAK, steps);
        return Some(Reason::Suppressed(cut));
    }
    None
}

// Why a session hears nothing of a speaker whom others may hear, if it is so, or hears it by loopback.
fn apart(own: &User, target: u8, user: &User) -> Option<Reason>
    ensures { result ≡ apart own.now target user.now }
{
    let same = user.session.0 == own.session.0;
    if target == LOOPBACK {
        return Some(if same {
            Reason::Heard(Context::Talk)
        } else {
            Reason::OnlyLoopback
        });
    }
    if same {
        return Some(Reason::ItIsItself);
    }
    if user.deaf {
        return Some(Reason::Deaf);
    }
    if user.self_deaf {
        return Some(Reason::DeafenedItself);
    }
    None
}

// The same of two sessions that are there.
fn reason_between<L: Ledger>(case: &Case<'_>, scratch: &mut Scratch, steps: &mut Steps<L>) -> Reason
    requires proper { IsProper case.now.state.now }
    requires speaker { IsTrue (is_there case.now.state.now.tree.channels case.now.speaker.now.channel) }
    requires hearer { IsTrue (is_there case.now.state.now.tree.channels case.now.hearer.now.channel) }
    ensures { result ≡ reason_between case.now.state.now case.now.speaker.now case.now.target case.now.hearer.now }
{
    if let Some(reason) = silence(case.state, case.speaker, steps) {
        return reason;
    }
    match apart(case.speaker, case.target, case.hearer) {
        Some(reason) => reason,
        None => reason_by_aims(case, scratch, steps),
    }
}

/// Why a session does not hear what another says to a target, the first rule that leaves it out, or the context in
/// which it hears: 0 is talk, 1 to 30 a voice target, 31 loopback.
///
/// A step is counted for each entry of an access control list that is read; how many is not said. Each item of
/// the target is looked at a few times, with the channel of the hearer and each to which it listens, at most two
/// walks for each. That is not proved. It takes no memory.
pub fn reason_for<L: Ledger>(
    state: &State,
    speaker: SessionId,
    hearer: SessionId,
    target: u8,
    scratch: &mut Scratch,
    steps: &mut Steps<L>,
) -> Reason
    ensures { result ≡ reason state.now speaker hearer target }
{
    let Some(own) = state.roster().session(speaker) else {
        return Reason::NoSpeaker;
    };
    match state.roster().session(hearer) {
        Some(user) => {
            let case = Case {
                state,
                speaker: own,
                target,
                hearer: user,
            };
            reason_between(&case, scratch, steps)
        }
        None => Reason::NoHearer,
    }
}
