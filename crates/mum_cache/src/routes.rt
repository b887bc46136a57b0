//! Who hears what sessions say, kept by slot and target.

ghost use Rattle.std.specs.Prelude.{◌≡◌, ◌*◌, ◌⊎◌, ◌<◌, ◌≤◌, IfOk, IsSome, IsTrue, None, Some, length, map, set};
ghost use Rattle.mum_base.specs.declared.number.TheConstants.{SLOTS};
ghost use Rattle.mum_tree.specs.Rows.{is_there};
ghost use Rattle.mum_users.specs.Sessions.{session_of};
ghost use Rattle.mum_route.specs.declared.routes.TheConstants.{LOOPBACK};
ghost use Rattle.mum_route.specs.Hearers.{hearers_at, member_of};
ghost use Rattle.mum_route.specs.Route.{route};
ghost use Rattle.mum_cache.specs.Perms.{ArePermsSound};
ghost use Rattle.mum_cache.specs.Routes.{AreRoutesSound, IsRouteEntry, KeepsRoute, RouteAnswers, no_routes, route_index, route_kept_at};
ghost use Rattle.mum_cache.specs.Asked.{IsSpeaker, answers_here};

use crate::perms::PermCache;
use crate::table::Table;
use mum_base::{OutOfMemory, SLOTS, SessionId, Steps};
use mum_route::{Audience, Context, LOOPBACK, hear_reached, reached, route_with};
use mum_state::State;
use mum_tree::Scratch;
use mum_users::User;
use std::alloc::Global;
use std::marker::Model;
use std::sync::ledger::Ledger;

// How a speaker's packets to a target reach each session, by its place among the sessions, with the count of
// the state in which they do.
#[derive(Clone, Copy, Debug)]
pub(crate) struct RouteEntry {
    pub(crate) used: bool,
    pub(crate) speaker: SessionId,
    pub(crate) routing: u64,
    pub(crate) reached: [Option<Context>; SLOTS],
}

/// Routes, kept by slot and target. Loopback is not kept.
#[derive(Drop)]
pub struct RouteCache {
    entries: Table<RouteEntry>,
}

impl Model for RouteCache {
    ghost use Rattle.std.specs.Prelude.{◌≡◌, ◌*◌, List, length};
    ghost use Rattle.mum_base.specs.declared.number.TheConstants.{SLOTS};
    ghost use Rattle.mum_route.specs.declared.routes.TheConstants.{LOOPBACK};
    ghost use Rattle.mum_cache.specs.declared.routes.RouteEntry.{RouteEntry};

    ghost Value = { List RouteEntry };

    ghost view = { λ c. c.entries };

    ghost invariant = { λ c. length c.entries ≡ SLOTS * LOOPBACK };
}

impl RouteEntry {
    // Whether this is the route of a speaker in a state with this count.
    fn answers(&self, speaker: SessionId, routing: u64) -> bool
        ensures { result ≡ answers_here speaker routing self.now }
    {
        self.used && self.speaker.0 == speaker.0 && self.routing == routing
    }
}

// Has the route of a speaker that is there kept at its place: as it is, or else found and put there.
fn keep<L: Ledger>(
    entries: &mut Table<RouteEntry>,
    index: usize,
    perms: &mut PermCache,
    state: &State,
    speaker: &User,
    target: u8,
    scratch: &mut Scratch,
    steps: &mut Steps<L>,
)
    requires room { length entries.old ≡ SLOTS * LOOPBACK }
    requires target { target < LOOPBACK }
    requires speaker { IsSpeaker state.now speaker.now }
    requires index { index ≡ route_index speaker.now.slot.0 target }
    requires perms { ArePermsSound state.now perms.old }
    requires routes { AreRoutesSound state.now entries.old }
    ensures steps { RouteAnswers state.now speaker.now.session target entries.old → steps.new ≡ steps.old }
    ensures unasked { RouteAnswers state.now speaker.now.session target entries.old → perms.new ≡ perms.old }
    ensures kept { KeepsRoute state.now speaker.now.session target entries.old entries.new }
    ensures perms { ArePermsSound state.now perms.new }
    ensures routes { AreRoutesSound state.now entries.new }
    ensures room { length entries.new ≡ SLOTS * LOOPBACK }
{
    let routing = state.stamps().routing;
    if entries.at(index).answers(speaker.session, routing) {
        return;
    }
    let reached = reached(perms, state, speaker, target, scratch, steps);
    let entry = RouteEntry {
        used: true,
        speaker: speaker.session,
        routing,
        reached,
    };
    entries.put(index, entry);
}

impl RouteCache {
    /// Nothing is kept. The room is for each slot and target that there may be: 1,040 bytes each, 16.5 MB in all.
    /// It is reserved here and not written: 520 KiB are resident for each target, up to the greatest one to which a
    /// packet went.
    pub fn new(alloc: Global) -> Result<RouteCache, OutOfMemory>
        ensures { IfOk result (λ cache. cache ≡ no_routes) }
    {
        let none = RouteEntry {
            used: false,
            speaker: SessionId(0),
            routing: 0,
            reached: [None; SLOTS],
        };
        Ok(RouteCache {
            entries: Table::new(alloc, SLOTS * LOOPBACK as usize, none)?,
        })
    }

    /// Who hears what a session says to a target, in place of who was in the audience, as `route_into` of
    /// `mum_route` reports it. Where the entry of the speaker and the target is valid no step is counted, and
    /// `perms` is as it was. Else what sessions may do in channels is asked of `perms`. The answer is kept, but for loopback and for a speaker
    /// that is not there. It takes no memory.
    pub fn route_at<L: Ledger>(
        &mut self,
        perms: &mut PermCache,
        state: &State,
        speaker: SessionId,
        target: u8,
        scratch: &mut Scratch,
        steps: &mut Steps<L>,
        audience: &mut Audience,
    )
        requires target { target ≤ LOOPBACK }
        requires perms { ArePermsSound state.now perms.old }
        requires routes { AreRoutesSound state.now self.old }
        ensures members { map member_of audience.new ≡ route state.now speaker target }
        ensures hearers { audience.new ≡ hearers_at state.now speaker target }
        ensures steps { RouteAnswers state.now speaker target self.old → steps.new ≡ steps.old }
        ensures unasked { RouteAnswers state.now speaker target self.old → perms.new ≡ perms.old }
        ensures kept { IsSome (session_of state.now.roster speaker) → target < LOOPBACK
            → KeepsRoute state.now speaker target self.old self.new }
        ensures stands { IsSome (session_of state.now.roster speaker) → target < LOOPBACK
            → IsRouteEntry state.now speaker target (route_kept_at state.now speaker target self.new) }
        ensures unkept { (session_of state.now.roster speaker ≡ None) ⊎ (target ≡ LOOPBACK) → self.new ≡ self.old }
        ensures perms { ArePermsSound state.now perms.new }
        ensures routes { AreRoutesSound state.now self.new }
    {
        if target == LOOPBACK {
            route_with(perms, state, speaker, target, scratch, steps, audience);
            return;
        }
        let Some(user) = state.roster().session(speaker) else {
            route_with(perms, state, speaker, target, scratch, steps, audience);
            return;
        };
        let index = target as usize * SLOTS + user.slot.0 as usize;
        keep(
            &mut self.entries,
            index,
            perms,
            state,
            user,
            target,
            scratch,
            steps,
        );
        hear_reached(state, user, &self.entries.at(index).reached, audience);
    }
}
