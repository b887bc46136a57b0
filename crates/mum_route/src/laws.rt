//! What holds of every route, as theorems. The functions do nothing: their contracts are what they say.

ghost use Rattle.std.specs.Prelude.{◌≡◌};
ghost use Rattle.mum_route.specs.Laws.{ContextsByPrecedence, EachInItsSlot, EachOnce, HearersAreTheRoute, HeardOnlyWhereAllowed, LoopbackToSpeaker, NeverToSpeaker, NobodyDeaf, NobodyLeftOut, PositionsByContext, RouteIsOfItsInputs, SilentAreUnheard, StandInSlotOrder};

use crate::routes::{LOOPBACK, TALK};

/// The numbers of targets. Those from 1 to 30 are voice targets.
pub fn targets()
    ensures talk { TALK ≡ 0 }
    ensures loopback { LOOPBACK ≡ 31 }
{}

/// Nobody hears a session that is muted, that muted itself, or that may not speak where it is.
pub fn silent_are_unheard()
    ensures { SilentAreUnheard }
{}

/// A session does not hear what it says itself, but by loopback, which comes back to it alone.
pub fn the_speaker()
    ensures never { NeverToSpeaker }
    ensures loopback { LoopbackToSpeaker }
{}

/// Those who hear are in the order of their slots, and none comes twice.
pub fn slot_order()
    ensures order { StandInSlotOrder }
    ensures once { EachOnce }
{}

/// Nobody who is deaf hears, but the speaker by loopback.
pub fn nobody_deaf()
    ensures { NobodyDeaf }
{}

/// Who hears is in a channel where the speaker has Speak, or Whisper for a voice target, or listens to one
/// and may.
pub fn heard_only_where_allowed()
    ensures { HeardOnlyWhereAllowed }
{}

/// Each who hears does so in the first context that applies, and whoever can hear and has one does hear.
pub fn contexts_by_precedence()
    ensures first { ContextsByPrecedence }
    ensures all { NobodyLeftOut }
{}

/// Where all that a route reads is the same in two states, the routes are.
pub fn route_is_of_its_inputs()
    ensures { RouteIsOfItsInputs }
{}

/// Those who hear are the members of the route, each in the slot that is kept for it.
pub fn hearers_are_the_route()
    ensures members { HearersAreTheRoute }
    ensures slots { EachInItsSlot }
{}

/// A copy has the position of its packet exactly where the plugins of the speaker and of who hears it are in
/// the same context.
pub fn positions_by_context()
    ensures { PositionsByContext }
{}
