//! What the contracts of a meter come to. These functions do nothing: each contract is a theorem.

ghost use Rattle.std.specs.Prelude.{◌≡◌, ◌+◌, ◌-◌, ◌*◌, ◌^◌, ◌<◌, ◌≤◌, ◌↔◌, ◌++◌, ◌∷◌, ℕ, List, Option, length, false, if◌then◌else◌};
ghost use Rattle.atomic_table.specs.Table.{State};
ghost use Rattle.std.specs.List.{sum};
ghost use Rattle.mum_pace.specs.Arrivals.{ArrivalsState, ComeIn, last_of};
ghost use Rattle.mum_pace.specs.Allowance.{IsHeldTogether};
ghost use Rattle.mum_pace.specs.Laws.{AreUses, AreWithin, IsNotZero, KeepAllowances, KeepsPace, Read, all_bytes, asked_and_read, bytes_that_come, last_time};
ghost use Rattle.mum_pace.specs.Meters.{MeterState, allowance_of, at_time, new_meter, room};
ghost use Rattle.mum_pace.specs.Pieces.{begins_piece, bytes_within, pieces_in};
ghost use Rattle.mum_pace.specs.Places.{Place, after_bytes, cost_in, is_message, plus};
ghost use Rattle.mum_pace.specs.declared.pace.Pace.{Pace};
ghost use Rattle.mum_pace.specs.declared.pace.Pace.TheVariants.{Limited};
ghost use Rattle.mum_pace.specs.declared.pace.Rate.{Rate};

use crate::frames::{HEADER_LENGTH, PING, VOICE};
use crate::hang_up::LEFT_BEHIND_LIMIT;
use crate::long::{LONG_FRAMES_LIMIT, SHORT_LIMIT};
use crate::pieces::{LONG_PIECE, PIECE};
use crate::used::FRAME;

/// The numbers that the names of types and limits stand for.
pub fn limits()
    ensures header { HEADER_LENGTH ≡ 6 }
    ensures voice { VOICE ≡ 1 }
    ensures ping { PING ≡ 3 }
    ensures piece { PIECE ≡ 1000 }
    ensures long_piece { LONG_PIECE ≡ 8192 }
    ensures frame { FRAME ≡ 1000 }
    ensures short { SHORT_LIMIT ≡ 131072 }
    ensures long_frames { LONG_FRAMES_LIMIT ≡ 67108864 }
    ensures left_behind { LEFT_BEHIND_LIMIT ≡ 10000 }
{}

/// The pieces of a message are those that begin with one of its bytes, and a length within n pieces is the
/// greatest.
pub fn pieces_begin_one_by_one()
    ensures none { pieces_in 0 ≡ 0 }
    ensures next { (bytes : ℕ) →
        pieces_in (bytes + 1) ≡ pieces_in bytes + (if begins_piece bytes then 1 else 0) }
    ensures greatest { (bytes pieces : ℕ) → ((bytes ≤ bytes_within pieces) ↔ (pieces_in bytes ≤ pieces)) }
{}

/// However a stream is cut into reads, it leads to the same place and counts for as much.
pub fn reads_count_as_one()
    ensures place { (place : Place) (bytes more : List ℕ) →
        after_bytes place (bytes ++ more) ≡ after_bytes (after_bytes place bytes) more }
    ensures cost { (place : Place) (bytes more : List ℕ) →
        cost_in place (bytes ++ more)
        ≡ plus (cost_in place bytes) (cost_in (after_bytes place bytes) more) }
{}

/// Pace is kept: whoever reads no more than a meter allows never has a client use up more than its rates allow at once,
/// whatever it sends and whenever.
pub fn pace_is_kept()
    ensures at_first { (pace : Pace) (time : ℕ) → KeepsPace (new_meter pace time) }
    ensures then { (meter : MeterState) (time : ℕ) (bytes : List ℕ) → KeepsPace meter →
        length bytes ≤ allowance_of (at_time meter time) →
        KeepsPace (asked_and_read meter time bytes) }
{}

/// Somebody is read: where each rate has room for a frame, a byte may be read; and so it has after a second at the latest,
/// if no rate is 0. A payload that is no message's may be read to its end whatever is used up.
pub fn room_is_read()
    ensures some { (meter : MeterState) (messages voice : Rate) →
        meter.pace ≡ Limited messages voice → 0 < room messages meter.messages →
        0 < room voice meter.voice → 0 < allowance_of meter }
    ensures after_a_second { (meter : MeterState) (messages voice : Rate) → KeepsPace meter →
        meter.pace ≡ Limited messages voice → IsNotZero messages → IsNotZero voice →
        0 < allowance_of (at_time meter (meter.milliseconds + 1000)) }
    ensures payload { (meter : MeterState) (messages voice : Rate) →
        meter.pace ≡ Limited messages voice → is_message meter.place.kind ≡ false →
        meter.place.left ≤ allowance_of meter }
{}

/// At a door with a rate no more connections come in than it allows at once, and in the time from the first asking to the
/// last: where one came in at each of these times.
pub fn arrivals_are_within_the_rate()
    ensures { (rate : Rate) (state : ArrivalsState) (times : List ℕ) → rate.at_once < 2 ^ 32 →
        state.used ≤ rate.at_once * FRAME → ComeIn rate state times →
        AreWithin rate (last_of state.milliseconds times - state.milliseconds) (length times) }
{}

/// In the long run a client sends no more than its rates allow: what it sends from one read to another is at most what
/// they allow at once, and in the time between the two.
pub fn the_long_run_is_within_the_rates()
    ensures { (meter : MeterState) (messages voice : Rate) (read : Read) (reads : List Read) →
        messages.at_once < 2 ^ 32 → voice.at_once < 2 ^ 32 →
        KeepsPace meter → meter.pace ≡ Limited messages voice →
        KeepAllowances meter read.time (read ∷ reads) →
        AreWithin messages (last_time read.time reads - read.time)
        (cost_in meter.place (all_bytes (read ∷ reads))).messages
        × AreWithin voice (last_time read.time reads - read.time)
        (cost_in meter.place (all_bytes (read ∷ reads))).voice }
{}

/// The same of a meter as it is used, by its own clock: whoever reads bytes only in its pace reads, however often nothing
/// comes, no more of a client than its rates allow at once, and in the time that passes for the meter.
pub fn all_uses_are_within_the_rates()
    ensures { (old new : MeterState) (messages voice : Rate) (uses : List (Option (List ℕ))) →
        messages.at_once < 2 ^ 32 → voice.at_once < 2 ^ 32 →
        KeepsPace old → old.pace ≡ Limited messages voice → AreUses uses old new →
        AreWithin messages (new.milliseconds - old.milliseconds) (cost_in old.place (bytes_that_come uses)).messages
        × AreWithin voice (new.milliseconds - old.milliseconds) (cost_in old.place (bytes_that_come uses)).voice }
{}

/// All links together hold at most the allowance, and so does each: whatever the links are, what they hold of it is what is
/// reserved.
pub fn links_hold_at_most_the_allowance()
    ensures { (state : State (Unit {0}) ℕ) → IsHeldTogether state → sum state.views ≤ LONG_FRAMES_LIMIT }
{}
