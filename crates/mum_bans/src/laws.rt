//! What follows from the contracts for whatever happens to a book, in whatever order.
//! These functions do nothing: each contract is a theorem.

ghost use Rattle.std.specs.Prelude.{◌≡◌, ℕ, ◌≤◌, ◌↔◌, Bool, List, [], ◌∷◌, ◌++◌, IsTrue, length, take};
ghost use Rattle.mum_bans.specs.declared.ban.Ban.{Ban};
ghost use Rattle.mum_bans.specs.Answer.{answer};
ghost use Rattle.mum_bans.specs.Ban.{address_bits, covers};
ghost use Rattle.mum_bans.specs.Book.{AreCalls, Call, Event, after, bans_after, bans_of, events_of};
ghost use Rattle.mum_bans.specs.Cut.{IsCut};
ghost use Rattle.mum_bans.specs.Limits.{is_sound_book};
ghost use Rattle.mum_frame.specs.declared.frame.TheConstants.{PAYLOAD_LIMIT};

/// Whatever calls are made of a book that began empty, one after the other, its bans are those after the events
/// among them.
pub fn books_are_folds()
    ensures calls { (calls : List Call) → AreCalls [] calls →
        bans_after [] calls ≡ bans_of (events_of calls) }
    ensures one_more { (events : List Event) (event : Event) →
        bans_of (events ++ event ∷ []) ≡ after (bans_of events) event }
{}

/// A ban covers an address exactly where the first bits are equal, as many as the mask says.
pub fn covering_is_of_bits()
    ensures { (ban : Ban) (address : List ℕ) → IsTrue (covers ban address)
        ↔ (take ban.mask (address_bits ban.address) ≡ take ban.mask (address_bits address)) }
{}

/// A text has one longest front.
pub fn cuts_are_longest()
    ensures { (text front other : List ℕ) → IsCut text front → IsCut text other → front ≡ other }
{}

/// The payload that shows a book within its limits is within a frame.
pub fn answers_fit_a_frame()
    ensures { (bans : List Ban) → IsTrue (is_sound_book bans) →
        length (answer bans) ≤ PAYLOAD_LIMIT }
{}
