//! What holds of the turns of a store, and of its settling. These functions do nothing: each contract is a
//! theorem.

ghost use Rattle.std.specs.Prelude.{◌≡◌, ◌↔◌, ◌∷◌, ◌++◌, [], Contains, IfSome, IsTrue, List, length};
ghost use Rattle.std.specs.List.{AllByRecursion};
ghost use mathlib.Core.List.{IsPrefix};
ghost use Rattle.mum_crew.specs.Turns.{TurnsTo};
ghost use Rattle.mum_crew.specs.declared.role.Turn.{Turn};
ghost use Rattle.mum_crew.specs.declared.role.Turn.TheVariants.{Done, Idle, Worked};
ghost use Rattle.mum_kept.specs.Kept.{kept};
ghost use Rattle.mum_outbox.specs.Calls.{one_more};
ghost use Rattle.mum_published.specs.Facts.{NoteFacts};
ghost use Rattle.mum_state.specs.State.{StateValue};
ghost use Rattle.mum_keeper.specs.Bell.{NoMore, Noted};
ghost use Rattle.mum_keeper.specs.Mirror.{MirrorFacts};
ghost use Rattle.mum_keeper.specs.Store.{Settles, StoreFacts, StoreTurned};
ghost use Rattle.mum_keeper.specs.Turns.{HasTurned, HoldsKept, IsStoreAsk, ShowsTo};
ghost use Rattle.mum_keeper.specs.declared.keeper.KeepEnd.TheVariants.{Kept};

use crate::keeper::Keeper;

/// After a turn that took an item the keeper's rows, where they are known, are those that are kept of the state
/// at the one look of that turn, whose list goes on from that of the look before; or its count of faults rose
/// in that turn; or memory ran out.
pub fn items_are_kept<P: Keeper>()
    ensures { (old new : StoreFacts P) (answer : Turn) →
        (turn : StoreTurned P.facts old answer new) → IsTrue turn.took →
        ShowsTo P.facts old new }
{}

/// Over any turns, the list that a look saw begins with those that the looks before it saw.
pub fn later_looks_see_more<P: Keeper>()
    ensures { (turns : List Turn) (old new : StoreFacts P) →
        TurnsTo (StoreTurned P.facts) old turns new →
        IsPrefix old.pass.seen new.pass.seen }
{}

/// After a settling that answered `Kept` the keeper's rows, where they are known, are those that are kept of the
/// state that it was handed.
pub fn settled_rows_are_kept<P: Keeper>()
    ensures { (old new : MirrorFacts P) (state : StateValue) →
        Settles P.facts old state Kept new →
        HoldsKept P.facts new.keeper state × (new.rows ≡ kept state) }
{}

/// The rows that are compared at the next item are the keeper's, where these are known: what its last `Kept`
/// left, or what it was opened with.
pub fn compared_rows_are_the_keepers<P: Keeper>()
    ensures { (turns : List Turn) (store : StoreFacts P) →
        HasTurned P.facts turns store →
        IfSome (P.facts store.mirror.keeper).rows (λ known. known ≡ store.mirror.rows) }
{}

/// Each look was made for one item, and asked nothing else.
pub fn one_look_an_item<P: Keeper>()
    ensures looks { (turns : List Turn) (store : StoreFacts P) →
        HasTurned P.facts turns store →
        length store.pass.asks ≡ length store.bell.taken }
    ensures asks { (turns : List Turn) (store : StoreFacts P) →
        HasTurned P.facts turns store → AllByRecursion IsStoreAsk store.pass.asks }
{}

/// Each answer of a turn shows its cause.
pub fn answers_have_causes<P: Keeper>()
    // `Idle` only where the bell gave nothing.
    ensures idle { (old new : StoreFacts P) → StoreTurned P.facts old Idle new →
        new.bell ≡ record old.bell { empty = one_more old.bell.empty } }
    // `Worked` only where a note was taken.
    ensures worked { (old new : StoreFacts P) → StoreTurned P.facts old Worked new →
        (note : NoteFacts) × (new.bell.taken ≡ old.bell.taken ++ Noted note ∷ []) }
    // `Done` exactly where the last item was taken, in this turn or before.
    ensures done { (turns : List Turn) (old new : StoreFacts P) (answer : Turn) →
        HasTurned P.facts turns old →
        StoreTurned P.facts old answer new →
        (answer ≡ Done) ↔ Contains new.bell.taken NoMore }
{}

/// That the keeper failed, or that memory ran out, is not forgotten, whatever succeeds later.
pub fn failures_stay<P: Keeper>()
    ensures failed { (old new : StoreFacts P) (answer : Turn) →
        StoreTurned P.facts old answer new →
        IsTrue old.mirror.failed → IsTrue new.mirror.failed }
    ensures no_memory { (old new : StoreFacts P) (answer : Turn) →
        StoreTurned P.facts old answer new →
        IsTrue old.mirror.no_memory → IsTrue new.mirror.no_memory }
{}
