//! What holds of changes. These functions do nothing: each contract is a theorem.

ghost use Rattle.std.specs.Prelude.{◌≡◌, ◌↔◌, List, []};
ghost use Rattle.mum_kept.specs.declared.rows.KeptRows.{KeptRows};
ghost use Rattle.mum_keeper.specs.Changes.{AreInOrder, LeadsOver, all_made, difference};
ghost use Rattle.mum_keeper.specs.declared.change.Change.{Change};

/// Made one after another, the changes that lead from rows to others do, where both are in order.
pub fn changes_lead_over()
    ensures { LeadsOver }
{}

/// No changes lead from rows to others exactly where they are the same, where both are in order.
pub fn the_same_differ_in_nothing()
    ensures { (old new : KeptRows) → AreInOrder old → AreInOrder new →
        (difference old new ≡ []) ↔ (old ≡ new) }
{}

/// Rows that are in order stay so, whatever changes are made.
pub fn changes_keep_the_order()
    ensures { (changes : List Change) (rows : KeptRows) →
        AreInOrder rows → AreInOrder (all_made changes rows) }
{}
