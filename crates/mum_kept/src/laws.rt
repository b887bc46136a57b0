//! What holds of kept rows, as a theorem. The function does nothing: its contract is what it says.

ghost use Rattle.mum_kept.specs.Standing.{PoliciesStand};

/// Every channel has the policy that it had while the policy count is the same, whatever the edits are.
pub fn policies_stand()
    ensures { PoliciesStand }
{}
