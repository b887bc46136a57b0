//! Permissions, in words of access control lists. The function does nothing: its contract is a theorem.

ghost use Rattle.mum_rights_laws.specs.ByLists.{RightsAreByLists};

/// Whoever has a permission in a channel has it by the entries of the lists on the way there: the last that matches, applies
/// and names it grants it, or none does and everybody has it at first; or it has Write so, or is SuperUser.
pub fn rights_are_by_lists()
    ensures { RightsAreByLists }
{}
