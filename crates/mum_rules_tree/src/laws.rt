//! What holds of every decision, as theorems. The functions do nothing: their contracts are what they
//! say.

ghost use Rattle.mum_rules_tree.specs.Laws.{AcceptsWhereNothingStands, DenialsAreNoEdits, GrantsWhereNothingStands, IgnoresForFirstReason, NamesFirstMissing, RefusesForFirstLimit, WritersSetPolicies};

/// A denial names the first permission that is missing, with its channel: all needs before it are met, and
/// there is no reason to ignore the message.
pub fn names_first_missing()
    ensures { NamesFirstMissing }
{}

/// What is accepted has no reason, no need that is not met, and no limit against it.
pub fn accepts_where_nothing_stands()
    ensures { AcceptsWhereNothingStands }
{}

/// A message that no reason, no need and no limit forbids is accepted or answered.
pub fn grants_where_nothing_stands()
    ensures { GrantsWhereNothingStands }
{}

/// A message is ignored for the first reason that applies, whatever else is against it.
pub fn ignores_for_first_reason()
    ensures { IgnoresForFirstReason }
{}

/// A refusal names the first limit that applies: there is no reason to ignore the message, and each need
/// is met.
pub fn refuses_for_first_limit()
    ensures { RefusesForFirstLimit }
{}

/// Whoever is denied a command or a login changes nothing: what is denied is no edit.
pub fn denials_are_no_edits()
    ensures { DenialsAreNoEdits }
{}

/// A message sets a channel's policy only where whoever sent it has Write there or on the parent.
pub fn writers_set_policies()
    ensures { WritersSetPolicies }
{}
