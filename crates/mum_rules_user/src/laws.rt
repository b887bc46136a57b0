//! What holds of every decision, as theorems. The functions do nothing: their contracts are what they
//! say.

ghost use Rattle.mum_rules_user.specs.Laws.{AcceptsWhereNothingStands, EntersWherePermitted, GrantsWhereNothingStands, IgnoresForFirstReason, KeepsSuperUser, LeavesOwnToOthers, LogsInWhereNothingStands, MovesWherePermitted, NamesFirstMissing, OwnersAlone, RefusesForFirstLimit, RejectsForFirstLimit, RulesSpeechWherePermitted, SparesSuperUser};

/// A denial names the first permission that is missing, with its channel: all needs before it are met, and
/// there is no reason to ignore the message.
pub fn names_first_missing()
    ensures { NamesFirstMissing }
{}

/// What is accepted of a session has no reason, no need that is not met, and no limit against it.
pub fn accepts_where_nothing_stands()
    ensures { AcceptsWhereNothingStands }
{}

/// A message of a session that no reason, no need and no limit is against is accepted or answered.
pub fn grants_where_nothing_stands()
    ensures { GrantsWhereNothingStands }
{}

/// A message is ignored for the first reason that applies, whatever else is against it.
pub fn ignores_for_first_reason()
    ensures { IgnoresForFirstReason }
{}

/// Whoever has no session is let do nothing but log in, and that only where no reason and no limit speaks
/// against it.
pub fn logs_in_where_nothing_stands()
    ensures { LogsInWhereNothingStands }
{}

/// Whoever logs in under the name of an account gave its password.
pub fn owners_alone()
    ensures { OwnersAlone }
{}

/// Nobody but SuperUser itself mutes or deafens SuperUser, lets it speak, or gives it priority.
pub fn spares_super_user()
    ensures { SparesSuperUser }
{}

/// Nobody but SuperUser itself puts SuperUser out.
pub fn keeps_super_user()
    ensures { KeepsSuperUser }
{}

/// A refusal names the first limit that applies: there is no reason to ignore the message, and each need
/// is met.
pub fn refuses_for_first_limit()
    ensures { RefusesForFirstLimit }
{}

/// A rejection of a login names the first limit that applies, whatever else does.
pub fn rejects_for_first_limit()
    ensures { RejectsForFirstLimit }
{}

/// Whoever enters a channel by a UserState of its own has Enter or Move there.
pub fn enters_where_permitted()
    ensures { EntersWherePermitted }
{}

/// Whoever moves another session has Move where that is, and then Move in the other channel, or the one
/// who is moved has Enter there.
pub fn moves_where_permitted()
    ensures { MovesWherePermitted }
{}

/// Whoever says who is heard has MuteDeafen where that session is.
pub fn rules_speech_where_permitted()
    ensures { RulesSpeechWherePermitted }
{}

/// Nobody sets for another session what each session sets for itself.
pub fn leaves_own_to_others()
    ensures { LeavesOwnToOthers }
{}
