//! That a message on users changes what it asks for, and nothing else. These functions do nothing: each contract is a theorem.

ghost use Rattle.mum_rights_laws.specs.Targets.{TargetsAreDone};
ghost use Rattle.mum_rights_laws.specs.UserRequests.{LoginsRenewTokens, OtherTargetsStand, TheUnnamedStand, UserStatesAreDone};

/// Whom a UserState is about has the flags, the channel and the texts that it asks for, and listens to what it asks for; what
/// it does not ask for stays.
pub fn user_states_are_done()
    ensures { UserStatesAreDone }
{}

/// A session that a message on users is not about, and that does not log in again by it, is as it was. Of whoever sends it
/// only the voice target changes that it names.
pub fn the_unnamed_stand()
    ensures sessions { TheUnnamedStand }
    ensures targets { OtherTargetsStand }
{}

/// Whoever logs in again has the tokens that it brings, the first 64 without those that are too long, and is else as it was,
/// but for its suppression.
pub fn logins_renew_tokens()
    ensures { LoginsRenewTokens }
{}

/// Whoever sends a VoiceTarget has under its number exactly the items of the message; where these are none, no target.
pub fn targets_are_done()
    ensures { TargetsAreDone }
{}
