//! Who one is after a login. These functions do nothing: each contract is a theorem.

ghost use Rattle.mum_command_laws.specs.Logins.{GuestsAreAsked, JoinsAsItself, OwnersKnowThePassword};

/// Whoever logs in has the name that it gave, and the account of that name, or none where no account has it.
pub fn joins_as_itself()
    ensures { JoinsAsItself }
{}

/// Whoever logs in with an account gave the password of an account with its name.
pub fn owners_know_the_password()
    ensures { OwnersKnowThePassword }
{}

/// Whoever logs in without an account has a name that is no account's, and gave the server's password, where
/// the server has one.
pub fn guests_are_asked()
    ensures { GuestsAreAsked }
{}
