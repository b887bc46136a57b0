//! For which cause a message is ignored or a login rejected. These functions do nothing: each contract is a theorem.

ghost use Rattle.mum_limits_laws.specs.Heard.{TreeMessagesAreIgnoredForTheFirst};
ghost use Rattle.mum_limits_laws.specs.HeardUsers.{UserMessagesAreIgnoredForTheFirst};
ghost use Rattle.mum_limits_laws.specs.Logins.{NobodyComesAgainstOne, RejectionsNameTheFirst};

/// A message on channels is ignored for the first of these, by its number: its session is gone, or no edit more can be
/// made (8); it is longer than 65,000 bytes (7); it names no channel, or one that is not there (4). One on users for
/// these: its session is gone (8); it has none, and does not log in (3); its length (7); whom it names (4); it gives
/// for another session what each sets for itself (5); it is a text without a word (6).
pub fn messages_are_ignored_for_the_first()
    ensures channels { TreeMessagesAreIgnoredForTheFirst }
    ensures users { UserMessagesAreIgnoredForTheFirst }
{}

/// A login is rejected for the first of these, by its number: the version is older than 1.2.0 (1), the name is none
/// (2), the password is not the account's (3) or, under a name of no account, not the server's (4), somebody has the
/// name (5), or there is no room (6). Where one of them applies nobody comes in.
pub fn logins_are_rejected_for_the_first()
    ensures rejected { RejectionsNameTheFirst }
    ensures accepted { NobodyComesAgainstOne }
{}
