//! Who is sent what of an edit. This function does nothing: its contract is a theorem.

ghost use Rattle.mum_client_laws.specs.Recipients.{NothingElseIsSent};

/// Of each edit the notices are those that are due, and no others: each is one message about what the edit changed, and
/// goes to each session that it is for, once, in the order of channels, sessions and slots. Whoever joins is sent all
/// that there is, and nobody is sent what did not change.
pub fn nothing_else_is_sent()
    ensures { NothingElseIsSent }
{}
