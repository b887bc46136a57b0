//! What is in the state with which a server begins. These functions do nothing: each contract is a theorem.

ghost use Rattle.mum_config_laws.specs.Opened.{NothingElseIsThere, WhatIsGivenIsThere};
ghost use Rattle.mum_config_laws.specs.Passwords.{ThePasswordIsAskedFor};

/// Each key that a configuration gives is in the state with which the server begins: its settings, each account, each
/// channel with its policy, and each link. A key that is left out has its default.
pub fn what_is_given_is_there()
    ensures { WhatIsGivenIsThere }
{}

/// Each account, channel, policy and link of that state is one that the configuration gives, but for the root, which is
/// always there; nobody is there, and the limits are those that were set.
pub fn nothing_else_is_there()
    ensures { NothingElseIsThere }
{}

/// Where the configuration gives a password of the server, nobody logs in without it under a name that is no account's.
pub fn the_password_is_asked_for()
    ensures { ThePasswordIsAskedFor }
{}
