//! What is kept of a state, and what is made of it again. These functions do nothing: each contract is a theorem.

ghost use Rattle.mum_kept_laws.specs.RoundTrip.{KeptIsGood, KeptIsKeptAgain, RebuildFits, RebuiltIsKept};

/// Each edit that makes the channels of good rows again is applicable in its turn, from a server with the
/// root alone, after the settings and the accounts of a configuration.
pub fn rebuild_fits()
    ensures { RebuildFits }
{}

/// What is kept of the channels that these edits make is what the rows said: their names, places,
/// descriptions, links and policies, each policy written again.
pub fn rebuilt_is_kept()
    ensures { RebuiltIsKept }
{}

/// What is kept of a proper state is good and not empty, so that its channels can be made again.
pub fn kept_is_good()
    ensures { KeptIsGood }
{}

/// What is kept of a proper state is what is kept of the state that its rows make: nothing that lasts is
/// lost at a restart, and nothing comes in.
pub fn kept_is_kept_again()
    ensures { KeptIsKeptAgain }
{}
