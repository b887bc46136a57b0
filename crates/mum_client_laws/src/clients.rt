//! What clients know by what they are sent: the channels and their links, the sessions with all that is public of them,
//! and who listens to which channel. These functions do nothing: each contract is a theorem.

ghost use Rattle.mum_client_laws.specs.Sessions.{NewcomersKnowWhatIs, WhoJoinsKnowsWhatIs, WhoListensKnowsWhatIs, WhoStaysKnowsWhatIs};

/// Whoever is sent the sync block, and makes of its messages what the protocol says, knows all that there is to know;
/// and whoever joins is sent it.
pub fn newcomers_know_what_is()
    ensures block { NewcomersKnowWhatIs }
    ensures joins { WhoJoinsKnowsWhatIs }
{}

/// Whoever knew what there was to know before an edit, and stays, knows by its notices what there is to know after it.
pub fn who_stays_knows_what_is()
    ensures { WhoStaysKnowsWhatIs }
{}

/// From the edit by which it joins on, whoever stays knows after any edits what there is to know.
pub fn who_listens_knows_what_is()
    ensures { WhoListensKnowsWhatIs }
{}
