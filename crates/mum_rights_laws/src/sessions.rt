//! What a message on users changes, and who may do so. These functions do nothing: each contract is a theorem.

ghost use Rattle.mum_rights_laws.specs.Departures.{BansWherePermitted, GoesWherePermitted, NobodyComes};
ghost use Rattle.mum_rights_laws.specs.Moves.{MovesArePermitted};
ghost use Rattle.mum_rights_laws.specs.Own.{ListensWherePermitted, OthersKeepTheirOwn, SessionsStayWhoTheyAre};
ghost use Rattle.mum_rights_laws.specs.Speech.{SpeechIsRuledWherePermitted, SuppressionIsRuledWherePermitted};
ghost use Rattle.mum_rights_laws.specs.Untouched.{ChannelsStand, SettingsStand};

/// Whoever enters another channel has Enter or Move there. Whoever is moved is named, by a session with Move where it was,
/// and with Move where it is now, or may enter there itself.
pub fn moves_are_permitted()
    ensures { MovesArePermitted }
{}

/// A session becomes another in being muted, deaf or a priority speaker only by a message about it, of a session with
/// MuteDeafen where it was; SuperUser's only by its own.
pub fn speech_is_ruled_where_permitted()
    ensures { SpeechIsRuledWherePermitted }
{}

/// Suppression ends by the same right. Else it changes only of a session that is in another channel or logged in again, and
/// follows whether that may speak.
pub fn suppression_is_ruled_where_permitted()
    ensures { SuppressionIsRuledWherePermitted }
{}

/// Nobody changes what another session has for itself, and nobody gets another number, slot, name or account.
pub fn own_is_own()
    ensures others { OthersKeepTheirOwn }
    ensures selves { SessionsStayWhoTheyAre }
{}

/// Whoever begins to listen to a channel has Listen there.
pub fn listens_where_permitted()
    ensures { ListensWherePermitted }
{}

/// Whoever goes left, or was named by a session with Kick or Ban on the root, SuperUser by itself; for a ban that session has
/// Ban there. Nobody comes by a message of another.
pub fn goes_where_permitted()
    ensures goes { GoesWherePermitted }
    ensures bans { BansWherePermitted }
    ensures comes { NobodyComes }
{}

/// Channels, their policies and their links stay, but for temporary channels that are emptied; so do settings, accounts and
/// limits.
pub fn the_rest_stands()
    ensures channels { ChannelsStand }
    ensures settings { SettingsStand }
{}
