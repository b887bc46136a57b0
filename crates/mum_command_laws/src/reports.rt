//! What is reported, and to whom. These functions do nothing: each contract is a theorem.

ghost use Rattle.mum_command_laws.specs.Arrivals.{ArrivalsAreReported, NewChannelsAreReported};
ghost use Rattle.mum_command_laws.specs.Reports.{ChannelChangesAreReported, KicksAreReported, LeavesAreReported, UserChangesAreReported};
ghost use Rattle.mum_command_laws.specs.SentTexts.{TextsAreSent};

/// All that an edit makes another of a session that stays is reported to everybody: its channel, its flags, its comment
/// and the channels to which it listens.
pub fn user_changes_are_reported()
    ensures { UserChangesAreReported }
{}

/// All that an edit makes another of a channel that stays is reported to everybody: its parent, its name, what describes
/// it, and its links, but for links to channels that are gone.
pub fn channel_changes_are_reported()
    ensures { ChannelChangesAreReported }
{}

/// Whoever joins is reported to all others: its name, its account, its channel, its flags, its comment and the channels to
/// which it listens.
pub fn arrivals_are_reported()
    ensures { ArrivalsAreReported }
{}

/// A channel that is made is reported to everybody: its parent, its name, whether it is temporary, and what describes it.
pub fn new_channels_are_reported()
    ensures { NewChannelsAreReported }
{}

/// Whoever leaves is reported to all who are left, as nobody's doing.
pub fn leaves_are_reported()
    ensures { LeavesAreReported }
{}

/// Whoever is kicked is reported to all who were there, with who did it, why, and whether it is a ban.
pub fn kicks_are_reported()
    ensures { KicksAreReported }
{}

/// Whoever a text is meant for, but its sender, receives it.
pub fn texts_are_sent()
    ensures { TextsAreSent }
{}
