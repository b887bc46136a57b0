//! What a message on channels changes, and who may do so. These functions do nothing: each contract is a theorem.

ghost use Rattle.mum_rights_laws.specs.Channels.{ChannelsStayWhatTheyAre, DescribedWherePermitted, LinkedWherePermitted, MadeWherePermitted, PlacedWherePermitted, RemovedWherePermitted, RuledWherePermitted};
ghost use Rattle.mum_rights_laws.specs.Residents.{NobodyComesOrGoes, ResidentsAreHeard, ResidentsKeepTheirOwn, ResidentsStay, TheServerStays};

/// A name, a description, a position or a user limit changes only of the channel that is named, by a session with Write
/// there; a parent too, and with MakeChannel on the new one. Its number, its place and whether it is temporary never change.
pub fn channels_change_where_permitted()
    ensures described { DescribedWherePermitted }
    ensures placed { PlacedWherePermitted }
    ensures what { ChannelsStayWhatTheyAre }
{}

/// Links come and go only between the channel that is named and those that are named as its links, by a session with
/// LinkChannel at both ends, or with a channel that goes.
pub fn links_change_where_permitted()
    ensures { LinkedWherePermitted }
{}

/// A policy changes only of the channel that is named, by a session with Write there or on its parent.
pub fn policies_change_where_permitted()
    ensures { RuledWherePermitted }
{}

/// A channel goes only as one that is named, or below it, by a session with Write there, or as a temporary one that is
/// emptied; and comes only under a parent that is named, by a session with MakeChannel or MakeTempChannel there.
pub fn channels_come_and_go_where_permitted()
    ensures removed { RemovedWherePermitted }
    ensures made { MadeWherePermitted }
{}

/// A session is in another channel only where its own was removed, which leaves it in the parent of the one that was named,
/// or where it made a temporary one.
pub fn residents_stay()
    ensures { ResidentsStay }
{}

/// Whether a session is suppressed changes only with its channel or where a policy is set, and follows whether it may speak.
pub fn residents_are_heard()
    ensures { ResidentsAreHeard }
{}

/// Nothing else of a session changes, nobody comes and nobody goes; settings, accounts and limits stay.
pub fn the_others_stand()
    ensures own { ResidentsKeepTheirOwn }
    ensures who { NobodyComesOrGoes }
    ensures settings { TheServerStays }
{}
