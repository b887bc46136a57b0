//! Who hears a packet, in words of access control lists. The function does nothing: its contract is a theorem.

ghost use Rattle.mum_rights_laws.specs.HeardByLists.{TalkIsHeardByLists, WhispersAreHeardByLists};

/// Whoever hears a packet is in a channel, or listens to one with Listen there, at which the packet is aimed and where the
/// lists give the speaker Speak, or Whisper for a voice target; or a voice target names it where it is.
pub fn packets_are_heard_by_lists()
    ensures talk { TalkIsHeardByLists }
    ensures whispers { WhispersAreHeardByLists }
{}
