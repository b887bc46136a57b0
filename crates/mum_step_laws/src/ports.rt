//! What the ports of a worker do as steps of the core. These functions do nothing: each contract is a theorem.

ghost use Rattle.mum_step_laws.specs.PortSteps.{ClosesAreCloses, ConnectionsAreOpened, FramesAreFrames, KickedMayClose, ListsAreNoSteps, NoticesAreCollected, RepliesAreTold, SpeechIsDrained};

use mum_io::Link;

/// A connection that a worker takes in is the step Open.
pub fn connections_are_opened<L: Link>()
    ensures { ConnectionsAreOpened L }
{}

/// A frame that a port handles, if it is no list of bans, is the step Frame of its connection: it asks for the same,
/// and leaves the same.
pub fn frames_are_frames<L: Link>()
    ensures { FramesAreFrames L }
{}

/// A list of bans is no step: once its reply came, the core still knows the connection of the port as it is.
pub fn lists_are_no_steps<L: Link>()
    ensures { ListsAreNoSteps L }
{}

/// A reply that an open port takes is sent by the step Tell: the connection is the same after it, and so are the bytes.
pub fn replies_are_told<L: Link>()
    ensures { RepliesAreTold L.facts }
{}

/// What a port makes of what its voice box gave is the step Drain: the same bytes are to be written, and a copy for
/// another session is counted.
pub fn speech_is_drained()
    ensures { SpeechIsDrained }
{}

/// What a port makes of what its post box gave is the step Collect.
pub fn notices_are_collected()
    ensures { NoticesAreCollected }
{}

/// A port that closes is the step Close, for the same cause: its leave is to be decided, and nothing more is written.
pub fn closes_are_closes<L: Link>()
    ensures { ClosesAreCloses L.facts }
{}

/// A port that ends as one that was kicked may close for that: in a core to which any steps led its connection may
/// end for this cause, where the notice that the port took is the oldest of its slot.
pub fn kicked_may_close()
    ensures { KickedMayClose }
{}
