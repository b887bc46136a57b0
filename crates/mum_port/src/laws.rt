//! What holds of a connection whatever happens to it: steps, replies and lags in any order, over any link
//! and any router. These functions do nothing: each contract is a theorem.

ghost use Rattle.std.specs.Prelude.{◌≡◌, ◌++◌, ℕ, [], List, Some, All, IsTrue, false, option_to_list};
ghost use Rattle.std.specs.List.{flat_map};
ghost use Rattle.mum_base.specs.declared.number.Cause.TheVariants.{End};
ghost use Rattle.mum_frame.specs.declared.frame.Frame.{Frame};
ghost use Rattle.mum_frame.specs.Frame.{IsFrame, frame_spelling};
ghost use Rattle.mum_frame.specs.Stream.{IsFront, Splits};
ghost use Rattle.mum_session.specs.Action.{after_frame};
ghost use Rattle.mum_session.specs.Machine.{Machine};
ghost use Rattle.mum_port.specs.declared.item.DeskItem.{DeskItem};
ghost use Rattle.mum_port.specs.Did.{PortDid, asked_item};
ghost use Rattle.mum_port.specs.Facts.{PortFacts, new_port};
ghost use Rattle.mum_port.specs.Life.{AreUnanswered, Event, Lives, Steps, bytes_queued, bytes_taken, bytes_written, frames_handled, items_asked, items_put, words_said};
ghost use Rattle.mum_port.specs.Stage.{is_closed};

use crate::front::VOICE_FRAME_LIMIT;
use crate::port::UNWRITTEN_LIMIT;
use crate::router::VoiceRouter;
use mum_io::Link;

/// The numbers that definitions name.
pub fn numbers()
    ensures unwritten { UNWRITTEN_LIMIT ≡ 65536 }
    ensures frame { VOICE_FRAME_LIMIT ≡ 1031 }
{}

/// Each frame of the stream is handled once, in order, and no other.
pub fn frames_are_handled_in_order<L: Link, V: VoiceRouter>()
    // No byte is lost or made: what was taken is the frames that were handled, and what is kept while the
    // port is open.
    ensures conserved { (connection worker : ℕ) (link : L) (events : List Event) (port : PortFacts L) →
        Lives L.facts V.routed (new_port connection worker link) events port →
        (rest : List ℕ) × (bytes_taken events ≡ flat_map frame_spelling (frames_handled events) ++ rest)
        × All IsFrame (frames_handled events) × (is_closed port.stage ≡ false → rest ≡ port.framer.kept) }
    ensures front { (connection worker : ℕ) (link : L) (events : List Event) (port : PortFacts L)
        (frames : List Frame) (rest : List ℕ) →
        Lives L.facts V.routed (new_port connection worker link) events port →
        Splits (bytes_taken events) frames rest → IsFront (frames_handled events) frames }
    // A port that closes at the end of its link has handled all of them.
    ensures at_end { (connection worker : ℕ) (link : L) (events : List Event) (port last : PortFacts L)
        (machine : Machine) (did : PortDid) →
        Lives L.facts V.routed (new_port connection worker link) events port →
        Steps L.facts V.routed port machine did last →
        did.closed ≡ Some End → Splits (bytes_taken events) (frames_handled events) port.framer.kept }
{}

/// What a port takes to be written is written in the order in which it was taken, each byte once: what was
/// written is a front of it, and what is kept is the rest while the port is open.
pub fn bytes_are_written_in_order<L: Link, V: VoiceRouter>()
    ensures { (connection worker : ℕ) (link : L) (events : List Event) (port : PortFacts L) →
        Lives L.facts V.routed (new_port connection worker link) events port →
        (rest : List ℕ) × (bytes_queued events ≡ bytes_written events ++ rest)
        × (is_closed port.stage ≡ false → rest ≡ port.out) }
{}

/// Each command and each list of bans is put on the desk once, in order; after all of them come one Leave and
/// then one `Closed`, and nothing else.
pub fn the_desk_gets_each_item_once<L: Link, V: VoiceRouter>()
    ensures { (connection worker : ℕ) (link : L) (events : List Event) (port : PortFacts L) →
        Lives L.facts V.routed (new_port connection worker link) events port →
        (commands : List DeskItem) × (items_put events ≡ commands ++ words_said port.machine port.stage)
        × (items_asked events ≡ commands ++ option_to_list port.waiting) }
{}

/// A connection that waits for a reply after a frame has asked for something that is put on the desk: its command,
/// or the list of bans that its session sent.
pub fn each_wait_has_an_item()
    ensures { (machine : Machine) (frame : Frame) →
        IsTrue (after_frame machine frame.kind frame.payload).awaits →
        (item : DeskItem) × (asked_item machine (Some frame) ≡ Some item) }
{}

/// After a frame that asks for a command, or brings a list of bans, no frame is handled before a reply comes.
pub fn a_command_is_answered_before_the_next_frame<L: Link, V: VoiceRouter>()
    ensures { (old mid port : PortFacts L) (machine : Machine) (did : PortDid) (item : DeskItem)
        (events : List Event) → Steps L.facts V.routed old machine did mid →
        asked_item machine did.handled ≡ Some item →
        Lives L.facts V.routed mid events port →
        AreUnanswered events → frames_handled events ≡ [] }
{}
