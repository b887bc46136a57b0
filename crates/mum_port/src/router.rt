//! Where the voice packets of a port go.

use mum_base::{Octets, OutOfMemory, SessionId};

/// Where the voice packets of ports go: the router of a worker, with its journal.
pub trait VoiceRouter {
    ghost use Rattle.std.specs.Prelude.{◌≡◌, ℕ, Bool, IsTrue, List, OnOk};
    ghost use Rattle.mum_base.specs.declared.number.SessionId.{SessionId};

    /// Whether the room of what is kept of one packet is taken.
    ghost has_room: { Self → Bool };

    /// A router as it is without that room.
    ghost without_room: { Self → Self };

    /// What a router makes of a packet: what it was before, the number of the connection, the session of
    /// the speaker, the packet, and what it is afterwards, both without the room.
    ghost routed: { Self → ℕ → SessionId → List ℕ → Self → Type 0 };

    /// Takes the room of what is kept of one packet. Nothing else changes.
    fn reserve(&mut self) -> Result<(), OutOfMemory>
        ensures room { OnOk result (IsTrue (has_room self.new)) }
        ensures same { without_room self.new ≡ without_room self.old };

    /// Routes a packet, which was not looked into.
    fn route(&mut self, connection: u32, speaker: SessionId, packet: Octets)
        requires { IsTrue (has_room self.old) }
        ensures { routed (without_room self.old) connection speaker packet (without_room self.new) };
}
