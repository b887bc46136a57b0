//! Which packets workers take and look for. These functions do nothing: each contract is a theorem.

ghost use Rattle.std.specs.Prelude.{◌≡◌, ◌<◌, ◌++◌, ℕ, List, Some, false, option_to_list, true};
ghost use Rattle.mum_state.specs.State.{StateValue};
ghost use Rattle.mum_record.specs.declared.head.Version.{Version};
ghost use Rattle.mum_record.specs.declared.step.Step.{Step};
ghost use Rattle.mum_core.specs.Core.{connection_at, is_opened, start, worker_at};
ghost use Rattle.mum_core.specs.Laws.{IsRun, gathered, packet_taken, ran};
ghost use Rattle.mum_core.specs.declared.connection.Seat.{Seat};
ghost use Rattle.mum_laws.specs.Packets.{looked_for, said};

/// Each packet is looked for once: the packets that a worker looked for, and then the one that it holds, are, in order,
/// those that were said to it. One is said by each frame of type 1 that is a packet, of a connection with a session; and
/// the session is the speaker.
pub fn packets_are_looked_for_once()
    ensures looked_for { (version : Version) (opening : StateValue) (workers w : ℕ) (steps : List Step) → w < workers →
        IsRun (start version opening workers) steps →
        gathered (looked_for w) (start version opening workers) steps
        ++ option_to_list (worker_at (ran (start version opening workers) steps) w).held
        ≡ gathered (said w) (start version opening workers) steps }
    ensures taken { (version : Version) (opening : StateValue) (workers w : ℕ) (steps : List Step) → w < workers →
        IsRun (start version opening workers) steps →
        gathered (packet_taken w) (start version opening workers) steps
        ≡ gathered (said w) (start version opening workers) steps }
{}

/// Each connection is at a worker that there is, so that a packet is said to one.
pub fn connections_have_workers()
    ensures { (version : Version) (opening : StateValue) (workers c : ℕ) (steps : List Step) →
        let core = ran (start version opening workers) steps in
        IsRun (start version opening workers) steps → is_opened core c ≡ true →
        (connection_at core c).worker < workers }
{}

/// A connection that was sent its session was never notified that its login is rejected.
pub fn sessions_are_not_rejected()
    ensures { (version : Version) (opening : StateValue) (workers c : ℕ) (steps : List Step) (seat : Seat) →
        let core = ran (start version opening workers) steps in
        IsRun (start version opening workers) steps → (connection_at core c).seat ≡ Some seat →
        (connection_at core c).rejected ≡ false }
{}
