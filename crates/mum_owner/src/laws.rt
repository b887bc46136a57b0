//! What holds of an owner whatever its turns are, from its opening on, over any door. These functions do
//! nothing: each contract is a theorem.

ghost use Rattle.std.specs.Prelude.{◌≡◌, ◌≢◌, ◌↔◌, ◌++◌, ◌<◌, [], ℕ, Bool, false, IfSome, IsTrue, List, Option, Some, filter, length, map, option_to_list};
ghost use Rattle.std.specs.List.{AllByRecursion, AllPairs, filter_map};
ghost use Rattle.mum_outbox.specs.Facts.{QueueId};
ghost use Rattle.mum_bans.specs.Book.{bans_of};
ghost use Rattle.mum_control.specs.Facts.{ControlFacts};
ghost use Rattle.mum_crew.specs.Turns.{TurnsTo};
ghost use Rattle.mum_crew.specs.declared.role.Turn.{Turn};
ghost use Rattle.mum_doorway.specs.Doors.{given_after_all};
ghost use Rattle.mum_keeper.specs.Archive.{ArchiveFacts};
ghost use Rattle.mum_session.specs.Action.{action};
ghost use Rattle.mum_session.specs.Machine.{Machine};
ghost use Rattle.mum_session.specs.declared.action.Action.TheVariants.{Ask};
ghost use Rattle.mum_session.specs.declared.command.Command.{Command};
ghost use Rattle.mum_crew.specs.declared.role.Turn.TheVariants.{Done, Idle, Worked};
ghost use Rattle.mum_owner.specs.Causes.{HasDoneNothing};
ghost use Rattle.mum_owner.specs.Events.{ban_events};
ghost use Rattle.mum_owner.specs.Facts.{OwnerFacts};
ghost use Rattle.mum_owner.specs.Laws.{answered, command_in, connections_given, commands_given, commands_owned, commands_settled, commands_taken, connections_settled, handed, is_of_worker, is_other, items_taken, lags_made, leave_in, leaves_decided, numbers, puts_at, replies_made};
ghost use Rattle.mum_owner.specs.Noting.{EndsOnce, HasFurther, notes_given};
ghost use Rattle.mum_owner.specs.Opened.{IsOpened};
ghost use Rattle.mum_owner.specs.Given.{roll_of};
ghost use Rattle.mum_owner.specs.Sessions.{HasLastSession, logins_in};
ghost use Rattle.mum_owner.specs.Turned.{OwnerTurned, has_ended, is_through};
ghost use Rattle.mum_owner.specs.Written.{IsWrittenAs, is_login, version_with};

use crate::desk::PENDING_LIMIT;
use mum_doorway::Entrance;

/// The number that definitions name.
pub fn limits()
    ensures pending { PENDING_LIMIT ≡ 16384 }
{}

/// Each connection that the door gave is kept until the bell of its worker took it, once and as the door gave it:
/// what the bell of a worker took, and then what is kept for it, are those of its connections that were given, in
/// order.
pub fn connections_are_handed_over_once<D: Entrance>()
    ensures handed { (control : ControlFacts) (door : D) (connections place : ℕ) (journal : Bool) (queues : List QueueId)
        (store : Option QueueId) (opened owner : OwnerFacts D D.Peer) (turns : List Turn) → 0 < length queues →
        IsOpened control door connections journal queues store opened →
        (all : TurnsTo (OwnerTurned D.facts D.Peer.facts) opened turns owner) →
        filter_map handed (puts_at place owner.bells)
        ++ filter (λ coming. is_of_worker place (length queues) coming.connection) (option_to_list owner.kept.coming)
        ≡ filter (λ coming. is_of_worker place (length queues) coming.connection)
        (connections_given D.facts D.Peer.facts opened turns owner all) }
    // They are numbered from 1 in the order in which the door gave them.
    ensures numbered { (control : ControlFacts) (door : D) (connections : ℕ) (journal : Bool) (queues : List QueueId)
        (store : Option QueueId) (opened owner : OwnerFacts D D.Peer) (turns : List Turn) →
        IsOpened control door connections journal queues store opened →
        (all : TurnsTo (OwnerTurned D.facts D.Peer.facts) opened turns owner) →
        map (λ coming. coming.connection) (connections_given D.facts D.Peer.facts opened turns owner all)
        ≡ numbers owner.guests.given }
    // As many are counted as the door gave.
    ensures given { (control : ControlFacts) (door : D) (connections : ℕ) (journal : Bool) (queues : List QueueId)
        (store : Option QueueId) (opened owner : OwnerFacts D D.Peer) (turns : List Turn) →
        IsOpened control door connections journal queues store opened →
        TurnsTo (OwnerTurned D.facts D.Peer.facts) opened turns owner →
        (D.facts owner.doorway.door).given ≡ given_after_all (D.facts door).given owner.guests.given }
{}

/// Each reply is kept until the bell of the worker of its connection took it, once: what the bell of a worker
/// took, and then what is kept for it, are the replies to its connections, in the order in which they were made.
pub fn replies_are_handed_over_once<D: Entrance>()
    ensures { (control : ControlFacts) (door : D) (connections place : ℕ) (journal : Bool) (queues : List QueueId)
        (store : Option QueueId) (opened owner : OwnerFacts D D.Peer) (turns : List Turn) → 0 < length queues →
        IsOpened control door connections journal queues store opened →
        (all : TurnsTo (OwnerTurned D.facts D.Peer.facts) opened turns owner) →
        filter_map answered (puts_at place owner.bells)
        ++ filter (λ reply. is_of_worker place (length queues) reply.connection) (option_to_list owner.kept.reply)
        ≡ filter (λ reply. is_of_worker place (length queues) reply.connection)
        (replies_made D.facts D.Peer.facts opened turns owner all) }
{}

/// At most one lag item is made for a connection.
pub fn a_connection_lags_once<D: Entrance>()
    ensures { (control : ControlFacts) (door : D) (connections : ℕ) (journal : Bool) (queues : List QueueId)
        (store : Option QueueId) (opened owner : OwnerFacts D D.Peer) (turns : List Turn) →
        IsOpened control door connections journal queues store opened →
        (all : TurnsTo (OwnerTurned D.facts D.Peer.facts) opened turns owner) →
        AllPairs (λ one other. one.connection ≢ other.connection)
        (lags_made D.facts D.Peer.facts opened turns owner all) }
{}

/// Each command that is taken from the desk while its connection is open is given to the control owner once, or
/// answered since memory ran out before it was decided, in order: in the turn in which it is taken, or later where
/// it is a login that waits or a leave for which there was no memory. A login is refused instead, where its address
/// is banned; and one that waits is dropped, where its connection is not open any more. A command of a connection
/// that is not open settles nothing.
pub fn commands_are_given_once<D: Entrance>()
    // The commands that the turns took are all that lay on the desk, in order.
    ensures taken { (control : ControlFacts) (door : D) (connections : ℕ) (journal : Bool) (queues : List QueueId)
        (store : Option QueueId) (opened owner : OwnerFacts D D.Peer) (turns : List Turn) →
        IsOpened control door connections journal queues store opened → opened.desk.pass.taken ≡ [] →
        (all : TurnsTo (OwnerTurned D.facts D.Peer.facts) opened turns owner) →
        filter_map command_in (items_taken owner.desk)
        ≡ commands_taken D.facts D.Peer.facts opened turns owner all }
    // A login may wait for its slot, after those that came before it.
    ensures logins { (control : ControlFacts) (door : D) (connections : ℕ) (journal : Bool) (queues : List QueueId)
        (store : Option QueueId) (opened owner : OwnerFacts D D.Peer) (turns : List Turn) →
        IsOpened control door connections journal queues store opened →
        (all : TurnsTo (OwnerTurned D.facts D.Peer.facts) opened turns owner) →
        filter is_login (commands_owned D.facts D.Peer.facts opened turns owner all)
        ≡ filter is_login (commands_settled D.facts D.Peer.facts opened turns owner all) ++ owner.logins }
    ensures others { (control : ControlFacts) (door : D) (connections : ℕ) (journal : Bool) (queues : List QueueId)
        (store : Option QueueId) (opened owner : OwnerFacts D D.Peer) (turns : List Turn) →
        IsOpened control door connections journal queues store opened →
        (all : TurnsTo (OwnerTurned D.facts D.Peer.facts) opened turns owner) →
        filter is_other (commands_owned D.facts D.Peer.facts opened turns owner all)
        ≡ filter is_other (commands_given D.facts D.Peer.facts opened turns owner all) }
    // A leave is given until it is decided, and nothing is taken before.
    ensures leaves { (control : ControlFacts) (door : D) (connections : ℕ) (journal : Bool) (queues : List QueueId)
        (store : Option QueueId) (opened owner : OwnerFacts D D.Peer) (turns : List Turn) →
        IsOpened control door connections journal queues store opened →
        (all : TurnsTo (OwnerTurned D.facts D.Peer.facts) opened turns owner) →
        filter_map leave_in (commands_owned D.facts D.Peer.facts opened turns owner all)
        ≡ leaves_decided D.facts D.Peer.facts opened turns owner all ++ option_to_list owner.desk.leave }
{}

/// Each command that is given to the control owner, refused, or answered since memory ran out, each leave that is
/// decided, and each list of bans makes one reply to its connection, in the order in which that is done, and nothing
/// else makes one.
pub fn each_command_has_one_reply<D: Entrance>()
    ensures { (old new : OwnerFacts D D.Peer) (turns : List Turn) →
        (all : TurnsTo (OwnerTurned D.facts D.Peer.facts) old turns new) →
        map (λ reply. reply.connection) (replies_made D.facts D.Peer.facts old turns new all)
        ≡ connections_settled D.facts D.Peer.facts old turns new all }
{}

/// The bans of an owner are those that the events of its turns leave, in order, from none on. A list of bans sets
/// them, where its session has Ban on the root and the list is within the limits; a removal with a ban adds one, where
/// its reply has a note and whom it removes had an open connection. Nothing else changes them.
pub fn bans_are_of_the_turns<D: Entrance>()
    ensures { (control : ControlFacts) (door : D) (connections : ℕ) (journal : Bool) (queues : List QueueId)
        (store : Option QueueId) (opened owner : OwnerFacts D D.Peer) (turns : List Turn) →
        IsOpened control door connections journal queues store opened →
        (all : TurnsTo (OwnerTurned D.facts D.Peer.facts) opened turns owner) →
        owner.warden.book.bans ≡ bans_of (ban_events D.facts D.Peer.facts opened turns owner all) }
{}

/// The session that is kept for an open connection is that of its last accepted login: of the last reply to it that
/// gave one.
pub fn sessions_are_of_logins<D: Entrance>()
    ensures { (control : ControlFacts) (door : D) (connections : ℕ) (journal : Bool) (queues : List QueueId)
        (store : Option QueueId) (opened owner : OwnerFacts D D.Peer) (turns : List Turn) →
        IsOpened control door connections journal queues store opened →
        (all : TurnsTo (OwnerTurned D.facts D.Peer.facts) opened turns owner) →
        AllByRecursion (HasLastSession (replies_made D.facts D.Peer.facts opened turns owner all)) owner.guests.rows }
{}

/// The roll of accepted logins, with which each reply goes, grows by the logins that the replies report, in the order
/// in which they are made, and by nothing else.
pub fn logins_are_of_the_replies<D: Entrance>()
    ensures { (old new : OwnerFacts D D.Peer) (turns : List Turn) →
        (all : TurnsTo (OwnerTurned D.facts D.Peer.facts) old turns new) →
        roll_of new ≡ roll_of old ++ logins_in (replies_made D.facts D.Peer.facts old turns new all) }
{}

/// For each note that a turn gave, one that says the same was offered once to the bell of the store, where there is
/// one; or memory ran out for it, which the owner says at its end.
pub fn each_note_has_a_further_one<D: Entrance>()
    ensures { (old new : OwnerFacts D D.Peer) (turn : Turn)
        (turned : OwnerTurned D.facts D.Peer.facts old turn new) (side : ArchiveFacts) → old.archive ≡ Some side →
        AllByRecursion (λ note. HasFurther note side new) (notes_given D.facts D.Peer.facts old turn new turned) }
{}

/// The bell of the store got notes, and that none comes any more once, after all of them.
pub fn last_is_last<D: Entrance>()
    ensures last { (control : ControlFacts) (door : D) (connections : ℕ) (journal : Bool) (queues : List QueueId)
        (store : Option QueueId) (opened owner : OwnerFacts D D.Peer) (turns : List Turn) →
        IsOpened control door connections journal queues store opened →
        TurnsTo (OwnerTurned D.facts D.Peer.facts) opened turns owner →
        IfSome owner.archive EndsOnce }
    // Once it took that, no more connections come, none is open, and all that was accepted is published.
    ensures through { (control : ControlFacts) (door : D) (connections : ℕ) (journal : Bool) (queues : List QueueId)
        (store : Option QueueId) (opened owner : OwnerFacts D D.Peer) (turns : List Turn) →
        IsOpened control door connections journal queues store opened →
        TurnsTo (OwnerTurned D.facts D.Peer.facts) opened turns owner →
        IfSome owner.archive (λ side. IsTrue side.is_told → IsTrue (is_through owner)) }
{}

/// Each answer of a turn shows its cause.
pub fn answers_have_causes<D: Entrance>()
    // `Idle` only where the turn did nothing, but for a leave that was tried again and found no memory, and the owner is
    // not done.
    ensures idle { (old new : OwnerFacts D D.Peer) → OwnerTurned D.facts D.Peer.facts old Idle new →
        HasDoneNothing old new × (has_ended new ≡ false) }
    // `Worked` only where it did something.
    ensures worked { (old new : OwnerFacts D D.Peer) → 0 < length old.bells →
        OwnerTurned D.facts D.Peer.facts old Worked new → ¬ HasDoneNothing old new }
    // `Done` exactly where no connections come any more, each has closed, and each bell was notified of that.
    ensures done { (old new : OwnerFacts D D.Peer) (answer : Turn) →
        OwnerTurned D.facts D.Peer.facts old answer new → (answer ≡ Done) ↔ IsTrue (has_ended new) }
{}

/// A command is written down as a frame of the type of the frame that asked for it, with the version that its
/// connection had sent before where it is a login.
pub fn frames_have_the_type_that_was_sent()
    ensures { (machine : Machine) (kind : ℕ) (payload : List ℕ) (command : Command) →
        action machine kind payload ≡ Ask command →
        IsWrittenAs kind (version_with kind machine.version) command.what }
{}
