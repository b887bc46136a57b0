//! What becomes of the connections of a worker, from its opening on, over any links and any gate. These functions do
//! nothing: each contract is a theorem.

ghost use Rattle.std.specs.Prelude.{◌≡◌, ◌≢◌, ◌+◌, ◌++◌, IsTrue, ℕ, List, Option, Some};
ghost use Rattle.std.specs.List.{All, AllPairs, flat_map};
ghost use Rattle.mum_base.specs.declared.number.Cause.TheVariants.{Kicked, Rejected};
ghost use Rattle.mum_base.specs.declared.number.SessionId.{SessionId};
ghost use Rattle.mum_crew.specs.Turns.{TurnsTo};
ghost use Rattle.mum_crew.specs.declared.role.Turn.{Turn};
ghost use Rattle.mum_port.specs.Did.{PortDid, action_of, asked_item, echo_of, queued};
ghost use Rattle.mum_port.specs.Facts.{PortFacts};
ghost use Rattle.mum_port.specs.Life.{Steps};
ghost use Rattle.mum_port.specs.Stage.{cause_of};
ghost use Rattle.mum_port.specs.declared.item.DeskItem.{DeskItem};
ghost use Rattle.mum_published.specs.Facts.{Opening, PassFacts};
ghost use Rattle.mum_session.specs.Machine.{Machine};
ghost use Rattle.mum_worker.specs.Facts.{WorkerFacts, is_of};
ghost use Rattle.mum_worker.specs.Hearing.{HearsLag};
ghost use Rattle.mum_worker.specs.Opening.{HasOpened};
ghost use Rattle.mum_worker.specs.Routing.{RoutesPacket};
ghost use Rattle.mum_worker.specs.Turning.{WorkerTurned};
ghost use Rattle.mum_worker_laws.specs.Befallen.{befallen, closings_in, closings_told, lags_befell};
ghost use Rattle.mum_worker_laws.specs.Closings.{IsClosedWhere, IsShutByLag, is_closing_of, is_open_of};
ghost use Rattle.mum_worker_laws.specs.Laws.{bytes_of_take, history, takes_by};
ghost use Rattle.mum_worker_laws.specs.Parcels.{AreTakenInOrder};
ghost use Rattle.mum_worker_laws.specs.Partings.{was_parted, was_rejected};
ghost use Rattle.mum_worker_laws.specs.Lives.{AwaitsReply, HaveLived, IsAbove, IsBelow, IsNoPacketOf, IsNoReplyTo};
ghost use Rattle.mum_worker_laws.specs.Lives.{IsLife, IsNew, IsOfAnother, Life, IsOfWorker, IsOrderly, count, is_closed_of, ports_taken};

use mum_io::Link;

/// A worker takes in connections of its own number alone, each once, as their numbers rise, from any moment of a worker
/// on.
pub fn connections_rise<L: Link>()
    ensures rise { (opening : Opening) (old worker : WorkerFacts L) (turns : List Turn) →
        (all : TurnsTo (WorkerTurned L.facts opening) old turns worker) →
        AllPairs IsBelow (ports_taken L.facts opening old turns worker all) }
    // Each is above the last that was taken in before.
    ensures above { (opening : Opening) (old worker : WorkerFacts L) (turns : List Turn) →
        (all : TurnsTo (WorkerTurned L.facts opening) old turns worker) →
        All (IsAbove old.last) (ports_taken L.facts opening old turns worker all) }
    ensures own { (opening : Opening) (old worker : WorkerFacts L) (turns : List Turn) →
        (all : TurnsTo (WorkerTurned L.facts opening) old turns worker) →
        All (IsOfWorker old.number old.workers) (ports_taken L.facts opening old turns worker all) }
    // Another worker takes in none of them.
    ensures apart { (opening : Opening) (old worker second other : WorkerFacts L) (turns others : List Turn) →
        (all : TurnsTo (WorkerTurned L.facts opening) old turns worker) →
        (rest : TurnsTo (WorkerTurned L.facts opening) second others other) →
        second.workers ≡ old.workers → second.number ≢ old.number →
        All (λ port. All (IsOfAnother port.machine.connection) (ports_taken L.facts opening second others other rest))
        (ports_taken L.facts opening old turns worker all) }
{}

/// What a step of a port takes to be written is an echo, and then the frames of the parcels that it took for its session.
pub fn parcels_are_written()
    ensures { (machine : Machine) (did : PortDid) → queued machine did
        ≡ echo_of (action_of machine did.handled) ++ flat_map bytes_of_take (takes_by machine did) }
{}

/// Each connection that was taken in has one `Closed` on the desk once its port is gone, and none while its port is
/// kept: those that are there and the ports that are kept are together as many as were taken in.
pub fn each_connection_closes_once<L: Link>()
    ensures { (opening : Opening) (number : ℕ) (pass : PassFacts) (journal : Option ℕ)
        (opened worker : WorkerFacts L) (turns : List Turn) (connection : ℕ) → HasOpened number pass journal opened →
        (all : TurnsTo (WorkerTurned L.facts opening) opened turns worker) →
        count (is_closed_of connection) worker.desk.offered + count (is_of connection) worker.ports
        ≡ count (is_of connection) (ports_taken L.facts opening opened turns worker all) }
{}

/// Where a journal is kept, each connection that was taken in has one closing entry once its port closed, and none while
/// it is open: those that are there and the open ports are together as many as were taken in.
pub fn each_connection_has_one_closing_entry<L: Link>()
    ensures { (opening : Opening) (number : ℕ) (pass : PassFacts) (room : ℕ)
        (opened worker : WorkerFacts L) (turns : List Turn) (connection : ℕ)
        → HasOpened number pass (Some room) opened →
        (all : TurnsTo (WorkerTurned L.facts opening) opened turns worker) →
        count (is_closing_of connection) worker.common.kept.entries + count (is_open_of connection) worker.ports
        ≡ count (is_of connection) (ports_taken L.facts opening opened turns worker all) }
{}

/// Where a journal is kept, its closing entries are those that ports closed, in order, with their causes.
pub fn closing_entries_have_their_causes<L: Link>()
    ensures { (opening : Opening) (number : ℕ) (pass : PassFacts) (room : ℕ)
        (opened worker : WorkerFacts L) (turns : List Turn) → HasOpened number pass (Some room) opened →
        (all : TurnsTo (WorkerTurned L.facts opening) opened turns worker) →
        closings_told worker.common.kept.entries ≡ closings_in (befallen L.facts opening opened turns worker all) }
{}

/// A lag of a session closes each open port of it, for that cause.
pub fn a_lag_closes_the_ports_of_its_session<L: Link>()
    ensures closed { (session : SessionId) (old new : WorkerFacts L) →
        HearsLag L.facts session old new → All (IsClosedWhere session) new.ports }
    ensures cause { (session : SessionId) (old new : WorkerFacts L) → (hears : HearsLag L.facts session old new) →
        All IsShutByLag (lags_befell L.facts session old.ports old.common.kept
        hears.each.stepped new.common.kept hears.each.along) }
{}

/// A port closes after a rejection only where it heard one, and as one that was kicked only where it took the last
/// parcel of its session; and then it has written all that it had.
pub fn a_port_that_parts_has_written_all<L: Link>()
    ensures rejected { (opening : Opening) (life : Life L) → IsNew life.first → IsLife L.facts opening life →
        cause_of life.last.stage ≡ Some Rejected → IsTrue (was_rejected life.events) }
    ensures kicked { (opening : Opening) (life : Life L) → IsNew life.first → IsLife L.facts opening life →
        cause_of life.last.stage ≡ Some Kicked → IsTrue (was_parted life.events) }
    ensures after_rejection { (opening : Opening) (old new : PortFacts L) (machine : Machine) (did : PortDid) →
        Steps L.facts (RoutesPacket opening) old machine did new →
        did.closed ≡ Some Rejected → did.wrote ≡ old.out ++ queued old.machine did }
    ensures after_last_parcel { (opening : Opening) (old new : PortFacts L) (machine : Machine) (did : PortDid) →
        Steps L.facts (RoutesPacket opening) old machine did new →
        did.closed ≡ Some Kicked → did.wrote ≡ old.out ++ queued old.machine did }
{}

/// What a port took from a box lies in the order of the offers: of any two parcels of one pass, as of the copies that
/// one worker offers, the one that was offered first was taken first.
pub fn parcels_are_taken_in_order<L: Link>()
    ensures { (opening : Opening) (number : ℕ) (pass : PassFacts) (journal : Option ℕ)
        (opened worker : WorkerFacts L) (turns : List Turn) → HasOpened number pass journal opened →
        TurnsTo (WorkerTurned L.facts opening) opened turns worker →
        All AreTakenInOrder worker.ports }
{}

/// Each port has a life: what happens to it leads from its taking in to what it is. No port is lost; the desk has
/// what ports put there and nothing else, in their order; the packets that are routed are those that they say; and
/// the replies that come while a port of their connection is there are those that it hears, whole and once each.
pub fn ports_live<L: Link>()
    // From any moment of a worker on.
    ensures lives { (opening : Opening) (number : ℕ) (pass : PassFacts) (journal : Option ℕ)
        (opened old worker : WorkerFacts L) (before turns : List Turn) → HasOpened number pass journal opened →
        TurnsTo (WorkerTurned L.facts opening) opened before old →
        (all : TurnsTo (WorkerTurned L.facts opening) old turns worker) →
        HaveLived L.facts opening old turns worker all }
    // From the opening on, each port handles frames, writes bytes and puts commands in their order.
    ensures orderly { (opening : Opening) (number : ℕ) (pass : PassFacts) (journal : Option ℕ)
        (opened worker : WorkerFacts L) (turns : List Turn) → HasOpened number pass journal opened →
        (all : TurnsTo (WorkerTurned L.facts opening) opened turns worker) →
        (lived : HaveLived L.facts opening opened turns worker all) →
        All IsOrderly lived.lives }
{}

/// A connection that asked for a command, or brought a list of bans, is heard again once a reply was heard: no packet of it is routed
/// before. That no frame of it is handled before is said of its life.
pub fn a_reply_comes_before_the_next_packet<L: Link>()
    // After such a frame its port awaits a reply.
    ensures awaits { (opening : Opening) (old new : PortFacts L) (machine : Machine) (did : PortDid) (item : DeskItem) →
        Steps L.facts (RoutesPacket opening) old machine did new →
        asked_item machine did.handled ≡ Some item → IsTrue new.machine.awaits }
    ensures packets { (opening : Opening) (old worker : WorkerFacts L) (turns : List Turn) (connection : ℕ) →
        (all : TurnsTo (WorkerTurned L.facts opening) old turns worker) →
        All (AwaitsReply connection) old.ports →
        All (IsNoReplyTo connection) (history L.facts opening old turns worker all) →
        All (IsOfAnother connection) (ports_taken L.facts opening old turns worker all) →
        All (IsNoPacketOf connection) (history L.facts opening old turns worker all) }
{}
