//! What holds of a worker whatever its turns are, from its opening on, over any links and any gate. These
//! functions do nothing: each contract is a theorem.

ghost use Rattle.std.specs.Prelude.{◌≡◌, ◌++◌, ℕ, Bool, List, Option, Some, map};
ghost use Rattle.std.specs.List.{All, AllPairs, Contains, filter_map, flat_map};
ghost use mathlib.Core.List.{IsPrefix};
ghost use Rattle.mum_crew.specs.Turns.{TurnsTo};
ghost use Rattle.mum_crew.specs.declared.role.Turn.{Turn};
ghost use Rattle.mum_published.specs.Facts.{Opening, PassFacts};
ghost use Rattle.mum_router.specs.Laws.{HaveEntries};
ghost use Rattle.mum_state.specs.Proper.{IsProper};
ghost use Rattle.mum_state.specs.declared.edit.Edit.{Edit};
ghost use Rattle.mum_worker.specs.Facts.{WorkerFacts};
ghost use Rattle.mum_worker.specs.Opening.{HasOpened};
ghost use Rattle.mum_worker.specs.Turning.{Turned, WorkerTurned};
ghost use Rattle.mum_worker_laws.specs.Laws.{AreOfOneList, Follows, HasLogin, HoldsFor, IsTold, SeesFrom, ask_made, copies_at, copies_made, history, login_made, looks_in, moments_of, packets_in, takes_in};
ghost use Rattle.mum_worker_laws.specs.Voices.{talk_in, talk_made};

use mum_io::Link;

/// Each look is of one packet of one port, and no packet is routed without one: what was asked is what the packets
/// ask that the turns routed, in order.
pub fn looks_are_asks<L: Link>()
    ensures { (opening : Opening) (number : ℕ) (pass : PassFacts) (journal : Option ℕ)
        (opened worker : WorkerFacts L) (turns : List Turn) → HasOpened number pass journal opened →
        (all : TurnsTo (WorkerTurned L.facts opening) opened turns worker) →
        worker.common.router.pass.asks
        ≡ pass.asks ++ map ask_made (looks_in (history L.facts opening opened turns worker all)) }
{}

/// Where a journal is kept, it has an entry for each packet that was routed, in order, and no other voice entry: of its
/// connection, at the revision of its look, with bytes that are this packet, and what became of each copy.
pub fn voice_entries_are_the_looks<L: Link>()
    ensures { (opening : Opening) (number : ℕ) (pass : PassFacts) (room : ℕ)
        (opened worker : WorkerFacts L) (turns : List Turn) → HasOpened number pass (Some room) opened →
        (all : TurnsTo (WorkerTurned L.facts opening) opened turns worker) →
        filter_map talk_in worker.common.kept.entries
        ≡ map talk_made (looks_in (history L.facts opening opened turns worker all)) }
{}

/// What a look saw, what a reply reported and what was learnt of a parcel is never lost: each later packet is routed at
/// a list of edits that begins with it. So revisions never fall, and the packet that follows a reply sees all that
/// the reply reports.
pub fn later_looks_see_more<L: Link>()
    ensures follows { (opening : Opening) (number : ℕ) (pass : PassFacts) (journal : Option ℕ)
        (opened worker : WorkerFacts L) (turns : List Turn) → HasOpened number pass journal opened →
        (all : TurnsTo (WorkerTurned L.facts opening) opened turns worker) →
        AllPairs Follows (history L.facts opening opened turns worker all) }
    // What the pass knew as the worker opened begins each list.
    ensures known { (opening : Opening) (number : ℕ) (pass : PassFacts) (journal : Option ℕ)
        (opened worker : WorkerFacts L) (turns : List Turn) → HasOpened number pass journal opened →
        (all : TurnsTo (WorkerTurned L.facts opening) opened turns worker) →
        All (SeesFrom pass.known) (history L.facts opening opened turns worker all) }
{}

/// Nobody is sent what the rules would not give: each copy that a port takes is that of a packet which its session hears
/// after a list of edits, each notice reports an edit of such a list, and the worker knows of these edits.
pub fn parcels_are_by_the_rules<L: Link>()
    ensures rules { (opening : Opening) (number : ℕ) (pass : PassFacts) (journal : Option ℕ)
        (opened worker : WorkerFacts L) (turns : List Turn) → HasOpened number pass journal opened →
        (all : TurnsTo (WorkerTurned L.facts opening) opened turns worker) →
        All (IsTold opening worker.common.router.pass.known) (takes_in (history L.facts opening opened turns worker all)) }
    // What was sent holds from then on: whoever took a notice speaks after the edit that it reports.
    ensures holds { (opening : Opening) (number : ℕ) (pass : PassFacts) (journal : Option ℕ)
        (opened worker : WorkerFacts L) (turns : List Turn) → HasOpened number pass journal opened →
        (all : TurnsTo (WorkerTurned L.facts opening) opened turns worker) →
        AllPairs HoldsFor (history L.facts opening opened turns worker all) }
{}

/// Nobody speaks for another: each packet is routed for a session that an accepted login gave to the connection that
/// sent it, and the worker learnt of that login.
pub fn speakers_are_admitted<L: Link>()
    ensures looks { (opening : Opening) (number : ℕ) (pass : PassFacts) (journal : Option ℕ)
        (opened worker : WorkerFacts L) (turns : List Turn) → HasOpened number pass journal opened →
        (all : TurnsTo (WorkerTurned L.facts opening) opened turns worker) →
        All (λ look. Contains worker.common.router.pass.roll (login_made look))
        (looks_in (history L.facts opening opened turns worker all)) }
    // So is the session of each port.
    ensures ports { (opening : Opening) (number : ℕ) (pass : PassFacts) (journal : Option ℕ)
        (opened worker : WorkerFacts L) (turns : List Turn) → HasOpened number pass journal opened →
        TurnsTo (WorkerTurned L.facts opening) opened turns worker →
        All (HasLogin worker.common.router.pass.roll) worker.ports }
{}

/// Each packet is routed at a beginning of the list of edits that the worker's pass saw last, from any moment of a
/// worker on.
pub fn looks_are_within<L: Link>()
    ensures { (opening : Opening) (old worker : WorkerFacts L) (turns : List Turn) →
        (all : TurnsTo (WorkerTurned L.facts opening) old turns worker) →
        All (λ look. IsPrefix look.edits worker.common.router.pass.seen)
        (looks_in (history L.facts opening old turns worker all)) }
{}

/// Where what the passes of workers saw last are beginnings of one list, as of what is published, all of these workers
/// routed by that list.
pub fn looks_are_of_one_list<L: Link>()
    // Each packet is routed at a beginning of it.
    ensures begins { (opening : Opening) (old worker : WorkerFacts L) (turns : List Turn) (published : List Edit) →
        (all : TurnsTo (WorkerTurned L.facts opening) old turns worker) →
        IsPrefix worker.common.router.pass.seen published →
        All (λ look. IsPrefix look.edits published)
        (looks_in (history L.facts opening old turns worker all)) }
    // Of two packets, of one worker or of two, the list of one goes on from that of the other.
    ensures pairs { (opening : Opening) (old worker second other : WorkerFacts L) (turns others : List Turn)
        (published : List Edit) →
        (all : TurnsTo (WorkerTurned L.facts opening) old turns worker) →
        (rest : TurnsTo (WorkerTurned L.facts opening) second others other) →
        IsPrefix worker.common.router.pass.seen published → IsPrefix other.common.router.pass.seen published →
        All (λ look. All (λ next. AreOfOneList look.edits next.edits)
        (looks_in (history L.facts opening second others other rest)))
        (looks_in (history L.facts opening old turns worker all)) }
{}

/// Copies are offered to a box in the order of the looks: what was sent to the voice box of a slot is, in order, the
/// copies for this slot of the packets that the turns routed.
pub fn copies_keep_their_order<L: Link>()
    ensures { (opening : Opening) (number : ℕ) (pass : PassFacts) (journal : Option ℕ)
        (opened worker : WorkerFacts L) (turns : List Turn) (slot : ℕ) → HasOpened number pass journal opened →
        (all : TurnsTo (WorkerTurned L.facts opening) opened turns worker) →
        copies_at slot worker.common.router.outs
        ≡ copies_at slot opened.common.router.outs
        ++ flat_map (copies_made slot)
        (looks_in (history L.facts opening opened turns worker all)) }
{}

/// Routes that a turn found are kept: each packet that it routed, but for loopback, has the entry of its speaker and
/// target after it, where the speaker was in the state of the look and is in the state that was seen last. It is that of
/// this look, or of a later look of the turn for the same two.
pub fn routes_are_kept<L: Link>()
    ensures { (opening : Opening) (number : ℕ) (pass : PassFacts) (journal : Option ℕ)
        (opened old new : WorkerFacts L) (before : List Turn) (answer : Turn) → HasOpened number pass journal opened →
        pass.opening ≡ opening → IsProper opening.state →
        TurnsTo (WorkerTurned L.facts opening) opened before old →
        (turned : Turned L.facts opening old new answer) →
        HaveEntries opening (packets_in (moments_of L.facts opening old new answer turned))
        new.common.router.pass.seen new.common.router.caches.routes }
{}
