//! What a run of a server came to is what the turns of its roles did. These functions do nothing, or call such a
//! function: each contract is a theorem.

ghost use Rattle.std.specs.Prelude.{◌≡◌, ℕ, false, IfSome, List, Option};
ghost use Rattle.mum_kept.specs.declared.rows.KeptRows.{KeptRows};
ghost use Rattle.mum_serve.specs.Asked.{Service};
ghost use Rattle.mum_serve.specs.Serving.{HasRun, LoadsAndServes};
ghost use Rattle.mum_serve.specs.declared.asked.Objects.{Objects};
ghost use Rattle.mum_serve.specs.declared.entries.Entries.{Entries};
ghost use Rattle.mum_serve.specs.declared.server.Served.TheVariants.{Whole};
ghost use Rattle.mum_serve.specs.declared.summary.Summary.{Summary};
ghost use Rattle.mum_state.specs.State.{StateValue};
ghost use Rattle.mum_state.specs.declared.edit.Edit.{Edit};
ghost use Rattle.mum_serve_laws.specs.Runs.{AreOfTheTurns, AreRouted, AreTold, AreWritten, KeepsTheEnd};

use mum_io::{Clock, Door};
use mum_keeper::Keeper;
use mum_worker_laws::laws::{
    looks_are_within, parcels_are_by_the_rules, speakers_are_admitted, voice_entries_are_the_looks,
};

/// The totals of a run are sums over its turns: the connections that the door gave, the edits of the commands that were
/// decided, and of all workers the packets that were routed, their copies, and the parcels for other sessions.
pub fn totals_are_of_the_turns<D: Door, K: Clock, P: Keeper>()
    ensures { (state : StateValue) (asked : Service) (workers : ℕ) (rows : Option KeptRows) (opened : Objects D K P)
        (summary : Summary) (entries : Entries) (left : Objects D K P) →
        (run : HasRun D.Conn.facts D.facts K.last K.calls P.facts state asked workers rows opened summary entries left) →
        AreOfTheTurns D.Conn.facts D.facts K.last K.calls P.facts state asked workers rows opened summary entries left
        run }
{}

/// The entries of a run are of its turns: those of the owner are its decisions, and those of each worker have the
/// packets that it routed.
pub fn entries_are_of_the_turns<D: Door, K: Clock, P: Keeper>()
    ensures { (state : StateValue) (asked : Service) (workers : ℕ) (rows : Option KeptRows) (opened : Objects D K P)
        (summary : Summary) (entries : Entries) (left : Objects D K P) →
        (run : HasRun D.Conn.facts D.facts K.last K.calls P.facts state asked workers rows opened summary entries left) →
        AreWritten D.Conn.facts D.facts K.last K.calls P.facts state asked workers rows opened summary entries left
        run }
{
    voice_entries_are_the_looks::<D::Conn>();
}

/// There is one list of accepted edits, those of the commands that the owner decided, and each packet of each worker
/// goes to those who hear it after a beginning of that list. Nobody speaks for another: each is routed for a session that
/// one of these commands, a login, gave to the connection that sent it.
pub fn packets_go_by_the_decisions<D: Door, K: Clock, P: Keeper>()
    ensures { (state : StateValue) (asked : Service) (workers : ℕ) (rows : Option KeptRows) (opened : Objects D K P)
        (summary : Summary) (entries : Entries) (left : Objects D K P) →
        (run : HasRun D.Conn.facts D.facts K.last K.calls P.facts state asked workers rows opened summary entries left) →
        AreRouted D.Conn.facts D.facts K.last K.calls P.facts state asked workers rows opened summary entries left
        run }
{
    looks_are_within::<D::Conn>();
    speakers_are_admitted::<D::Conn>();
}

/// Nobody is sent what the rules would not give: each copy that a port takes is that of a packet which its session hears
/// after a beginning of the list of accepted edits, and each notice reports an edit of such a beginning. And what was
/// sent holds from then on: a packet is routed after all edits that came with what its worker's ports took before.
pub fn parcels_go_by_the_rules<D: Door, K: Clock, P: Keeper>()
    ensures { (state : StateValue) (asked : Service) (workers : ℕ) (rows : Option KeptRows) (opened : Objects D K P)
        (summary : Summary) (entries : Entries) (left : Objects D K P) →
        (run : HasRun D.Conn.facts D.facts K.last K.calls P.facts state asked workers rows opened summary entries left) →
        AreTold D.Conn.facts D.facts K.last K.calls P.facts state asked workers rows opened summary entries left
        run }
{
    parcels_are_by_the_rules::<D::Conn>();
}

/// Where channels are kept, and neither a call of the keeper failed nor memory ran out, the keeper has at the end the rows
/// that are kept of the state after all edits that were accepted, and it was opened at the path that was asked for, as far
/// as it reports these.
pub fn kept_rows_are_of_the_end<D: Door, K: Clock, P: Keeper>()
    ensures { (edits : List Edit) (asked : Service) (workers : ℕ) (objects : Objects D K P) (summary : Summary)
        (entries : Entries) (left : Objects D K P) →
        (served : LoadsAndServes D.Conn.facts D.facts K.last K.calls P.facts edits asked workers objects
        (Whole summary entries) left) →
        summary.keeper_failed ≡ false → summary.no_memory ≡ false →
        IfSome asked.keep (KeepsTheEnd D.Conn.facts D.facts K.last K.calls P.facts edits asked workers objects summary
        entries left served) }
{}
