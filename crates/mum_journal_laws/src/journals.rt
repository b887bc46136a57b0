//! The journal that a run of a server leaves. These functions call such as do nothing: each contract is a theorem.

ghost use Rattle.std.specs.Prelude.{◌≡◌, ℕ, List, None, Option, true};
ghost use Rattle.mum_audit.specs.Legal.{IsLegal};
ghost use Rattle.mum_kept.specs.declared.rows.KeptRows.{KeptRows};
ghost use Rattle.mum_crew.specs.Crew.{CrewCounts};
ghost use Rattle.mum_serve.specs.Asked.{Lent, Service};
ghost use Rattle.mum_serve.specs.Journals.{journal_of};
ghost use Rattle.mum_serve.specs.Program.{HasServed};
ghost use Rattle.mum_serve.specs.Serving.{HasRun};
ghost use Rattle.mum_serve.specs.declared.asked.Objects.{Objects};
ghost use Rattle.mum_serve.specs.declared.entries.Entries.{Entries};
ghost use Rattle.mum_serve.specs.declared.program.Input.{Input};
ghost use Rattle.mum_serve.specs.declared.program.ServerEnd.{ServerEnd};
ghost use Rattle.mum_serve.specs.declared.summary.Summary.{Summary};
ghost use Rattle.mum_state.specs.State.{StateValue};
ghost use Rattle.mum_journal_laws.specs.Journals.{KeepsJournal};

use mum_heard::laws::commands_are_heard_again;
use mum_io::{Clock, Door};
use mum_keeper::Keeper;
use mum_route::laws::hearers_are_the_route;
use mum_serve_laws::laws::{entries_are_of_the_turns, packets_go_by_the_decisions};
use mum_worker_laws::laws::{later_looks_see_more, voice_entries_are_the_looks};
use mum_worker_laws::ports::{connections_rise, each_connection_has_one_closing_entry};

/// A journal that was asked for is legal: each control entry has the verdict of the state that the accepted entries
/// before it leave, for the session that the last accepted login of its connection gave; the revisions of each worker
/// never fall; each packet went to those who hear it in the state of its revision; and no connection has two closing
/// entries.
pub fn journals_are_legal<D: Door, K: Clock, P: Keeper>()
    ensures { (state : StateValue) (asked : Service) (workers : ℕ) (rows : Option KeptRows) (opened : Objects D K P)
        (summary : Summary) (entries : Entries) (left : Objects D K P)
        (run : HasRun D.Conn.facts D.facts K.last K.calls P.facts state asked workers rows opened summary entries left)
        (document : List ℕ) →
        KeepsJournal asked state document →
        IsLegal (journal_of workers document entries) }
{
    commands_are_heard_again();
    hearers_are_the_route();
    voice_entries_are_the_looks::<D::Conn>();
    later_looks_see_more::<D::Conn>();
    connections_rise::<D::Conn>();
    each_connection_has_one_closing_entry::<D::Conn>();
    entries_are_of_the_turns::<D, K, P>();
    packets_go_by_the_decisions::<D, K, P>();
}

/// The same of a run of the program, from its input to its end: where it was asked for a journal, and keeps no channels,
/// the journal of those whom it served is legal.
pub fn served_journals_are_legal<D: Door, K: Clock, P: Keeper>()
    ensures { (asked : Service) (input : Input) (end : ServerEnd) (objects left : Lent D K P)
        (old new : Option (List ℕ)) (crew crew_after : CrewCounts)
        (served : HasServed D.Conn.facts D.facts K.last K.calls P.facts asked input end objects left old new crew
        crew_after) →
        asked.journal ≡ true →
        asked.keep ≡ None →
        IsLegal (journal_of input.config.workers input.document served.entries) }
{
    journals_are_legal::<D, K, P>();
}
