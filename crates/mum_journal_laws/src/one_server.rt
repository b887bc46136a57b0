//! A run of a server is that of one server. This function calls such as do nothing: its contract is a theorem.

ghost use Rattle.std.specs.Prelude.{ℕ, Option};
ghost use Rattle.mum_kept.specs.declared.rows.KeptRows.{KeptRows};
ghost use Rattle.mum_serve.specs.Asked.{Service};
ghost use Rattle.mum_serve.specs.Serving.{HasRun};
ghost use Rattle.mum_serve.specs.declared.asked.Objects.{Objects};
ghost use Rattle.mum_serve.specs.declared.entries.Entries.{Entries};
ghost use Rattle.mum_serve.specs.declared.summary.Summary.{Summary};
ghost use Rattle.mum_state.specs.State.{StateValue};
ghost use Rattle.mum_journal_laws.specs.OneServer.{IsOneServer};

use crate::journals::journals_are_legal;
use mum_io::{Clock, Door};
use mum_keeper::Keeper;
use mum_serve_laws::laws::{
    entries_are_of_the_turns, packets_go_by_the_decisions, parcels_go_by_the_rules,
    totals_are_of_the_turns,
};
use mum_worker_laws::laws::{copies_keep_their_order, later_looks_see_more};

/// Whatever its threads did, a server decided its commands one after the other, each at the state after all that was
/// accepted before it and for the session of its connection; each packet went once to exactly those who hear it after a
/// beginning of the list of what was accepted; nobody was sent what the rules would not give, and what was sent held from
/// then on; and the totals and the journal are those of the turns.
pub fn runs_are_of_one_server<D: Door, K: Clock, P: Keeper>()
    ensures { (state : StateValue) (asked : Service) (workers : ℕ) (rows : Option KeptRows) (opened : Objects D K P)
        (summary : Summary) (entries : Entries) (left : Objects D K P)
        (run : HasRun D.Conn.facts D.facts K.last K.calls P.facts state asked workers rows opened summary entries left) →
        IsOneServer D.Conn.facts D.facts K.last K.calls P.facts state asked workers rows opened summary entries left
        run }
{
    later_looks_see_more::<D::Conn>();
    copies_keep_their_order::<D::Conn>();
    packets_go_by_the_decisions::<D, K, P>();
    parcels_go_by_the_rules::<D, K, P>();
    totals_are_of_the_turns::<D, K, P>();
    entries_are_of_the_turns::<D, K, P>();
    journals_are_legal::<D, K, P>();
}
