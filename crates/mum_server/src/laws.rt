//! What follows from the definitions for every recording, every journal and the words of every server.
//! These functions do nothing: each contract is a theorem.

ghost use Rattle.std.specs.Prelude.{◌≡◌, ◌↔◌, ℕ, List, Option, None, IfSome, Ok};
ghost use Rattle.mum_state.specs.Proper.{IsProper};
ghost use Rattle.mum_record.specs.Head.{AreLimits};
ghost use Rattle.mum_record.specs.declared.journal.Journal.{Journal};
ghost use Rattle.mum_audit.specs.Legal.{IsLegal};
ghost use Rattle.mum_serve.specs.Asked.{Service};
ghost use Rattle.mum_server.specs.Audit.{audit_of};
ghost use Rattle.mum_server.specs.Command.{IsServe};
ghost use Rattle.mum_server.specs.JournalText.{journal_read};
ghost use Rattle.mum_server.specs.declared.end.End.TheVariants.{Finished};
ghost use Rattle.mum_opening.specs.Opening.{document_fault, opening};

/// The steps of a recording begin at a proper state, whatever its limits and its configuration: so what the core's laws
/// say of runs from a proper opening holds of every recording.
pub fn recordings_open_properly()
    ensures { (limits : Option (ℕ × ℕ)) (document : List ℕ) → IfSome limits AreLimits → document_fault document ≡ None
        → IsProper (opening limits document) }
{}

/// A journal whose configuration has no fault passes its audit exactly where it is legal: only then the program ends
/// well.
pub fn legal_journals_pass()
    ensures { (bytes : List ℕ) (journal : Journal) → journal_read bytes ≡ Ok journal → document_fault journal.config
        ≡ None
        → ((audit_of bytes).ending ≡ Finished) ↔ IsLegal journal }
{}

/// The words of a run that serves ask for one run alone, whatever its addresses are: a word has its meaning by its
/// place.
pub fn serve_words_have_one_reading()
    ensures { (words : List (List ℕ)) → (one other : Service) → IsServe words one → IsServe words other → one ≡ other }
{}
