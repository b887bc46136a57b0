//! Laws of audits. These functions do nothing: their contracts are the laws.

ghost use Rattle.std.specs.Prelude.{◌≡◌, ℕ, List, None};
ghost use Rattle.mum_opening.specs.Opening.{document_fault};
ghost use Rattle.mum_record.specs.Journal.{IsTextOf};
ghost use Rattle.mum_record.specs.declared.journal.Journal.{Journal};
ghost use Rattle.mum_audit.specs.Audit.{IsAuditable};
ghost use Rattle.mum_audit.specs.Lines.{EachLineIsTested, TheFirstIsNamed};

/// A journal that was read from a text may be audited where its document has no fault.
pub fn read_journals_are_auditable()
    ensures { (text : List ℕ) (journal : Journal)
        → IsTextOf text journal → document_fault journal.config ≡ None → IsAuditable journal }
{}

/// Each line of a journal between its head and the last one is tested, and the wrong line that is named is the
/// first, by its number in the text.
pub fn first_wrong_line_is_named()
    ensures each { EachLineIsTested }
    ensures first { TheFirstIsNamed }
{}
