//! The control entries.

ghost use Rattle.std.specs.Prelude.{◌≡◌, IfOk, IfSome, None, OnOk};
ghost use Rattle.mum_record.specs.Journal.{Each, IsWritableControl};
ghost use Rattle.mum_frame.specs.Frame.{IsOneFrame};
ghost use Rattle.mum_audit.specs.Audit.{first_wrong, lines_on};
ghost use Rattle.mum_audit.specs.Controls.{after_entries, after_entry, control_findings, entry_finding};
ghost use Rattle.mum_audit.specs.Finding.{same_verdict};

use crate::finding::{Finding, verdicts_differ};
use crate::line::next_line;
use crate::past::Past;
use mum_base::{Mark, OutOfMemory};
use mum_record::ControlEntry;
use std::alloc::Global;

// Whether two verdicts are one.
fn is_same(given: Mark, defined: Mark) -> bool
    ensures { result ≡ same_verdict given defined }
{
    given == defined
}

// What is wrong with an entry, which is taken in after the entries before it.
fn check_entry(
    alloc: Global,
    past: &mut Past,
    entry: &ControlEntry,
) -> Result<Option<Finding>, OutOfMemory>
    requires { IfSome entry.now.frame IsOneFrame }
    ensures finding { IfOk result (λ found. found ≡ entry_finding past.old entry.now) }
    ensures past { OnOk result (past.new ≡ after_entry past.old entry.now) }
{
    let defined = past.decide(alloc, entry)?;
    if is_same(entry.verdict, defined) {
        return Ok(None);
    }
    Ok(Some(verdicts_differ(alloc, &entry.verdict, &defined)?))
}

// The first wrong entry with its line, where the first entry is at this line. Where none is wrong all are
// taken in, and the line is that below the last.
pub(crate) fn check_controls(
    alloc: Global,
    past: &mut Past,
    line: &mut u64,
    entries: &[ControlEntry],
) -> Result<Option<(u64, Finding)>, OutOfMemory>
    requires { Each IsWritableControl entries.now }
    ensures wrong { IfOk result (λ found. found ≡ first_wrong line.old (control_findings past.old entries.now)) }
    ensures past { IfOk result (λ found. found ≡ None → past.new ≡ after_entries past.old entries.now) }
    ensures line { IfOk result
        (λ found. found ≡ None → line.new ≡ lines_on line.old (control_findings past.old entries.now)) }
{
    for entry in entries {
        if let Some(finding) = check_entry(alloc, past, entry)? {
            return Ok(Some((*line, finding)));
        }
        *line = next_line(*line);
    }
    Ok(None)
}
