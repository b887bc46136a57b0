//! The audit of a whole journal.

ghost use Rattle.std.specs.Prelude.{◌≡◌, ◌↔◌, [], IfOk, None};
ghost use Rattle.mum_history.specs.View.{IsViewOf};
ghost use Rattle.mum_audit.specs.Audit.{IsAuditable, answer, audited, findings, first_line, first_wrong, past_before};
ghost use Rattle.mum_audit.specs.Audit as spec;
ghost use Rattle.mum_audit.specs.Legal.{IsLegal};
ghost use Rattle.mum_audit.specs.Past.{begun};

use crate::audited::Audited;
use crate::control::check_controls;
use crate::count::counts_of;
use crate::finding::Finding;
use crate::hearing::Hearing;
use crate::past::Past;
use crate::trail::Trail;
use crate::worker::check_workers;
use mum_base::OutOfMemory;
use mum_history::{View, readers};
use mum_opening::open;
use mum_record::{Journal, Version};
use mum_route::Audience;
use mum_state::State;
use mum_tree::Scratch;
use std::alloc::Global;
use std::mem::drop;

// What packets are routed with, at a view.
fn hearing_at(alloc: Global, view: View) -> Result<Hearing, OutOfMemory>
    ensures { IfOk result (λ hearing. hearing.view ≡ view) }
{
    match Scratch::new(alloc) {
        Ok(scratch) => Ok(Hearing {
            view,
            scratch,
            audience: Audience::new(),
        }),
        Err(error) => {
            drop(view);
            Err(error)
        }
    }
}

// What is before all entries, and what packets are routed with from there on.
fn begin(alloc: Global, opening: State) -> Result<(Past, Hearing), OutOfMemory>
    ensures past { IfOk result (λ begun_with. begun_with.0 ≡ begun opening) }
    ensures view { IfOk result (λ begun_with. IsViewOf opening [] begun_with.1.view) }
{
    let (history, mut views) = readers(alloc, 1, opening)?;
    let Some(view) = views.pop() else {
        unreachable!();
    };
    match hearing_at(alloc, view) {
        Ok(hearing) => Ok((Past::new(alloc, history), hearing)),
        Err(error) => {
            drop(history);
            Err(error)
        }
    }
}

// The first wrong line of a journal.
fn check_lines(
    alloc: Global,
    journal: &Journal,
    past: &mut Past,
    hearing: &mut Hearing,
) -> Result<Option<(u64, Finding)>, OutOfMemory>
    requires auditable { IsAuditable journal.now }
    requires past { past.old ≡ past_before journal.now }
    requires view { IsViewOf past.old.opening [] hearing.old.view }
    ensures { IfOk result (λ found. found ≡ first_wrong (first_line journal.now) (findings journal.now)) }
{
    let mut line = Version::with_limits(&journal.limits).first_step_line();
    let controls = journal.controls.as_slice();
    if let Some(wrong) = check_controls(alloc, past, &mut line, controls)? {
        return Ok(Some(wrong));
    }
    let mut trail = Trail::new(alloc, line);
    check_workers(
        alloc,
        past,
        hearing,
        &mut trail,
        journal.by_worker.as_slice(),
    )
}

// The answer of an audit that found this.
fn answer(journal: &Journal, found: Option<(u64, Finding)>) -> Audited
    ensures { result ≡ answer journal.now found }
{
    match found {
        None => counts_of(journal),
        Some((line, finding)) => {
            let Finding { given, defined } = finding;
            Audited::Wrong {
                line,
                given,
                defined,
            }
        }
    }
}

/// Tests a journal line by line: its counts where each line is right, or else the first wrong line. The
/// lines of the head are not tested. That out of memory is the answer only where something was allocated on the
/// way is not proved.
#[tactic(auto, unfolding(crate::specs::Audit::audited))]
pub fn audit(alloc: Global, journal: &Journal) -> Result<Audited, OutOfMemory>
    requires { IsAuditable journal.now }
    ensures exact { IfOk result (λ answer. answer ≡ audited journal.now) }
    // The answer is the counts exactly for a legal journal.
    ensures legal { IfOk result (λ answer. (answer ≡ spec.counts_of journal.now) ↔ IsLegal journal.now) }
{
    let opening = open(alloc, &journal.limits, journal.config.as_slice())?;
    let (mut past, mut hearing) = begin(alloc, opening)?;
    let found = check_lines(alloc, journal, &mut past, &mut hearing);
    drop(past);
    drop(hearing);
    Ok(answer(journal, found?))
}
