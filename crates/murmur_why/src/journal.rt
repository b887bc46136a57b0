//! A journal: it is read and audited, and its entries are decided once more for the states between them.

ghost use Rattle.std.specs.Prelude.{◌≡◌, IfOk, List, None, ℕ};
ghost use Rattle.mum_opening.specs.Opening.{document_fault};
ghost use Rattle.mum_record.specs.Journal.{IsTextOf};

use crate::end::End;
use crate::packets::push_all;
use crate::story::Story;
use mum_audit::{Audited, audit};
use mum_base::OutOfMemory;
use mum_config::BadConfig;
use mum_opening::{document_edits, open};
use mum_record::{Journal, JournalFault, Version, read_journal};
use std::alloc::Global;
use std::mem::{drop, replace};

// That the configuration of a journal has no fault.
fn test_config(alloc: Global, journal: &Journal) -> Result<(), End>
    ensures { IfOk result (λ _. document_fault journal.now.config ≡ None) }
{
    match document_edits(alloc, journal.config.as_slice()) {
        Ok(edits) => {
            drop(edits);
            Ok(())
        }
        Err(BadConfig::Fault { code, key }) => Err(End::BadConfig { code, key }),
        Err(BadConfig::OutOfMemory) => Err(End::OutOfMemory),
    }
}

// That a journal is legal.
fn judge(alloc: Global, journal: &Journal) -> Result<(), End>
    requires text { (text : List ℕ) × IsTextOf text journal.now }
    requires faultless { document_fault journal.now.config ≡ None }
{
    match audit(alloc, journal) {
        Ok(Audited::Legal { .. }) => Ok(()),
        Ok(
            Audited::Wrong {
                line,
                given,
                defined,
            },
        ) => Err(End::Wrong {
            line,
            given,
            defined,
        }),
        Err(_) => Err(End::OutOfMemory),
    }
}

// Decides the commands of a journal, and gathers its packets.
fn fill(alloc: Global, story: &mut Story, journal: &Journal) -> Result<(), OutOfMemory> {
    let mut line = Version::with_limits(&journal.limits).first_step_line();
    for entry in journal.controls.as_slice() {
        story.states.decide(alloc, entry)?;
        story.lines.push(line)?;
        line = line.saturating_add(1);
    }
    push_all(&mut story.packets, line, journal.by_worker.as_slice())
}

// What a journal says but its commands.
fn story_but_commands(alloc: Global, journal: &Journal) -> Result<Story, OutOfMemory>
    requires { document_fault journal.now.config ≡ None }
{
    let opening = open(alloc, &journal.limits, journal.config.as_slice())?;
    let mut story = Story::begin(alloc, journal.limits, opening)?;
    match fill(alloc, &mut story, journal) {
        Ok(()) => return Ok(story),
        Err(error) => {
            drop(story);
            return Err(error);
        }
    }
}

// The same, where the journal is legal.
fn judged(alloc: Global, journal: &Journal) -> Result<Story, End>
    requires { (text : List ℕ) × IsTextOf text journal.now }
{
    test_config(alloc, journal)?;
    judge(alloc, journal)?;
    Ok(story_but_commands(alloc, journal)?)
}

// With the commands of the journal.
fn with_commands(mut story: Story, journal: Journal) -> Story {
    let Journal { controls, .. } = journal;
    drop(replace(&mut story.controls, controls));
    story
}

// What a journal says, where it is legal.
fn story_of(alloc: Global, journal: Journal) -> Result<Story, End>
    requires { (text : List ℕ) × IsTextOf text journal }
{
    match judged(alloc, &journal) {
        Ok(story) => return Ok(with_commands(story, journal)),
        Err(end) => {
            drop(journal);
            return Err(end);
        }
    }
}

// What a journal says, or its first fault.
pub(crate) fn story_in(alloc: Global, text: &[u8]) -> Result<Story, End> {
    match read_journal(alloc, text) {
        Ok(journal) => return story_of(alloc, journal),
        Err(JournalFault::NotALine { line }) => return Err(End::NotALine { line }),
        Err(JournalFault::OutOfMemory) => return Err(End::OutOfMemory),
    }
}
