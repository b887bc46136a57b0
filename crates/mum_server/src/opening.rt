//! The limits and the configuration of a recording, and the core at which its steps begin.

ghost use Rattle.std.specs.Prelude.{IfOk, IsTrue};
ghost use Rattle.mum_record.specs.Head.{config_of};
ghost use Rattle.mum_config.specs.Limits.{FitAfterLimits};
ghost use Rattle.mum_state.specs.After.{all_fit};
ghost use Rattle.mum_state.specs.State.{empty_state};
ghost use Rattle.mum_server.specs.Runs.{Begins, Describes, Names, Opens};

use crate::end::{End, LineFault};
use mum_base::{Items, Octets};
use mum_config::BadConfig;
use mum_core::PlainCore;
use mum_opening::{document_edits, opening_state};
use mum_record::{Limits, Version, read_config_line};
use mum_state::Edit;
use std::alloc::Global;

// The document that line `n` names; it has no bytes where the line says that there is none.
fn read_document(alloc: Global, n: u64, line: &[u8]) -> Result<Octets, End>
    ensures { Names n (config_of line.now) result }
{
    match read_config_line(alloc, line) {
        Ok(document) => Ok(document),
        Err(mum_record::LineFault::NotALine) => Err(End::faulty(n, LineFault::BadRecording)),
        Err(mum_record::LineFault::OutOfMemory) => Err(End::OutOfMemory),
    }
}

// The edits that the document of line `n` describes, or its first fault.
fn edits_of(alloc: Global, n: u64, document: &[u8]) -> Result<Items<Edit>, End>
    ensures describes { Describes n document.now result }
    ensures fit { IfOk result (λ edits. IsTrue (all_fit empty_state edits)) }
    ensures limited { IfOk result FitAfterLimits }
{
    match document_edits(alloc, document) {
        Ok(edits) => Ok(edits),
        Err(BadConfig::Fault { code, key }) => {
            Err(End::faulty(n, LineFault::BadConfig { code, key }))
        }
        Err(BadConfig::OutOfMemory) => Err(End::OutOfMemory),
    }
}

// A core of n workers to which nothing happened, at the limits, where there are any, and what the
// document of line `n` describes; or the first fault of the document. How many workers the document names is
// not looked at.
pub(crate) fn open_core(
    alloc: Global,
    n: u64,
    workers: u8,
    limits: Option<Limits>,
    document: &[u8],
) -> Result<PlainCore, End>
    ensures { Opens n workers limits document.now result }
{
    let edits = edits_of(alloc, n, document)?;
    let opening = opening_state(alloc, &limits, edits.as_slice())?;
    Ok(PlainCore::begin(alloc, Version::with_limits(&limits), workers, opening)?)
}

// The core at which the steps begin after line `n`, which names the configuration.
pub(crate) fn begin(
    alloc: Global,
    n: u64,
    workers: u8,
    limits: Option<Limits>,
    line: &[u8],
) -> Result<PlainCore, End>
    ensures { Begins n workers limits line.now result }
{
    let document = read_document(alloc, n, line)?;
    open_core(alloc, n, workers, limits, document.as_slice())
}
