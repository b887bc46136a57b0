//! The state at which the steps of a recording and the entries of a journal begin: that after the limits
//! that its head names, and after the edits that its document describes.
#![tactic(auto)]

ghost use Rattle.std.specs.Prelude.{◌≡◌, ◌≢◌, ◌≤◌, ◌++◌, [], IfErr, IfOk, IsTrue, None};
ghost use Rattle.mum_config.specs.Limits.{FitAfterLimits};
ghost use Rattle.mum_state.specs.declared.edit.Edit.TheVariants.{SetLimits};
ghost use Rattle.mum_state.specs.After.{after, all_fit};
ghost use Rattle.mum_state.specs.Fits.{fits};
ghost use Rattle.mum_state.specs.State.{empty_state};
ghost use Rattle.mum_opening.specs.Opening.{document_fault, limits_edits, opening};
ghost use Rattle.mum_opening.specs.Opening as spec;
ghost use Rattle.mum_opening.specs.Reading.{ReadsDescribed, ReadsDocument};

use mum_base::{Items, OutOfMemory};
use mum_config::config::DEFAULT_WORKERS;
use mum_config::{BadConfig, Config, read_config};
use mum_history::{state_after, state_from};
use mum_record::Limits;
use mum_state::{Edit, State};
use std::alloc::{AllocError, Global};

/// What a document describes, or its first fault. One of no bytes describes an empty server, with as many workers as
/// where a document names none.
pub fn read_document(alloc: Global, document: &[u8]) -> Result<Config, BadConfig>
    ensures reads { ReadsDescribed document.now result }
    ensures fit { IfOk result (λ config. IsTrue (all_fit empty_state config.edits)) }
    ensures limited { IfOk result (λ config. FitAfterLimits config.edits) }
    ensures workers { IfOk result (λ config. (1 ≤ config.workers) × (config.workers ≤ 8)) }
    // One of no bytes takes no memory.
    ensures memory { IfErr result (λ error. document.now ≢ []) }
{
    if document.is_empty() {
        return Ok(Config {
            workers: DEFAULT_WORKERS as u8,
            edits: Items::new(alloc),
        });
    }
    read_config(alloc, document)
}

/// The edits that a document describes, none where it has no bytes; or its first fault. How many workers
/// the document names is not looked at.
pub fn document_edits(alloc: Global, document: &[u8]) -> Result<Items<Edit>, BadConfig>
    ensures reads { ReadsDocument document.now result }
    ensures fit { IfOk result (λ edits. IsTrue (all_fit empty_state edits)) }
    ensures limited { IfOk result FitAfterLimits }
    // One of no bytes takes no memory.
    ensures memory { IfErr result (λ error. document.now ≢ []) }
{
    match read_document(alloc, document) {
        Ok(Config { edits, .. }) => Ok(edits),
        Err(error) => Err(error),
    }
}

// The edit that sets limits. It fits the empty state.
fn limits_edit(limits: &Limits) -> Edit
    ensures edit { result ≡ SetLimits limits.now.0 limits.now.1 }
    ensures fits { IsTrue (fits empty_state (SetLimits limits.now.0 limits.now.1)) }
{
    Edit::SetLimits {
        sessions: limits.sessions(),
        channels: limits.channels(),
    }
}

/// The state after the limits, where there are any, and then these edits, which are those of a document.
pub fn opening_state(
    alloc: Global,
    limits: &Option<Limits>,
    edits: &[Edit],
) -> Result<State, OutOfMemory>
    requires fit { IsTrue (all_fit empty_state edits.now) }
    requires limited { FitAfterLimits edits.now }
    ensures { IfOk result (λ state. state ≡ after (limits_edits limits.now ++ edits.now)) }
{
    let Some(limits) = limits else {
        return state_after(alloc, edits);
    };
    let limited = state_after(alloc, &[limits_edit(limits)])?;
    state_from(limited, edits)
}

// The edits of a document in which there is no fault.
fn described_edits(alloc: Global, document: &[u8]) -> Result<Items<Edit>, OutOfMemory>
    requires { document_fault document.now ≡ None }
    ensures edits { IfOk result (λ edits. edits ≡ spec.document_edits document.now) }
    ensures fit { IfOk result (λ edits. IsTrue (all_fit empty_state edits)) }
    ensures limited { IfOk result FitAfterLimits }
{
    match document_edits(alloc, document) {
        Ok(edits) => Ok(edits),
        Err(_) => Err(AllocError),
    }
}

/// The state at which steps or entries begin, by the limits that a head names, if it names any, and by
/// its document, which has no bytes where there is none.
pub fn open(alloc: Global, limits: &Option<Limits>, document: &[u8]) -> Result<State, OutOfMemory>
    requires faultless { document_fault document.now ≡ None }
    ensures { IfOk result (λ state. state ≡ opening limits.now document.now) }
{
    let edits = described_edits(alloc, document)?;
    opening_state(alloc, limits, edits.as_slice())
}
