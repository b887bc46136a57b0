//! Writing the line of a step.

ghost use Rattle.std.specs.Prelude.{◌≡◌, Some, OnOk, IfOk, string_bytes};
ghost use Rattle.mum_record.specs.Grammar.{FitsTypes, IsWritable, line_of, cause_word};
ghost use Rattle.mum_record.specs.Reading.{step_of};

use crate::step::Step;
use mum_base::{Cause, Octets, OutOfMemory};
use std::alloc::Global;

/// The word for why a connection ended.
pub fn cause_name(cause: Cause) -> &'static str
    ensures { result.now ≡ cause_word cause }
{
    match cause {
        Cause::End => "end",
        Cause::LinkFault => "fault",
        Cause::FrameTooLong => "toolong",
        Cause::Rejected => "rejected",
        Cause::Kicked => "kicked",
        Cause::Lagged => "lagged",
        Cause::Memory => "memory",
    }
}

// The text of the line of a step.
#[tactic(auto, unfolding(crate::specs::Grammar::words_of))]
fn text_of(alloc: Global, step: &Step) -> Result<String, OutOfMemory>
    ensures text { IfOk result (λ text. string_bytes text ≡ line_of step.now) }
    ensures fits { OnOk result (FitsTypes step.now) }
{
    match *step {
        Step::Open { connection, worker } => format!(in alloc; "open {connection} {worker}"),
        Step::Frame {
            connection,
            ref bytes,
        } => {
            let bytes = bytes.as_slice();
            let digits = hex::encode(alloc, bytes)?;
            format!(in alloc; "frame {connection} {digits}")
        }
        Step::Edit { connection } => format!(in alloc; "edit {connection}"),
        Step::Publish => format!(in alloc; "publish"),
        Step::Tell {
            connection,
            revision: Some(revision),
        } => format!(in alloc; "tell {connection} {revision}"),
        Step::Tell {
            connection,
            revision: None,
        } => format!(in alloc; "tell {connection} -"),
        Step::Look { worker, revision } => format!(in alloc; "look {worker} {revision}"),
        Step::Offer { worker } => format!(in alloc; "offer {worker}"),
        Step::Post => format!(in alloc; "post"),
        Step::Drain { connection } => format!(in alloc; "drain {connection}"),
        Step::Collect { connection } => format!(in alloc; "collect {connection}"),
        Step::Close { connection, cause } => {
            let cause = cause_name(cause);
            format!(in alloc; "close {connection} {cause}")
        }
        Step::End => format!(in alloc; "end"),
    }
}

/// The line of a step, without its line feed. `read_step` reads it back as this step.
pub fn write_step(alloc: Global, step: &Step) -> Result<Octets, OutOfMemory>
    requires { IsWritable step.now }
    ensures written { IfOk result (λ line. line ≡ line_of step.now) }
    ensures read_back { IfOk result (λ line. step_of line ≡ Some step.now) }
{
    let text = text_of(alloc, step)?;
    Ok(Octets::from_vec(text.into_bytes()))
}
