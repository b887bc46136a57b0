//! The failures of a keeper.

ghost use Rattle.std.specs.Prelude.{◌≡◌, ◌≢◌, false};
ghost use Rattle.mum_keeper.specs.Keeping.{KeepCounts};
ghost use Rattle.mum_keeper.specs.declared.keeper.KeepEnd.{KeepEnd};
ghost use Rattle.mum_sql_keeper.specs.Faults.{not_open};

use mum_keeper::KeepEnd;
use sqlite::{Error, ErrorCode};
use std::marker::Model;

// How many calls failed. That rows are not kept, and that they are again, is written to the standard error stream.
#[derive(Drop)]
pub(crate) struct Failures {
    rt: HostRuntime,
    count: u64,
    // That rows are not kept was written, and not yet that they are again.
    is_failing: bool,
}

impl Model for Failures {
    ghost use Rattle.std.specs.Prelude.{ℕ};

    ghost Value = { ℕ };

    ghost view = { λ f. f.count };
}

fn report_failure(rt: &HostRuntime, error: &Error) {
    let _written = eprintln!(rt; "murmur: channels are not kept: {error}");
}

fn report_success(rt: &HostRuntime) {
    let _written = eprintln!(rt; "murmur: channels are kept again");
}

fn is_out_of_memory(error: &Error) -> bool
    ensures { error.now ≡ not_open → result ≡ false }
{
    matches!(error, Error::SqliteFailure(ErrorCode::OutOfMemory))
}

impl Failures {
    // None yet.
    pub(crate) fn new(rt: HostRuntime) -> Failures
        ensures { result ≡ 0 }
    {
        Failures {
            rt,
            count: 0,
            is_failing: false,
        }
    }

    // Counts a failure, and reports it where the call before did not fail. Where memory ran out it does neither.
    pub(crate) fn fail(&mut self, error: Error) -> KeepEnd
        ensures counts { KeepCounts result self.old self.new }
        ensures not_kept { result ≢ KeepEnd.Kept }
        ensures not_open { error ≡ not_open → result ≡ KeepEnd.Failed }
    {
        if is_out_of_memory(&error) {
            return KeepEnd::NoMemory;
        }
        if !self.is_failing {
            report_failure(&self.rt, &error);
        }
        self.is_failing = true;
        self.count = self.count.saturating_add(1);
        KeepEnd::Failed
    }

    // Reports that rows are kept again, where it was reported that they are not.
    pub(crate) fn succeed(&mut self)
        ensures { self.new ≡ self.old }
    {
        if self.is_failing {
            report_success(&self.rt);
        }
        self.is_failing = false;
    }
}
