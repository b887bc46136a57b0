//! Why no byte goes over a link any more.

ghost use Rattle.std.specs.Prelude.{◌≡◌};
ghost use Rattle.mum_link.specs.Faults as faults;

use crate::hub::Ending;
use std::io::ErrorKind;

/// Why no byte goes over a link any more. The first cause stays.
#[derive(Clone, Copy, Debug, PartialEq, Eq)]
pub enum Fault {
    /// A call on its socket failed.
    Call,
    /// Its peer had taken nothing for too long, at this time in milliseconds.
    TookNothing(u64),
    /// Its peer had hung up, and what it left behind had not been read in time, at this time in milliseconds.
    LeftBehind(u64),
    /// The server stops.
    Stop(Ending),
    /// It was shut.
    Shut,
}

/// Whether an error of this kind says only that nothing has come yet, that there is no room yet, or that the call was
/// interrupted.
pub fn is_passing(kind: ErrorKind) -> bool
    ensures { result ≡ faults.is_passing kind }
{
    match kind {
        ErrorKind::WouldBlock => true,
        ErrorKind::Interrupted => true,
        _ => false,
    }
}
