//! Why a call on a roster is refused.

ghost use Rattle.std.specs.Prelude.{◌≡◌};

use std::alloc::{AllocError, AllocFailed};
use thiserror::Error;

/// Why a call on a roster is refused. A refusal changes nothing.
#[derive(Clone, Copy, Debug, PartialEq, Eq, Error)]
pub enum UserFault {
    #[error("a session has this name")]
    NameInUse,
    #[error("as many sessions are here as the limit says")]
    Full,
    #[error("no such session is here")]
    NoSession,
    #[error("64 sessions listen to the channel")]
    ListenerLimit,
    #[error("the session listens to 32 channels")]
    UserListenerLimit,
    #[error("the number of a voice target is not 1 to 30")]
    TargetId,
    #[error("a voice target is too large")]
    TargetSize,
    #[error("the last session number was given")]
    SessionsUsedUp,
    #[error("out of memory")]
    OutOfMemory,
}

impl From<AllocError> for UserFault {
    ghost use Rattle.std.specs.Prelude.{◌≡◌};
    ghost use Rattle.mum_users.specs.declared.fault.UserFault.TheVariants.{OutOfMemory};

    ghost from_gives = { λ _ fault. fault ≡ OutOfMemory };

    fn from(_: AllocError) -> UserFault {
        UserFault::OutOfMemory
    }
}

impl<T: Drop> From<AllocFailed<T>> for UserFault {
    ghost use Rattle.std.specs.Prelude.{◌≡◌};
    ghost use Rattle.mum_users.specs.declared.fault.UserFault.TheVariants.{OutOfMemory};

    ghost from_gives = { λ _ fault. fault ≡ OutOfMemory };

    fn from(_failed: AllocFailed<T>) -> UserFault {
        UserFault::OutOfMemory
    }
}

impl UserFault {
    ghost use Rattle.mum_users.specs.Fault.{fault_code};

    /// The number of the fault, 40 to 47; none for out of memory.
    pub fn code(self) -> Option<u8>
        ensures { result ≡ fault_code self }
    {
        match self {
            UserFault::NameInUse => Some(40),
            UserFault::Full => Some(41),
            UserFault::NoSession => Some(42),
            UserFault::ListenerLimit => Some(43),
            UserFault::UserListenerLimit => Some(44),
            UserFault::TargetId => Some(45),
            UserFault::TargetSize => Some(46),
            UserFault::SessionsUsedUp => Some(47),
            UserFault::OutOfMemory => None,
        }
    }
}
