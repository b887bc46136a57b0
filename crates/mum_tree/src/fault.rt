//! Why a change of the tree is refused.

ghost use Rattle.std.specs.Prelude.{◌≡◌};
ghost use Rattle.mum_tree.specs.Fault.{fault_code};

use mum_base::OutOfMemory;
use std::alloc::AllocFailed;
use thiserror::Error;

/// Why a change of the tree is refused. A refused change changes nothing.
#[derive(Clone, Copy, Debug, PartialEq, Eq, Error)]
pub enum TreeFault {
    #[error("there is no such channel")]
    NoChannel,
    #[error("another channel there has this name")]
    SameName,
    #[error("a channel cannot be under itself")]
    UnderItself,
    #[error("the channels would be nested too deep")]
    Nesting,
    #[error("there are too many channels")]
    Count,
    #[error("the root stays as it is")]
    RootFixed,
    #[error("a temporary channel has no channels under it")]
    TemporaryParent,
    #[error("a channel has too many links")]
    LinkCount,
    #[error("memory ran out")]
    OutOfMemory,
}

impl TreeFault {
    /// The number of the fault, 30 to 37; none for out of memory.
    pub fn code(self) -> Option<u8>
        ensures { result ≡ fault_code self }
    {
        match self {
            TreeFault::NoChannel => Some(30),
            TreeFault::SameName => Some(31),
            TreeFault::UnderItself => Some(32),
            TreeFault::Nesting => Some(33),
            TreeFault::Count => Some(34),
            TreeFault::RootFixed => Some(35),
            TreeFault::TemporaryParent => Some(36),
            TreeFault::LinkCount => Some(37),
            TreeFault::OutOfMemory => None,
        }
    }
}

impl From<OutOfMemory> for TreeFault {
    ghost use Rattle.std.specs.Prelude.{◌≡◌};
    ghost use Rattle.mum_tree.specs.declared.fault.TreeFault.TheVariants.{OutOfMemory};

    ghost from_gives = { λ _ fault. fault ≡ OutOfMemory };

    fn from(_error: OutOfMemory) -> TreeFault {
        TreeFault::OutOfMemory
    }
}

impl<T: Drop> From<AllocFailed<T>> for TreeFault {
    ghost use Rattle.std.specs.Prelude.{◌≡◌};
    ghost use Rattle.mum_tree.specs.declared.fault.TreeFault.TheVariants.{OutOfMemory};

    ghost from_gives = { λ _ fault. fault ≡ OutOfMemory };

    fn from(_error: AllocFailed<T>) -> TreeFault {
        TreeFault::OutOfMemory
    }
}
