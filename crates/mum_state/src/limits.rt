//! The numbers that the definitions of states and edits cite by name.

ghost use Rattle.std.specs.Prelude.{◌≡◌, ◌^◌};

use crate::account::ACCOUNT_LIMIT;
use crate::count::EDIT_LIMIT;
use crate::server::DEFAULT_BANDWIDTH;

/// This does nothing: its contract is what the limits are, and the other numbers.
pub fn limits()
    ensures accounts { ACCOUNT_LIMIT ≡ 1024 }
    ensures edits { EDIT_LIMIT ≡ 2 ^ 62 }
    ensures bandwidth { DEFAULT_BANDWIDTH ≡ 72000 }
{}
