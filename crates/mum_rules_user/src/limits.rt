//! The numbers that the definitions of decisions cite by name.

ghost use Rattle.std.specs.Prelude.{◌≡◌};

use crate::reject::OLDEST_VERSION;
use mum_frame::kind::PERMISSION_QUERY;

/// This does nothing: its contract is what the numbers are.
pub fn limits()
    ensures version { OLDEST_VERSION ≡ 0x10200 }
    ensures permission_query { PERMISSION_QUERY ≡ 20 }
{}
