//! The numbers that the definitions of decisions cite by name.

ghost use Rattle.std.specs.Prelude.{◌≡◌};

use crate::reason::COMMAND_LIMIT;
use mum_frame::kind::{ACL, PERMISSION_DENIED, REJECT};

/// This does nothing: its contract is what the numbers are.
pub fn limits()
    ensures command { COMMAND_LIMIT ≡ 65000 }
    ensures reject { REJECT ≡ 4 }
    ensures permission_denied { PERMISSION_DENIED ≡ 12 }
    ensures acl { ACL ≡ 13 }
{}
