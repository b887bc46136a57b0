//! When a command is too long, and when sessions make no more edits.

ghost use Rattle.std.specs.Prelude.{◌≡◌};
ghost use Rattle.mum_rules_tree.specs.Reasons.{takes_no_edits};

use mum_state::{EDIT_LIMIT, State};

/// The most bytes of a command's payload as this server encodes it, so that it fits one line of a
/// recording.
pub const COMMAND_LIMIT: usize = 65_000;

/// Whether sessions made as many edits as they can.
pub fn takes_no_edits(state: &State) -> bool
    ensures { result ≡ takes_no_edits state.now }
{
    state.revision() >= EDIT_LIMIT
}
