//! As much of a reason as a ban may have.

ghost use Rattle.std.specs.Prelude.{◌≡◌, ◌≤◌, length};
ghost use Rattle.mum_bans.specs.Cut.{IsCut};

use crate::limits::BAN_TEXT_LIMIT;

// The longest front of whole characters that has at most 1,024 bytes. It takes no memory.
pub(crate) fn cut(text: &str) -> &str
    ensures { IsCut text.now result.now }
{
    let (front, _) = text.split_at(text.floor_char_boundary(BAN_TEXT_LIMIT));
    front
}
