//! What a long message counts for: the pieces of it that have begun.

ghost use Rattle.std.specs.Prelude.{◌≡◌, ◌<◌, ◌^◌};
ghost use Rattle.mum_pace.specs.Pieces as spec;

use crate::long::SHORT_LIMIT;

// This many bytes at the front of a message count as one frame.
pub(crate) const PIECE: u64 = 1000;

// This many bytes after the length of a short frame do, as far as a long message costs less a byte to its handler.
pub(crate) const LONG_PIECE: u64 = 0x2000;

// How many pieces begin in n bytes at the front of a message.
#[tactic(auto, unfolding(crate::specs::Pieces::pieces_in))]
pub(crate) fn pieces_in(bytes: u64) -> u64
    ensures { result ≡ spec.pieces_in bytes }
{
    let short = bytes.min(SHORT_LIMIT).div_ceil(PIECE);
    let long = bytes.saturating_sub(SHORT_LIMIT).div_ceil(LONG_PIECE);
    short + long
}

// The most bytes at the front of a message in which no more pieces begin than these.
#[tactic(auto, unfolding(crate::specs::Pieces::bytes_within))]
pub(crate) fn bytes_within(pieces: u64) -> u64
    requires { pieces < 2 ^ 40 }
    ensures { result ≡ spec.bytes_within pieces }
{
    let behind = pieces.saturating_sub(SHORT_LIMIT.div_ceil(PIECE));
    (pieces * PIECE).min(SHORT_LIMIT) + behind * LONG_PIECE
}
