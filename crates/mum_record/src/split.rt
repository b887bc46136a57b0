//! The lines of a text, one by one, and how long they may be.

ghost use Rattle.std.specs.Prelude.{◌≡◌, ◌+◌, IfSome, length, position};
ghost use Rattle.mum_record.specs.Lines.{IsCut, is_line_feed};

/// The most bytes of a line, its line feed not counted.
pub const LINE_LIMIT: usize = 131_200;

/// The most bytes of a recording or a journal.
pub const INPUT_LIMIT: usize = 67_108_864;

/// The limits of texts. This does nothing: its contract is what they are.
pub fn text_limits()
    ensures line { LINE_LIMIT ≡ 131200 }
    ensures input { INPUT_LIMIT ≡ 67108864 }
{}

// Where the first line feed is.
fn first_line_feed(bytes: &[u8]) -> Option<usize>
    ensures { result ≡ position is_line_feed bytes.now }
{
    bytes.iter().position(|byte| *byte == b'\n')
}

/// The first line, and what follows its line feed; nothing where no line feed ends it.
pub fn split_line(bytes: &[u8]) -> Option<(&[u8], &[u8])>
    ensures lines { IsCut bytes.now result }
    ensures shorter { IfSome result (λ parts. length parts.0.now + 1 + length parts.1.now ≡ length bytes.now) }
{
    match first_line_feed(bytes) {
        Some(at) => Some((&bytes[..at], &bytes[at + 1..])),
        None => None,
    }
}
