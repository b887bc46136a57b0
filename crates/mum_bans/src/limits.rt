//! How much a book of bans holds.

ghost use Rattle.std.specs.Prelude.{◌≡◌};

/// The bytes of an address. One of IPv4 has ten bytes 0, two bytes 255 and its four bytes.
pub const ADDRESS_LENGTH: usize = 16;

/// The most bans of a book.
pub const BAN_LIMIT: usize = 1024;

/// The most bytes of a name, a hash or a reason.
pub const BAN_TEXT_LIMIT: usize = 1024;

/// The most bits of an address that a ban compares: all of them.
pub const MASK_LIMIT: u8 = 128;

/// The numbers that definitions name. This does nothing: its contract is what they are.
pub fn ban_limits()
    ensures address { ADDRESS_LENGTH ≡ 16 }
    ensures bans { BAN_LIMIT ≡ 1024 }
    ensures text { BAN_TEXT_LIMIT ≡ 1024 }
    ensures mask { MASK_LIMIT ≡ 128 }
{}
