//! What a varint stands for in a field of a smaller type.

ghost use Rattle.std.specs.Prelude.{◌≡◌, ℕ, ◌<◌, ◌^◌};
ghost use Rattle.mum_fields.specs.Number.{low_32, signed_32, truth, extended, truth_number};

/// A type of a field that goes as a varint (Protocol Buffers, "Encoding", "Base 128 Varints" and
/// "More Integer Types").
pub trait VarintType: Drop {
    ghost value_of: { ℕ → Self };

    ghost number_of: { Self → ℕ };

    /// The value that the varint stands for. Each varint has one, as in every Protocol Buffers
    /// reader: what does not fit is cut off.
    fn from_varint(number: u64) -> Self
        ensures { result ≡ value_of number };

    /// The varint that this value is written as.
    fn to_varint(self) -> u64
        ensures number { result ≡ number_of self }
        ensures back { value_of result ≡ self };
}

/// The low 32 bits.
impl VarintType for u32 {
    ghost value_of = { low_32 };

    ghost number_of = { λ n. n };

    fn from_varint(number: u64) -> u32 {
        (number % 0x1_0000_0000) as u32
    }

    fn to_varint(self) -> u64 {
        u64::from(self)
    }
}

/// All 64 bits.
impl VarintType for u64 {
    ghost value_of = { λ n. n };

    ghost number_of = { λ n. n };

    fn from_varint(number: u64) -> u64 {
        number
    }

    fn to_varint(self) -> u64 {
        self
    }
}

/// The low 32 bits as two's complement. A negative number is written with 64 bits, in ten bytes.
impl VarintType for i32 {
    ghost value_of = { signed_32 };

    ghost number_of = { extended };

    fn from_varint(number: u64) -> i32 {
        u32::from_varint(number).cast_signed()
    }

    fn to_varint(self) -> u64 {
        i64::from(self).cast_unsigned()
    }
}

/// True where the varint is not 0.
impl VarintType for bool {
    ghost value_of = { truth };

    ghost number_of = { truth_number };

    fn from_varint(number: u64) -> bool {
        number != 0
    }

    fn to_varint(self) -> u64 {
        u64::from(self)
    }
}
