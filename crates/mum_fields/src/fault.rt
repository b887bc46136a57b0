//! Why bytes are no payload.

ghost use Rattle.std.specs.Prelude.{◌≡◌};

use thiserror::Error;

/// What is wrong where a payload stops being one.
#[derive(Clone, Copy, Debug, PartialEq, Eq, Error)]
pub enum FaultKind {
    /// The payload ends inside a key, a varint or a fixed number.
    #[error("the payload ends inside a number")]
    Truncated,
    /// The wire type is 3, 4, 6 or 7, or the field's number is 0 or above 536,870,911.
    #[error("the key has no such wire type or number")]
    BadWireType,
    /// A varint has more than ten bytes, or a tenth above 1.
    #[error("the varint is above 64 bits")]
    BadVarint,
    /// A text is not UTF-8.
    #[error("the text is not UTF-8")]
    BadText,
    /// A block is longer than what is left of the payload.
    #[error("the block is longer than what is left")]
    BadLength,
}

impl FaultKind {
    ghost use Rattle.mum_fields.specs.Fault.{kind_code, fault};

    /// The number of the fault, 11 to 15.
    pub fn code(self) -> u8
        ensures { result ≡ kind_code self }
    {
        match self {
            FaultKind::Truncated => 11,
            FaultKind::BadWireType => 12,
            FaultKind::BadVarint => 13,
            FaultKind::BadText => 14,
            FaultKind::BadLength => 15,
        }
    }

    /// This fault, at this place.
    pub fn at(self, at: usize) -> FieldFault
        ensures { result ≡ fault self at }
    {
        FieldFault {
            code: self.code(),
            at,
        }
    }
}

/// The first fault of a payload.
#[derive(Clone, Copy, Debug, PartialEq, Eq, Error)]
#[error("fault {code} at byte {at}")]
pub struct FieldFault {
    /// The number of its kind, 11 to 15.
    pub code: u8,
    /// The place in the payload of the first byte of the key, number, length or block at fault.
    pub at: usize,
}
