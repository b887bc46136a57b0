//! The fields of a message as data: what its table says of each of them, for the pass over a payload.

/// A type whose values go as varints (Protocol Buffers, "Encoding", "More Integer Types").
#[derive(Clone, Copy)]
pub enum Scalar {
    /// `uint32`: the low 32 bits.
    Unsigned32,
    /// `uint64`.
    Unsigned64,
    /// `int32`: the low 32 bits as two's complement, written with 64 bits.
    Signed32,
    /// `bool`: true where the varint is not 0.
    Truth,
}

/// The type of a field.
#[derive(Clone, Copy)]
pub enum Kind {
    Number(Scalar),
    /// `string`: a block that has to be UTF-8.
    Utf8,
    /// `bytes`.
    Raw,
}

/// What a message may have of a field.
#[derive(Clone, Copy)]
pub enum Label {
    Optional,
    Required,
    /// Required where the later field of that number is not set.
    RequiredOr(u32),
    Repeated,
}

/// A field as Mumble.proto gives it. Its number is from 1 to 536,870,911.
#[derive(Clone, Copy)]
pub struct FieldShape {
    pub label: Label,
    pub kind: Kind,
    pub number: u32,
}

/// A repeated field of messages in blocks, and the fields of those.
#[derive(Clone, Copy)]
pub struct BlocksShape<'a> {
    pub number: u32,
    pub inside: &'a [FieldShape],
}

/// A field of a message that may have messages in blocks.
#[derive(Clone, Copy)]
pub enum Shape<'a> {
    Field(FieldShape),
    Blocks(BlocksShape<'a>),
}

/// A field in the words of Mumble.proto, as `field!(optional uint32 = 1)`; one that is required where
/// the field 5 is not set is `field!(required_or 5 uint32 = 4)`.
#[macro_export]
macro_rules! field {
    (required_or $other:literal $kind:ident = $number:literal) => {
        $crate::FieldShape {
            label: $crate::Label::RequiredOr($other),
            kind: $crate::kind_of!($kind),
            number: $number,
        }
    };
    ($label:ident $kind:ident = $number:literal) => {
        $crate::FieldShape {
            label: $crate::label_of!($label),
            kind: $crate::kind_of!($kind),
            number: $number,
        }
    };
}

#[macro_export]
macro_rules! label_of {
    (optional) => {
        $crate::Label::Optional
    };
    (required) => {
        $crate::Label::Required
    };
    (repeated) => {
        $crate::Label::Repeated
    };
}

#[macro_export]
macro_rules! kind_of {
    (uint32) => {
        $crate::Kind::Number($crate::Scalar::Unsigned32)
    };
    (uint64) => {
        $crate::Kind::Number($crate::Scalar::Unsigned64)
    };
    (int32) => {
        $crate::Kind::Number($crate::Scalar::Signed32)
    };
    (bool) => {
        $crate::Kind::Number($crate::Scalar::Truth)
    };
    (string) => {
        $crate::Kind::Utf8
    };
    (bytes) => {
        $crate::Kind::Raw
    };
}
