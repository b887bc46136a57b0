//! Fields, and the values that they carry.

ghost use Rattle.std.specs.Prelude.{◌+◌, ◌^◌, ◌<◌};
ghost use Rattle.mum_fields.specs.Content.{content_of, block_size};

/// What a field carries: the wire types 0, 1, 2 and 5 in that order.
#[derive(Clone, Copy)]
pub enum Value<'a> {
    Varint(u64),
    Fixed8(u64),
    Block(&'a [u8]),
    Fixed4(u32),
}

/// A field of a payload. Its number is from 1 to 536,870,911.
#[derive(Clone, Copy)]
pub struct Field<'a> {
    pub number: u32,
    pub value: Value<'a>,
}

/// A field, and the place in the payload where its value begins: the first byte of its number, or
/// the first byte of its block (after the block's length).
#[derive(Clone, Copy)]
pub struct Placed<'a> {
    pub at: usize,
    pub field: Field<'a>,
    ghost fits: { at + block_size (content_of field.value) < 2 ^ 64 },
}

impl<'a> Placed<'a> {
    ghost use Rattle.std.specs.Prelude.{◌≡◌};
    ghost use Rattle.mum_fields.specs.Field.{entry_of};

    pub fn new(number: u32, at: usize, value: Value<'a>) -> Placed<'a>
        requires { at + block_size (content_of value) < 2 ^ 64 }
        ensures { entry_of result ≡ record { number = number; content = content_of value.entry; place = at } }
    {
        Placed {
            at,
            field: Field { number, value },
        }
    }
}
