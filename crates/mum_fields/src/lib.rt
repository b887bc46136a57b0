//! Fields of a Protocol Buffers payload, read and written: the one place where the bytes of a
//! message are taken apart. A `Message` lists its fields in a table, and gathers itself from the fields
//! that `Reader` gives; `Writer` puts a payload together, and `Length` reports how long it would be.
#![tactic(auto)]

mod cursor;
mod fault;
mod field;
mod laws;
mod length;
mod message;
mod number;
mod packed;
mod pass;
mod put;
mod reader;
mod shape;
mod size;
mod slot;
mod text;
mod varint;
mod writer;

pub use fault::{FaultKind, FieldFault};
pub use field::{Field, Placed, Value};
pub use laws::{fields_are_the_grammar, shortest_is_least, varint_faults, written_is_read};
pub use length::Length;
pub use message::{Message, MessageFault, add_message};
pub use number::VarintType;
pub use packed::Packed;
pub use pass::{Part, Row, survey};
pub use reader::Reader;
pub use shape::{BlocksShape, FieldShape, Kind, Label, Scalar, Shape};
pub use slot::{add_numbers, add_text, set_block, set_text, set_varint};
pub use text::read_text;
pub use writer::Writer;
