//! Laws of the wire form, for any bytes and any numbers. The functions do nothing.

ghost use Rattle.std.specs.Prelude.{◌≡◌, ◌↔◌, ◌<◌, ◌≤◌, ◌^◌, ℕ, List, Some, None, Err, length};
ghost use Rattle.std.specs.List.{AllByRecursion};
ghost use Rattle.mum_fields.specs.declared.fault.FaultKind.{FaultKind};
ghost use Rattle.mum_fields.specs.Varint.{IsVarint, AreOctets, varint, shortest};
ghost use Rattle.mum_fields.specs.Field.{Entry, Cursor};
ghost use Rattle.mum_fields.specs.Payload.{AreFields, fields};
ghost use Rattle.mum_fields.specs.NoField.{HasNoVarint, StopsAt};
ghost use Rattle.mum_fields.specs.declared.fault.FieldFault.{FieldFault};
ghost use Rattle.mum_fields.specs.Written.{Item, Fits, written, placed_from};

/// The fields that a reader gives up to the end are those that the bytes encode, and no others. The
/// fault that it stops at is the first, after the fields before it.
pub fn fields_are_the_grammar()
    ensures whole { (c : Cursor) (es : List Entry)
        → (fields c ≡ record { items = es; fault = None }) ↔ AreFields c es }
    ensures stopped { (c : Cursor) (es : List Entry) (found : FieldFault)
        → (fields c ≡ record { items = es; fault = Some found }) ↔ StopsAt c es found }
{}

/// What is written is read as what was put, field by field.
pub fn written_is_read()
    ensures { (items : List Item) (place : ℕ) → AllByRecursion Fits items
        → fields (record { place = place; rest = written items })
        ≡ record { items = placed_from place items; fault = None } }
{}

/// What is written for a number is a varint of it, and none has fewer bytes.
pub fn shortest_is_least()
    ensures varint { (n : ℕ) → n < 2 ^ 64 → IsVarint (shortest n) n }
    ensures least { (n : ℕ) (bytes : List ℕ) → AreOctets bytes → IsVarint bytes n
        → length (shortest n) ≤ length bytes }
{}

/// There is no varint at the front exactly where the bytes end inside it, before a tenth, or where
/// nine bytes say that another follows and the tenth is above 1.
pub fn varint_faults()
    ensures { (bytes : List ℕ) (kind : FaultKind) → (varint bytes ≡ Err kind) ↔ HasNoVarint bytes kind }
{}
