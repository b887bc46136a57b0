//! A reader of a payload, field by field.

ghost use Rattle.std.specs.Prelude.{◌≡◌, ◌↔◌, ℕ, ◌+◌, ◌^◌, ◌<◌, [], length, IfOk, IfErr, IfSome, OnSome, OnErr, Ok, Err, Some, None};
ghost use Rattle.mum_fields.specs.Content.{content_of};
ghost use Rattle.mum_fields.specs.Field.{entry_of, field_at};
ghost use Rattle.mum_fields.specs.Payload.{at_start, fields, TakesFirst};
ghost use Rattle.mum_fields.specs.NoField.{HasFieldFault};
ghost use Rattle.mum_fields.specs.declared.fault.FieldFault.{FieldFault};

use crate::cursor::Cursor;
use crate::fault::FieldFault;
use crate::field::{Field, Placed};
use std::marker::Model;

/// A cursor over a payload. It borrows the payload, copies nothing and takes no memory.
#[derive(Drop)]
pub struct Reader<'a> {
    cursor: Cursor<'a>,
}

impl<'a> Model for Reader<'a> {
    ghost use Rattle.mum_fields.specs.Field.{Cursor};

    ghost Value = { Cursor };

    ghost use Rattle.mum_fields.specs.Cursor.{cursor_of};

    ghost view = { λ r. cursor_of r.cursor };
}

impl<'a> Reader<'a> {
    /// A reader of the whole payload.
    pub fn new(payload: &'a [u8]) -> Reader<'a>
        ensures { result ≡ at_start payload.now }
    {
        Reader {
            cursor: Cursor {
                place: 0,
                rest: payload,
            },
        }
    }

    /// A reader of a block that begins at this place of a payload. Its faults are reported by their
    /// place in that payload.
    pub fn within(block: &'a [u8], place: usize) -> Reader<'a>
        requires { place + length block.now < 2 ^ 64 }
        ensures { result ≡ record { place = place; rest = block.now } }
    {
        Reader {
            cursor: Cursor { place, rest: block },
        }
    }

    /// The next field, or None at the end. After a fault each later call answers it again.
    pub fn next_field(&mut self) -> Result<Option<Field<'a>>, FieldFault>
        ensures end { (result ≡ Ok None) ↔ (self.old.rest ≡ []) }
        ensures field { IfOk result (λ found. IfSome found (λ field. (place : ℕ)
            × (field_at self.old ≡ Ok (
              record {
                number = field.number;
                content = content_of field.value;
                place = place;
              },
              self.new,
            )))) }
        ensures faults { (fault : FieldFault) → (result ≡ Err fault) ↔ HasFieldFault self.old fault }
        ensures kept { (result ≡ Ok None) → self.new ≡ self.old }
        ensures err { OnErr result (self.new ≡ self.old) }
    {
        match self.next_placed()? {
            Some(placed) => Ok(Some(placed.field)),
            None => Ok(None),
        }
    }

    /// The next field with the place of its value, or None at the end. After a fault each later
    /// call answers it again.
    #[inline(always)]
    pub fn next_placed(&mut self) -> Result<Option<Placed<'a>>, FieldFault>
        ensures end { (result ≡ Ok None) ↔ (self.old.rest ≡ []) }
        ensures field { IfOk result (λ found. IfSome found (λ placed.
            field_at self.old ≡ Ok (entry_of placed, self.new))) }
        ensures faults { (fault : FieldFault) → (result ≡ Err fault) ↔ HasFieldFault self.old fault }
        ensures takes { TakesFirst entry_of (fields self.old) result (fields self.new) }
        ensures shorter { IfOk result (λ found. OnSome found (length self.new.rest < length self.old.rest)) }
        ensures kept { (result ≡ Ok None) → self.new ≡ self.old }
        ensures err { OnErr result (self.new ≡ self.old) }
    {
        if self.cursor.rest.is_empty() {
            return Ok(None);
        }
        if let Some((placed, after)) = self.cursor.short_field() {
            self.cursor = after;
            return Ok(Some(placed));
        }
        let (placed, after) = self.cursor.field()?;
        self.cursor = after;
        Ok(Some(placed))
    }
}
