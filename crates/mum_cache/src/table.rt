//! A value for each number below a room, in memory that is reserved at once and written as it is used.

ghost use Rattle.std.specs.Prelude.{◌≡◌, ◌<◌, ◌≤◌, IfOk, length, replicate, set, slice_index_or, vec_capacity};
ghost use Rattle.mum_cache.specs.Table.{padded};

use mum_base::OutOfMemory;
use std::alloc::Global;
use std::marker::Model;

// A value for each number below a room, which begins as the same for all. The memory for all of them is reserved
// when the table is made. It is written, and so resident, up to the greatest number whose value was ever set.
#[derive(Drop)]
pub(crate) struct Table<T: Copy> {
    // The value of each number after those that are written.
    blank: T,
    written: Vec<T>,
}

impl<T: Copy> Model for Table<T> {
    ghost use Rattle.std.specs.Prelude.{List, vec_capacity};
    ghost use Rattle.mum_cache.specs.Table.{padded};

    ghost Value = { List T };

    ghost view = { λ t. padded (vec_capacity t.written) t.blank t.written.items };
}

// Writes this value after the others, until there is one for the number.
fn write_up_to<T: Copy>(written: &mut Vec<T>, blank: T, number: usize)
    requires { number < vec_capacity written.old }
    ensures same { padded (vec_capacity written.new) blank written.new.items
        ≡ padded (vec_capacity written.old) blank written.old.items }
    ensures reached { number < length written.new.items }
    ensures room { vec_capacity written.new ≡ vec_capacity written.old }
{
    'numbers: while written.len() <= number {
        written.push_reserved(blank);
    }
}

impl<T: Copy> Table<T> {
    // This value for each number below the room.
    pub(crate) fn new(alloc: Global, room: usize, blank: T) -> Result<Table<T>, OutOfMemory>
        ensures { IfOk result (λ table. table ≡ replicate room blank) }
    {
        Ok(Table {
            blank,
            written: Vec::with_capacity(alloc, room)?,
        })
    }

    // The value of a number.
    pub(crate) fn at(&self, number: usize) -> &T
        requires { number < length self.now }
        ensures { result.now ≡ slice_index_or self.now number result.now }
    {
        if number < self.written.len() {
            &self.written[number]
        } else {
            &self.blank
        }
    }

    // Sets the value of a number. It takes no memory.
    pub(crate) fn put(&mut self, number: usize, value: T)
        requires { number < length self.old }
        ensures { self.new ≡ set self.old number value }
    {
        write_up_to(&mut self.written, self.blank, number);
        self.written[number] = value;
    }
}
