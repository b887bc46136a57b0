//! The length of the payload of a message, added up field by field as `Writer` writes it. Nothing is
//! written, and no memory is taken.

ghost use Rattle.std.specs.Prelude.{◌≡◌, ℕ, ◌+◌, ◌≤◌, map};
ghost use Rattle.mum_fields.specs.Field.{last_number};
ghost use Rattle.mum_fields.specs.Survey.{cut, size};
ghost use Rattle.mum_fields.specs.Written.{number_items, block_items, each_number, each_block};
ghost use Rattle.mum_fields.specs.Table.{layout, parts, items, each_message};

use crate::message::Message;
use crate::number::VarintType;
use crate::size::{block_size, bytes_size, number_size};
use mum_base::{Items, Octets, Text};
use std::marker::Model;

/// How many bytes the fields so far have, or 2^64 - 1 where they are more. Its contracts see that
/// number.
#[derive(Drop)]
pub struct Length {
    total: u64,
}

impl Model for Length {
    ghost use Rattle.std.specs.Prelude.{ℕ, ◌-◌, ◌^◌, ◌≤◌};

    ghost Value = { ℕ };

    ghost view = { λ l. l.total };

    ghost invariant = { λ l. l.total ≤ 2 ^ 64 - 1 };
}

impl Length {
    /// No field yet.
    pub fn new() -> Length
        ensures { result ≡ 0 }
    {
        Length { total: 0 }
    }

    fn plus(self, size: u64) -> Length
        ensures { result ≡ cut (self + size) }
    {
        Length {
            total: self.total.saturating_add(size),
        }
    }

    /// A number that is set.
    pub fn number<N: VarintType + Copy>(self, number: u32, slot: &Option<N>) -> Length
        requires { number ≤ last_number }
        ensures { result ≡ cut (self + size (number_items N.number_of number slot.now)) }
    {
        match slot {
            Some(value) => self.plus(number_size(number, value.to_varint())),
            None => self,
        }
    }

    /// A text that is set.
    pub fn text(self, number: u32, slot: &Option<Text>) -> Length
        requires { number ≤ last_number }
        ensures { result ≡ cut (self + size (block_items number slot.now)) }
    {
        match slot {
            Some(text) => self.plus(bytes_size(number, text.as_str().as_bytes())),
            None => self,
        }
    }

    /// Bytes that are set.
    pub fn octets(self, number: u32, slot: &Option<Octets>) -> Length
        requires { number ≤ last_number }
        ensures { result ≡ cut (self + size (block_items number slot.now)) }
    {
        match slot {
            Some(octets) => self.plus(bytes_size(number, octets.as_slice())),
            None => self,
        }
    }

    /// Each number of a list, as a field of its own.
    pub fn each_number<N: VarintType + Copy>(self, number: u32, list: &Items<N>) -> Length
        requires { number ≤ last_number }
        ensures { result ≡ cut (self + size (each_number N.number_of number list.now)) }
    {
        let mut length = self;
        for value in list.as_slice() {
            length = length.plus(number_size(number, value.to_varint()));
        }
        length
    }

    /// Each text of a list, as a field of its own.
    pub fn each_text(self, number: u32, list: &Items<Text>) -> Length
        requires { number ≤ last_number }
        ensures { result ≡ cut (self + size (each_block number list.now)) }
    {
        let mut length = self;
        for text in list.as_slice() {
            length = length.plus(bytes_size(number, text.as_str().as_bytes()));
        }
        length
    }

    /// Each message of a list, in a block of its own.
    pub fn each_message<M: Message>(self, number: u32, list: &Items<M>) -> Length
        requires { number ≤ last_number }
        ensures { result ≡ cut (self + size (each_message (items (layout M.rows)) number
            (map (parts M.rows) list.now))) }
    {
        let mut length = self;
        for message in list.as_slice() {
            length = length.plus(block_size(number, message.length()));
        }
        length
    }

    /// The length of all fields.
    pub fn total(self) -> u64
        ensures { result ≡ self }
    {
        self.total
    }
}
