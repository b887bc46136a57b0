//! A client's stream, byte by byte, and a field of a payload.

use anyhow::{Context, Result};
use mum_fields::Reader;
use mum_frame::{Framer, ROOM_LIMIT};
use std::alloc::Global;

// What a client opens with: Version, Authenticate, Ping, and a UserState with a plugin's context.
const OPENING: &str = "000000000012088088041207312e342e3238371a03583131\
                       00020000001a0a03616e6e1a06736563726574208b808080f8ffffffff012801\
                       0003000000070805450000803f00090000000a5a02ffd8620267314800";

fn feed(told: &mut String, framer: &mut Framer, byte: u8) -> Result<()> {
    framer.feed(&[byte])?;
    if let Some(frame) = framer.next()? {
        let length = frame.payload.as_slice().len();
        writeln!(told, "a frame of type {} with {length} bytes", frame.kind)?;
    }
    Ok(())
}

fn feed_all(told: &mut String, framer: &mut Framer, bytes: &[u8]) -> Result<()> {
    for byte in bytes {
        feed(told, framer, *byte)?;
    }
    let has_little = framer.room() <= ROOM_LIMIT;
    writeln!(told, "little room is kept: {has_little}")?;
    Ok(())
}

pub fn call(alloc: Global, told: &mut String) -> Result<()> {
    let mut framer = Framer::new(alloc);
    feed_all(told, &mut framer, &hex::decode(alloc, OPENING)?)?;
    let field = Reader::new(b"\x0a\x01a").next_field()?.context("a field")?;
    writeln!(told, "a field of number {}", field.number)?;
    Ok(())
}
