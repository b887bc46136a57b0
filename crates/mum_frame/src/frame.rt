//! One frame on the wire.

ghost use Rattle.std.specs.Prelude.{◌≡◌, ◌≤◌, ◌↔◌, length, IfOk, IfSome, IsSome};
ghost use Rattle.mum_frame.specs.Frame.{spelling_of, IsOneFrame, kind_of, payload_of};
ghost use Rattle.mum_frame.specs.First.{viewed, IsFirst};

use byteorder::{BigEndian, ByteOrder};
use mum_base::{Octets, OutOfMemory};
use std::alloc::Global;

/// The bytes of a header: the type in two, the payload's length in four.
pub const HEADER_LENGTH: usize = 6;

/// The most bytes of a payload (8 MiB less one, as the Mumble protocol documentation gives it).
pub const PAYLOAD_LIMIT: usize = 0x7F_FFFF;

/// A message as it travels, after the packet structure of the Mumble protocol documentation. The
/// payload of type 1 (UDPTunnel) is a raw voice packet, that of each other type a protocol buffer.
#[derive(Debug, Drop)]
pub struct Frame {
    pub kind: u16,
    pub payload: Octets,
}

/// A frame inside the bytes that hold it.
#[derive(Clone, Copy, Debug, PartialEq, Eq)]
pub struct FrameView<'a> {
    pub kind: u16,
    pub payload: &'a [u8],
}

impl FrameView<'_> {
    /// A copy of the frame.
    pub fn to_frame(&self, alloc: Global) -> Result<Frame, OutOfMemory>
        ensures { IfOk result (λ frame. frame ≡ viewed self.now) }
    {
        Ok(Frame {
            kind: self.kind,
            payload: Octets::of(alloc, self.payload)?,
        })
    }
}

// How bytes begin: with a whole frame, with less than one, or with a header that names a payload
// above the limit.
#[derive(Clone, Copy, Debug)]
pub(crate) enum FirstFrame<'a> {
    Whole(FrameView<'a>),
    Partial,
    AboveLimit(u32),
}

// The frame that begins these bytes. It takes no memory and copies nothing.
pub(crate) fn first_frame(bytes: &[u8]) -> FirstFrame<'_>
    ensures { IsFirst bytes.now result }
{
    if bytes.len() < HEADER_LENGTH {
        return FirstFrame::Partial;
    }
    let kind = BigEndian::read_u16(bytes);
    let named = BigEndian::read_u32(&bytes[2..]);
    let length = named as usize;
    if length > PAYLOAD_LIMIT {
        return FirstFrame::AboveLimit(named);
    }
    let after_header = &bytes[HEADER_LENGTH..];
    if after_header.len() < length {
        return FirstFrame::Partial;
    }
    let payload = &after_header[..length];
    FirstFrame::Whole(FrameView { kind, payload })
}

/// The frame that these bytes are, neither more nor less. It takes no memory and copies nothing.
pub fn whole_frame(bytes: &[u8]) -> Option<FrameView<'_>>
    ensures one { IsSome result ↔ IsOneFrame bytes.now }
    ensures kind { IfSome result (λ view. view.kind ≡ kind_of bytes.now) }
    ensures payload { IfSome result (λ view. view.payload.now ≡ payload_of bytes.now) }
{
    match first_frame(bytes) {
        FirstFrame::Whole(view) if bytes.len() == HEADER_LENGTH + view.payload.len() => Some(view),
        _ => None,
    }
}

/// Writes a frame: a header and this payload.
pub fn put_frame(alloc: Global, kind: u16, payload: &[u8]) -> Result<Octets, OutOfMemory>
    requires { length payload.now ≤ PAYLOAD_LIMIT }
    ensures { IfOk result (λ wire. wire ≡ spelling_of kind payload.now) }
{
    let mut header = [0; HEADER_LENGTH];
    BigEndian::write_u16(&mut header, kind);
    BigEndian::write_u32(&mut header[2..], payload.len() as u32);
    let mut wire = Vec::with_capacity(alloc, HEADER_LENGTH + payload.len())?;
    wire.extend_from_slice(&header)?;
    wire.extend_from_slice(payload)?;
    Ok(Octets::from_vec(wire))
}
