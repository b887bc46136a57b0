//! The frame that is being written.

ghost use Rattle.std.specs.Prelude.{◌≡◌, ◌+◌, ◌++◌, ◌≤◌, [], drop, length};
ghost use Rattle.arrayvec.specs.ArrayVec.{array_vec_len};
ghost use Rattle.mum_frame.specs.Frame.{spelling_of};
ghost use Rattle.mum_frame.specs.declared.kind.TheConstants.{UDP_TUNNEL};
ghost use Rattle.mum_port.specs.Outgoing.{frame_at_front};

use arrayvec::ArrayVec;
use byteorder::{BigEndian, ByteOrder};
use mum_base::Octets;
use mum_frame::HEADER_LENGTH;
use mum_frame::kind::UDP_TUNNEL;
use mum_voice::COPY_LIMIT;
use std::marker::Model;
use std::mem::replace;

/// The most bytes of a frame of a voice packet: the header, and the copy.
pub const VOICE_FRAME_LIMIT: usize = HEADER_LENGTH + COPY_LIMIT;

// Where the frame at the front lies.
#[derive(Drop)]
pub(crate) enum Held {
    Nothing,
    Wire(Octets),
    /// In the room for voice.
    Voice,
}

// What is left of the frame that is being written. A frame of a voice packet has room of its own here,
// so that it takes no memory.
#[derive(Drop)]
pub(crate) struct Front {
    held: Held,
    voice: ArrayVec<u8, VOICE_FRAME_LIMIT>,
    written: usize,
}

impl Model for Front {
    ghost use Rattle.std.specs.Prelude.{ℕ, ◌≤◌, List, drop, length};
    ghost use Rattle.mum_port.specs.Outgoing.{frame_at_front};

    ghost Value = { List ℕ };

    ghost view = { λ f. drop f.written (frame_at_front f.held f.voice.items) };

    ghost invariant = { λ f. f.written ≤ length (frame_at_front f.held f.voice.items) };
}

// The bytes of the frame at the front.
fn bytes_of<'a>(held: &'a Held, voice: &'a ArrayVec<u8, VOICE_FRAME_LIMIT>) -> &'a [u8]
    ensures { result.now ≡ frame_at_front held.now voice.now.items }
{
    match held {
        Held::Nothing => &[],
        Held::Wire(bytes) => bytes.as_slice(),
        Held::Voice => voice.as_slice(),
    }
}

// Appends a part of a frame, which has room for it.
fn append(frame: &mut ArrayVec<u8, VOICE_FRAME_LIMIT>, part: &[u8])
    requires { array_vec_len frame.old + length part.now ≤ VOICE_FRAME_LIMIT }
    ensures items { frame.new.items ≡ frame.old.items ++ part.now }
    ensures len { array_vec_len frame.new ≡ array_vec_len frame.old + length part.now }
{
    frame.try_extend_from_slice(part).unwrap();
}

// The frame of a voice packet.
fn voice_frame(packet: &[u8]) -> ArrayVec<u8, VOICE_FRAME_LIMIT>
    requires { length packet.now ≤ COPY_LIMIT }
    ensures { result.items ≡ spelling_of UDP_TUNNEL packet.now }
{
    let mut header = [0; HEADER_LENGTH];
    BigEndian::write_u16(&mut header, UDP_TUNNEL);
    BigEndian::write_u32(&mut header[2..], packet.len() as u32);
    let mut frame = ArrayVec::new();
    append(&mut frame, &header);
    append(&mut frame, packet);
    frame
}

impl Front {
    // Nothing is being written.
    pub(crate) fn new() -> Front
        ensures { result ≡ [] }
    {
        Front {
            held: Held::Nothing,
            voice: ArrayVec::new(),
            written: 0,
        }
    }

    // What is left of it.
    pub(crate) fn as_slice(&self) -> &[u8]
        ensures { result.now ≡ self.now }
    {
        &bytes_of(&self.held, &self.voice)[self.written..]
    }

    // This frame is written next.
    pub(crate) fn hold(&mut self, wire: Octets)
        ensures { self.new ≡ wire }
    {
        self.written = 0;
        drop(replace(&mut self.held, Held::Wire(wire)));
    }

    // The frame of a voice packet is written next.
    pub(crate) fn hold_voice(&mut self, packet: &[u8])
        requires { length packet.now ≤ COPY_LIMIT }
        ensures { self.new ≡ spelling_of UDP_TUNNEL packet.now }
    {
        self.written = 0;
        self.voice = voice_frame(packet);
        drop(replace(&mut self.held, Held::Voice));
    }

    // The first bytes were written. A frame of which none is left gives its memory back.
    pub(crate) fn pass(&mut self, count: usize)
        requires { count ≤ length self.old }
        ensures { self.new ≡ drop count self.old }
    {
        let rest = bytes_of(&self.held, &self.voice).len() - self.written;
        if count < rest {
            self.written += count;
        } else {
            self.written = 0;
            drop(replace(&mut self.held, Held::Nothing));
        }
    }
}
