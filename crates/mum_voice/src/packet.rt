//! A client's voice packet and the server's copy of it, as the section "Voice data" of the Mumble
//! protocol documentation has them.

ghost use Rattle.std.specs.Prelude.{◌≡◌, ◌+◌, ◌<◌, ◌≤◌, ◌↔◌, ◌++◌, [], length, IfOk, Ok, Err};
ghost use Rattle.mum_voice.specs.declared.fault.BadVoice.{BadVoice};
ghost use Rattle.arrayvec.specs.ArrayVec.{array_vec_len};
ghost use Rattle.mum_voice.specs.Packet.{Parts, plain_parts, parsed, IsPacket, HasVoiceFault, client_bytes, packet, copy};

use crate::audio::{CELT_ALPHA, CELT_BETA, OPUS, SPEEX, audio_length, is_known};
use crate::fault::BadVoice;
use crate::varint::{VARINT_LIMIT, read_varint, write_varint};
use arrayvec::ArrayVec;
use mum_base::SessionId;

/// The most bytes of a client's packet.
pub const PACKET_LIMIT: usize = 1020;

/// The most bytes of a copy, which has a session of up to five bytes more.
pub const COPY_LIMIT: usize = 1025;

/// The numbers that the names of limits and kinds stand for. The limits are the server's, the kinds
/// the documentation's.
pub fn limits()
    ensures packet { PACKET_LIMIT ≡ 1020 }
    ensures copy { COPY_LIMIT ≡ 1025 }
    ensures varint { VARINT_LIMIT ≡ 9 }
    ensures celt_alpha { CELT_ALPHA ≡ 0 }
    ensures speex { SPEEX ≡ 2 }
    ensures celt_beta { CELT_BETA ≡ 3 }
    ensures opus { OPUS ≡ 4 }
{}

/// The parts of a voice packet, as views of its bytes.
#[derive(Clone, Copy, Debug, PartialEq, Eq)]
pub struct Packet<'a> {
    /// The kind of audio: 0 CELT Alpha, 2 Speex, 3 CELT Beta, 4 Opus.
    pub kind: u8,
    /// Whom it is for, 0 to 31: 0 is talk, 1 to 30 a voice target, 31 loopback.
    pub target: u8,
    /// The sequence number, as it came.
    pub sequence: &'a [u8],
    /// The audio, with the number that begins Opus audio or the headers of its segments.
    pub audio: &'a [u8],
    /// All that follows the audio.
    pub position: &'a [u8],
}

// The parts of a packet, or the first fault.
#[tactic(auto, unfolding(crate::specs::Packet::packet))]
fn parts_of(bytes: &[u8]) -> Result<Packet<'_>, BadVoice>
    ensures { parsed result ≡ packet bytes.now }
{
    if bytes.is_empty() || bytes.len() > PACKET_LIMIT {
        return Err(BadVoice::LENGTH);
    }
    let kind = bytes[0] >> 5;
    let target = bytes[0] & 0x1F;
    if !is_known(kind) {
        return Err(BadVoice::TYPE);
    }
    let rest = &bytes[1..];
    let Some((_, len)) = read_varint(rest) else {
        return Err(BadVoice::VARINT);
    };
    let (sequence, rest) = rest.split_at(len);
    let Some(len) = audio_length(kind, rest) else {
        return Err(BadVoice::AUDIO);
    };
    let (audio, position) = rest.split_at(len);
    Ok(Packet {
        kind,
        target,
        sequence,
        audio,
        position,
    })
}

// Appends a part of a copy, which has room for it.
fn append(copy: &mut ArrayVec<u8, COPY_LIMIT>, part: &[u8])
    requires { array_vec_len copy.old + length part.now ≤ COPY_LIMIT }
    ensures items { copy.new.items ≡ copy.old.items ++ part.now }
    ensures len { array_vec_len copy.new ≡ array_vec_len copy.old + length part.now }
{
    copy.try_extend_from_slice(part).unwrap();
}

impl<'a> Packet<'a> {
    /// The parts of a client's packet, or the first fault: its length, its kind, its sequence, its audio.
    pub fn parse(bytes: &'a [u8]) -> Result<Packet<'a>, BadVoice>
        // Which bytes are a packet, and of which parts.
        ensures grammar { (p : Parts) →
            (parsed result ≡ Ok p) ↔ (IsPacket p × (bytes.now ≡ client_bytes p)) }
        // Which fault comes first in bytes that are none.
        ensures faults { (fault : BadVoice) →
            (parsed result ≡ Err fault) ↔ HasVoiceFault bytes.now fault }
        ensures proper { IfOk result (λ p. IsPacket (plain_parts p)) }
        // The same as a function.
        ensures exact { parsed result ≡ packet bytes.now }
    {
        parts_of(bytes)
    }

    /// The server's copy for a recipient: the kind and the context, the sender's session, and the
    /// sequence, the audio and, where it is asked for, the position as they came. The context is 0
    /// talk, 1 a whisper to a channel, 2 a direct whisper, 3 what only a listener hears.
    pub fn copy_for(
        &self,
        session: SessionId,
        context: u8,
        with_position: bool,
    ) -> ArrayVec<u8, COPY_LIMIT>
        requires context { context < 4 }
        requires packet { IsPacket (plain_parts self.now) }
        ensures { result.items ≡ copy (plain_parts self.now) session.0 context with_position }
    {
        let mut bytes = ArrayVec::new();
        self.copy_into(session, context, with_position, &mut bytes);
        bytes
    }

    /// The same where there is room for it and nothing else, so that a large copy is not moved.
    pub fn copy_into(
        &self,
        session: SessionId,
        context: u8,
        with_position: bool,
        bytes: &mut ArrayVec<u8, COPY_LIMIT>,
    )
        requires context { context < 4 }
        requires packet { IsPacket (plain_parts self.now) }
        requires empty { bytes.old.items ≡ [] }
        ensures { bytes.new.items ≡ copy (plain_parts self.now) session.0 context with_position }
    {
        bytes.push((self.kind << 5) + context);
        append(bytes, &write_varint(u64::from(session.0)));
        append(bytes, self.sequence);
        append(bytes, self.audio);
        if with_position {
            append(bytes, self.position);
        }
    }
}
