//! How much of a packet its audio takes.

ghost use Rattle.std.specs.Prelude.{◌≡◌, ◌≤◌, length, IfSome};
ghost use Rattle.mum_voice.specs.Packet.{is_audio_kind, opus_len, segments_len, audio_len};

use crate::varint::read_varint;

/// CELT 0.7 audio, a list of segments. This and the next three are what the top three bits of a
/// packet's header may be.
pub const CELT_ALPHA: u8 = 0;

/// Speex audio, a list of segments.
pub const SPEEX: u8 = 2;

/// CELT 0.11 audio, a list of segments.
pub const CELT_BETA: u8 = 3;

/// Opus audio, after one number.
pub const OPUS: u8 = 4;

/// Whether there is such a kind of audio.
pub fn is_known(kind: u8) -> bool
    ensures { result ≡ is_audio_kind kind }
{
    matches!(kind, CELT_ALPHA | SPEEX | CELT_BETA | OPUS)
}

// How many bytes Opus audio takes. The low 13 bits of its number are the length, bit 13 ends a
// transmission.
#[tactic(auto, unfolding(crate::specs::Packet::opus_len))]
fn opus_length(bytes: &[u8]) -> Option<usize>
    ensures within { IfSome result (λ len. len ≤ length bytes.now) }
    ensures len { result ≡ opus_len bytes.now }
{
    let (number, header) = read_varint(bytes)?;
    if number > 0x3FFF {
        return None;
    }
    let len = header + (number & 0x1FFF) as usize;
    if len > bytes.len() { None } else { Some(len) }
}

// How many bytes the segments take, each a header and its sound.
#[tactic(auto, unfolding(crate::specs::Packet::segments_len))]
fn segments_length(bytes: &[u8]) -> Option<usize>
    ensures within { IfSome result (λ len. len ≤ length bytes.now) }
    ensures len { result ≡ segments_len bytes.now }
{
    let mut len = 0;
    'segments: while len < bytes.len() {
        let header = bytes[len];
        len += 1 + usize::from(header & 0x7F);
        if len > bytes.len() {
            return None;
        }
        if header < 0x80 {
            return Some(len);
        }
    }
    None
}

/// How many bytes the audio at the front takes, or `None` where no audio of this kind begins the bytes.
#[tactic(auto, unfolding(crate::specs::Packet::audio_len))]
pub fn audio_length(kind: u8, bytes: &[u8]) -> Option<usize>
    ensures within { IfSome result (λ len. len ≤ length bytes.now) }
    ensures len { result ≡ audio_len kind bytes.now }
{
    if kind == OPUS {
        opus_length(bytes)
    } else {
        segments_length(bytes)
    }
}
