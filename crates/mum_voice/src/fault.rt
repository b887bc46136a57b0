//! Why a voice packet is dropped.

use std::error::Error;
use std::fmt;

/// What is wrong with a packet, by its number: the first fault in the order below.
#[derive(Clone, Copy, Debug, PartialEq, Eq)]
pub struct BadVoice {
    pub code: u8,
}

impl BadVoice {
    /// It has no bytes, or more than 1,020.
    pub const LENGTH: BadVoice = BadVoice { code: 20 };

    /// Its kind is none of CELT Alpha, Speex, CELT Beta and Opus.
    pub const TYPE: BadVoice = BadVoice { code: 21 };

    /// No sequence number follows the header.
    pub const VARINT: BadVoice = BadVoice { code: 22 };

    /// Its audio runs past the end, or the length of Opus audio cannot be read or is above 0x3FFF.
    pub const AUDIO: BadVoice = BadVoice { code: 23 };
}

impl fmt::Display for BadVoice {
    fn fmt<W: fmt::Write>(&self, f: &mut fmt::Formatter<W>) -> fmt::Result {
        match self.code {
            20 => write!(f, "the packet is empty or too long"),
            21 => write!(f, "the kind of audio is not known"),
            22 => write!(f, "the sequence number cannot be read"),
            _ => write!(f, "the audio runs past the end of the packet"),
        }
    }
}

impl Error for BadVoice {}
