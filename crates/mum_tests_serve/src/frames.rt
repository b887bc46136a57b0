//! What clients send.

/// The logins of ann and of bob.
pub const ANN: &[u8] = b"\x00\x02\x00\x00\x00\x05\x0a\x03ann";

pub const BOB: &[u8] = b"\x00\x02\x00\x00\x00\x05\x0a\x03bob";

/// A packet that its speaker hears, and one that the others of the channel hear.
pub const LOOPBACK: &[u8] = b"\x00\x01\x00\x00\x00\x06\x9f\x01\x03\xaa\xbb\xcc";

pub const TALK: &[u8] = b"\x00\x01\x00\x00\x00\x06\x80\x01\x03\xaa\xbb\xcc";

/// A user mutes itself, and no longer.
pub const MUTE: &[u8] = b"\x00\x09\x00\x00\x00\x02\x48\x01";

pub const UNMUTE: &[u8] = b"\x00\x09\x00\x00\x00\x02\x48\x00";

/// A Ping, which is answered.
pub const ASK: &[u8] = b"\x00\x03\x00\x00\x00\x00";
