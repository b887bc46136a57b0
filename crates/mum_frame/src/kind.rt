//! The types of messages that the server reads or writes, as the Mumble protocol documentation
//! numbers them.

pub const VERSION: u16 = 0;

/// Its payload is a raw voice packet.
pub const UDP_TUNNEL: u16 = 1;

pub const AUTHENTICATE: u16 = 2;

pub const PING: u16 = 3;

pub const REJECT: u16 = 4;

pub const SERVER_SYNC: u16 = 5;

pub const CHANNEL_REMOVE: u16 = 6;

pub const CHANNEL_STATE: u16 = 7;

pub const USER_REMOVE: u16 = 8;

pub const USER_STATE: u16 = 9;

pub const TEXT_MESSAGE: u16 = 11;

pub const PERMISSION_DENIED: u16 = 12;

pub const ACL: u16 = 13;

pub const VOICE_TARGET: u16 = 19;

pub const PERMISSION_QUERY: u16 = 20;

pub const CODEC_VERSION: u16 = 21;
