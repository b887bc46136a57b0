//! The oldest version of the protocol that may log in.

/// The oldest version of the protocol that this server speaks, 1.2.0 as Mumble numbers versions.
pub const OLDEST_VERSION: u32 = 0x0001_0200;
