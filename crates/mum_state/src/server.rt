//! The settings of a server.

ghost use Rattle.std.specs.Prelude.{◌≡◌, IfOk};

use mum_base::{OutOfMemory, Text};
use std::alloc::Global;

/// The most bits a second that a client may send, where no configuration says otherwise.
pub const DEFAULT_BANDWIDTH: u32 = 72_000;

/// The settings of a server.
#[derive(Drop)]
pub struct Server {
    /// What a client is greeted with, at most 20,000 bytes.
    pub welcome: Text,
    /// The most bits a second that a client may send.
    pub bandwidth: u32,
    /// The SHA-256 of the password that those without an account give.
    pub password: Option<[u8; 32]>,
}

impl Server {
    /// Settings of their own that are equal.
    pub fn copy(&self, alloc: Global) -> Result<Server, OutOfMemory>
        ensures { IfOk result (λ copy. copy ≡ self.now) }
    {
        Ok(Server {
            welcome: self.welcome.share()?,
            bandwidth: self.bandwidth,
            password: self.password,
        })
    }
}
