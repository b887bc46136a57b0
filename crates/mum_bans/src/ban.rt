//! One ban.

ghost use Rattle.std.specs.Prelude.{◌≡◌, length, take, bytes_eq};
ghost use Rattle.mum_bans.specs.Ban.{address_bits, covers, is_living, is_same};

use mum_base::Text;

/// A ban of the addresses that begin with the same bits (Mumble.proto, message BanList.BanEntry).
#[derive(Debug, Drop)]
pub struct Ban {
    /// An IPv6 address. One of IPv4 has ten bytes 0, two bytes 255 and its four bytes.
    pub address: [u8; 16],
    /// How many bits are compared, from the highest bit of the first byte on: at most 128.
    pub mask: u8,
    /// The name of who was banned, where it is known.
    pub name: Text,
    /// The hash of the certificate of who was banned, where it is known. Nothing is compared with it.
    pub hash: Text,
    /// Why.
    pub reason: Text,
    /// For how many seconds; 0 is without end.
    pub duration: u32,
    /// Since when, in seconds of the server's clock.
    pub start: u64,
}

impl Ban {
    /// Whether the address begins with the same bits. It takes no memory.
    pub fn covers(&self, address: &[u8; 16]) -> bool
        ensures { result ≡ covers self.now address.now }
    {
        begin_alike(self.mask, &self.address, address)
    }

    /// Whether the ban has begun no longer ago than it lasts, or lasts without end.
    pub fn is_living(&self, moment: u64) -> bool
        ensures { result ≡ is_living self.now moment }
    {
        self.duration == 0 || moment.saturating_sub(self.start) < u64::from(self.duration)
    }

    // Whether all but the start is equal.
    pub(crate) fn is_same(&self, other: &Ban) -> bool
        ensures { result ≡ is_same self.now other.now }
    {
        self.address == other.address
            && self.mask == other.mask
            && self.name.as_slice() == other.name.as_slice()
            && self.hash.as_slice() == other.hash.as_slice()
            && self.reason.as_slice() == other.reason.as_slice()
            && self.duration == other.duration
    }
}

// Whether n bits are equal, from the highest bit of the first byte on.
fn begin_alike(bits: u8, ours: &[u8], theirs: &[u8]) -> bool
    requires { length ours.now ≡ length theirs.now }
    ensures { result ≡ bytes_eq (take bits (address_bits ours.now)) (take bits (address_bits theirs.now)) }
{
    if bits == 0 {
        return true;
    }
    let Some((our, our_rest)) = ours.split_first() else {
        return true;
    };
    let Some((their, their_rest)) = theirs.split_first() else {
        return true;
    };
    if bits < 8 {
        return *our >> (8 - bits) == *their >> (8 - bits);
    }
    *our == *their && begin_alike(bits - 8, our_rest, their_rest)
}
