//! An address of its own for each connection, so that a ban of one keeps no other out.

ghost use Rattle.std.specs.Prelude.{◌≡◌, ◌+◌, ◌⊎◌};
ghost use Rattle.std.specs.Net.Addr.{IsIpv6OfBits};

use std::net::Ipv6Addr;

// The first of the addresses that are made here, `fd6d:7572:6d75:7200::`: unique local ones (RFC 4193, section 3.1) with
// `murmur` in their prefix of 64 bits.
const FIRST: u128 = 0xfd6d_7572_6d75_7200_0000_0000_0000_0000;

/// The address of the connection of this number, whose peer is at this one: that of the peer, unless others may be there
/// too, and else one that is made for it.
pub fn own_address(peer: Ipv6Addr, number: u64) -> Ipv6Addr
    ensures { (result ≡ peer) ⊎ IsIpv6OfBits result (FIRST + number) }
{
    if is_shared(peer) {
        Ipv6Addr::from_bits(FIRST + u128::from(number))
    } else {
        peer
    }
}

/// Whether an address was made here.
pub fn is_made(address: Ipv6Addr) -> bool {
    address.to_bits() >> 64 == FIRST >> 64
}

// Peers in the machine have no address, and all that come over loopback have the same.
fn is_shared(address: Ipv6Addr) -> bool {
    let address = address.to_canonical();
    address.is_unspecified() || address.is_loopback()
}
