//! The header of the PROXY protocol, version 2, by which a relay gives the address of its client
//! (https://www.haproxy.org/download/2.6/doc/proxy-protocol.txt, section 2.2).

ghost use Rattle.std.specs.Prelude.{◌≡◌, ℕ, ◌≤◌, ◌↔◌, ◌++◌, List, [], length, take, Option, Some};
ghost use Rattle.std.specs.Option.{option_map};
ghost use Rattle.std.specs.Net.Addr.{ipv6_octets};
ghost use Rattle.mum_address.specs.Header.{signature, mapped_octets, IsHeader, BeginsNone, LacksBytes, reading, reading_command, reading_family, reading_length, reading_high, reading_rest, is_family, least_rest, told_by, plain};
ghost use Rattle.mum_address.specs.Header.Reading.{needs, whole, refused};

use std::net::{Ipv4Addr, Ipv6Addr};

/// The longest header that is taken.
pub const HEADER_LIMIT: usize = 536;

// The bytes up to the length, with it.
const FRONT_LENGTH: usize = 16;

// The greatest length of the rest.
const REST_LIMIT: usize = HEADER_LIMIT - FRONT_LENGTH;

const SIGNATURE: [u8; 12] = *b"\r\n\r\n\0\r\nQUIT\n";

// Version 2, and whether the connection is for a client or the relay's own.
const FOR_A_CLIENT: u8 = 0x21;

const FOR_THE_RELAY: u8 = 0x20;

// Families of addresses with their protocol. An address is taken from these two.
const TCP_OVER_IPV4: u8 = 0x11;

const TCP_OVER_IPV6: u8 = 0x21;

// From these none is taken.
const UNSPECIFIED: u8 = 0x00;

const UDP_OVER_IPV4: u8 = 0x12;

const UDP_OVER_IPV6: u8 = 0x22;

const UNIX_STREAM: u8 = 0x31;

const UNIX_DATAGRAM: u8 = 0x32;

/// The numbers that the names of limits, commands and families stand for.
pub fn limits()
    ensures header { HEADER_LIMIT ≡ 536 }
    ensures front { FRONT_LENGTH ≡ 16 }
    ensures rest { REST_LIMIT ≡ 520 }
    ensures signature { SIGNATURE ≡ signature }
    ensures for_a_client { FOR_A_CLIENT ≡ 0x21 }
    ensures for_the_relay { FOR_THE_RELAY ≡ 0x20 }
    ensures tcp_over_ipv4 { TCP_OVER_IPV4 ≡ 0x11 }
    ensures tcp_over_ipv6 { TCP_OVER_IPV6 ≡ 0x21 }
    ensures unspecified { UNSPECIFIED ≡ 0x00 }
    ensures udp_over_ipv4 { UDP_OVER_IPV4 ≡ 0x12 }
    ensures udp_over_ipv6 { UDP_OVER_IPV6 ≡ 0x22 }
    ensures unix_stream { UNIX_STREAM ≡ 0x31 }
    ensures unix_datagram { UNIX_DATAGRAM ≡ 0x32 }
{}

/// What the bytes that a connection begins with are.
#[derive(Clone, Copy)]
pub enum Header {
    /// The front of a header. At least this many bytes more belong to it.
    Needs(usize),
    /// A whole header, with the address of the client where it has one.
    Whole(Option<Ipv6Addr>),
    /// No header begins with them.
    Refused,
}

/// What these bytes are. The header of a client's connection is taken only with a family that the protocol names, that of
/// the relay's own with any.
pub fn header_of(bytes: &[u8]) -> Header
    // All of them are a header, which gives this address or none.
    ensures whole { (told : Option (List ℕ)) → (plain result ≡ whole told) ↔ IsHeader bytes.now told }
    // No bytes after them make them one.
    ensures refused { (plain result ≡ refused) ↔ BeginsNone bytes.now }
    // A header begins with them, and each that does has at least n bytes more.
    ensures needs { (count : ℕ) → plain result ≡ needs count → LacksBytes bytes.now count }
    // The same as a function.
    ensures exact { plain result ≡ reading bytes.now }
{
    read(bytes)
}

/// A header says one thing, and begins no other header. It is no longer than the limit, and an address is sixteen octets.
pub fn headers_are_told_apart()
    ensures one { (bytes : List ℕ) (told other : Option (List ℕ)) → IsHeader bytes told →
        IsHeader bytes other → told ≡ other }
    ensures begins_no_other { (bytes more : List ℕ) (told other : Option (List ℕ)) →
        IsHeader bytes told → IsHeader (bytes ++ more) other → more ≡ [] }
    ensures limit { (bytes : List ℕ) (told : Option (List ℕ)) → IsHeader bytes told →
        length bytes ≤ HEADER_LIMIT }
    ensures octets { (bytes octets : List ℕ) → IsHeader bytes (Some octets) → length octets ≡ 16 }
{}

// What these bytes are.
fn read(bytes: &[u8]) -> Header
    ensures { plain result ≡ reading bytes.now }
{
    match bytes.strip_prefix(&SIGNATURE) {
        Some(rest) => read_command(rest),
        None => read_signature(bytes),
    }
}

// The same for bytes that do not begin with the whole signature.
fn read_signature(bytes: &[u8]) -> Header
    requires { (rest : List ℕ) → bytes.now ≡ signature ++ rest → ⊥ }
    ensures { plain result ≡ reading bytes.now }
{
    if SIGNATURE.starts_with(bytes) {
        Header::Needs(FRONT_LENGTH - bytes.len())
    } else {
        Header::Refused
    }
}

// The same for bytes after the signature.
#[tactic(auto, unfolding(crate::specs::Header::reading_command))]
fn read_command(bytes: &[u8]) -> Header
    ensures { plain result ≡ reading_command bytes.now }
{
    let [command, rest @ ..] = bytes else {
        return Header::Needs(4);
    };
    match *command {
        FOR_A_CLIENT | FOR_THE_RELAY => read_family(*command, rest),
        _ => Header::Refused,
    }
}

// The same for bytes after the command.
#[tactic(auto, unfolding(crate::specs::Header::reading_family))]
fn read_family(command: u8, bytes: &[u8]) -> Header
    ensures { plain result ≡ reading_family command bytes.now }
{
    let [family, rest @ ..] = bytes else {
        return Header::Needs(3);
    };
    if is_known_family(command, *family) {
        read_length(command, *family, rest)
    } else {
        Header::Refused
    }
}

// Whether the command may have the family: for a client one that the protocol names, for the relay's own connection any.
fn is_known_family(command: u8, family: u8) -> bool
    ensures { result ≡ is_family command family }
{
    match family {
        UNSPECIFIED
        | TCP_OVER_IPV4
        | UDP_OVER_IPV4
        | TCP_OVER_IPV6
        | UDP_OVER_IPV6
        | UNIX_STREAM
        | UNIX_DATAGRAM => true,
        _ => command != FOR_A_CLIENT,
    }
}

// The same for bytes after the family.
#[tactic(auto, unfolding(crate::specs::Header::reading_length))]
fn read_length(command: u8, family: u8, bytes: &[u8]) -> Header
    ensures { plain result ≡ reading_length command family bytes.now }
{
    let [high, rest @ ..] = bytes else {
        return Header::Needs(2);
    };
    let [low, rest @ ..] = rest else {
        return read_high(*high);
    };
    let length = u16::from_be_bytes([*high, *low]);
    read_rest(command, family, usize::from(length), rest)
}

// The same where the lower byte of the length has not come.
fn read_high(high: u8) -> Header
    ensures { plain result ≡ reading_high high }
{
    if usize::from(high) * 256 > REST_LIMIT {
        Header::Refused
    } else {
        Header::Needs(1)
    }
}

// The same for bytes after the length.
#[tactic(auto, unfolding(crate::specs::Header::reading_rest))]
fn read_rest(command: u8, family: u8, length: usize, bytes: &[u8]) -> Header
    ensures { plain result ≡ reading_rest command family length bytes.now }
{
    if length > REST_LIMIT || length < least_length(command, family) || length < bytes.len() {
        return Header::Refused;
    }
    if bytes.len() < length {
        return Header::Needs(length - bytes.len());
    }
    Header::Whole(source_of(command, family, bytes))
}

// The least length of the bytes after it: two addresses and two ports, where it gives an address.
fn least_length(command: u8, family: u8) -> usize
    ensures { result ≡ least_rest command family }
{
    match (command, family) {
        (FOR_A_CLIENT, TCP_OVER_IPV4) => 12,
        (FOR_A_CLIENT, TCP_OVER_IPV6) => 36,
        _ => 0,
    }
}

// The source address, which comes first. A family without addresses of the Internet has none.
fn source_of(command: u8, family: u8, bytes: &[u8]) -> Option<Ipv6Addr>
    requires { least_rest command family ≤ length bytes.now }
    ensures { option_map ipv6_octets result ≡ told_by command family bytes.now }
{
    match (command, family) {
        (FOR_A_CLIENT, TCP_OVER_IPV4) => Some(ipv4_of(bytes)),
        (FOR_A_CLIENT, TCP_OVER_IPV6) => Some(ipv6_of(bytes)),
        _ => None,
    }
}

fn ipv4_of(bytes: &[u8]) -> Ipv6Addr
    requires { 12 ≤ length bytes.now }
    ensures { ipv6_octets result ≡ mapped_octets (take 4 bytes.now) }
{
    let [a, b, c, d, ..] = *bytes else {
        unreachable!()
    };
    Ipv4Addr::new(a, b, c, d).to_ipv6_mapped()
}

fn ipv6_of(bytes: &[u8]) -> Ipv6Addr
    requires { 36 ≤ length bytes.now }
    ensures { ipv6_octets result ≡ take 16 bytes.now }
{
    let Some(source) = bytes.first_chunk::<16>() else {
        unreachable!()
    };
    Ipv6Addr::from(*source)
}
