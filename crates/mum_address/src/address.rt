//! The forms of an address at which the server listens.

ghost use Rattle.std.specs.Prelude.{◌≡◌, ℕ, Bool, List, MatchOption};
ghost use Rattle.std.specs.Net.Addr.{ipv6_octets};
ghost use Rattle.mum_address.specs.declared.address.Place.{Place};
ghost use Rattle.mum_address.specs.declared.address.Address.{Address};
ghost use Rattle.std.specs.Option.{ForSome};
ghost use Rattle.mum_address.specs.Address.{IsPlaceText, IsAddressText, IsLogWord, IsSocketPath, SaysHeaders, host_octets};

use std::net::{Ipv6Addr, SocketAddr};

/// Which forms there are, for a line on standard error.
pub const FORMS: &str =
    "IP:PORT, [IPv6]:PORT or unix:PATH, with proxy: before it where a relay sends PROXY headers";

/// Where to listen.
#[derive(Clone, Copy)]
pub enum Place<'a> {
    Port(SocketAddr),
    Path(&'a str),
}

/// Where to listen, and whether each connection begins with a header of a relay.
#[derive(Clone, Copy)]
pub struct Address<'a> {
    pub place: Place<'a>,
    pub has_headers: bool,
}

impl<'a> Address<'a> {
    /// The address of this text. None: it has none of the forms, as a name of a host.
    pub fn from_text(text: &'a str) -> Option<Address<'a>>
        ensures address { MatchOption result ((address : Address) → IsAddressText text.now address → ⊥)
            (IsAddressText text.now) }
        ensures headers { ForSome result (λ address. SaysHeaders text.now address.has_headers) }
    {
        match text.strip_prefix("proxy:") {
            Some(rest) => Some(Address {
                place: Place::from_text(rest)?,
                has_headers: true,
            }),
            None => Some(Address {
                place: Place::from_text(text)?,
                has_headers: false,
            }),
        }
    }
}

impl<'a> Place<'a> {
    fn from_text(text: &'a str) -> Option<Place<'a>>
        ensures { MatchOption result ((place : Place) → IsPlaceText text.now place → ⊥)
            (IsPlaceText text.now) }
    {
        match text.strip_prefix("unix:") {
            Some("") => None,
            Some(path) => Some(Place::Path(path)),
            None => Some(Place::Port(text.parse::<SocketAddr>().ok()?)),
        }
    }
}

/// The address of a host as IPv6 writes it.
pub fn ipv6_of(address: SocketAddr) -> Ipv6Addr
    ensures { ipv6_octets result ≡ host_octets address }
{
    match address {
        SocketAddr::V4(address) => address.ip().to_ipv6_mapped(),
        SocketAddr::V6(address) => *address.ip(),
    }
}

/// The path of the socket in the machine that this text names. None: it has not the form `unix:PATH`.
pub fn socket_path(text: &str) -> Option<&str>
    ensures { MatchOption result ((path : List ℕ) → IsSocketPath text.now path → ⊥)
        (λ path. IsSocketPath text.now path.now) }
{
    match text.strip_prefix("unix:") {
        Some("") => None,
        other => other,
    }
}

/// Which words say whether connections are reported, for a line on standard error.
pub const LOG_WORDS: &str = "none or off, all or on";

/// Whether connections are reported under this word. None: it is not one of those words.
pub fn reports_under(word: &str) -> Option<bool>
    ensures { MatchOption result ((reports : Bool) → IsLogWord word.now reports → ⊥)
        (IsLogWord word.now) }
{
    match word {
        "all" | "on" => Some(true),
        "none" | "off" => Some(false),
        _ => None,
    }
}
