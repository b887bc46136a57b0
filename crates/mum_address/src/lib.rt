//! Where the server listens, and where a client is: the forms of an address, the words of the environment about them, and
//! the header by which a relay gives the address of its client.
#![tactic(auto)]

mod address;
mod own;
mod proxy;
mod reader;

pub use address::{Address, FORMS, LOG_WORDS, Place, ipv6_of, reports_under, socket_path};
pub use own::{is_made, own_address};
pub use proxy::{HEADER_LIMIT, Header, header_of, headers_are_told_apart, limits};
pub use reader::{HeaderReader, reads_no_further};
