//! The machine, as the server meets it: a door that listens on a socket, links over its streams, a crew of threads that
//! sleep until something is ready, a clock. `Machine::open` makes them in their order. What the sockets carry is
//! trusted: the calls are safe by proof, their counts are those of the traits, and of bytes they promise nothing.
#![tactic(auto)]

pub mod clock;
pub mod crew;
pub mod listener;
pub mod machine;
pub mod peer;
mod socket_file;
pub mod station;
mod stream;

pub use clock::SystemClock;
pub use crew::ThreadCrew;
pub use listener::SocketListener;
pub use machine::{Machine, MachineDoor};
pub use peer::Peer;
