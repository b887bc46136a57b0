//! The outside, as the server sees it: sources and sinks of bytes, links to peers, doors that give them, and
//! clocks. Each is a trait whose answers have their causes in counts, with an implementation in memory. Beside
//! them are sources and sinks over readers and writers, and whole reads and writes.
#![tactic(auto)]

pub mod calls;
pub mod clock;
pub mod door;
pub mod link;
pub mod memory;
pub mod sink;
pub mod source;
pub mod streams;
pub mod tally;
pub mod whole;

pub use clock::Clock;
pub use door::{Accept, Door, DoorOpen};
pub use link::{Link, PollRead, PollWrite};
pub use memory::clock::MemClock;
pub use memory::door::{DoorEvent, MemDoor};
pub use memory::link::{LinkEvent, MemLink};
pub use memory::{MemSink, MemSource};
pub use sink::{Sink, WriteEnd};
pub use source::{ReadEnd, Source};
pub use streams::{Input, Output};
pub use tally::Tally;
pub use whole::{ReadFault, WriteFault, read_up_to, write_all};
