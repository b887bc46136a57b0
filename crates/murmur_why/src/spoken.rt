//! Packets that workers looked for.

// A packet: its line, who sent it, and the revision at which a worker looked who hears it.
#[derive(Clone, Copy)]
pub(crate) struct Spoken {
    pub line: u64,
    pub connection: u32,
    pub revision: u64,
    pub target: u8,
    /// How many commands were decided before what the worker saw was published; none where that is not known.
    pub seen: Option<usize>,
}
