//! Counts of edits, by which what was computed at one state is known to hold at another.

/// The most edits that sessions make. At that number no more are accepted.
pub const EDIT_LIMIT: u64 = 1 << 62;

/// How many edits changed what permissions, and what routes, are computed from. Where both counts
/// are those of an earlier state, so are the policies, the paths of channels, and all that a route
/// reads.
#[derive(Clone, Copy)]
pub struct Stamps {
    pub policy: u64,
    pub routing: u64,
}
