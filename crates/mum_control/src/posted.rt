//! What posting the next notice came to.

use mum_base::SessionId;

/// What became of the next notice.
#[derive(Clone, Copy, Debug, PartialEq, Eq)]
pub enum Posted {
    /// There was none.
    None,
    /// It is in the box of this session's slot.
    Posted(SessionId),
    /// The box of this session's slot was full, and the notice is gone.
    Lagged(SessionId),
}
