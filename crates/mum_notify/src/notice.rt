//! A parcel.

use mum_base::{Items, Octets, SessionId, Slot};

/// A frame for one session.
#[derive(Drop)]
pub struct Notice {
    pub to: SessionId,
    /// The slot of that session, also where the session is gone.
    pub slot: Slot,
    /// The whole frame, header and payload.
    pub bytes: Octets,
    /// The session is kicked, and gets nothing after this.
    pub last: bool,
}

/// Parcels in the order in which they go out.
pub type Notices = Items<Notice>;
