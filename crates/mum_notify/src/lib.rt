//! What sessions are sent: of each edit, and all that there is where one joins. Each parcel is one frame
//! for one session, and the order of the parcels is that in which they go out. A contract sees them as a
//! list, by the definitions in `specs/Notices.antt` and `specs/Sync.antt`.
#![tactic(auto)]

mod accepting;
mod channels;
mod children;
mod frames;
mod gone;
pub mod laws;
mod notice;
mod parcels;
mod sorted;
mod sync;
mod telling;
mod texts;
mod users;
mod waiting;
mod watch;

pub use accepting::accept_edit;
pub use notice::{Notice, Notices};
pub use sync::{PROTOCOL, protocol, sync_block};
pub use telling::notices;
pub use waiting::{NoticeQueue, shared};
