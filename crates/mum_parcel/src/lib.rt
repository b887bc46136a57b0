//! What the outboxes of a session's port carry: copies of voice packets, and notices. A parcel carries what it is
//! true of (`specs/Rules.antt`): a copy is what the rules give its session after a list of published edits, and a
//! notice reports an edit of such a list. At run time that list is one number.
#![tactic(auto)]

mod boxes;
pub mod crossing;
mod post;
mod voice;

pub use boxes::{PostBox, VoiceBox, capacities};
pub use post::PostParcel;
pub use voice::VoiceParcel;
