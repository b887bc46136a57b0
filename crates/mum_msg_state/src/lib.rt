//! The messages of the protocol that report the server's state, decoded and encoded. Each is a
//! struct beside its table of fields; `mum_fields` holds what all of them share.
#![tactic(auto)]

pub mod authenticate;
pub mod channel_remove;
pub mod channel_state;
pub mod codec_version;
pub mod ping;
pub mod reject;
pub mod server_sync;
pub mod user_remove;
pub mod user_state;
pub mod version;

pub use authenticate::Authenticate;
pub use channel_remove::ChannelRemove;
pub use channel_state::ChannelState;
pub use codec_version::CodecVersion;
pub use mum_fields::{Message, MessageFault};
pub use ping::Ping;
pub use reject::Reject;
pub use server_sync::ServerSync;
pub use user_remove::UserRemove;
pub use user_state::UserState;
pub use version::Version;
