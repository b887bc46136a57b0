//! The messages of the protocol that say texts, rules and whom a voice goes to, and the
//! blocks in them, decoded and encoded. Each is a struct beside its table of fields.
#![tactic(auto)]

pub mod acl;
pub mod acl_group;
pub mod acl_line;
pub mod permission_denied;
pub mod permission_query;
pub mod target_block;
pub mod text_message;
pub mod voice_target;

pub use acl::Acl;
pub use acl_group::AclGroup;
pub use acl_line::AclLine;
pub use mum_fields::{Message, MessageFault};
pub use permission_denied::PermissionDenied;
pub use permission_query::PermissionQuery;
pub use target_block::TargetBlock;
pub use text_message::TextMessage;
pub use voice_target::VoiceTarget;
