//! Who may do what where: which sessions are in a group by its name, and what the access control
//! lists on the path from the root to a channel leave a session there, after "ACL and groups" of the
//! Murmur manual. Nothing here takes memory, and nothing can be refused.
#![tactic(auto)]

mod found;
pub mod group;
pub mod laws;
pub mod name;
pub mod policy;
mod subtree;
pub mod walk;

pub use group::is_member;
pub use policy::{AclEntry, ChannelPolicy, Group, Policies, Who, Whom};
pub use walk::{permissions, permitted};
