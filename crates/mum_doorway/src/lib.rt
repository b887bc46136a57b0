//! A door as the role that asks it sees it: what it gives, what it had counted when the role was opened, and whether it
//! is asked on.
#![tactic(auto)]

mod doorway;
pub mod entrance;
pub mod opening;

pub use doorway::Doorway;
pub use entrance::Entrance;
pub use opening::{DoorOpening, Doorside};
