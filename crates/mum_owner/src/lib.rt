//! The owner: it takes connections from the door and hands them to the workers, gives the commands that lie on
//! the desk to the control owner unless a ban is against it, and answers by the bells of the workers.
#![tactic(auto)]

mod banning;
mod bells;
pub mod crossing;
mod desk;
mod entry;
mod guests;
mod kept;
pub mod laws;
mod logins;
mod owner;
mod replies;
mod scribe;
pub mod serving;

pub use desk::PENDING_LIMIT;
pub use guests::Guest;
pub use mum_doorway::{DoorOpening, Entrance};
pub use owner::{Owner, OwnerEnd, OwnerOpening};
pub use serving::Serving;
