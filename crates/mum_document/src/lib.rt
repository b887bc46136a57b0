//! JSON documents, read key by key: values by their kinds, objects by their keys, and what is given of
//! a channel beside its seat; or the first fault, with its way. One rule for objects and one for lists
//! says in which order their parts are tested (`specs/Object.antt`).
#![tactic(auto)]

mod entry;
pub mod fault;
pub mod given;
mod group;
pub mod name;
pub mod object;
pub mod value;

pub use fault::{ConfigFault, DocumentError, at_place, fault_at};
pub use given::{GivenInfo, GivenPolicy};
pub use name::new_name;
pub use object::Object;
pub use value::{or_empty, read_number};
