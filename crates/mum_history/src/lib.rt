//! The edits that were accepted from one state on, and the states to which they lead. A `Twin` is a state
//! with a spare one that is equal to it, so that an edit is made without a copy of a state. A `History`
//! keeps the list, with the twin after all of it; it is an `EditList`. A `View` is a state after the first of the edits,
//! up to a revision, for whoever lags behind.
#![tactic(auto)]

mod edit_list;
mod history;
mod opening;
mod twin;
mod view;

pub use edit_list::EditList;
pub use history::History;
pub use opening::{state_after, state_from};
pub use twin::Twin;
pub use view::{View, readers};
