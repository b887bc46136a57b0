//! The channel viewer: a role that gives each connection of its door the channels and the users of the state
//! that one look finds, as one JSON object, and shuts it.
#![tactic(auto)]

pub mod laws;
pub mod list;
mod look;
mod naming;
mod picture;
mod rest;
mod text;
pub mod turns;
pub mod view;
mod viewer;
mod views;

pub use naming::{ViewSide, Viewing};
pub use text::view_text;
pub use viewer::{Viewer, ViewerEnd, ViewerOpening};
