//! What keeps the channels of a server beyond a run, as rows, and the store: the role that brings a keeper to the
//! rows that are kept of what is published.
#![tactic(auto)]

mod archive;
pub mod change;
pub mod item;
pub mod keeper;
pub mod laws;
mod look;
mod map_keeper;
pub mod merge;
mod mirror;
pub mod naming;
mod row;
mod store;
mod tables;
pub mod turns;

pub use archive::Archive;
pub use change::Change;
pub use item::{StoreItem, StoreNote};
pub use keeper::{KeepEnd, Keeper, Loaded};
pub use map_keeper::MapKeeper;
pub use merge::difference;
pub use mum_kept::{KeptChannel, KeptRows, good_rows, kept_rows, rebuild};
pub use naming::{KeeperOpening, Keeping};
pub use store::{Store, StoreEnd};
