//! Links over any sockets whose calls do not wait: how they come in, which bytes they read and send, in which order, and
//! when. What a link knows of its socket, and what it reports to the thread that it is on, goes over flags that
//! threads share: those of its slot in the hub, and those of its thread's board.
#![tactic(auto)]

mod board;
pub mod crossing;
mod door;
mod doorstep;
mod entrance;
mod fault;
mod hub;
mod kept;
pub mod laws;
mod life;
mod line;
mod link;
mod listener;
mod patience;
mod polls;
mod seat;
mod shares;
mod sightings;
mod sleeper;
mod socket;
mod station;
mod waiting;
mod wire;

pub use board::Board;
pub use door::SocketDoor;
pub use doorstep::{DOOR_THREAD, Delivery, Doorstep};
pub use entrance::Entrance;
pub use fault::{Fault, is_passing};
pub use hub::{Ending, HUNG_UP, Hub, READABLE, SLOT_LIMIT, Sleepers, THREAD_LIMIT, WRITABLE};
pub use kept::{KEPT_LIMIT, Kept};
pub use life::Life;
pub use link::SocketLink;
pub use listener::Listener;
pub use polls::Polls;
pub use seat::Seat;
pub use shares::{LaterRoles, Shares, Stations};
pub use sightings::{Lacking, Sighting, Sightings};
pub use sleeper::{Ready, Sleeper};
pub use socket::Socket;
pub use station::LinkStation;
