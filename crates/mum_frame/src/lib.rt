//! The frames of a client's stream: a type of two bytes, a payload's length of four, and the
//! payload. `Framer` takes the stream in pieces of any size and gives its frames one by one;
//! `put_frame` writes one, and `whole_frame` reads one that is alone. `kind` names the types.
#![tactic(auto)]

pub mod frame;
pub mod framer;
pub mod kind;
pub mod laws;

pub use frame::{Frame, FrameView, HEADER_LENGTH, PAYLOAD_LIMIT, put_frame, whole_frame};
pub use framer::{FrameFault, Framer, Kept, ROOM_FACTOR, ROOM_LIMIT};
