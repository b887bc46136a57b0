//! Legacy voice packets of the Mumble protocol: the variable length integers they are made of, the
//! parts of a client's packet, and the server's copy of it for a recipient. Nothing here takes memory.
#![tactic(auto)]

mod audio;
pub mod fault;
pub mod packet;
pub mod varint;

pub use audio::{CELT_ALPHA, CELT_BETA, OPUS, SPEEX};
pub use fault::BadVoice;
pub use packet::{COPY_LIMIT, PACKET_LIMIT, Packet};
pub use varint::{VARINT_LIMIT, read_varint, shortest_is_least, write_varint};
