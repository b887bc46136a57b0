//! The outboxes of a port, and how much the queues of a server hold.

ghost use Rattle.std.specs.Prelude.{◌≡◌};

use crate::post::PostParcel;
use crate::voice::VoiceParcel;
use mum_base::{POST_CAPACITY, VOICE_CAPACITY};
use mum_outbox::{BELL_CAPACITY, Bell, DESK_CAPACITY, Desk, Queue};
use mum_published::Naming;

/// The voice outbox of one port.
pub type VoiceBox<N> = Queue<VoiceParcel<N>, VOICE_CAPACITY>;

/// The control outbox of one port.
pub type PostBox<N> = Queue<PostParcel<N>, POST_CAPACITY>;

/// How many items these queues may hold: a voice outbox, a post outbox, a desk and a bell.
pub fn capacities<T, N: Naming>(
    voice: &VoiceBox<N>,
    post: &PostBox<N>,
    desk: &Desk<T>,
    bell: &Bell<T>,
) -> (usize, usize, usize, usize)
    ensures voice { result.0 ≡ 128 }
    ensures post { result.1 ≡ 8192 }
    ensures desk { result.2 ≡ 1024 }
    ensures bell { result.3 ≡ 1024 }
    ensures constants { result ≡ (VOICE_CAPACITY, POST_CAPACITY, DESK_CAPACITY, BELL_CAPACITY) }
{
    (
        Queue::<VoiceParcel<N>, _>::capacity(voice),
        Queue::<PostParcel<N>, _>::capacity(post),
        Queue::<T, _>::capacity(desk),
        Queue::<T, _>::capacity(bell),
    )
}
