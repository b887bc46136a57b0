//! What follows from the contracts for whole streams, whatever is called in whatever order.
//! These functions do nothing: each contract is a theorem.

ghost use Rattle.std.specs.Prelude.{◌≡◌, ◌+◌, ◌++◌, ◌<◌, ◌↔◌, ℕ, List, [], Option, Result, All, None, IsTrue, length};
ghost use Rattle.std.specs.List.{flat_map};
ghost use Rattle.mum_frame.specs.declared.frame.Frame.{Frame};
ghost use Rattle.mum_frame.specs.declared.framer.FrameFault.{FrameFault};
ghost use Rattle.mum_frame.specs.declared.framer.FrameFault.TheVariants.{FrameTooLong};
ghost use Rattle.mum_frame.specs.Calls.{Call, Leads, bytes_fed, frames_given};
ghost use Rattle.mum_frame.specs.Frame.{frame_spelling, IsFrame, IsOneFrame, TooLong, is_one_frame, kind_of, named_length, payload_of};
ghost use Rattle.mum_frame.specs.Stream.{NextGives, IsFront, Splits};

use crate::frame::{HEADER_LENGTH, PAYLOAD_LIMIT};
use crate::framer::{ROOM_FACTOR, ROOM_LIMIT};
use crate::kind::*;

/// The numbers that the names of types and limits stand for, as the Mumble protocol documentation
/// gives them; the limit of the room is the server's own.
pub fn limits_and_types()
    ensures header { HEADER_LENGTH ≡ 6 }
    ensures payload { PAYLOAD_LIMIT ≡ 8388607 }
    ensures room { ROOM_LIMIT ≡ 131072 }
    ensures factor { ROOM_FACTOR ≡ 4 }
    ensures version { VERSION ≡ 0 }
    ensures udp_tunnel { UDP_TUNNEL ≡ 1 }
    ensures authenticate { AUTHENTICATE ≡ 2 }
    ensures ping { PING ≡ 3 }
    ensures reject { REJECT ≡ 4 }
    ensures server_sync { SERVER_SYNC ≡ 5 }
    ensures channel_remove { CHANNEL_REMOVE ≡ 6 }
    ensures channel_state { CHANNEL_STATE ≡ 7 }
    ensures user_remove { USER_REMOVE ≡ 8 }
    ensures user_state { USER_STATE ≡ 9 }
    ensures text_message { TEXT_MESSAGE ≡ 11 }
    ensures permission_denied { PERMISSION_DENIED ≡ 12 }
    ensures acl { ACL ≡ 13 }
    ensures voice_target { VOICE_TARGET ≡ 19 }
    ensures permission_query { PERMISSION_QUERY ≡ 20 }
    ensures codec_version { CODEC_VERSION ≡ 21 }
{}

/// A frame is known by its encoding, and by the front of any bytes that begin with it.
pub fn a_spelling_is_of_one_frame()
    ensures one { (frame other : Frame) (rest behind : List ℕ) → IsFrame frame → IsFrame other →
        frame_spelling frame ++ rest ≡ frame_spelling other ++ behind →
        (frame ≡ other) × (rest ≡ behind) }
    ensures length { (frame : Frame) →
        length (frame_spelling frame) ≡ HEADER_LENGTH + length frame.payload }
{}

/// Bytes that are one frame name its type and hold its payload.
pub fn a_frame_stands_alone()
    ensures parts { (frame : Frame) → IsFrame frame →
        (kind_of (frame_spelling frame) ≡ frame.kind) ×
        (payload_of (frame_spelling frame) ≡ frame.payload) }
    ensures tested { (bytes : List ℕ) → All (λ byte. byte < 256) bytes →
        (IsTrue (is_one_frame bytes) ↔ IsOneFrame bytes) }
{}

/// A stream has one reading: its frames, and what no frame within the limit begins.
pub fn a_stream_has_one_reading()
    ensures some { (stream : List ℕ) → All (λ byte. byte < 256) stream →
        (frames : List Frame) × ((rest : List ℕ) × Splits stream frames rest) }
    ensures one { (stream rest other : List ℕ) (frames others : List Frame) →
        Splits stream frames rest → Splits stream others other →
        (frames ≡ others) × (rest ≡ other) }
    // It is the longest: whatever frames begin the stream, these begin with them.
    ensures longest { (stream rest behind : List ℕ) (frames front : List Frame) →
        Splits stream frames rest → All IsFrame front →
        stream ≡ flat_map frame_spelling front ++ behind →
        IsFront front frames }
{}

/// However a stream is cut into pieces, and whenever frames are asked for, a framer gives the
/// stream's frames in order and no others.
pub fn frames_come_in_any_pieces()
    // No byte is lost or made: what was fed is the frames given, and then what is kept.
    ensures conserved { (calls : List Call) (kept : List ℕ) → Leads [] calls kept →
        (bytes_fed calls ≡ flat_map frame_spelling (frames_given calls) ++ kept) ×
        All IsFrame (frames_given calls) }
    // The frames given so far begin the frames of all bytes fed.
    ensures prefix { (calls : List Call) (kept rest : List ℕ) (frames : List Frame) →
        Leads [] calls kept → Splits (bytes_fed calls) frames rest →
        IsFront (frames_given calls) frames }
    // None comes exactly where they are all of these frames, and no length is too great.
    ensures none { (calls : List Call) (kept new : List ℕ)
        (answer : Result (Option Frame) FrameFault) →
        Leads [] calls kept → NextGives kept answer new →
        ((answer ≡ Ok None) ↔
        (Splits (bytes_fed calls) (frames_given calls) kept × ¬ TooLong kept)) }
    // A length is refused exactly where they are all of these frames, and it comes after them.
    ensures too_long { (calls : List Call) (kept new : List ℕ)
        (answer : Result (Option Frame) FrameFault) →
        Leads [] calls kept → NextGives kept answer new →
        ((answer ≡ Err (FrameTooLong (named_length kept))) ↔
        (Splits (bytes_fed calls) (frames_given calls) kept × TooLong kept)) }
    // And then each later call refuses it again, whatever is fed in between.
    ensures for_good { (calls : List Call) (kept later new : List ℕ)
        (answer : Result (Option Frame) FrameFault) →
        TooLong kept → Leads kept calls later → NextGives later answer new →
        answer ≡ Err (FrameTooLong (named_length kept)) }
{}
