//! The limits of a roster.

ghost use Rattle.std.specs.Prelude.{◌≡◌};

use crate::listening::{CHANNEL_LISTENERS, LISTENED_CHANNELS};
use crate::masks::WORD_SLOTS;
use crate::target::{GROUP_BYTES, LAST_TARGET, TARGET_ITEMS, TARGET_SESSIONS};
use crate::user::{CONTEXT_BYTES, DEFAULT_SESSIONS_LIMIT, TOKEN_BYTES, TOKENS};

/// This does nothing: its contract is what the limits are.
pub fn limits()
    ensures default_sessions_limit { DEFAULT_SESSIONS_LIMIT ≡ 128 }
    ensures word_slots { WORD_SLOTS ≡ 128 }
    ensures channel_listeners { CHANNEL_LISTENERS ≡ 64 }
    ensures listened_channels { LISTENED_CHANNELS ≡ 32 }
    ensures last_target { LAST_TARGET ≡ 30 }
    ensures target_items { TARGET_ITEMS ≡ 16 }
    ensures target_sessions { TARGET_SESSIONS ≡ 128 }
    ensures group_bytes { GROUP_BYTES ≡ 128 }
    ensures tokens { TOKENS ≡ 64 }
    ensures token_bytes { TOKEN_BYTES ≡ 128 }
    ensures context_bytes { CONTEXT_BYTES ≡ 1024 }
{}
