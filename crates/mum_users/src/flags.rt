//! The flags of a session, and how they change.

ghost use Rattle.std.specs.Prelude.{◌≡◌};
ghost use Rattle.mum_users.specs.Flags.{silence_after};

/// A change of flags, as the message UserState of the Mumble protocol carries it. What is `None` stays.
#[derive(Clone, Copy)]
pub struct FlagChange {
    pub mute: Option<bool>,
    pub deaf: Option<bool>,
    pub suppress: Option<bool>,
    pub self_mute: Option<bool>,
    pub self_deaf: Option<bool>,
    pub priority: Option<bool>,
    pub recording: Option<bool>,
}

// Whether one may not speak, and whether one may not hear.
#[derive(Clone, Copy)]
pub(crate) struct Silence {
    pub mute: bool,
    pub deaf: bool,
}

// Who is deaf is mute too. A change of `mute` is applied before one of `deaf`.
pub(crate) fn silence_changed(was: Silence, mute: Option<bool>, deaf: Option<bool>) -> Silence
    ensures { result ≡ silence_after mute deaf was }
{
    let mut after = was;
    if let Some(mute) = mute {
        after.mute = mute;
        after.deaf = after.deaf && mute;
    }
    if let Some(deaf) = deaf {
        after.deaf = deaf;
        after.mute = after.mute || deaf;
    }
    after
}
