//! In which context a packet reaches a session.

ghost use Rattle.std.specs.Prelude.{◌≡◌, ◌<◌, nat_lt, true, IsTrue};
ghost use Rattle.std.specs.Option.{option_map_or};
ghost use Rattle.mum_route.specs.Context.{code};

/// How a packet reaches a session. Of several ways the first counts, and the session gets one copy.
#[derive(Clone, Copy, Debug, PartialEq, Eq)]
pub enum Context {
    /// It is in a channel that talk covers, or is the speaker, whose packet comes back.
    Talk,
    /// It is in a channel that a voice target covers.
    ChannelWhisper,
    /// A voice target names it.
    DirectWhisper,
    /// It only listens to a channel that is covered.
    Listener,
}

impl Context {
    /// The number in the low five bits of a copy's header.
    pub fn code(self) -> u8
        ensures code { result ≡ code self }
        ensures below { result < 4 }
    {
        match self {
            Context::Talk => 0,
            Context::ChannelWhisper => 1,
            Context::DirectWhisper => 2,
            Context::Listener => 3,
        }
    }

    // Whether it counts, where the session is reached in another way already.
    pub(crate) fn comes_before(self, other: Option<Context>) -> bool
        ensures { result ≡ option_map_or (λ one. nat_lt (code self) (code one)) other true }
    {
        match other {
            Some(other) => self.code() < other.code(),
            None => true,
        }
    }
}
