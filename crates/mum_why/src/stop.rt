//! Where an aim stops on its way to a session.

ghost use Rattle.std.specs.Prelude.{◌≡◌, ◌==◌, ◌<◌};
ghost use Rattle.mum_why.specs.Reason.{level};

// Where an aim stops on its way to a session that is in a channel, or listens to it.
#[derive(Clone, Copy)]
pub(crate) enum Stop {
    /// It does not spread over the channel.
    Elsewhere,
    /// The speaker lacks the permission there.
    LacksPermission,
    /// The session is not in the group of the aim there.
    NoMember,
    /// The session listens to the channel, and lacks Listen there.
    LacksListen,
    /// It reaches the session.
    Arrives,
}

impl Stop {
    // How many tests were passed.
    fn level(self) -> u8
        ensures { result ≡ level self }
    {
        match self {
            Stop::Elsewhere => 0,
            Stop::LacksPermission => 1,
            Stop::NoMember => 2,
            Stop::LacksListen => 3,
            Stop::Arrives => 4,
        }
    }

    // Whether this is the wanted one.
    pub(crate) fn is(self, wanted: Stop) -> bool
        ensures { result ≡ (level self == level wanted) }
    {
        self.level() == wanted.level()
    }
}
