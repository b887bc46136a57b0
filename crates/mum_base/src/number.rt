//! The numbers by which sessions, channels and accounts are named on the wire, and how many there may be.

ghost use Rattle.std.specs.Prelude.{◌≡◌};

/// The most sessions that any server may have at once: slots are below it.
pub const SLOTS: usize = 512;

/// The most channels that any server may have at once, with the root: places are below it.
pub const PLACES: usize = 2048;

/// The most connections that may be open at once.
pub const CONNECTION_LIMIT: usize = 1024;

/// The most copies of voice packets that wait for one session.
pub const VOICE_CAPACITY: usize = 128;

/// The most control frames that wait for one session.
pub const POST_CAPACITY: usize = 8192;

/// The numbers that definitions name. This does nothing: its contract is what they are.
pub fn numbers()
    ensures root { ChannelId.ROOT.0 ≡ 0 }
    ensures super_user { AccountId.SUPER_USER.0 ≡ 0 }
    ensures slots { SLOTS ≡ 512 }
    ensures places { PLACES ≡ 2048 }
    ensures connections { CONNECTION_LIMIT ≡ 1024 }
    ensures voice { VOICE_CAPACITY ≡ 128 }
    ensures post { POST_CAPACITY ≡ 8192 }
{}

/// The number of a session. Numbers are given in order from 1 and never given again; 0 is no
/// session's.
#[derive(Clone, Copy, Debug, Default, PartialEq, Eq, PartialOrd, Ord, Hash)]
pub struct SessionId(pub u32);

/// The number of a channel. The root is channel 0.
#[derive(Clone, Copy, Debug, Default, PartialEq, Eq, PartialOrd, Ord, Hash)]
pub struct ChannelId(pub u32);

impl ChannelId {
    /// The root, in which sessions begin.
    pub const ROOT: ChannelId = ChannelId(0);
}

/// The number of an account. Account 0 is SuperUser.
#[derive(Clone, Copy, Debug, Default, PartialEq, Eq, PartialOrd, Ord, Hash)]
pub struct AccountId(pub u32);

impl AccountId {
    /// Who may do everything but speak and whisper, whatever the access control lists say.
    pub const SUPER_USER: AccountId = AccountId(0);
}

/// The place that a session holds while it is connected. It is given again once it is free.
#[derive(Clone, Copy, Debug, Default, PartialEq, Eq, PartialOrd, Ord, Hash)]
pub struct Slot(pub u16);

/// Why a connection was closed.
#[derive(Clone, Copy, Debug, PartialEq, Eq)]
pub enum Cause {
    /// The peer ended its stream.
    End,
    /// The stream failed.
    LinkFault,
    /// A frame named a payload above the limit.
    FrameTooLong,
    /// The login was rejected.
    Rejected,
    /// The session was kicked.
    Kicked,
    /// A box of the session was full.
    Lagged,
    /// Memory ran out. This cause occurs in journals alone.
    Memory,
}
