//! Why a command is ignored, denied or rejected, each with the number under which it is reported.

ghost use Rattle.std.specs.Prelude.{◌≡◌};
ghost use Rattle.mum_base.specs.Codes.{deny_code, reason_code, reject_code};

/// Why a frame or a command is ignored. The one who sent it gets no answer.
#[derive(Clone, Copy, Debug, PartialEq, Eq)]
pub enum Reason {
    /// The server does not read frames of this type.
    NotRead,
    /// The payload of the frame is malformed.
    Malformed,
    /// The connection has no session.
    NotLoggedIn,
    /// A session or a channel that the command names is not there.
    NotThere,
    /// It sets for another session what each session sets for itself.
    OfAnother,
    /// The text has no byte.
    EmptyText,
    /// The command has more bytes than a command may have.
    TooLong,
    /// The session is gone, or sessions made as many edits as they can.
    Gone,
}

impl Reason {
    /// The number in a transcript and a journal, 1 to 8.
    pub fn code(self) -> u8
        ensures { result ≡ reason_code self }
    {
        match self {
            Reason::NotRead => 1,
            Reason::Malformed => 2,
            Reason::NotLoggedIn => 3,
            Reason::NotThere => 4,
            Reason::OfAnother => 5,
            Reason::EmptyText => 6,
            Reason::TooLong => 7,
            Reason::Gone => 8,
        }
    }
}

/// For what a command is denied, after `PermissionDenied.DenyType` of Mumble.proto.
#[derive(Clone, Copy, Debug, PartialEq, Eq)]
pub enum DenyType {
    /// For a reason that has no type of its own.
    Text,
    /// A permission is missing.
    Permission,
    /// SuperUser is not to be touched.
    SuperUser,
    /// The name of a channel is no name, or is taken.
    ChannelName,
    TextTooLong,
    /// A temporary channel takes no channels under it.
    TemporaryChannel,
    /// The channel holds as many users as it takes.
    ChannelFull,
    /// The channels would be nested too deep.
    NestingLimit,
    ChannelCountLimit,
    /// The channel has as many listeners as it may have.
    ChannelListenerLimit,
    /// The user listens to as many channels as it may.
    UserListenerLimit,
}

impl DenyType {
    /// The number of the type in Mumble.proto.
    pub fn code(self) -> u8
        ensures { result ≡ deny_code self }
    {
        match self {
            DenyType::Text => 0,
            DenyType::Permission => 1,
            DenyType::SuperUser => 2,
            DenyType::ChannelName => 3,
            DenyType::TextTooLong => 4,
            DenyType::TemporaryChannel => 6,
            DenyType::ChannelFull => 9,
            DenyType::NestingLimit => 10,
            DenyType::ChannelCountLimit => 11,
            DenyType::ChannelListenerLimit => 12,
            DenyType::UserListenerLimit => 13,
        }
    }
}

/// For what a login is rejected, after `Reject.RejectType` of Mumble.proto.
#[derive(Clone, Copy, Debug, PartialEq, Eq)]
pub enum RejectType {
    /// The client is older than this server speaks.
    WrongVersion,
    /// The name is no name of a user.
    InvalidUsername,
    /// The name is an account's, and this is not its password.
    WrongUserPW,
    /// The name is no account's, and this is not the password of the server.
    WrongServerPW,
    /// Somebody is here under the name.
    UsernameInUse,
    /// As many are here as may be, or no session number is left.
    ServerFull,
}

impl RejectType {
    /// The number of the type in Mumble.proto.
    pub fn code(self) -> u8
        ensures { result ≡ reject_code self }
    {
        match self {
            RejectType::WrongVersion => 1,
            RejectType::InvalidUsername => 2,
            RejectType::WrongUserPW => 3,
            RejectType::WrongServerPW => 4,
            RejectType::UsernameInUse => 5,
            RejectType::ServerFull => 6,
        }
    }
}
