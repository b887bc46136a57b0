//! Permission bits, as the Murmur manual and the `ACL` message number them.

ghost use Rattle.std.specs.Prelude.{◌≡◌, ◌↔◌, ◌-◌, ◌<◌, ℕ, IsTrue, bit_or, max, min};
ghost use Rattle.std.specs.Int.{bit_at};
ghost use Rattle.mum_base.specs.Perm.{Holds, without_bits};

/// The bits of the permissions and of the sets that have a name. This does nothing: its contract is
/// what they are.
pub fn permission_bits()
    ensures none { Perm.NONE.0 ≡ 0 }
    ensures write { Perm.WRITE.0 ≡ 0x1 }
    ensures traverse { Perm.TRAVERSE.0 ≡ 0x2 }
    ensures enter { Perm.ENTER.0 ≡ 0x4 }
    ensures speak { Perm.SPEAK.0 ≡ 0x8 }
    ensures mute_deafen { Perm.MUTE_DEAFEN.0 ≡ 0x10 }
    ensures move_users { Perm.MOVE.0 ≡ 0x20 }
    ensures make_channel { Perm.MAKE_CHANNEL.0 ≡ 0x40 }
    ensures link_channel { Perm.LINK_CHANNEL.0 ≡ 0x80 }
    ensures whisper { Perm.WHISPER.0 ≡ 0x100 }
    ensures text_message { Perm.TEXT_MESSAGE.0 ≡ 0x200 }
    ensures make_temp_channel { Perm.MAKE_TEMP_CHANNEL.0 ≡ 0x400 }
    ensures listen { Perm.LISTEN.0 ≡ 0x800 }
    ensures kick { Perm.KICK.0 ≡ 0x10000 }
    ensures ban { Perm.BAN.0 ≡ 0x20000 }
    ensures register { Perm.REGISTER.0 ≡ 0x40000 }
    ensures self_register { Perm.SELF_REGISTER.0 ≡ 0x80000 }
    ensures reset_user_content { Perm.RESET_USER_CONTENT.0 ≡ 0x100000 }
    ensures all { Perm.ALL.0 ≡ 0x1F0FFF }
    ensures root_only { Perm.ROOT_ONLY.0 ≡ 0x1F0000 }
    ensures start { Perm.START.0 ≡ 0xB0E }
    ensures by_write { Perm.BY_WRITE.0 ≡ 0xEF7 }
{}

/// A set of permissions, a bit for each.
#[derive(Clone, Copy, Debug, Default, PartialEq, Eq, Hash)]
pub struct Perm(pub u32);

impl Perm {
    pub const NONE: Perm = Perm(0);

    pub const WRITE: Perm = Perm(0x1);

    pub const TRAVERSE: Perm = Perm(0x2);

    pub const ENTER: Perm = Perm(0x4);

    pub const SPEAK: Perm = Perm(0x8);

    pub const MUTE_DEAFEN: Perm = Perm(0x10);

    pub const MOVE: Perm = Perm(0x20);

    pub const MAKE_CHANNEL: Perm = Perm(0x40);

    pub const LINK_CHANNEL: Perm = Perm(0x80);

    pub const WHISPER: Perm = Perm(0x100);

    pub const TEXT_MESSAGE: Perm = Perm(0x200);

    pub const MAKE_TEMP_CHANNEL: Perm = Perm(0x400);

    pub const LISTEN: Perm = Perm(0x800);

    /// On the root only, as are the four that follow.
    pub const KICK: Perm = Perm(0x10000);

    pub const BAN: Perm = Perm(0x20000);

    pub const REGISTER: Perm = Perm(0x40000);

    pub const SELF_REGISTER: Perm = Perm(0x80000);

    pub const RESET_USER_CONTENT: Perm = Perm(0x100000);

    /// Every permission.
    pub const ALL: Perm = Perm(0x1F0FFF);

    /// The permissions that mean something on the root alone.
    pub const ROOT_ONLY: Perm = Perm(0x1F0000);

    /// What a session may do where no entry says otherwise: Traverse, Enter, Speak, Whisper,
    /// TextMessage and Listen.
    pub const START: Perm = Perm(0xB0E);

    /// What Write brings along in its channel: all but Speak, Whisper and the bits of the root.
    pub const BY_WRITE: Perm = Perm(0xEF7);

    /// Whether every permission of `p` is held.
    pub fn has(self, p: Perm) -> bool
        ensures { IsTrue result ↔ Holds self.0 p.0 }
    {
        self.0 & p.0 == p.0
    }

    /// These permissions and those of `p`.
    pub fn with(self, p: Perm) -> Perm
        ensures { result.0 ≡ bit_or self.0 p.0 }
    {
        Perm(self.0 | p.0)
    }

    /// These permissions but for those of `p`.
    pub fn without(self, p: Perm) -> Perm
        ensures value { result.0 ≡ without_bits self.0 p.0 }
        ensures bits { (i : ℕ) → i < 32 → bit_at result.0 i ≡ min (bit_at self.0 i) (1 - bit_at p.0 i) }
    {
        Perm(self.0 & !p.0)
    }
}
