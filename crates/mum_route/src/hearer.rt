//! A session that hears a packet, with what its copy needs. Calls for each of them would cost as much as what they do,
//! so these are inlined.

ghost use Rattle.std.specs.Prelude.{◌≡◌, Some};
ghost use Rattle.mum_route.specs.Aims.{hearer_by};
ghost use Rattle.mum_route.specs.Hearers.{shares};

use crate::context::Context;
use arrayvec::ArrayVec;
use mum_base::{SessionId, Slot};
use mum_users::User;
use mum_voice::{COPY_LIMIT, Packet};

/// A session that hears a packet.
#[derive(Clone, Copy, Debug, Default)]
pub struct Hearer {
    pub session: SessionId,
    /// Below `SLOTS`.
    pub slot: Slot,
    /// How the packet reaches it: 0 talk, 1 a whisper to a channel, 2 a whisper to the session, 3 it listens
    /// to a channel.
    pub context: u8,
    /// Whether the speaker and it are in the same context of their plugins.
    pub same: bool,
}

impl Hearer {
    ghost use Rattle.std.specs.Prelude.{◌≡◌, []};
    ghost use Rattle.mum_voice.specs.Packet.{IsPacket, plain_parts};
    ghost use Rattle.mum_route.specs.Hearers.{IsInRange, copy_for};

    /// The copy of a speaker's packet that it is sent.
    pub fn copy_for(&self, speaker: SessionId, packet: &Packet<'_>) -> ArrayVec<u8, COPY_LIMIT>
        requires packet { IsPacket (plain_parts packet.now) }
        requires range { IsInRange self.now }
        ensures { result.items ≡ copy_for speaker (plain_parts packet.now) self.now }
    {
        let mut bytes = ArrayVec::new();
        self.copy_into(speaker, packet, &mut bytes);
        bytes
    }

    /// The same where there is room for it and nothing else, so that a large copy is not moved.
    pub fn copy_into(
        &self,
        speaker: SessionId,
        packet: &Packet<'_>,
        bytes: &mut ArrayVec<u8, COPY_LIMIT>,
    )
        requires packet { IsPacket (plain_parts packet.now) }
        requires range { IsInRange self.now }
        requires empty { bytes.old.items ≡ [] }
        ensures { bytes.new.items ≡ copy_for speaker (plain_parts packet.now) self.now }
    {
        packet.copy_into(speaker, self.context, self.same, bytes);
    }
}

// Whether a speaker is in the same context of its plugins.
#[inline(always)]
fn shares(speaker: &User, user: &User) -> bool
    ensures { result ≡ shares (Some speaker.now) user.now }
{
    speaker.context.as_slice() == user.context.as_slice()
}

// A session that a speaker's packet reaches in this context.
#[inline(always)]
pub(crate) fn hearer_by(speaker: &User, user: &User, context: Context) -> Hearer
    ensures { result ≡ hearer_by speaker.now user.now context }
{
    Hearer {
        session: user.session,
        slot: user.slot,
        context: context.code(),
        same: shares(speaker, user),
    }
}
