//! The replies that the owner makes itself. Each has the roll of accepted logins as it is then.

ghost use Rattle.std.specs.Prelude.{◌≡◌};
ghost use Rattle.mum_warden.specs.Answer.{refusal as banned_frame};
ghost use Rattle.mum_owner.specs.Banning.{ban_reply, list_reply};
ghost use Rattle.mum_owner.specs.Given.{refusal};

use mum_base::{Octets, ReplyEnd};
use mum_published::{Naming, Reply, Roll};
use std::alloc::Global;

// Memory ran out before anything was decided.
pub(crate) fn refusal<N: Naming>(alloc: Global, connection: u32, roll: Roll) -> Reply<N>
    requires { roll.book ≡ N.opening.roll }
    ensures { result ≡ refusal roll.log connection }
{
    Reply::new(
        connection,
        ReplyEnd::Decided,
        None,
        Octets::from_vec(Vec::new(alloc)),
        true,
        roll,
    )
}

// A login is refused, by the frame that says so.
pub(crate) fn ban_reply<N: Naming>(connection: u32, wire: Octets, roll: Roll) -> Reply<N>
    requires wire { wire ≡ banned_frame }
    requires roll { roll.book ≡ N.opening.roll }
    ensures { result ≡ ban_reply roll.log connection }
{
    Reply::new(connection, ReplyEnd::Rejected, None, wire, false, roll)
}

// A list of bans was decided, and is answered by these bytes.
pub(crate) fn list_reply<N: Naming>(connection: u32, wire: Octets, roll: Roll) -> Reply<N>
    requires { roll.book ≡ N.opening.roll }
    ensures { result ≡ list_reply roll.log connection wire }
{
    Reply::new(connection, ReplyEnd::Decided, None, wire, false, roll)
}
