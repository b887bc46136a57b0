//! Whether a session has a permission, for those who count no steps.

ghost use Rattle.std.specs.Prelude.{◌≡◌, ◌↔◌, ◌<◌, IsTrue};
ghost use Rattle.std.specs.Option.{option_map};
ghost use Rattle.mum_state.specs.Permissions.{perm_of};
ghost use Rattle.mum_control.specs.Kept.{MayIn};

use mum_base::{ChannelId, Perm, SessionId, Steps};
use mum_state::State;
use std::marker::Brand;
use std::sync::ledger::{Blank, Ledger};

// What a session may do in a channel, over a counter of its own.
fn counted<L: Ledger>(
    blank: Blank,
    state: &State,
    session: SessionId,
    channel: ChannelId,
) -> Option<Perm>
    requires name { blank.name ≡ L.name }
    requires parts { blank.parts ≡ L.parts }
    requires some { 0 < blank.parts }
    ensures { option_map (λ perm. perm.0) result ≡ perm_of state.now session channel }
{
    let mut steps = Steps::<L>::new(blank);
    state.permissions_of(session, channel, &mut steps)
}

// Whether a session has this permission in a channel; not where one of the two is not in the state.
pub(crate) fn holds(state: &State, session: SessionId, perm: Perm, channel: ChannelId) -> bool
    ensures { IsTrue result ↔ MayIn state.now session perm channel }
{
    match counted::<Brand>(Blank::new(1), state, session, channel) {
        Some(held) => held.has(perm),
        None => false,
    }
}
