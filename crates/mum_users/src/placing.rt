//! Where sessions are, and whether they may speak there, set for all of them at once.

ghost use Rattle.std.specs.Prelude.{◌≡◌, map};
ghost use Rattle.std.specs.List.{list_any};
ghost use Rattle.mum_users.specs.Placed.{is_moved, with_placement};

use crate::user::User;
use mum_base::ChannelId;

/// Where a session is, and whether it may speak there.
#[derive(Clone, Copy)]
pub struct Placement {
    pub channel: ChannelId,
    /// It may not speak there.
    pub suppress: bool,
}

/// A placement for each session.
pub trait Placements {
    ghost use Rattle.mum_users.specs.declared.user.User.{User};
    ghost use Rattle.mum_users.specs.declared.placing.Placement.{Placement};

    /// The placement of each session.
    ghost placement_of: { Self → User → Placement };

    fn placement(&self, user: &User) -> Placement
        ensures { result ≡ placement_of self.now user.now };
}

// Applies the placement of a session. Says whether it is in another channel.
fn apply_placement(user: &mut User, placement: Placement) -> bool
    ensures placed { user.new ≡ with_placement (λ _. placement) user.old }
    ensures moved { result ≡ is_moved (λ _. placement) user.old }
{
    let moved = placement.channel != user.channel;
    user.channel = placement.channel;
    user.suppress = placement.suppress;
    moved
}

// Applies the placement of each session. Says whether one of them is in another channel.
pub(crate) fn place_each<S: Placements>(users: &mut Vec<User>, placements: &S) -> bool
    ensures placed { users.new.items ≡ map (with_placement (S.placement_of placements.now)) users.old.items }
    ensures moved { result ≡ list_any (is_moved (S.placement_of placements.now)) users.old.items }
{
    let mut moved = false;
    for user in users.iter_mut() {
        let placement = placements.placement(user);
        let here = apply_placement(user, placement);
        moved |= here;
    }
    moved
}
