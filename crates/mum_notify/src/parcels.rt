//! Frames for many sessions.

ghost use Rattle.std.specs.Prelude.{◌≡◌, [], ◌∷◌, ◌++◌, OnOk};
ghost use Rattle.mum_notify.specs.Parcels.{all_to_each, parcel, to_each};

use crate::notice::Notice;
use mum_base::{Octets, OutOfMemory};
use mum_users::User;

// A frame for a session.
pub(crate) fn parcel(bytes: Octets, user: &User) -> Notice
    ensures { result ≡ parcel bytes user.now }
{
    Notice {
        to: user.session,
        slot: user.slot,
        bytes,
        last: false,
    }
}

// One parcel more, of a frame that others may have too.
pub(crate) fn tell_one(
    list: &mut Vec<Notice>,
    user: &User,
    frame: &Octets,
) -> Result<(), OutOfMemory>
    ensures { OnOk result (list.new.items ≡ list.old.items ++ parcel frame.now user.now ∷ []) }
{
    list.push(parcel(frame.share()?, user))?;
    Ok(())
}

// One frame for each of these sessions.
pub(crate) fn tell_each(
    list: &mut Vec<Notice>,
    users: &[User],
    frame: &Octets,
) -> Result<(), OutOfMemory>
    ensures { OnOk result (list.new.items ≡ list.old.items ++ to_each users.now frame.now) }
{
    for user in users {
        tell_one(list, user, frame)?;
    }
    Ok(())
}

// Each frame for each of these sessions, one frame after the other.
pub(crate) fn tell_all(
    list: &mut Vec<Notice>,
    users: &[User],
    frames: &[Octets],
) -> Result<(), OutOfMemory>
    ensures { OnOk result (list.new.items ≡ list.old.items ++ all_to_each users.now frames.now) }
{
    for frame in frames {
        tell_each(list, users, frame)?;
    }
    Ok(())
}
