//! Whether siblings have different names.

ghost use Rattle.std.specs.Prelude.{◌≡◌, ◌++◌, ◌||◌, ◌↔◌, IfOk, IsTrue, not};
ghost use Rattle.std.specs.List.{list_any, AllPairs};
ghost use Rattle.mum_tree.specs.Proper.{AreApart};
ghost use Rattle.mum_kept.specs.Good.{is_seat, seat_of, seats_of, seats_taken};
ghost use Rattle.mum_kept.specs.Rows.{is_top, tree_rows};

use crate::found::is_root;
use crate::rows::KeptChannel;
use indexmap::IndexSet;
use mum_base::OutOfMemory;
use std::alloc::Global;

// Takes the seat of a channel, its parent and its name; the root has none. Whether nobody had it.
fn take_seat<'a>(
    seats: &mut IndexSet<(u32, &'a str)>,
    channel: &'a KeptChannel,
) -> Result<bool, OutOfMemory>
    ensures free { IfOk result (λ free. free ≡ (is_top channel.now
        || not (list_any (is_seat (seat_of channel.now)) (seats_of seats.old.keys)))) }
    ensures seats { IfOk result (λ free. IsTrue free →
        seats_of seats.new.keys ≡ seats_of seats.old.keys ++ seats_taken channel.now) }
{
    if is_root(channel.id) {
        return Ok(true);
    }
    Ok(seats.insert((channel.parent.0, channel.name.as_str()))?)
}

// Whether no two channels under one parent have one name. The root is under none.
pub(crate) fn are_apart(alloc: Global, channels: &[KeptChannel]) -> Result<bool, OutOfMemory>
    ensures { IfOk result (λ apart. IsTrue apart ↔ AllPairs AreApart (tree_rows channels.now)) }
{
    let mut seats = IndexSet::new(alloc);
    for channel in channels {
        let free = take_seat(&mut seats, channel)?;
        if !free {
            return Ok(false);
        }
    }
    Ok(true)
}
