//! What an accepted edit changes: all that can be refused comes before the edit is appended.

ghost use Rattle.std.specs.Prelude.{◌≡◌, ◌++◌, ◌-◌, IfOk, IsTrue, OnErr, OnOk, length, take};
ghost use Rattle.mum_state.specs.Applied.{applied};
ghost use Rattle.mum_state.specs.Fits.{fits};
ghost use Rattle.mum_notify.specs.Notices.{FitsFrame, notices};

use crate::telling::notices;
use crate::waiting::NoticeQueue;
use mum_base::OutOfMemory;
use mum_history::EditList;
use mum_state::{Edit, State};
use std::alloc::Global;
use std::mem::drop;

// Puts the notices that report an edit after those that are pending, and gives their number.
fn put_notices(
    alloc: Global,
    pending: &mut NoticeQueue,
    before: &State,
    edit: &Edit,
    after: &State,
) -> Result<usize, OutOfMemory>
    requires { FitsFrame edit.now }
    ensures put { OnOk result (pending.new ≡ pending.old ++ notices before.now edit.now after.now) }
    ensures count { IfOk result (λ count. count ≡ length (notices before.now edit.now after.now)) }
    ensures err { OnErr result (pending.new ≡ pending.old) }
{
    let made = notices(alloc, before, edit, after)?;
    pending.put_all(made.as_slice())?;
    Ok(made.as_slice().len())
}

// The state to which an edit leads, once the notices that report it are after those that are pending, and
// how many these are.
fn report_edit<L: EditList>(
    alloc: Global,
    list: &mut L,
    pending: &mut NoticeQueue,
    edit: &Edit,
) -> Result<(State, usize), OutOfMemory>
    requires fits { IsTrue (fits (L.latest list.old) edit.now) }
    requires frame { FitsFrame edit.now }
    ensures next { IfOk result (λ reported. reported.0 ≡ applied (L.latest list.old) edit.now) }
    ensures count { IfOk result
        (λ reported. reported.1
        ≡ length (notices (L.latest list.old) edit.now (applied (L.latest list.old) edit.now))) }
    ensures same { list.new ≡ list.old }
    ensures put { OnOk result
        (pending.new ≡ pending.old ++ notices (L.latest list.old) edit.now (applied (L.latest list.old) edit.now)) }
    ensures err { OnErr result (pending.new ≡ pending.old) }
{
    let next = list.next_state(edit)?;
    match put_notices(alloc, pending, list.latest(), edit, &next) {
        Ok(count) => Ok((next, count)),
        Err(error) => {
            drop(next);
            Err(error)
        }
    }
}

// Appends an edit that leads to this state. As many of the pending notices report it, and go where memory
// runs out.
fn append_reported<L: EditList>(
    list: &mut L,
    pending: &mut NoticeQueue,
    edit: Edit,
    next: State,
    count: usize,
) -> Result<(), OutOfMemory>
    requires fits { IsTrue (fits (L.latest list.old) edit) }
    requires next { next ≡ applied (L.latest list.old) edit }
    ensures ok { OnOk result (L.appends list.old edit list.new) }
    ensures put { OnOk result (pending.new ≡ pending.old) }
    ensures err { OnErr result (list.new ≡ list.old) }
    ensures none_put { OnErr result (pending.new ≡ take (length pending.old - count) pending.old) }
{
    match list.append(edit, next) {
        Ok(()) => Ok(()),
        Err(error) => {
            pending.take_back(count);
            Err(error)
        }
    }
}

/// Appends an edit, and the notices that report it to those that are pending. Where memory runs out nothing
/// changes, and the edit is gone.
pub fn accept_edit<L: EditList>(
    alloc: Global,
    list: &mut L,
    pending: &mut NoticeQueue,
    edit: Edit,
) -> Result<(), OutOfMemory>
    requires fits { IsTrue (fits (L.latest list.old) edit) }
    requires frame { FitsFrame edit }
    ensures ok { OnOk result (L.appends list.old edit list.new) }
    ensures put { OnOk result
        (pending.new ≡ pending.old ++ notices (L.latest list.old) edit (applied (L.latest list.old) edit)) }
    ensures err { OnErr result (list.new ≡ list.old) }
    ensures none_put { OnErr result (pending.new ≡ pending.old) }
{
    match report_edit(alloc, list, pending, &edit) {
        Ok((next, count)) => append_reported(list, pending, edit, next, count),
        Err(error) => {
            drop(edit);
            Err(error)
        }
    }
}
