//! The rows of sessions, by their slots.

ghost use Rattle.std.specs.Prelude.{◌≡◌, ◌≤◌, not, [], ◌∷◌, IfOk, MatchOption, filter, find, length, position};
ghost use Rattle.std.specs.List.{list_any};
ghost use Rattle.std.specs.Option.{option_copied};
ghost use Rattle.mum_users.specs.Numbers.{is_slot_of, number_below, IsNumbered};
ghost use Rattle.mum_users.specs.Order.{Rises};
ghost use Rattle.mum_users.specs.Sessions.{free_slot_from};
ghost use Rattle.mum_users.specs.State.{has_name, has_number, has_slot};
ghost use Rattle.mum_users.specs.Proper.{SlotsRise};

use crate::user::User;
use mum_base::{OutOfMemory, SLOTS, SessionId, Slot};
use std::alloc::Global;

// A session with its slot.
#[derive(Clone, Copy)]
pub(crate) struct SessionSlot {
    pub session: SessionId,
    pub slot: Slot,
}

// The slot of a session, found by binary search.
fn slot_of(slots: &[SessionSlot], session: SessionId) -> Option<Slot>
    requires { Rises number_below slots.now }
    ensures { MatchOption result (filter (is_slot_of session) slots.now ≡ []) (λ slot.
        filter (is_slot_of session) slots.now ≡ record { session = session; slot = slot } ∷ []) }
{
    match slots.binary_search_by_key(&session.0, |own| own.session.0) {
        Ok(index) => Some(slots[index].slot),
        Err(_) => None,
    }
}

// The place of the row in a slot, found by binary search.
fn place_of(users: &[User], slot: Slot) -> Option<usize>
    requires { SlotsRise SLOTS 0 users.now }
    ensures { result ≡ position (has_slot slot) users.now }
{
    match users.binary_search_by_key(&slot.0, |user| user.slot.0) {
        Ok(index) => Some(index),
        Err(_) => None,
    }
}

// Whether a session is here, found by binary search.
pub(crate) fn is_here(users: &[User], slots: &[SessionSlot], session: SessionId) -> bool
    requires rise { SlotsRise SLOTS 0 users.now }
    requires numbered { IsNumbered users.now slots.now }
    ensures { result ≡ list_any (has_number session) users.now }
{
    index_of(users, slots, session).is_some()
}

pub(crate) fn name_in_use(users: &[User], name: &str) -> bool
    ensures { result ≡ list_any (has_name name.now) users.now }
{
    users.iter().any(|user| user.name.as_str() == name)
}

// The place of the row of a session, found by binary search.
pub(crate) fn index_of(users: &[User], slots: &[SessionSlot], session: SessionId) -> Option<usize>
    requires rise { SlotsRise SLOTS 0 users.now }
    requires numbered { IsNumbered users.now slots.now }
    ensures { result ≡ position (has_number session) users.now }
{
    match slot_of(slots, session) {
        None => None,
        Some(slot) => place_of(users, slot),
    }
}

// The row of a session, found by binary search.
pub(crate) fn row_of<'a>(
    users: &'a [User],
    slots: &[SessionSlot],
    session: SessionId,
) -> Option<&'a User>
    requires rise { SlotsRise SLOTS 0 users.now }
    requires numbered { IsNumbered users.now slots.now }
    ensures { option_copied result ≡ find (has_number session) users.now }
{
    match index_of(users, slots, session) {
        None => None,
        Some(index) => Some(&users[index]),
    }
}

// Takes the row of a session out.
pub(crate) fn take_user(users: &mut Vec<User>, session: SessionId)
    ensures { users.new.items ≡ filter (λ user. not (has_number session user)) users.old.items }
{
    users.retain(|user| user.session != session);
}

// Takes the slot of a session out.
pub(crate) fn take_slot(slots: &mut Vec<SessionSlot>, session: SessionId)
    ensures { slots.new.items ≡ filter (λ own. not (is_slot_of session own)) slots.old.items }
{
    slots.retain(|own| own.session != session);
}

// Equal rows in the same order.
pub(crate) fn copy_of_users(alloc: Global, users: &[User]) -> Result<Vec<User>, OutOfMemory>
    ensures { IfOk result (λ copy. copy.items ≡ users.now) }
{
    let mut copies = Vec::with_capacity(alloc, SLOTS.max(users.len()))?;
    for user in users {
        copies.push(user.copy(alloc)?)?;
    }
    Ok(copies)
}

// The row in a slot, found by binary search.
pub(crate) fn row_at(users: &[User], slot: Slot) -> Option<&User>
    requires { SlotsRise SLOTS 0 users.now }
    ensures { option_copied result ≡ find (has_slot slot) users.now }
{
    match place_of(users, slot) {
        None => None,
        Some(index) => Some(&users[index]),
    }
}

// The least slot that no row has.
pub(crate) fn free_slot(users: &[User]) -> usize
    ensures least { result ≡ free_slot_from 0 users.now }
    ensures within { result ≤ length users.now }
{
    for (slot, user) in users.iter().enumerate() {
        if user.slot.0 as usize != slot {
            return slot;
        }
    }
    users.len()
}
