//! The notices that the connection of each slot has still to collect.

ghost use Rattle.std.specs.Prelude.{◌≡◌, [], ◌∷◌, ◌++◌, length, IfOk, OnErr, OnOk, drop, nat_lt, replicate, slice_index_or};
ghost use Rattle.mum_core.specs.Lists.{changed_at};
ghost use Rattle.mum_base.specs.declared.number.TheConstants.{SLOTS as slots};

use mum_base::{OutOfMemory, POST_CAPACITY, SLOTS};
use mum_notify::{Notice, NoticeQueue};
use std::alloc::Global;

/// Posts for each slot.
pub fn empty_posts(alloc: Global) -> Result<Vec<NoticeQueue>, OutOfMemory>
    ensures empty { IfOk result (λ posts. posts.items ≡ replicate slots []) }
    ensures count { IfOk result (λ posts. length posts.items ≡ slots) }
{
    let mut posts = Vec::new(alloc);
    for _slot in 0..SLOTS {
        posts.push(NoticeQueue::new(alloc))?;
    }
    Ok(posts)
}

fn has_room(posts: &NoticeQueue) -> bool
    ensures { result ≡ nat_lt (length posts.now) POST_CAPACITY }
{
    posts.len() < POST_CAPACITY
}

/// Whether the posts at a place have room; there is room where there are none.
pub fn has_room_at(posts: &[NoticeQueue], place: usize) -> bool
    ensures { result ≡ nat_lt (length (slice_index_or posts.now place [])) POST_CAPACITY }
{
    match posts.get(place) {
        Some(found) => has_room(found),
        None => true,
    }
}

/// Puts a notice at the back of the posts at a place.
pub fn put_at(posts: &mut Vec<NoticeQueue>, place: usize, notice: Notice) -> Result<(), OutOfMemory>
    ensures ok { OnOk result (posts.new.items ≡ changed_at place (λ notices. notices ++ notice ∷ []) posts.old.items) }
    ensures err { OnErr result (posts.new.items ≡ posts.old.items) }
{
    match posts.get_mut(place) {
        Some(found) => found.put(notice),
        None => Ok(()),
    }
}

/// The notice at the front of the posts at a place goes.
pub fn drop_front_at(posts: &mut Vec<NoticeQueue>, place: usize)
    ensures { posts.new.items ≡ changed_at place (λ notices. drop 1 notices) posts.old.items }
{
    if let Some(found) = posts.get_mut(place) {
        found.drop_front();
    }
}
