//! The caches of the workers: each has some from its first look on.

ghost use Rattle.std.specs.Prelude.{◌≡◌, IfOk, None, Some, length, replicate};
ghost use Rattle.std.specs.Option.{ForSome};
ghost use Rattle.mum_state.specs.State.{StateValue};
ghost use Rattle.mum_cache.specs.Caches.{AreSound};
ghost use Rattle.mum_core.specs.Caches.{caches_at, routes_in};
ghost use Rattle.mum_core.specs.Lists.{changed_at};

use mum_base::OutOfMemory;
use mum_cache::Caches;
use std::alloc::Global;
use std::mem::drop;

/// A place for the caches of each worker. None has any yet.
pub fn places(alloc: Global, count: u8) -> Result<Vec<Option<Caches>>, OutOfMemory>
    ensures none { IfOk result (λ caches. caches.items ≡ replicate count None) }
    ensures count { IfOk result (λ caches. length caches.items ≡ count) }
{
    let mut caches = Vec::new(alloc);
    for _number in 0..count {
        caches.push(None)?;
    }
    Ok(caches)
}

// Takes the caches of the worker at a place, if it has any.
fn take_at(caches: &mut Vec<Option<Caches>>, place: usize) -> Option<Caches>
    ensures taken { result ≡ caches_at caches.old.items place }
    ensures others { caches.new.items ≡ changed_at place (λ _. None) caches.old.items }
{
    caches.get_mut(place)?.take()
}

/// Takes the caches of the worker at a place; new ones where it has none yet. It has none from here on.
pub fn take_own_at(
    alloc: Global,
    caches: &mut Vec<Option<Caches>>,
    place: usize,
) -> Result<Caches, OutOfMemory>
    ensures routes { IfOk result (λ own. own.routes ≡ routes_in (caches_at caches.old.items place)) }
    ensures sound { IfOk result
        (λ own. (state : StateValue) → ForSome (caches_at caches.old.items place) (AreSound state)
        → AreSound state own) }
    ensures others { caches.new.items ≡ changed_at place (λ _. None) caches.old.items }
{
    match take_at(caches, place) {
        Some(own) => Ok(own),
        None => Caches::new(alloc),
    }
}

/// The worker at a place has these caches.
pub fn put_at(caches: &mut Vec<Option<Caches>>, place: usize, own: Caches)
    ensures { caches.new.items ≡ changed_at place (λ _. Some own) caches.old.items }
{
    match caches.get_mut(place) {
        Some(kept) => drop(kept.replace(own)),
        None => drop(own),
    }
}
