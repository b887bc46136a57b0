//! What is kept of permissions and of routes, together.

ghost use Rattle.std.specs.Prelude.{◌≡◌, ◌≤◌, IfOk, map};
ghost use Rattle.mum_route.specs.declared.routes.TheConstants.{LOOPBACK};
ghost use Rattle.mum_route.specs.Hearers.{hearers_at, member_of};
ghost use Rattle.mum_route.specs.Route.{route};
ghost use Rattle.mum_cache.specs.Caches.{AreSound};
ghost use Rattle.mum_cache.specs.Perms.{no_perms};
ghost use Rattle.mum_cache.specs.Routes.{KeepsAsked, RouteAnswers, no_routes};

use crate::perms::PermCache;
use crate::routes::RouteCache;
use mum_base::{OutOfMemory, SessionId, Steps};
use mum_route::Audience;
use mum_state::State;
use mum_tree::Scratch;
use std::alloc::Global;
use std::mem::drop;
use std::sync::ledger::Ledger;

/// Answers of a state that are kept for a later one: what sessions may do in channels, and who hears what a session
/// says to a target. Whoever has them says at which state they are sound.
#[derive(Drop)]
pub struct Caches {
    pub perms: PermCache,
    pub routes: RouteCache,
}

impl Caches {
    /// Nothing is kept. All room is reserved here, and no other call takes any; it is resident as far as it was used.
    pub fn new(alloc: Global) -> Result<Caches, OutOfMemory>
        ensures perms { IfOk result (λ caches. caches.perms ≡ no_perms) }
        ensures routes { IfOk result (λ caches. caches.routes ≡ no_routes) }
    {
        let perms = PermCache::new(alloc)?;
        match RouteCache::new(alloc) {
            Ok(routes) => Ok(Caches { perms, routes }),
            Err(error) => {
                drop(perms);
                Err(error)
            }
        }
    }

    /// Who hears what a session says to a target, in place of who was in the audience, as `RouteCache::route_at`
    /// reports it. It takes no memory.
    pub fn route_at<L: Ledger>(
        &mut self,
        state: &State,
        speaker: SessionId,
        target: u8,
        scratch: &mut Scratch,
        steps: &mut Steps<L>,
        audience: &mut Audience,
    )
        requires target { target ≤ LOOPBACK }
        requires sound { AreSound state.now self.old }
        ensures members { map member_of audience.new ≡ route state.now speaker target }
        ensures hearers { audience.new ≡ hearers_at state.now speaker target }
        ensures entry { KeepsAsked state.now speaker target self.old.routes self.new.routes }
        ensures steps { RouteAnswers state.now speaker target self.old.routes → steps.new ≡ steps.old }
        ensures unasked { RouteAnswers state.now speaker target self.old.routes → self.new.perms ≡ self.old.perms }
        ensures sound { AreSound state.now self.new }
    {
        let Caches { perms, routes } = self;
        routes.route_at(perms, state, speaker, target, scratch, steps, audience);
    }
}
