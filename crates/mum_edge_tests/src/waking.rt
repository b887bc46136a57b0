//! Whom the threads of a crew wake.

use mum_link::{Hub, LaterRoles};
use std::alloc::Global;
use std::process::Abort;

// The threads of the owner, of the workers, and of the roles after these.
const OWNER: usize = 0;

const WORKERS: usize = 1;

const LATER: usize = 2;

// What three threads share, of which each has one role.
fn hub(rt: &impl Abort, alloc: Global, hear_owner: bool) -> Hub {
    let hub = Hub::new(alloc).expect(rt, "memory");
    hub.share(
        3,
        3,
        LaterRoles {
            count: 1,
            hear_owner,
        },
    );
    hub
}

#[test]
fn a_role_that_hears_the_owner_is_woken_by_it_alone(rt: HostRuntime) {
    let hub = hub(&rt, rt.alloc(), true);
    hub.doze(LATER);
    assert!(&rt; hub.take_sleepers(WORKERS, true).is_empty());
    assert!(&rt; hub.take_sleepers(OWNER, false).has(LATER));
    assert!(&rt; hub.take_sleepers(OWNER, false).is_empty());
    drop(hub);
}

#[test]
fn a_role_that_does_not_hear_the_owner_sleeps_on(rt: HostRuntime) {
    let hub = hub(&rt, rt.alloc(), false);
    hub.doze(LATER);
    hub.doze(OWNER);
    assert!(&rt; hub.take_sleepers(OWNER, false).is_empty());
    assert!(&rt; hub.take_sleepers(LATER, true).is_empty());
    drop(hub);
}

#[test]
fn a_role_that_hears_the_owner_wakes_it_once_no_link_is_open(rt: HostRuntime) {
    let hub = hub(&rt, rt.alloc(), true);
    hub.doze(OWNER);
    hub.doze(WORKERS);
    hub.note_opened();
    assert!(&rt; hub.take_sleepers(LATER, true).is_empty());
    hub.note_shut();
    let woken = hub.take_sleepers(LATER, true);
    assert!(&rt; woken.has(OWNER) && !woken.has(WORKERS));
    drop(hub);
}
