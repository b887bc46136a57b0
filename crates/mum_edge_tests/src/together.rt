//! The roles of a crew work beside each other.

use mum_crew::{Crew, CrewEnd, Role, Turn};
use mum_edge::Machine;
use mum_pace::Pace;
use std::alloc::{AllocError, Global};
use std::sync::Arc;
use std::sync::atomic::{AtomicBool, AtomicU64, Ordering};
use std::thread;

// As many roles as threads: the owner's, two of workers, and one after these.
const ROLES: u64 = 4;

const LATER_ROLES: usize = 1;

// How often a role asks whether all others have come, before the test fails.
const TRIES: u32 = 1_000_000;

// Where all roles are to be at once.
#[derive(Drop)]
struct Meeting {
    came: AtomicU64,
    was_in_vain: AtomicBool,
}

impl Meeting {
    fn new() -> Meeting {
        Meeting {
            came: AtomicU64::new(0),
            was_in_vain: AtomicBool::new(false),
        }
    }

    // Comes, and stays until all are there, or were waited for too long.
    fn attend(&self) {
        self.came.fetch_add(1, Ordering::SeqCst);
        if !self.is_complete() {
            self.was_in_vain.store(true, Ordering::SeqCst);
        }
    }

    fn is_complete(&self) -> bool {
        for _ in 0..TRIES {
            if self.came.load(Ordering::SeqCst) == ROLES {
                return true;
            }
            thread::yield_now();
        }
        false
    }
}

// A role that attends the meeting in its only turn.
#[derive(Drop)]
struct Attendant {
    meeting: Arc<Meeting>,
    is_done: bool,
}

impl Role for Attendant {
    ghost use Rattle.std.specs.Prelude.{⊤};

    type Opening = u8;

    ghost opening = { λ _. 0 };

    ghost has_ended = { λ a. a.is_done };

    ghost turned = { λ _ _ _. ⊤ };

    fn turn(&mut self) -> Turn {
        self.meeting.attend();
        self.is_done = true;
        Turn::Done
    }
}

fn put_attendants(roles: &mut Vec<Attendant>, meeting: &Arc<Meeting>) -> Result<(), AllocError> {
    for _ in 0..ROLES {
        roles.push(Attendant {
            meeting: meeting.clone()?,
            is_done: false,
        })?;
    }
    Ok(())
}

#[test]
fn a_crew_runs_its_roles_together(rt: HostRuntime) {
    let alloc: Global = rt.alloc();
    let meeting = Arc::new(alloc, Meeting::new()).expect(&rt, "memory");
    let mut roles = Vec::new(alloc);
    put_attendants(&mut roles, &meeting).expect(&rt, "memory");
    let Machine { mut crew, .. } = Machine::quiet(
        rt,
        alloc,
        ROLES as usize - LATER_ROLES,
        LATER_ROLES,
        Pace::Unlimited,
    )
    .expect(&rt, "a machine");
    let end = crew.run(alloc, roles).end;
    assert_eq!(rt; end, CrewEnd::Ran);
    assert!(rt; !meeting.was_in_vain.load(Ordering::SeqCst));
    // its threads have their stations back
    let again = Arc::new(alloc, Meeting::new()).expect(&rt, "memory");
    let mut roles = Vec::new(alloc);
    put_attendants(&mut roles, &again).expect(&rt, "memory");
    assert_eq!(rt; crew.run(alloc, roles).end, CrewEnd::Ran);
    assert!(rt; !again.was_in_vain.load(Ordering::SeqCst));
    assert_eq!(rt; crew.late_rounds(), 0);
}
