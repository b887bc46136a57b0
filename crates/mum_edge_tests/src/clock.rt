//! The clock of the system.

use mum_edge::SystemClock;
use mum_io::Clock;

#[test]
fn the_clock_counts_seconds_of_this_century(rt: HostRuntime) {
    let mut clock = SystemClock::new(rt);
    let first = clock.now();
    assert!(rt; (946_684_800..4_102_444_800).contains(&first), "{first}");
    assert!(rt; first <= clock.now());
}
