//! Long frames: how many bytes of them may be under way over all links.

use mum_pace::{LONG_FRAMES_LIMIT, LongFrames, Reservation, SHORT_LIMIT};
use std::alloc::AllocError;
use std::sync::Arc;

// The longest payload of the protocol, of which eight may be under way at once.
const LONGEST: u64 = 8_388_607;

fn put_links(
    links: &mut Vec<Reservation>,
    long_frames: &Arc<LongFrames>,
    count: usize,
) -> Result<(), AllocError> {
    for _ in 0..count {
        links.push(Reservation::new(long_frames.clone()?))?;
    }
    Ok(())
}

// Whether each may go on with a frame of the longest payload.
fn all_cover(links: &mut [Reservation]) -> bool {
    for link in links.iter_mut() {
        if !link.covers(LONGEST) {
            return false;
        }
    }
    true
}

#[test]
fn a_long_frame_reserves_its_whole_length_or_waits(rt: HostRuntime) {
    let long_frames = LongFrames::new(rt.alloc()).expect(&rt, "memory");
    let long_frames = Arc::new(rt.alloc(), long_frames).expect(&rt, "memory");
    let mut links = Vec::new(rt.alloc());
    put_links(&mut links, &long_frames, 9).expect(&rt, "memory");
    let mut last = links.pop().expect(&rt, "a link");
    assert!(rt; all_cover(&mut links));
    // eight bytes are left
    assert!(rt; !last.covers(SHORT_LIMIT + 1));
    assert!(rt; last.covers(SHORT_LIMIT) && last.covers(0));
    assert!(rt; all_cover(&mut links));
    assert!(rt; !last.covers(LONGEST));
    // a link that is dropped gives its part back
    drop(links.pop());
    assert!(rt; last.covers(LONGEST));
    assert!(rt; !last.covers(LONGEST + 9));
}

#[test]
fn a_frame_that_is_whole_gives_its_part_back(rt: HostRuntime) {
    let long_frames = LongFrames::new(rt.alloc()).expect(&rt, "memory");
    let long_frames = Arc::new(rt.alloc(), long_frames).expect(&rt, "memory");
    let mut one = Reservation::new(long_frames.clone().expect(&rt, "memory"));
    let mut other = Reservation::new(long_frames);
    // the greatest number takes all that there is
    assert!(rt; one.covers(u64::from(u32::MAX)));
    assert!(rt; !other.covers(LONGEST));
    one.leave_frames_before(u64::from(u32::MAX));
    assert!(rt; !other.covers(LONGEST));
    one.leave_frames_before(0);
    assert!(rt; other.covers(LONG_FRAMES_LIMIT));
    // after it comes a frame of another length
    assert!(rt; other.covers(LONGEST) && one.covers(LONGEST));
    other.give_back();
    assert!(rt; one.covers(LONG_FRAMES_LIMIT));
}
