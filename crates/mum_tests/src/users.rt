//! A change of several parts of a session, where memory runs out on the way.

use mum_base::{ChannelId, Items, SessionId, Text};
use mum_users::{ChannelList, FlagChange, Roster, UserChange, UserFault};
use std::alloc::Global;
use std::process::Abort;

const NO_FLAG: FlagChange = FlagChange {
    mute: None,
    deaf: None,
    suppress: None,
    self_mute: None,
    self_deaf: None,
    priority: None,
    recording: None,
};

// A session that listens to channel 6.
fn join(rt: &impl Abort, roster: &mut Roster) -> SessionId {
    let ann = roster.join("ann", None, &[]).expect(rt, "a session");
    roster.listen(ann, ChannelId(6)).expect(rt, "a listener");
    ann
}

// Changes a session in every part. Whether it was changed; if not, memory ran out.
fn change<'a>(
    rt: &impl Abort,
    roster: &mut Roster,
    session: SessionId,
    comment: &'a Text,
    left: &'a ChannelList,
) -> bool {
    let change = UserChange {
        channel: Some(ChannelId(3)),
        flags: FlagChange {
            mute: Some(true),
            ..NO_FLAG
        },
        comment: Some(comment),
        context: Some(b"game"),
        listen: &[ChannelId(4), ChannelId(5)],
        unlisten: left,
    };
    match roster.edit(session, &change) {
        Ok(()) => true,
        Err(fault) => {
            assert_eq!(rt; fault, UserFault::OutOfMemory);
            false
        }
    }
}

// A list of channel 6 alone.
fn list(rt: &impl Abort, alloc: Global) -> ChannelList {
    let mut named = Items::new(alloc);
    named.push(ChannelId(6)).expect(rt, "memory");
    ChannelList::from_items(alloc, named).expect(rt, "memory")
}

// Whichever allocation fails, the session is as it was or changed in every part.
#[test]
fn a_change_is_whole_or_none(rt: HostRuntime) {
    let comment = Text::of(rt.alloc(), "hello").expect(&rt, "memory");
    let left = list(&rt, rt.alloc());
    let mut roster = Roster::new(rt.alloc()).expect(&rt, "memory");
    let ann = join(&rt, &mut roster);
    let done = change(&rt, &mut roster, ann, &comment, &left);
    let row = roster.session(ann).expect(&rt, "a row");
    assert_eq!(rt; row.channel == ChannelId(3), done);
    assert_eq!(rt; row.mute, done);
    assert_eq!(rt; row.comment.as_str() == "hello", done);
    assert_eq!(rt; row.context.as_slice() == b"game".as_slice(), done);
    assert_eq!(rt; roster.listens(ann, ChannelId(4)), done);
    assert_eq!(rt; roster.listens(ann, ChannelId(5)), done);
    assert_eq!(rt; roster.listens(ann, ChannelId(6)), !done);
    drop(roster);
}
