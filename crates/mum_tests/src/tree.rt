//! `mum_tree`: a change that memory does not suffice for changes nothing. With ample memory it is made;
//! `rt try --test --fail-alloc N` refuses each allocation in turn.

use mum_base::{ChannelId, Text};
use mum_tree::{ChannelChange, Tree, TreeFault};
use std::alloc::Global;
use std::process::Abort;

const FIRST: ChannelId = ChannelId(1);

const SECOND: ChannelId = ChannelId(2);

fn two_channels(rt: &impl Abort, alloc: Global) -> Tree {
    let mut tree = Tree::new(alloc).expect(rt, "memory");
    let first = tree.add(FIRST, ChannelId::ROOT, "one", false);
    first.expect(rt, "the first channel");
    let second = tree.add(SECOND, ChannelId::ROOT, "two", false);
    second.expect(rt, "the second channel");
    tree
}

// Whether the first channel has this name, parent, description and link.
fn is_as(
    rt: &impl Abort,
    tree: &Tree,
    name: &str,
    parent: ChannelId,
    text: &str,
    link: Option<ChannelId>,
) {
    match tree.channel(FIRST) {
        Some(channel) => {
            assert_eq!(rt; channel.name.as_str(), name);
            assert_eq!(rt; channel.parent, parent);
            assert_eq!(rt; channel.info.description.as_str(), text);
        }
        None => assert!(rt; false, "the channel is gone"),
    }
    assert_eq!(rt; tree.link_at(FIRST, 0), link);
}

#[test]
fn an_edit_is_whole_or_nothing(rt: HostRuntime) {
    let mut tree = two_channels(&rt, rt.alloc());
    let links = [SECOND];
    let words = Text::of(rt.alloc(), "words").expect(&rt, "memory");
    let change = ChannelChange {
        name: Some("uno"),
        parent: Some(SECOND),
        description: Some(&words),
        position: Some(1),
        max_users: Some(2),
        links_add: &links,
        links_remove: &[],
    };
    match tree.edit(FIRST, &change) {
        Ok(()) => is_as(&rt, &tree, "uno", SECOND, "words", Some(SECOND)),
        Err(fault) => {
            assert_eq!(rt; fault, TreeFault::OutOfMemory);
            is_as(&rt, &tree, "one", ChannelId::ROOT, "", None);
        }
    }
    drop(tree);
}
