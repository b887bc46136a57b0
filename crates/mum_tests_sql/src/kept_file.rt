//! Rows that were kept are in the file, also after it was closed.

use mum_base::{ChannelId, Octets, OutOfMemory, Text};
use mum_keeper::{Change, KeepEnd, Keeper, KeptChannel, KeptRows, Loaded};
use mum_sql_keeper::SqlKeeper;
use mum_tree::ChannelInfo;
use std::alloc::Global;
use std::fs;
use std::mem::drop;
use std::process::Abort;

const PATH: &str = "kept-channels-of-a-test.db";

const DESCRIPTION: &str = "a 'quoted' text";

const POLICY: &[u8] = &[0, 255, 8];

fn channel(alloc: Global, id: u32, name: &str) -> Result<KeptChannel, OutOfMemory> {
    Ok(KeptChannel {
        id: ChannelId(id),
        parent: ChannelId(0),
        name: Text::of(alloc, name)?,
        info: ChannelInfo {
            description: Text::of(alloc, DESCRIPTION)?,
            position: -2_147_483_648,
            max_users: 4_294_967_295,
        },
        policy: Octets::of(alloc, POLICY)?,
    })
}

fn keep(rt: &impl Abort, keeper: &mut SqlKeeper, change: Change) {
    assert_eq!(rt; keeper.keep(&[change]), KeepEnd::Kept);
}

fn put(rt: &impl Abort, alloc: Global, keeper: &mut SqlKeeper, id: u32, name: &str) {
    let channel = channel(alloc, id, name).expect(rt, "memory");
    keep(rt, keeper, Change::Put(channel));
}

fn is_same_info(info: &ChannelInfo) -> bool {
    info.description.as_str() == DESCRIPTION
        && info.position == -2_147_483_648
        && info.max_users == 4_294_967_295
}

fn check_channel(rt: &impl Abort, channel: &KeptChannel, id: u32, name: &str) {
    assert_eq!(rt; (channel.id.0, channel.parent.0), (id, 0));
    assert_eq!(rt; channel.name.as_str(), name);
    assert!(rt; is_same_info(&channel.info));
    assert_eq!(rt; channel.policy.as_slice(), POLICY);
}

fn check_first(rt: &impl Abort, rows: KeptRows) {
    let [root, green, last] = rows.channels.as_slice() else {
        panic!(rt; "three channels are there");
    };
    check_channel(rt, root, 0, "Root");
    check_channel(rt, green, 7, "Grüße");
    check_channel(rt, last, 4_294_967_295, "b");
    let [(low, high)] = *rows.links.as_slice() else {
        panic!(rt; "one link is there");
    };
    assert_eq!(rt; (low.0, high.0), (7, 4_294_967_295));
    drop(rows);
}

fn check_later(rt: &impl Abort, rows: KeptRows) {
    let [root, green] = rows.channels.as_slice() else {
        panic!(rt; "two channels are there");
    };
    check_channel(rt, root, 0, "Root");
    check_channel(rt, green, 7, "c");
    assert!(rt; rows.links.as_slice().is_empty());
    drop(rows);
}

fn check_none(rt: &impl Abort, rows: KeptRows) {
    assert!(rt; rows.channels.as_slice().is_empty());
    assert!(rt; rows.links.as_slice().is_empty());
    drop(rows);
}

fn load(rt: &impl Abort, alloc: Global, keeper: &mut SqlKeeper) -> KeptRows {
    let Loaded::Rows(rows) = keeper.load(alloc) else {
        panic!(rt; "the rows are loaded");
    };
    rows
}

fn keep_first(rt: &impl Abort, alloc: Global, keeper: &mut SqlKeeper) {
    put(rt, alloc, keeper, 0, "Root");
    put(rt, alloc, keeper, 4_294_967_295, "b");
    put(rt, alloc, keeper, 7, "Grüße");
    keep(
        rt,
        keeper,
        Change::Link(ChannelId(4_294_967_295), ChannelId(7)),
    );
}

fn keep_later(rt: &impl Abort, alloc: Global, keeper: &mut SqlKeeper) {
    keep(
        rt,
        keeper,
        Change::Unlink(ChannelId(7), ChannelId(4_294_967_295)),
    );
    keep(rt, keeper, Change::Drop(ChannelId(4_294_967_295)));
    put(rt, alloc, keeper, 7, "c");
}

// Nothing is kept, and nothing is loaded.
fn check_shut(rt: &impl Abort, alloc: Global, keeper: &mut SqlKeeper) {
    assert_eq!(rt; keeper.keep(&[Change::Drop(ChannelId(1))]), KeepEnd::Failed);
    assert!(rt; matches!(keeper.load(alloc), Loaded::Failed));
}

fn open(rt: &impl Abort, keeper: &mut SqlKeeper) {
    assert_eq!(rt; keeper.open(PATH), KeepEnd::Kept);
}

#[test]
fn a_file_keeps_rows(rt: HostRuntime) {
    let alloc = rt.alloc();
    let _not_there = fs::remove_file(&rt, PATH);
    let mut keeper = SqlKeeper::new(rt);
    check_shut(&rt, alloc, &mut keeper);
    open(&rt, &mut keeper);
    check_none(&rt, load(&rt, alloc, &mut keeper));
    keep_first(&rt, alloc, &mut keeper);
    check_first(&rt, load(&rt, alloc, &mut keeper));
    assert_eq!(rt; keeper.close(), KeepEnd::Kept);
    check_shut(&rt, alloc, &mut keeper);
    open(&rt, &mut keeper);
    check_first(&rt, load(&rt, alloc, &mut keeper));
    keep_later(&rt, alloc, &mut keeper);
    check_later(&rt, load(&rt, alloc, &mut keeper));
    drop(keeper);
    let _removed = fs::remove_file(&rt, PATH);
}

fn let_go(keeper: impl Keeper + Send) {
    drop(keeper);
}

#[test]
fn a_keeper_may_go_to_another_thread(rt: HostRuntime) {
    let_go(SqlKeeper::new(rt));
}
