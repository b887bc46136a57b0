//! Edits of the tests, and how they are made.

ghost use Rattle.mum_state.specs.Proper.{IsProper};

use mum_base::{AccountId, ChannelId, Items, Perm, SessionId, Slot, Text};
use mum_policy::{AclEntry, ChannelPolicy, Group, Whom};
use mum_state::{Edit, State};
use mum_tree::ChannelInfo;
use mum_users::ChannelList;
use std::alloc::Global;
use std::process::Abort;

// Makes an edit that fits.
pub(crate) fn take(rt: &impl Abort, state: &mut State, edit: Edit)
    ensures { IsProper state.new }
{
    assert!(rt; state.fits(&edit), "the edit fits");
    state.apply(&edit).expect(rt, "memory");
    drop(edit);
}

// A channel.
pub(crate) fn make(
    rt: &impl Abort,
    alloc: Global,
    id: ChannelId,
    parent: ChannelId,
    name: &str,
) -> Edit {
    Edit::MakeChannel {
        id,
        parent,
        name: Text::of(alloc, name).expect(rt, "memory"),
        temporary: false,
        info: ChannelInfo {
            description: Text::empty(alloc),
            position: 0,
            max_users: 0,
        },
        maker: None,
    }
}

// A channel is linked to others, or moved.
pub(crate) fn edit_channel(
    rt: &impl Abort,
    alloc: Global,
    id: ChannelId,
    parent: Option<ChannelId>,
    links_add: &[ChannelId],
) -> Edit {
    let links_add = Vec::from_slice(alloc, links_add).expect(rt, "memory");
    Edit::EditChannel {
        id,
        actor: None,
        name: None,
        parent,
        description: None,
        position: None,
        max_users: None,
        links_add: Items::from_vec(links_add),
        links_remove: Items::new(alloc),
    }
}

// An entry for a group, which applies here, and perhaps below.
pub(crate) fn entry(
    rt: &impl Abort,
    alloc: Global,
    group: &str,
    subs: bool,
    grant: Perm,
    deny: Perm,
) -> AclEntry {
    AclEntry {
        whom: Whom::Group(Text::of(alloc, group).expect(rt, "memory")),
        here: true,
        subs,
        grant,
        deny,
    }
}

// Gives a channel these groups and entries.
pub(crate) fn set_policy(channel: ChannelId, groups: Items<Group>, acls: Items<AclEntry>) -> Edit {
    Edit::SetAcl {
        channel,
        actor: None,
        policy: ChannelPolicy {
            inherit_acls: true,
            groups,
            acls,
        },
    }
}

// A session joins.
pub(crate) fn join(
    rt: &impl Abort,
    alloc: Global,
    session: SessionId,
    slot: Slot,
    name: &str,
    account: Option<AccountId>,
) -> Edit {
    Edit::Join {
        session,
        slot,
        name: Text::of(alloc, name).expect(rt, "memory"),
        account,
        tokens: Items::new(alloc),
    }
}

// A session enters a channel.
pub(crate) fn enter(
    rt: &impl Abort,
    alloc: Global,
    session: SessionId,
    channel: ChannelId,
) -> Edit {
    let unlisten = ChannelList::from_items(alloc, Items::new(alloc)).expect(rt, "memory");
    Edit::SetUser {
        session,
        actor: session,
        channel: Some(channel),
        mute: None,
        deaf: None,
        clear_suppress: false,
        priority: None,
        self_mute: None,
        self_deaf: None,
        recording: None,
        comment: None,
        context: None,
        listen: Items::new(alloc),
        unlisten,
    }
}
