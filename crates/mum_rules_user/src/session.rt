//! Sessions as messages name them.

ghost use Rattle.std.specs.Prelude.{◌≡◌, IfOk};
ghost use Rattle.mum_rules_user.specs.Asked.{channel_of, channels, is_here, is_oneself, session_numbered, session_or};
ghost use Rattle.mum_rules_user.specs.Limits.{is_protected, is_super_user};

use mum_base::{AccountId, ChannelId, Items, OutOfMemory, SessionId};
use mum_rules_tree::channel_numbered;
use mum_users::{ChannelList, Roster};
use std::alloc::Global;

// The session of a number.
pub(crate) fn session_numbered(number: u32) -> SessionId
    ensures { result ≡ session_numbered number }
{
    SessionId(number)
}

// The session of a number, or the actor where a message has none.
pub(crate) fn session_or(actor: SessionId, number: Option<u32>) -> SessionId
    ensures { result ≡ session_or actor number }
{
    match number {
        Some(number) => SessionId(number),
        None => actor,
    }
}

pub(crate) fn is_here(roster: &Roster, number: u32) -> bool
    ensures { result ≡ is_here roster.now number }
{
    roster.is_here(SessionId(number))
}

pub(crate) fn is_oneself(actor: SessionId, session: SessionId) -> bool
    ensures { result ≡ is_oneself actor session }
{
    actor.0 == session.0
}

// The channel in which a session is; the root where the session is not here.
pub(crate) fn channel_of(roster: &Roster, session: SessionId) -> ChannelId
    ensures { result ≡ channel_of roster.now session }
{
    match roster.session(session) {
        Some(user) => user.channel,
        None => ChannelId::ROOT,
    }
}

fn is_super_user(roster: &Roster, session: SessionId) -> bool
    ensures { result ≡ is_super_user roster.now session }
{
    match roster.session(session) {
        Some(user) => user.account == Some(AccountId::SUPER_USER),
        None => false,
    }
}

// Whether it is SuperUser, and somebody else asks.
pub(crate) fn is_protected(roster: &Roster, actor: SessionId, session: SessionId) -> bool
    ensures { result ≡ is_protected roster.now actor session }
{
    !is_oneself(actor, session) && is_super_user(roster, session)
}

// The channels of these numbers, in their order.
pub(crate) fn channels(alloc: Global, numbers: &[u32]) -> Result<Items<ChannelId>, OutOfMemory>
    ensures { IfOk result (λ listed. listed ≡ channels numbers.now) }
{
    let mut listed = Vec::with_capacity(alloc, numbers.len())?;
    for number in numbers {
        listed.push(channel_numbered(*number))?;
    }
    Ok(Items::from_vec(listed))
}

// The channels of these numbers, in their order, as a list in which one is looked up.
pub(crate) fn channel_list(alloc: Global, numbers: &[u32]) -> Result<ChannelList, OutOfMemory>
    ensures { IfOk result (λ list. list ≡ channels numbers.now) }
{
    let named = channels(alloc, numbers)?;
    ChannelList::from_items(alloc, named)
}
