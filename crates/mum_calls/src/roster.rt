//! Changes of a session, one at a time.

use anyhow::{Context, Result};
use mum_base::{ChannelId, SessionId};
use mum_users::{FlagChange, Roster};
use std::alloc::Global;
use std::mem::drop;

const CHANNEL: ChannelId = ChannelId(3);

const MUTED: FlagChange = FlagChange {
    mute: Some(true),
    deaf: None,
    suppress: None,
    self_mute: None,
    self_deaf: None,
    priority: None,
    recording: None,
};

fn say(told: &mut String, roster: &Roster, session: SessionId) -> Result<()> {
    let user = roster.session(session).context("a session")?;
    let (muted, comment) = (user.mute, user.comment.as_str());
    let listens = roster.listens(session, CHANNEL);
    writeln!(told, "muted {muted}, {comment:?}, listens {listens}")?;
    Ok(())
}

fn call_on(told: &mut String, roster: &mut Roster) -> Result<()> {
    let session = roster.join("ann", None, &[])?;
    roster.set_flags(session, MUTED)?;
    roster.set_texts(session, Some("hello"), Some(b"game"))?;
    roster.listen(session, CHANNEL)?;
    say(told, roster, session)?;
    roster.unlisten(session, CHANNEL)?;
    say(told, roster, session)
}

pub fn call(alloc: Global, told: &mut String) -> Result<()> {
    let mut roster = Roster::new(alloc)?;
    let called = call_on(told, &mut roster);
    drop(roster);
    called
}
