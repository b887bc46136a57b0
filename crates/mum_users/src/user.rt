//! The row of a session.

ghost use Rattle.std.specs.Prelude.{◌≡◌, IfOk, unwrap_or};
ghost use Rattle.std.specs.List.{list_any};
ghost use Rattle.std.specs.Option.{option_copied};
ghost use Rattle.mum_users.specs.State.{are_tokens, is_context, is_long_token, joining};
ghost use Rattle.mum_users.specs.Flags.{flagged};

use crate::flags::{FlagChange, Silence, silence_changed};
use mum_base::{AccountId, ChannelId, Items, Octets, OutOfMemory, SessionId, Slot, Text};
use std::alloc::Global;

/// The limit of sessions of a new roster.
pub const DEFAULT_SESSIONS_LIMIT: u16 = 128;

/// The most access tokens of a session.
pub const TOKENS: usize = 64;

/// The most bytes of an access token.
pub const TOKEN_BYTES: usize = 128;

/// The most bytes of a plugin context.
pub const CONTEXT_BYTES: usize = 1024;

/// Whether these are as many access tokens as a session may have, none of them too long.
pub fn are_tokens(tokens: &[Text]) -> bool
    ensures { result ≡ are_tokens tokens.now }
{
    tokens.len() <= TOKENS && !has_long(tokens)
}

fn has_long(tokens: &[Text]) -> bool
    ensures { result ≡ list_any is_long_token tokens.now }
{
    tokens
        .iter()
        .any(|token| token.as_slice().len() > TOKEN_BYTES)
}

/// Whether these bytes are a plugin context, which is not too long.
pub fn is_context(bytes: &[u8]) -> bool
    ensures { result ≡ is_context bytes.now }
{
    bytes.len() <= CONTEXT_BYTES
}

/// A session: a client that is logged in.
#[derive(Drop)]
pub struct User {
    /// Its number, given in order from 1 and never given again.
    pub session: SessionId,
    /// Its place, below the limit of sessions. It is given again once the session is gone.
    pub slot: Slot,
    pub name: Text,
    pub account: Option<AccountId>,
    pub channel: ChannelId,
    pub mute: bool,
    pub deaf: bool,
    /// It may not speak where it is.
    pub suppress: bool,
    pub self_mute: bool,
    pub self_deaf: bool,
    pub priority: bool,
    pub recording: bool,
    /// The access tokens that it gave.
    pub tokens: Items<Text>,
    pub comment: Text,
    /// The plugin context: sessions with equal ones hear each other's positions.
    pub context: Octets,
}

// The same texts in the same order, without a copy of their bytes.
pub(crate) fn shared_texts(alloc: Global, texts: &[Text]) -> Result<Items<Text>, OutOfMemory>
    ensures { IfOk result (λ copy. copy ≡ texts.now) }
{
    let mut copies = Vec::with_capacity(alloc, texts.len())?;
    for text in texts {
        copies.push(text.share()?)?;
    }
    Ok(Items::from_vec(copies))
}

// The row of a session that joins: in the root channel, with no flag and no texts.
pub(crate) fn joining_user(
    alloc: Global,
    session: SessionId,
    slot: Slot,
    name: &str,
    account: Option<AccountId>,
    tokens: &[Text],
) -> Result<User, OutOfMemory>
    ensures { IfOk result (λ user. user ≡ joining session slot name.now account tokens.now) }
{
    Ok(User {
        session,
        slot,
        name: Text::of(alloc, name)?,
        account,
        channel: ChannelId::ROOT,
        mute: false,
        deaf: false,
        suppress: false,
        self_mute: false,
        self_deaf: false,
        priority: false,
        recording: false,
        tokens: shared_texts(alloc, tokens)?,
        comment: Text::empty(alloc),
        context: Octets::from_vec(Vec::new(alloc)),
    })
}

impl User {
    /// A row of its own that is equal. The texts of both are shared.
    pub fn copy(&self, alloc: Global) -> Result<User, OutOfMemory>
        ensures { IfOk result (λ copy. copy ≡ self.now) }
    {
        Ok(User {
            session: self.session,
            slot: self.slot,
            name: self.name.share()?,
            account: self.account,
            channel: self.channel,
            mute: self.mute,
            deaf: self.deaf,
            suppress: self.suppress,
            self_mute: self.self_mute,
            self_deaf: self.self_deaf,
            priority: self.priority,
            recording: self.recording,
            tokens: shared_texts(alloc, self.tokens.as_slice())?,
            comment: self.comment.share()?,
            context: self.context.share()?,
        })
    }
}

// A copy of these bytes, if there are any.
pub(crate) fn copy_of_octets(
    alloc: Global,
    bytes: Option<&[u8]>,
) -> Result<Option<Octets>, OutOfMemory>
    ensures { IfOk result (λ copy. copy ≡ option_copied bytes.entry) }
{
    match bytes {
        None => Ok(None),
        Some(bytes) => Ok(Some(Octets::of(alloc, bytes)?)),
    }
}

// Changes the comment and the context of a row, as far as they are given.
pub(crate) fn change_texts(user: &mut User, comment: Option<Text>, context: Option<Octets>)
    ensures { user.new ≡ record user.old {
      comment = unwrap_or comment user.old.comment;
      context = unwrap_or context user.old.context;
    } }
{
    if let Some(comment) = comment {
        user.comment = comment;
    }
    if let Some(context) = context {
        user.context = context;
    }
}

// Changes the flags of a row.
pub(crate) fn change_flags(user: &mut User, change: FlagChange)
    ensures { user.new ≡ flagged user.old change }
{
    let was = Silence {
        mute: user.mute,
        deaf: user.deaf,
    };
    let by_others = silence_changed(was, change.mute, change.deaf);
    let was = Silence {
        mute: user.self_mute,
        deaf: user.self_deaf,
    };
    let by_self = silence_changed(was, change.self_mute, change.self_deaf);
    user.mute = by_others.mute;
    user.deaf = by_others.deaf;
    user.self_mute = by_self.mute;
    user.self_deaf = by_self.deaf;
    user.suppress = change.suppress.unwrap_or(user.suppress);
    user.priority = change.priority.unwrap_or(user.priority);
    user.recording = change.recording.unwrap_or(user.recording);
}
