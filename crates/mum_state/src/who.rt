//! A session as entries of access lists and groups see it.

ghost use Rattle.std.specs.Prelude.{◌≡◌};
ghost use Rattle.mum_policy.specs.Member.{actor_of};
ghost use Rattle.mum_state.specs.Permissions.{actor_at, home};

use arrayvec::ArrayVec;
use mum_base::{ChannelId, Text};
use mum_policy::Who;
use mum_tree::{PATH_LIMIT, Tree};
use mum_users::User;

/// The channels from the root to that of a session, with both; none where that is not there. It takes no
/// memory.
pub fn home_of(tree: &Tree, user: &User) -> ArrayVec<ChannelId, PATH_LIMIT>
    ensures { result.items ≡ home tree.now user.now }
{
    match tree.path(user.channel) {
        Some(path) => path,
        None => ArrayVec::new(),
    }
}

/// A session with these tokens in place of its own, where these channels lead to that of the session.
pub fn who_with<'a>(user: &User, tokens: &'a [Text], home: &'a [ChannelId]) -> Who<'a>
    ensures actor { actor_of result ≡ actor_at home.now user.now tokens.now }
    ensures session { result.session ≡ user.now.session }
{
    Who {
        session: user.session,
        account: user.account,
        channel: user.channel,
        tokens,
        home,
    }
}

/// A session with its own tokens, where these channels lead to that of the session.
pub fn who_is<'a>(user: &'a User, home: &'a [ChannelId]) -> Who<'a>
    ensures actor { actor_of result ≡ actor_at home.now user.now user.now.tokens }
    ensures session { result.session ≡ user.now.session }
{
    who_with(user, user.tokens.as_slice(), home)
}
