//! A change of several parts of a session.

ghost use Rattle.std.specs.Prelude.{◌≡◌, ◌≤◌, ◌&&◌, not, nat_le, nat_lt, count_by};
ghost use Rattle.std.specs.List.{list_any};
ghost use Rattle.mum_base.specs.Channels.{is_among};
ghost use Rattle.mum_users.specs.Edit.{is_crowded, pairs_after, changed_user, user_edit_of};
ghost use Rattle.mum_users.specs.Listeners.{pair_below};
ghost use Rattle.mum_users.specs.Order.{Rises};
ghost use Rattle.mum_users.specs.State.{is_of_channel, is_of_session, is_pair};

use crate::channel_list::ChannelList;
use crate::flags::FlagChange;
use crate::listeners::Listeners;
use crate::listening::{CHANNEL_LISTENERS, LISTENED_CHANNELS, ListenerPair};
use crate::user::{User, change_flags, change_texts};
use mum_base::{ChannelId, Octets, SessionId, Text};

/// A change of several parts of a session at once, as the message UserState of the Mumble protocol
/// carries it. What is `None` stays.
#[derive(Clone, Copy)]
pub struct UserChange<'a> {
    pub channel: Option<ChannelId>,
    pub flags: FlagChange,
    pub comment: Option<&'a Text>,
    /// The plugin context.
    pub context: Option<&'a [u8]>,
    /// Channels to listen to. It may listen to some of them already.
    pub listen: &'a [ChannelId],
    /// Channels to leave. One that is among both is left.
    pub unlisten: &'a ChannelList,
}

fn is_among(channels: &[ChannelId], channel: ChannelId) -> bool
    ensures { result ≡ is_among channels.now channel }
{
    channels.contains(&channel)
}

// Whether the session listens to the channel only after the change.
fn is_new(listeners: &Listeners, session: SessionId, channel: ChannelId, left: &ChannelList) -> bool
    ensures { result ≡ (not (is_among left.now channel)
        && not (list_any (is_pair session channel) listeners.now)) }
{
    !left.contains(channel) && !listeners.has(session, channel)
}

// Whether the channel has as many listeners as it may have, and the session would be one more.
fn crowds(listeners: &Listeners, session: SessionId, channel: ChannelId, left: &ChannelList) -> bool
    ensures { result ≡ (not (is_among left.now channel)
        && not (list_any (is_pair session channel) listeners.now)
        && nat_le CHANNEL_LISTENERS (count_by (is_of_channel channel) listeners.now)) }
{
    is_new(listeners, session, channel, left)
        && listeners.session_count(channel) >= CHANNEL_LISTENERS
}

fn one_crowds(
    listeners: &Listeners,
    session: SessionId,
    channels: &[ChannelId],
    left: &ChannelList,
) -> bool
    ensures { result ≡ list_any (λ channel. not (is_among left.now channel)
        && not (list_any (is_pair session channel) listeners.now)
        && nat_le CHANNEL_LISTENERS (count_by (is_of_channel channel) listeners.now)) channels.now }
{
    channels
        .iter()
        .any(|channel| crowds(listeners, session, *channel, left))
}

// Whether one of the channels has more listeners after the change than it may have, where none has
// before.
pub(crate) fn crowds_one(listeners: &Listeners, session: SessionId, change: &UserChange) -> bool
    requires few { (channel : ChannelId) →
        count_by (is_of_channel channel) listeners.now ≤ CHANNEL_LISTENERS }
    requires rise { Rises pair_below listeners.now }
    ensures { let plain = user_edit_of change.now in
        result ≡ list_any (is_crowded (pairs_after session plain listeners.now)) plain.listen }
{
    one_crowds(listeners, session, change.listen, change.unlisten)
}

// How many of the pairs the session does not leave.
fn staying_count(pairs: &[ListenerPair], left: &ChannelList) -> usize
    ensures { result ≡ count_by (λ pair. not (is_among left.now pair.channel)) pairs.now }
{
    pairs
        .iter()
        .filter(|pair| !left.contains(pair.channel))
        .count()
}

// Whether the channel is one more for the session, after those that come later.
fn is_one_more(
    listeners: &Listeners,
    session: SessionId,
    channel: ChannelId,
    left: &ChannelList,
    later: &[ChannelId],
) -> bool
    ensures { result ≡ (not (is_among left.now channel)
        && not (list_any (is_pair session channel) listeners.now)
        && not (is_among later.now channel)) }
{
    is_new(listeners, session, channel, left) && !is_among(later, channel)
}

// Whether the session listens to more channels after the change than it may.
//
// Each channel is sought among those that come later, up to where it comes again. Only those that are
// new to the session are, of which 33 differ at most, so all these walks together have at most 33 steps
// for each channel of the list. That is a cost, and not proved.
pub(crate) fn listens_to_too_many(
    listeners: &Listeners,
    session: SessionId,
    change: &UserChange,
) -> bool
    requires { Rises pair_below listeners.now }
    ensures { result ≡ nat_lt LISTENED_CHANNELS (count_by (is_of_session session)
        (pairs_after session (user_edit_of change.now) listeners.now)) }
{
    let left = change.unlisten;
    let channels = change.listen;
    let mut count = staying_count(listeners.of_session(session), left);
    let mut rest = channels.len();
    'channels: while rest > 0 && count <= LISTENED_CHANNELS {
        let later = &channels[rest..];
        rest -= 1;
        let channel = channels[rest];
        if is_one_more(listeners, session, channel, left, later) {
            count += 1;
        }
    }
    count > LISTENED_CHANNELS
}

// Changes the row of the session, with these copies of its texts.
pub(crate) fn change_row(
    user: &mut User,
    change: &UserChange,
    comment: Option<Text>,
    context: Option<Octets>,
)
    requires comment { comment ≡ (user_edit_of change.now).comment }
    requires context { context ≡ (user_edit_of change.now).context }
    ensures { user.new ≡ changed_user (user_edit_of change.now) user.old }
{
    user.channel = change.channel.unwrap_or(user.channel);
    change_flags(user, change.flags);
    change_texts(user, comment, context);
}
