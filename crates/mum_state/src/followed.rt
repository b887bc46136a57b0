//! What follows from an edit, as it is known before the edit is made.

ghost use Rattle.std.specs.Prelude.{◌≡◌, ◌==◌, ◌&&◌, ◌||◌, ◌<◌, ℕ, IsTrue, false, length, slice_index_or, slice_set};
ghost use Rattle.std.specs.List.{list_any};
ghost use Rattle.mum_tree.specs.Rows.{is_below};
ghost use Rattle.mum_users.specs.Proper.{SlotsRise};
ghost use Rattle.mum_users.specs.State.{has_number};
ghost use Rattle.mum_base.specs.declared.number.TheConstants.{SLOTS};
ghost use Rattle.mum_state.specs.Counts.{renews};
ghost use Rattle.mum_state.specs.Fits.{fits};
ghost use Rattle.mum_state.specs.Followed.{enters, is_slot_of_maker, left_by, temporary_around};
ghost use Rattle.mum_state.specs.Proper.{IsProper};
ghost use Rattle.mum_state.specs.Renewed.{is_renewed_slot};

use crate::edit::Edit;
use crate::kind::may_renew;
use crate::parts::Parts;
use crate::renewed::Renewed;
use mum_base::{ChannelId, SLOTS, SessionId};
use mum_tree::Tree;
use mum_users::User;

// Whether the session is not in the channel that is given.
fn enters(channel: Option<ChannelId>, user: &User) -> bool
    ensures { result ≡ enters channel user.now }
{
    match channel {
        Some(id) => user.channel.0 != id.0,
        None => false,
    }
}

// Marks the slot, if it is to be marked.
pub(crate) fn mark_where(marks: &mut [bool], slot: usize, is_marked: bool)
    requires { slot < length marks.old }
    ensures { marks.new ≡ slice_set marks.old slot (slice_index_or marks.old slot false || is_marked) }
{
    marks[slot] = marks[slot] || is_marked;
}

// The slots of the sessions in a channel or below it.
fn slots_below(tree: &Tree, users: &[User], id: ChannelId) -> [bool; SLOTS]
    requires { SlotsRise SLOTS 0 users.now }
    ensures { (slot : ℕ) → slice_index_or result slot false ≡ list_any (λ user.
        (user.slot.0 == slot) && is_below tree.now.channels id user.channel) users.now }
{
    let mut marks = [false; SLOTS];
    for user in users {
        let below = tree.is_below(id, user.channel);
        mark_where(&mut marks, user.slot.0 as usize, below);
    }
    marks
}

// The slot of a session, or none.
fn slot_if(user: &User, is_renewed: bool) -> Renewed
    ensures { (slot : ℕ) → is_renewed_slot result slot ≡ ((user.now.slot.0 == slot) && is_renewed) }
{
    if is_renewed {
        Renewed::One(user.slot)
    } else {
        Renewed::Nobody
    }
}

impl Parts {
    // The slot of a session.
    fn slot_of(&self, session: SessionId) -> Renewed
        ensures { (slot : ℕ) → is_renewed_slot result slot ≡ list_any (λ user.
            has_number session user && (user.slot.0 == slot)) self.now.roster.sessions }
    {
        match self.roster.session(session) {
            Some(user) => Renewed::One(user.slot),
            None => Renewed::Nobody,
        }
    }

    // The slot of a session, if it is not in the channel that is given.
    fn slot_entering(&self, session: SessionId, channel: Option<ChannelId>) -> Renewed
        ensures { (slot : ℕ) → is_renewed_slot result slot ≡ list_any (λ user.
            has_number session user && ((user.slot.0 == slot) && enters channel user)) self.now.roster.sessions }
    {
        match self.roster.session(session) {
            Some(user) => slot_if(user, enters(channel, user)),
            None => Renewed::Nobody,
        }
    }

    // The slot of the maker of a temporary channel.
    fn slot_of_maker(&self, temporary: bool, maker: Option<SessionId>) -> Renewed
        ensures { (slot : ℕ) → is_renewed_slot result slot
            ≡ is_slot_of_maker temporary maker self.now.roster.sessions slot }
    {
        match maker {
            Some(maker) => {
                if temporary {
                    self.slot_of(maker)
                } else {
                    Renewed::Nobody
                }
            }
            None => Renewed::Nobody,
        }
    }

    // For whom an edit that fits makes what was computed of a session out of date.
    pub(crate) fn renewed_by(&self, edit: &Edit) -> Renewed
        requires proper { IsProper self.now }
        requires fits { IsTrue (fits self.now edit.now) }
        ensures { (slot : ℕ) → is_renewed_slot result slot ≡ renews self.now edit.now slot }
    {
        if !may_renew(edit) {
            return Renewed::Nobody;
        }
        match *edit {
            Edit::Join { slot, .. } => Renewed::One(slot),
            Edit::SetTokens { session, .. } => self.slot_of(session),
            Edit::SetUser {
                session,
                channel,
                ..
            } => self.slot_entering(session, channel),
            Edit::MakeChannel {
                temporary,
                maker,
                ..
            } => self.slot_of_maker(temporary, maker),
            Edit::RemoveChannel { id, .. } => Renewed::Those(slots_below(
                self.channels.tree(),
                self.roster.users(),
                id,
            )),
            _ => unreachable!(),
        }
    }

    // The channel in which a session is, if it is temporary.
    fn temporary_around(&self, session: SessionId) -> Option<ChannelId>
        ensures { result ≡ temporary_around self.now session }
    {
        let around = match self.roster.session(session) {
            Some(user) => user.channel,
            None => return None,
        };
        match self.channels.tree().channel(around) {
            Some(channel) if channel.temporary => Some(around),
            _ => None,
        }
    }

    // The temporary channel that an edit may empty.
    pub(crate) fn left_by(&self, edit: &Edit) -> Option<ChannelId>
        ensures { result ≡ left_by self.now edit.now }
    {
        match *edit {
            Edit::Leave { session } | Edit::Kick { session, .. } => self.temporary_around(session),
            Edit::MakeChannel {
                temporary: true,
                maker: Some(maker),
                ..
            } => self.temporary_around(maker),
            Edit::SetUser {
                session,
                channel: Some(_),
                ..
            } => self.temporary_around(session),
            _ => None,
        }
    }
}
