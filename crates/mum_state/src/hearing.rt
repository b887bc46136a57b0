//! Sessions whose suppression is set again: whether they may speak where they are.

ghost use Rattle.std.specs.Prelude.{◌≡◌, ◌&&◌, ◌==◌, ◌<◌, ℕ, false, length, position, slice_index_or, take};
ghost use Rattle.std.specs.List.{list_any};
ghost use Rattle.mum_base.specs.declared.number.TheConstants.{SLOTS};
ghost use Rattle.mum_users.specs.Proper.{SlotsRise};
ghost use Rattle.mum_state.specs.Channels.{speaks_where_in};
ghost use Rattle.mum_state.specs.Speakers.{are_alike, is_heard, is_plain, is_speaker};

use crate::channels::Channels;
use crate::followed::mark_where;
use crate::renewed::Renewed;
use mum_base::SLOTS;
use mum_users::{Placement, Placements, User};

// Whether the session has no account and no tokens.
fn is_plain(user: &User) -> bool
    ensures { result ≡ is_plain user.now }
{
    user.account.is_none() && user.tokens.as_slice().is_empty()
}

// Whether both are so, and are in one channel: entries and groups do not distinguish them.
fn are_alike(user: &User, other: &User) -> bool
    ensures { result ≡ are_alike user.now other.now }
{
    is_plain(user) && is_plain(other) && user.channel == other.channel
}

// Whether a slot is marked.
fn is_marked(marks: &[bool], slot: usize) -> bool
    ensures { result ≡ slice_index_or marks.now slot false }
{
    match marks.get(slot) {
        Some(mark) => *mark,
        None => false,
    }
}

// Those in renewed slots, or all, are heard again in these channels.
#[derive(Drop)]
pub(crate) struct Hearing<'a> {
    pub(crate) channels: &'a Channels,
    pub(crate) renewed: &'a Renewed,
    pub(crate) all: bool,
}

impl<'a> Hearing<'a> {
    fn hears(&self, user: &User) -> bool
        ensures { result ≡ is_heard self.now.renewed.now self.now.all user.now }
    {
        self.renewed.has(user.slot) || self.all
    }

    // The place of the first session that is heard and is like this one.
    fn first_alike(&self, users: &[User], user: &User) -> Option<usize>
        ensures { result ≡ position (λ other. are_alike user.now other
            && is_heard self.now.renewed.now self.now.all other) users.now }
    {
        users
            .iter()
            .position(|other| are_alike(user, other) && self.hears(other))
    }

    // Whether the session at a place may speak where it is: as one before it that is like it, or by a walk.
    fn speaks_at(&self, users: &[User], speakers: &[bool], place: usize) -> bool
        requires within { place < length users.now }
        requires slots { SlotsRise SLOTS 0 users.now }
        requires whole { length speakers.now ≡ SLOTS }
        requires so_far { (slot : ℕ) → slice_index_or speakers.now slot false ≡ list_any (λ user. (user.slot.0 == slot)
            && is_speaker self.now.renewed.now self.now.all self.now.channels.now user) (take place users.now) }
        ensures { (d : User) → result ≡ speaks_where_in self.now.channels.now (slice_index_or users.now place d) }
    {
        let user = &users[place];
        if !is_plain(user) {
            return self.channels.may_speak(user);
        }
        match self.first_alike(users, user) {
            Some(first) => {
                if first < place {
                    speakers[users[first].slot.0 as usize]
                } else {
                    self.channels.may_speak(user)
                }
            }
            None => self.channels.may_speak(user),
        }
    }

    // Whether the session at a place is heard, and may speak where it is.
    fn is_speaker(&self, users: &[User], speakers: &[bool], place: usize) -> bool
        requires within { place < length users.now }
        requires slots { SlotsRise SLOTS 0 users.now }
        requires whole { length speakers.now ≡ SLOTS }
        requires so_far { (slot : ℕ) → slice_index_or speakers.now slot false ≡ list_any (λ user. (user.slot.0 == slot)
            && is_speaker self.now.renewed.now self.now.all self.now.channels.now user) (take place users.now) }
        ensures { (d : User) → result
            ≡ is_speaker self.now.renewed.now self.now.all self.now.channels.now (slice_index_or users.now place d) }
    {
        self.hears(&users[place]) && self.speaks_at(users, speakers, place)
    }

    // The slots of those that are heard and may speak where they are. Of sessions that are alike the first
    // alone is asked for by a walk.
    pub(crate) fn speakers(&self, users: &[User]) -> [bool; SLOTS]
        requires { SlotsRise SLOTS 0 users.now }
        ensures { (slot : ℕ) → slice_index_or result slot false ≡ list_any (λ user. (user.slot.0 == slot)
            && is_speaker self.now.renewed.now self.now.all self.now.channels.now user) users.now }
    {
        let mut speakers = [false; SLOTS];
        for place in 0..users.len() {
            let speaks = self.is_speaker(users, &speakers, place);
            mark_where(&mut speakers, users[place].slot.0 as usize, speaks);
        }
        speakers
    }
}

// Those that are heard may speak where they are if their slots are among these.
#[derive(Drop)]
pub(crate) struct Heard<'a> {
    pub(crate) hearing: &'a Hearing<'a>,
    pub(crate) speakers: &'a [bool; SLOTS],
}

impl<'a> Placements for Heard<'a> {
    ghost use Rattle.std.specs.Prelude.{not, if◌then◌else◌};

    ghost placement_of = { λ heard user. record {
      channel = user.channel;
      suppress = (if is_heard heard.hearing.now.renewed.now heard.hearing.now.all user
          then not (slice_index_or heard.speakers.now user.slot.0 false) else user.suppress);
    } };

    fn placement(&self, user: &User) -> Placement {
        let speakers = self.speakers;
        let suppress = if self.hearing.hears(user) {
            !is_marked(speakers, user.slot.0 as usize)
        } else {
            user.suppress
        };
        Placement {
            channel: user.channel,
            suppress,
        }
    }
}
