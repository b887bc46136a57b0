//! Which channels an aim covers.

ghost use Rattle.std.specs.Prelude.{◌≡◌, ℕ, IfSome, IsTrue, None, length, slice_index_or};
ghost use Rattle.mum_base.specs.Channels.{is_among};
ghost use Rattle.mum_tree.specs.Rows.{is_there};
ghost use Rattle.mum_tree.specs.State.{below};
ghost use Rattle.mum_tree.specs.Walks.{linked};
ghost use Rattle.mum_route.specs.Aims.{aimed, covered, AreKnown, AreMarked, IsAnswered};
ghost use Rattle.mum_route.specs.Cover.{spread};
ghost use Rattle.mum_route.specs.Hearing.{may};

use crate::aim::{Aim, Ground};
use crate::hearing::may;
use crate::rights::Rights;
use mum_base::{ChannelId, PLACES, Perm, SessionId, Steps};
use mum_state::State;
use mum_tree::{Scratch, Tree};
use std::sync::ledger::Ledger;

// Whether a channel is marked.
fn is_marked(scratch: &Scratch, channel: ChannelId) -> bool
    ensures { result ≡ is_among scratch.now channel }
{
    scratch.marked(channel)
}

// Whether a channel is the top, or below it.
fn is_below(tree: &Tree, top: ChannelId, channel: ChannelId) -> bool
    ensures { result ≡ is_among (below tree.now top) channel }
{
    tree.is_below(top, channel)
}

// Marks the channels that links lead to, where the ground spreads over links.
pub(crate) fn mark_links(tree: &Tree, ground: Option<Ground>, scratch: &mut Scratch)
    requires { IfSome ground (λ one. IsTrue (is_there tree.now.channels one.top)) }
    ensures { AreMarked tree.now ground scratch.new }
{
    let Some(ground) = ground else {
        return;
    };
    if ground.links {
        tree.linked(ground.top, scratch);
    }
}

impl Ground {
    // Whether the ground spreads over a channel.
    fn reaches(self, tree: &Tree, scratch: &Scratch, channel: ChannelId) -> bool
        requires { IsTrue self.links → scratch.now ≡ linked tree.now self.top }
        ensures { result ≡ is_among (spread tree.now self.links self.children self.top) channel }
    {
        self.top.0 == channel.0
            || self.links && is_marked(scratch, channel)
            || self.children && is_below(tree, self.top, channel)
    }
}

// Nothing is known of any channel yet.
pub(crate) fn nothing_known() -> [Option<bool>; PLACES]
    ensures length { length result ≡ PLACES }
    ensures nothing { (place : ℕ) → slice_index_or result place None ≡ None }
{
    [None; PLACES]
}

// Whether the speaker has a permission in a channel. What is found is kept, by place, and what is
// kept is not looked for again.
pub(crate) fn has_right<T: Rights, L: Ledger>(
    rights: &mut T,
    state: &State,
    speaker: SessionId,
    perm: Perm,
    known: &mut [Option<bool>],
    channel: ChannelId,
    steps: &mut Steps<L>,
) -> bool
    requires sound { T.sound rights.old state.now }
    requires room { length known.old ≡ PLACES }
    requires right { AreKnown state.now speaker perm known.old }
    ensures value { result ≡ may state.now speaker perm channel }
    ensures kept { AreKnown state.now speaker perm known.new }
    ensures sound { T.sound rights.new state.now }
{
    let Some(place) = state.tree().place(channel) else {
        return false;
    };
    let place = place as usize;
    if let Some(answer) = known[place] {
        return answer;
    }
    let answer = may(rights, state, speaker, perm, channel, steps);
    known[place] = Some(answer);
    answer
}

// Whether an aim covers the channel that was asked last.
#[derive(Clone, Copy)]
pub(crate) struct Answer {
    channel: ChannelId,
    covered: bool,
}

// Whether an aim covers a channel.
pub(crate) fn covers<T: Rights, L: Ledger>(
    rights: &mut T,
    state: &State,
    aim: &Aim<'_>,
    known: &mut [Option<bool>],
    channel: ChannelId,
    scratch: &Scratch,
    steps: &mut Steps<L>,
) -> bool
    requires sound { T.sound rights.old state.now }
    requires room { length known.old ≡ PLACES }
    requires right { AreKnown state.now aim.now.speaker aim.now.perm known.old }
    requires marked { AreMarked state.now.tree aim.now.ground scratch.now }
    ensures value { result ≡ is_among (covered state.now (aimed aim.now)) channel }
    ensures kept { AreKnown state.now aim.now.speaker aim.now.perm known.new }
    ensures sound { T.sound rights.new state.now }
{
    let Some(ground) = aim.ground else {
        return false;
    };
    if !ground.reaches(state.tree(), scratch, channel) {
        return false;
    }
    has_right(rights, state, aim.speaker, aim.perm, known, channel, steps)
}

// The same, where what was answered last is kept, and is not looked for again.
pub(crate) fn covers_again<T: Rights, L: Ledger>(
    rights: &mut T,
    state: &State,
    aim: &Aim<'_>,
    known: &mut [Option<bool>],
    last: &mut Option<Answer>,
    channel: ChannelId,
    scratch: &Scratch,
    steps: &mut Steps<L>,
) -> bool
    requires sound { T.sound rights.old state.now }
    requires room { length known.old ≡ PLACES }
    requires right { AreKnown state.now aim.now.speaker aim.now.perm known.old }
    requires last { IsAnswered state.now (aimed aim.now) last.old }
    requires marked { AreMarked state.now.tree aim.now.ground scratch.now }
    ensures value { result ≡ is_among (covered state.now (aimed aim.now)) channel }
    ensures kept { AreKnown state.now aim.now.speaker aim.now.perm known.new }
    ensures last { IsAnswered state.now (aimed aim.now) last.new }
    ensures sound { T.sound rights.new state.now }
{
    if let Some(answer) = *last {
        if answer.channel.0 == channel.0 {
            return answer.covered;
        }
    }
    let covered = covers(rights, state, aim, known, channel, scratch, steps);
    *last = Some(Answer { channel, covered });
    covered
}
