//! The rounds of an exercise, drawn from a seed by the generator PCG XSH RR 64/32 (O'Neill, "PCG: a
//! family of simple fast space-efficient statistically good algorithms for random number generation").

ghost use Rattle.std.specs.Prelude.{◌≡◌, ◌<◌};
ghost use Rattle.mum_exercise.specs.Draws.{drawn_below, drawn_act, drawn_round, seeded};

use mum_base::ChannelId;
use rand_core::utils::NextWord;
use rand_pcg::Lcg64Xsh32;
use std::marker::Model;

/// How many users an exercise has: those of the connections 1 to 16.
pub const USERS: u32 = 16;

// How many channels an exercise has, with the root: those of the numbers 0 to 7.
const CHANNELS: u32 = 8;

// How many cases a round is drawn from.
const CASES: u32 = 16;

/// What a user does in a round.
#[derive(Clone, Copy)]
pub enum Act {
    /// Speaks: to the channel (target 0), or to the first voice target.
    Talk { target: u8 },
    /// Enters a channel.
    Enter { channel: ChannelId },
    /// Links a channel with the root.
    Link { channel: ChannelId },
    /// Mutes itself, or no longer.
    SetSelfMute { muted: bool },
    /// Listens to a channel from now on.
    Listen { channel: ChannelId },
    /// Sets its first voice target: a channel and those below it.
    Aim { channel: ChannelId },
}

/// A round: who does what.
#[derive(Clone, Copy)]
pub struct Round {
    /// The connection of the user, 1 to 16.
    pub connection: u32,
    pub act: Act,
}

/// The draws of an exercise.
#[derive(Drop)]
pub struct Draws {
    generator: Lcg64Xsh32,
}

impl Model for Draws {
    ghost use Rattle.rand_pcg.specs.Lcg.{Lcg};

    ghost Value = { Lcg };

    ghost view = { λ d. d.generator };
}

impl Draws {
    /// The draws of a seed, on the stream 0.
    pub fn new(seed: u64) -> Draws
        ensures { result ≡ seeded seed }
    {
        Draws {
            generator: Lcg64Xsh32::new(seed, 0),
        }
    }

    // The next word of the generator, modulo a number that is not 0.
    #[tactic(auto, unfolding(crate::specs::Draws::drawn_below))]
    fn below(&mut self, bound: u32) -> u32
        requires { 0 < bound }
        ensures drawn { (result, self.new) ≡ drawn_below bound self.old }
        ensures below { result < bound }
    {
        self.generator.next_word() % bound
    }

    // A channel, by one draw.
    fn channel(&mut self) -> ChannelId
        ensures { (result.0, self.new) ≡ drawn_below CHANNELS self.old }
    {
        ChannelId(self.below(CHANNELS))
    }

    // What is done in the case of this number, by one draw.
    fn act(&mut self, case: u32) -> Act
        ensures { (result, self.new) ≡ drawn_act case self.old }
    {
        match case {
            0..=9 => Act::Talk {
                target: self.below(2) as u8,
            },
            10 | 11 => Act::Enter {
                channel: self.channel(),
            },
            12 => Act::Link {
                channel: self.channel(),
            },
            13 => Act::SetSelfMute {
                muted: self.below(2) == 1,
            },
            14 => Act::Listen {
                channel: self.channel(),
            },
            _ => Act::Aim {
                channel: self.channel(),
            },
        }
    }

    /// The next round, by three draws: its case, its connection, and what its case needs.
    pub fn round(&mut self) -> Round
        ensures { (result, self.new) ≡ drawn_round self.old }
    {
        let case = self.below(CASES);
        let connection = 1 + self.below(USERS);
        let act = self.act(case);
        Round { connection, act }
    }
}
