//! How fast the client of one connection may send.

ghost use Rattle.std.specs.Prelude.{◌≡◌, ◌<◌, None, Some, MatchOption};
ghost use Rattle.mum_pace.specs.Texts.{halves, number_of, pace_of, rate_of, usual_pace};

/// Frames a second in the long run, and how many at once.
#[derive(Clone, Copy, Debug, PartialEq, Eq)]
pub struct Rate {
    pub each_second: u32,
    pub at_once: u32,
}

/// How fast the client of one connection may send. A Ping counts as nothing, a frame of voice as one, and a message as one
/// for each thousand of its bytes that is begun, those of its header among them; after the 128 KiB of a short frame, as
/// one for each 8 KiB.
#[derive(Clone, Copy, Debug, PartialEq, Eq)]
pub enum Pace {
    /// As fast as its line takes it.
    Unlimited,
    /// At these rates: frames of voice, and all others.
    Limited { messages: Rate, voice: Rate },
}

impl Pace {
    /// What applies unless something else is asked for. Clients send 50 to 100 frames of voice a second.
    pub const fn usual() -> Pace
        ensures { result ≡ usual_pace }
    {
        Pace::Limited {
            messages: Rate {
                each_second: 20,
                at_once: 200,
            },
            voice: Rate {
                each_second: 200,
                at_once: 400,
            },
        }
    }

    /// `none`, or two rates as in `20/200,200/400`: of messages, and of voice. No number is 0.
    pub fn from_text(text: &str) -> Option<Pace>
        ensures { result ≡ pace_of text.now }
    {
        if text == "none" {
            return Some(Pace::Unlimited);
        }
        let (messages, voice) = split(text, ',')?;
        Some(Pace::Limited {
            messages: Rate::from_text(messages)?,
            voice: Rate::from_text(voice)?,
        })
    }
}

impl Rate {
    // A rate as in `20/200`: m frames each second, and n at once. Neither is 0.
    fn from_text(text: &str) -> Option<Rate>
        ensures { result ≡ rate_of text.now }
    {
        let (each_second, at_once) = split(text, '/')?;
        Some(Rate {
            each_second: number(each_second)?,
            at_once: number(at_once)?,
        })
    }
}

// What comes before the first such mark, and what after it.
fn split(text: &str, mark: char) -> Option<(&str, &str)>
    requires { mark < 128 }
    ensures { MatchOption result (halves mark text.now ≡ None)
        (λ parts. halves mark text.now ≡ Some (parts.0.now, parts.1.now)) }
{
    text.split_once(mark)
}

// The number that a text says. None of them is 0.
fn number(text: &str) -> Option<u32>
    ensures { result ≡ number_of text.now }
{
    let number: u32 = text.parse().ok()?;
    if number == 0 { None } else { Some(number) }
}
