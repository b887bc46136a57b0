//! What a client has used up of a rate.

ghost use Rattle.std.specs.Prelude.{◌<◌, ◌^◌};

use crate::pace::Rate;

// What one frame takes of a rate, which is counted in thousandths.
pub(crate) const FRAME: u64 = 1000;

// What a client has used up of a rate, in thousandths of a frame. Time gives it back.
#[derive(Clone, Copy)]
pub(crate) struct Used {
    thousandths: u64,
    ghost fits: { thousandths < 2 ^ 64 },
}

impl Used {
    ghost use Rattle.std.specs.Prelude.{◌≡◌, ◌<◌, ◌^◌};
    ghost use Rattle.mum_pace.specs.Meters.{given_back, used_with};
    ghost use Rattle.mum_pace.specs.Meters as spec;

    pub(crate) fn nothing() -> Used
        ensures { result.thousandths ≡ 0 }
    {
        Used { thousandths: 0 }
    }

    pub(crate) fn add_frames(&mut self, frames: u64)
        ensures { self.new.thousandths ≡ used_with self.old.thousandths frames }
    {
        let added = frames.saturating_mul(FRAME);
        self.thousandths = self.thousandths.saturating_add(added);
    }

    pub(crate) fn give_back(&mut self, rate: Rate, milliseconds: u64)
        ensures { self.new.thousandths ≡ given_back rate milliseconds self.old.thousandths }
    {
        let returned = milliseconds.saturating_mul(u64::from(rate.each_second));
        self.thousandths = self.thousandths.saturating_sub(returned);
    }

    // How many frames a rate has room for.
    pub(crate) fn room(&self, rate: Rate) -> u64
        ensures room { result ≡ spec.room rate self.now.thousandths }
        ensures small { result < 2 ^ 32 }
    {
        (u64::from(rate.at_once) * FRAME).saturating_sub(self.thousandths) / FRAME
    }
}
