//! What follows from the definitions, for every book and every session. The function does nothing.

ghost use Rattle.std.specs.Prelude.{◌≡◌, List, IsTrue};
ghost use Rattle.mum_base.specs.declared.number.SessionId.{SessionId};
ghost use Rattle.mum_bans.specs.Answer.{answer};
ghost use Rattle.mum_bans.specs.Limits.{is_sound_book};
ghost use Rattle.mum_bans.specs.declared.ban.Ban.{Ban};
ghost use Rattle.mum_bans.specs.declared.verdict.BanVerdict.TheVariants.{Answer};
ghost use Rattle.mum_frame.specs.Frame.{spelling_of};
ghost use Rattle.mum_session.specs.declared.action.TheConstants.{BAN_LIST};
ghost use Rattle.mum_warden.specs.Answer.{sent};

/// Whoever asks for the bans is sent all of them in one frame.
pub fn answers_are_frames()
    ensures { (bans : List Ban) (session : SessionId) → IsTrue (is_sound_book bans) →
        sent session (Answer (answer bans)) ≡ spelling_of BAN_LIST (answer bans) }
{}
