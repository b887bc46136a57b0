//! What holds of all that is kept, as theorems. The functions do nothing: their contracts are what they say.

ghost use Rattle.mum_cache.specs.Laws.{AnswersWhereItStands, NothingIsSound, OtherPermsStay};
ghost use Rattle.mum_cache.specs.Laws.{OtherRoutesStay, RoutesAnswerWhereTheyStand, SoundStays};

/// What is sound at a state is sound at each state to which fitting edits lead from there.
pub fn sound_stays()
    ensures { SoundStays }
{}

/// Where nothing is kept all that is kept is sound, at every state.
pub fn nothing_is_sound()
    ensures { NothingIsSound }
{}

/// An entry of a session and a channel that are there answers for them exactly where it is valid, and so does
/// the kept route of a speaker that is there.
pub fn answers_where_it_stands()
    ensures perms { AnswersWhereItStands }
    ensures routes { RoutesAnswerWhereTheyStand }
{}

/// A new answer takes no entry whose session and channel, or speaker, are in the state, but the one of what was
/// asked.
pub fn others_stay()
    ensures perms { OtherPermsStay }
    ensures routes { OtherRoutesStay }
{}
