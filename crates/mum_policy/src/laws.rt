//! What holds of every answer of a walk, as theorems. The functions do nothing: their contracts are what
//! they say.

ghost use Rattle.mum_policy.specs.Laws.{EntriesDecide, LastNamingEntryDecides, NoWayBelow, NoWayThrough, NobodyHasMore, NothingElseIsTaken, NothingOfTheRootElsewhere, SuperUserMayAll, WriteAddsTheRest};

/// Of the entries that match and apply, from the last channel that does not inherit (or from the root)
/// down to the channel in question, the last that names a permission decides whether it is held; an entry
/// that both grants and denies it denies it. Where none names it, it is held if it is of those that
/// everybody has at first.
pub fn last_naming_entry_decides()
    ensures set { LastNamingEntryDecides }
    ensures answer { EntriesDecide }
{}

/// Write adds everything else but Speak and Whisper: on the root what is of the root too, elsewhere not.
/// Nothing else is added, and nothing is taken but what is of the root, elsewhere.
pub fn write_adds_the_rest()
    ensures adds { WriteAddsTheRest }
    ensures takes { NothingElseIsTaken }
{}

/// Nobody has a permission that does not exist, if no entry grants one, and nobody has a permission of
/// the root in another channel.
pub fn nobody_has_more()
    ensures exist { NobodyHasMore }
    ensures root { NothingOfTheRootElsewhere }
{}

/// Where the matching entries of the channels down to one on the way leave neither Traverse nor Write,
/// nothing is held in the channel in question, be it that one or one below it. An entry matches for the
/// channel in question: one for `in` may close a channel and leave those below it open. Where the entries
/// match there as they do here, nothing is held there either.
pub fn no_way_through()
    ensures through { NoWayThrough }
    ensures below { NoWayBelow }
{}

/// SuperUser may do everything but speak and whisper, whatever the lists say.
pub fn super_user_may_all()
    ensures { SuperUserMayAll }
{}
