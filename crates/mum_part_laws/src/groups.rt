//! Who is in a group. These functions do nothing: each contract is a theorem.

ghost use Rattle.mum_part_laws.specs.Groups.{GuestsAreInNone, MembersAreByDefinitions};
ghost use Rattle.mum_part_laws.specs.Names.{NamesAreKnown, PrefixesAreRead, SubIsElseOfNobody, SubIsOfWays, TokensAreWords};

/// An account is in a group that channels define exactly where, from the chosen channel up, the nearest definition
/// that names it adds it and does not remove it. A definition that does not inherit ends the way, and so does one
/// above the chosen channel that may not be inherited.
pub fn members_are_by_definitions()
    ensures members { MembersAreByDefinitions }
    ensures guests { GuestsAreInNone }
{}

/// `!` before a name negates it, once, and `~` is read once, in whatever order they are.
pub fn prefixes_are_read()
    ensures { PrefixesAreRead }
{}

/// `#` before a word is for whoever has it as an access token; `all`, `auth`, `in`, `out`, `none` and `strong` are as
/// the manual says, and `$` and an empty name are for nobody.
pub fn names_are_known()
    ensures tokens { TokensAreWords }
    ensures words { NamesAreKnown }
{}

/// `sub` with up to three arguments is for whoever is as far below the channel that the first leads to, down or after
/// a `-` up, as the others say, and with more, or with one that is no argument, for nobody.
pub fn sub_is_of_ways()
    ensures ways { SubIsOfWays }
    ensures nobody { SubIsElseOfNobody }
{}
