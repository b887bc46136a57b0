//! For which cause a change of the channels is refused. These functions do nothing: each contract is a theorem.

ghost use Rattle.mum_part_laws.specs.Trees.{ChangesNameTheFirst, LinksNameTheFirst, MovesNameTheFirst, NamesNameTheFirst, NewChannelsNameTheFirst, RemovalsNameTheFirst};

/// A new channel is refused for the first of these: its parent is not there, another channel there has its name, its
/// parent is temporary, it would be deeper than 32, or there are as many channels as may be.
pub fn new_channels_name_the_first()
    ensures { NewChannelsNameTheFirst }
{}

/// A new name is refused for the first of these: the channel is not there, it is the root, or another channel beside
/// it has the name.
pub fn names_name_the_first()
    ensures { NamesNameTheFirst }
{}

/// A new parent is refused for the first of these: one of the two is not there, it is the root, another channel there
/// has its name, the parent is the channel or below it, the parent is temporary, or a channel would be deeper than 32.
pub fn moves_name_the_first()
    ensures { MovesNameTheFirst }
{}

/// A removal is refused for the first of these: the channel is not there, or it is the root.
pub fn removals_name_the_first()
    ensures { RemovalsNameTheFirst }
{}

/// A new link is refused for the first of these: one of the two is not there, or one of them has 64 links. One of a
/// channel to itself, or that is there, is not refused for links.
pub fn links_name_the_first()
    ensures { LinksNameTheFirst }
{}

/// A change of several parts is refused for the first of these: a channel that it names is not there; its name or its
/// parent changes and it is the root, another channel there has its name, the parent is the channel or below it, the
/// parent is temporary, or a channel would be deeper than 32; or a channel would have more than 64 links.
pub fn changes_name_the_first()
    ensures { ChangesNameTheFirst }
{}
