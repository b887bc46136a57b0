//! What holds of trees, as theorems. The functions do nothing: their contracts are what they say.

ghost use Rattle.std.specs.Prelude.{◌≡◌, ◌<◌, ◌↔◌, ℕ, Bool, false, List, None, IsTrue};
ghost use Rattle.std.specs.List.{list_all};
ghost use Rattle.mum_tree.specs.Change.{fault_of_edit, names_there, overlinks, with_change, Change};
ghost use Rattle.mum_base.specs.declared.number.ChannelId.{ChannelId};
ghost use Rattle.mum_tree.specs.Proper.{AreLinks, IsProper};
ghost use Rattle.mum_tree.specs.Refusals.{fault_of_add, fault_of_link, fault_of_move};
ghost use Rattle.mum_tree.specs.Refusals.{fault_of_remove, fault_of_rename};
ghost use Rattle.mum_tree.specs.Rows.{is_root, is_there};
ghost use Rattle.mum_tree.specs.State.{TreeState, with_link, with_name, with_new};
ghost use Rattle.mum_tree.specs.State.{with_parent, without_subtree};
ghost use Rattle.mum_tree.specs.Places.{least_place, IsLeastFree};
ghost use Rattle.mum_tree.specs.declared.channel.Row.{Row};

use crate::channel::{CHANNEL_LIMIT, PATH_LIMIT};
use crate::links::CHANNEL_LINK_LIMIT;

/// The limits of a tree.
pub fn limits()
    ensures channels { CHANNEL_LIMIT ≡ 1024 }
    ensures path { PATH_LIMIT ≡ 33 }
    ensures links { CHANNEL_LINK_LIMIT ≡ 64 }
{}

/// A new channel has a place that no channel has, and each lower one is had.
pub fn places_of_new_channels()
    ensures { (rows : List Row) → IsLeastFree rows (least_place rows) }
{}

/// With a new channel a tree is a tree exactly where no cause against it applies.
pub fn new_channels()
    ensures { (tree : TreeState) (id parent : ChannelId) (name : List ℕ)
        (temporary : Bool) → IsProper tree → tree.greatest < id.0 →
        (fault_of_add tree id parent name ≡ None) ↔
        IsProper (with_new tree id parent name temporary) }
{}

/// Without a channel that is there, and all below it, a tree is a tree exactly where no cause
/// against it applies.
pub fn removals()
    ensures { (tree : TreeState) (id : ChannelId) → IsProper tree →
        IsTrue (is_there tree.channels id) →
        (fault_of_remove tree id ≡ None) ↔ IsProper (without_subtree tree id) }
{}

/// After a change the links are those of a tree exactly where it leaves no channel too many of
/// them.
pub fn changed_links()
    ensures { (tree : TreeState) (id : ChannelId) (change : Change) →
        IsProper tree → IsTrue (is_there tree.channels id) →
        IsTrue (list_all (is_there tree.channels) change.links_add) →
        (overlinks tree id change ≡ false) ↔
        AreLinks tree.channels (with_change tree id change).links }
{}

/// After a change of a channel, in which each channel named is there, a tree is a tree exactly
/// where no cause against it applies.
pub fn edits()
    ensures { (tree : TreeState) (id : ChannelId) (change : Change) →
        IsProper tree → IsTrue (names_there tree id change) →
        (fault_of_edit tree id change ≡ None) ↔ IsProper (with_change tree id change) }
{}

/// With a new name of a channel that is not the root, a tree is a tree exactly where no cause
/// against it applies.
pub fn renamings()
    ensures { (tree : TreeState) (id : ChannelId) (name : List ℕ) →
        IsProper tree → IsTrue (is_there tree.channels id) → is_root id ≡ false →
        (fault_of_rename tree id name ≡ None) ↔ IsProper (with_name tree id name) }
{}

/// With a new parent of a channel that is not the root, a tree is a tree exactly where no cause
/// against it applies.
pub fn moves()
    ensures { (tree : TreeState) (id parent : ChannelId) → IsProper tree →
        IsTrue (is_there tree.channels id) → IsTrue (is_there tree.channels parent) →
        is_root id ≡ false →
        (fault_of_move tree id parent ≡ None) ↔ IsProper (with_parent tree id parent) }
{}

/// With a link between two channels that are there, a tree is a tree exactly where no cause
/// against it applies.
pub fn new_links()
    ensures { (tree : TreeState) (a b : ChannelId) → IsProper tree →
        IsTrue (is_there tree.channels a) → IsTrue (is_there tree.channels b) →
        (fault_of_link tree a b ≡ None) ↔ IsProper (with_link tree a b) }
{}
