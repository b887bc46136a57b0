//! The tree of channels, and what is read from it.

ghost use Rattle.std.specs.Prelude.{◌≡◌, ℕ, if◌then◌else◌, ◌<◌, ◌≤◌, ◌↔◌, ◌&&◌, false, length, slice_index_or, IfOk, IfSome, IsTrue, MatchOption, None, is_some, slice_get};
ghost use Rattle.std.specs.List.{list_all, Contains};
ghost use Rattle.std.specs.Option.{option_copied, option_map};
ghost use Rattle.mum_base.specs.declared.number.ChannelId.{ChannelId};
ghost use Rattle.mum_tree.specs.Places.{has_place};
ghost use Rattle.mum_tree.specs.Proper.{IsProper};
ghost use Rattle.mum_tree.specs.Rows.{row_of, is_below, is_there, path, IsWay};
ghost use Rattle.mum_tree.specs.State.{root_alone, next_number, plain_info, partners, below, with_info, with_link, with_name, with_new, with_parent, without_link, without_subtree};
ghost use Rattle.mum_tree.specs.Walks.{linked, LeadTo};
ghost use Rattle.mum_tree.specs.Refusals.{is_full, fault_of_add, fault_of_link, fault_of_move, fault_of_remove, fault_of_rename, fault_of_placement, fault_of_set_info, fault_of_unlink};
ghost use Rattle.mum_tree.specs.Fault.{named_cause};
ghost use Rattle.mum_tree.specs.Change.{change_of, fault_of_edit, overlinks, with_change};
ghost use Rattle.mum_base.specs.Refusal.{Settles, SettlesInPlace};

use crate::change::{ChannelChange, give};
use crate::channel::{CHANNEL_LIMIT, Channel, ChannelInfo, PATH_LIMIT, Row};
use crate::components::{link_room, mark_component, number_components, relink};
use crate::fault::TreeFault;
use crate::levels::{mark_below, nests_too_deep, places_below};
use crate::links::{
    CHANNEL_LINK_LIMIT, has_link, is_crowded, keep_ends, nth_end, put_link, take_link,
};
use crate::rows::{
    all_there, both_there, copy_rows, find_path, find_row, has_mark, has_name, is_at_or_below,
    is_temporary_there, is_there, least_free_place, locate, path_length, place_in_rows, places_of,
    taken_places,
};
use crate::scratch::Scratch;
use arrayvec::ArrayVec;
use mum_base::{ChannelId, OutOfMemory, PLACES, Text};
use std::alloc::Global;
use std::marker::Model;

/// The channels of a server and the links between them. A contract sees them as rows in order of
/// number, pairs of numbers, the greatest number that a channel ever had, and the limit of channels.
#[derive(Drop)]
pub struct Tree {
    alloc: Global,
    rows: Vec<Row>,
    links: Vec<(ChannelId, ChannelId)>,
    greatest: u32,
    /// The most channels.
    limit: u32,
    /// Beside each row, the index of the first row of its component of the links.
    components: Vec<u16>,
}

impl Model for Tree {
    ghost use Rattle.mum_tree.specs.Components.{AreComponents};
    ghost use Rattle.mum_tree.specs.Proper.{IsProper};
    ghost use Rattle.mum_tree.specs.State.{TreeState};

    ghost Value = { TreeState };

    ghost view = { λ t. record { channels = t.rows.items; links = t.links.items; greatest = t.greatest; limit = t.limit } };

    ghost invariant = { λ t. record {
      proper : IsProper (record { channels = t.rows.items; links = t.links.items; greatest = t.greatest; limit = t.limit });
      numbered : AreComponents t.rows.items t.links.items t.components.items;
    } };
}

// One if it holds, else nothing.
fn one_if(holds: bool) -> usize
    ensures { result ≡ (if holds then 1 else 0) }
{
    if holds { 1 } else { 0 }
}

impl Tree {
    /// The root alone, with room for 1,024 channels.
    pub fn new(alloc: Global) -> Result<Tree, OutOfMemory>
        ensures made { IfOk result (λ tree. tree ≡ root_alone) }
        ensures proper { IfOk result (λ tree. IsProper tree) }
    {
        let mut rows = Vec::new(alloc);
        rows.push(Row {
            place: 0,
            channel: Channel {
                id: ChannelId::ROOT,
                parent: ChannelId::ROOT,
                name: Text::of(alloc, "Root")?,
                temporary: false,
                info: ChannelInfo::plain(alloc),
            },
        })?;
        Ok(Tree {
            alloc,
            rows,
            links: Vec::new(alloc),
            greatest: 0,
            limit: CHANNEL_LIMIT as u32,
            components: vec![in alloc; 0; 1]?,
        })
    }

    /// The most channels that there may be, with the root.
    pub fn limit(&self) -> u32
        ensures value { result ≡ self.now.limit }
        ensures within { result ≤ PLACES }
    {
        self.limit
    }

    /// Raises the limit of channels, to at most 2,048. It takes no memory.
    pub fn set_limit(&mut self, channels: u32)
        requires raised { self.old.limit ≤ channels }
        requires within { channels ≤ PLACES }
        ensures made { self.new ≡ record self.old { limit = channels } }
        ensures proper { IsProper self.new }
    {
        self.limit = channels;
    }

    /// The number for a new channel: one above the greatest that a channel ever had.
    pub fn next_id(&self) -> Option<ChannelId>
        ensures { result ≡ next_number self.now }
    {
        if self.greatest < u32::MAX {
            Some(ChannelId(self.greatest + 1))
        } else {
            None
        }
    }

    /// The channel's row.
    pub fn channel(&self, id: ChannelId) -> Option<&Channel>
        ensures { option_copied result ≡ option_map (λ row. row.channel) (row_of self.now.channels id) }
    {
        match find_row(&self.rows, id) {
            Some(row) => Some(&row.channel),
            None => None,
        }
    }

    /// The channel at this index in order of number.
    pub fn nth(&self, i: usize) -> Option<ChannelId>
        ensures { result ≡ option_map (λ row. row.channel.id) (slice_get self.now.channels i) }
    {
        match self.rows.get(i) {
            Some(row) => Some(row.channel.id),
            None => None,
        }
    }

    /// The channel's place, which it keeps while it is there; the root's is 0.
    pub fn place(&self, id: ChannelId) -> Option<u16>
        ensures { result ≡ option_map (λ row. row.place) (row_of self.now.channels id) }
    {
        match find_row(&self.rows, id) {
            Some(row) => Some(row.place),
            None => None,
        }
    }

    /// The channels from the root down to one, with both. It takes no memory.
    pub fn path(&self, id: ChannelId) -> Option<ArrayVec<ChannelId, PATH_LIMIT>>
        ensures value { MatchOption result (row_of self.now.channels id ≡ None)
            (λ found. found.items ≡ path self.now.channels id) }
        ensures there { is_some result ≡ is_there self.now.channels id }
        ensures way { IfSome result (λ found. IsWay self.now.channels id found.items) }
    {
        find_path(&self.rows, id)
    }

    /// Whether there are as many channels as there can be.
    pub fn full(&self) -> bool
        ensures { result ≡ is_full self.now }
    {
        self.rows.len() >= self.limit as usize
    }

    /// The first cause for which a new channel is refused: NoChannel, SameName, TemporaryParent,
    /// Nesting or Count. It takes no memory.
    pub fn cause_against_adding(
        &self,
        id: ChannelId,
        parent: ChannelId,
        name: &str,
    ) -> Option<TreeFault>
        ensures { result ≡ fault_of_add self.now id parent name.now }
    {
        let rows = self.rows.as_slice();
        let Some(above) = find_row(rows, parent) else {
            return Some(TreeFault::NoChannel);
        };
        if has_name(rows, parent, id, name) {
            return Some(TreeFault::SameName);
        }
        if above.channel.temporary {
            return Some(TreeFault::TemporaryParent);
        }
        if path_length(rows, parent) >= PATH_LIMIT {
            return Some(TreeFault::Nesting);
        }
        if self.full() {
            return Some(TreeFault::Count);
        }
        None
    }

    /// Puts a new channel under another. It takes the least place that no channel has.
    /// Refused, in this order: NoChannel, SameName, TemporaryParent, Nesting, Count.
    pub fn add(
        &mut self,
        id: ChannelId,
        parent: ChannelId,
        name: &str,
        temporary: bool,
    ) -> Result<(), TreeFault>
        requires { self.old.greatest < id.0 }
        ensures made { Settles named_cause (fault_of_add self.old id parent name.now)
            (with_new self.old id parent name.now temporary) self.old result self.new }
        ensures proper { IsProper self.new }
    {
        if let Some(cause) = self.cause_against_adding(id, parent, name) {
            return Err(cause);
        }
        let channel = Channel {
            id,
            parent,
            name: Text::of(self.alloc, name)?,
            temporary,
            info: ChannelInfo::plain(self.alloc),
        };
        let place = least_free_place(&self.rows);
        let component = self.rows.len() as u16;
        self.components.reserve(1)?;
        self.rows.push(Row { place, channel })?;
        self.components.push_reserved(component);
        self.greatest = id.0;
        Ok(())
    }

    // The first cause for which a new name is refused.
    fn cause_against_renaming(&self, id: ChannelId, name: &str) -> Option<TreeFault>
        ensures { result ≡ fault_of_rename self.now id name.now }
    {
        let rows = self.rows.as_slice();
        let Some(renamed) = find_row(rows, id) else {
            return Some(TreeFault::NoChannel);
        };
        if renamed.channel.id.0 == ChannelId::ROOT.0 {
            return Some(TreeFault::RootFixed);
        }
        if has_name(rows, renamed.channel.parent, id, name) {
            return Some(TreeFault::SameName);
        }
        None
    }

    /// Gives a channel a new name. Refused, in this order: NoChannel, RootFixed, SameName.
    pub fn rename(&mut self, id: ChannelId, name: &str) -> Result<(), TreeFault>
        ensures made { Settles named_cause (fault_of_rename self.old id name.now)
            (with_name self.old id name.now) self.old result self.new }
        ensures proper { IsProper self.new }
    {
        let Some(at) = locate(&self.rows, id) else {
            return Err(TreeFault::NoChannel);
        };
        if let Some(cause) = self.cause_against_renaming(id, name) {
            return Err(cause);
        }
        let name = Text::of(self.alloc, name)?;
        let row = &mut self.rows[at];
        row.channel.name = name;
        Ok(())
    }

    /// Gives a channel a new description, position and limit of users. Refused: NoChannel.
    /// It takes no memory.
    pub fn set_info(&mut self, id: ChannelId, info: ChannelInfo) -> Result<(), TreeFault>
        ensures made { SettlesInPlace (fault_of_set_info self.old id)
            (with_info self.old id info) self.old result self.new }
        ensures proper { IsProper self.new }
    {
        let Some(at) = locate(&self.rows, id) else {
            return Err(TreeFault::NoChannel);
        };
        let row = &mut self.rows[at];
        row.channel.info = info;
        Ok(())
    }

    /// The channel linked to this one at this index in order of number.
    pub fn link_at(&self, id: ChannelId, i: usize) -> Option<ChannelId>
        ensures { result ≡ slice_get (partners self.now id) i }
    {
        nth_end(&self.links, id, i)
    }

    /// Removes the link between two channels, if there is one. Refused: NoChannel.
    /// It takes no memory.
    pub fn unlink(&mut self, a: ChannelId, b: ChannelId) -> Result<(), TreeFault>
        ensures made { SettlesInPlace (fault_of_unlink self.old a b)
            (without_link self.old a b) self.old result self.new }
        ensures proper { IsProper self.new }
    {
        if !both_there(&self.rows, a, b) {
            return Err(TreeFault::NoChannel);
        }
        if !has_link(&self.links, a, b) {
            return Ok(());
        }
        take_link(&mut self.links, a, b);
        number_components(&mut self.components, &self.rows, &self.links);
        Ok(())
    }

    // The first cause for which a link is refused.
    fn cause_against_linking(&self, a: ChannelId, b: ChannelId) -> Option<TreeFault>
        ensures { result ≡ fault_of_link self.now a b }
    {
        if !both_there(&self.rows, a, b) {
            return Some(TreeFault::NoChannel);
        }
        if a.0 == b.0 || has_link(&self.links, a, b) {
            return None;
        }
        if is_crowded(&self.links, a) || is_crowded(&self.links, b) {
            return Some(TreeFault::LinkCount);
        }
        None
    }

    /// Links two channels. A link of a channel to itself, or one that is there, changes nothing.
    /// Refused, in this order: NoChannel, LinkCount.
    pub fn link(&mut self, a: ChannelId, b: ChannelId) -> Result<(), TreeFault>
        ensures made { Settles named_cause (fault_of_link self.old a b)
            (with_link self.old a b) self.old result self.new }
        ensures proper { IsProper self.new }
    {
        if let Some(cause) = self.cause_against_linking(a, b) {
            return Err(cause);
        }
        if a.0 == b.0 || has_link(&self.links, a, b) {
            return Ok(());
        }
        self.links.reserve(2)?;
        put_link(&mut self.links, a, b);
        number_components(&mut self.components, &self.rows, &self.links);
        Ok(())
    }

    // The first cause against a new name or a new parent of a channel, given both.
    fn cause_against_placement(
        &self,
        id: ChannelId,
        name: &str,
        parent: ChannelId,
    ) -> Option<TreeFault>
        ensures { result ≡ fault_of_placement self.now id name.now parent }
    {
        let rows = self.rows.as_slice();
        if id.0 == ChannelId::ROOT.0 {
            return Some(TreeFault::RootFixed);
        }
        if has_name(rows, parent, id, name) {
            return Some(TreeFault::SameName);
        }
        if is_at_or_below(rows, id, parent) {
            return Some(TreeFault::UnderItself);
        }
        if is_temporary_there(rows, parent) {
            return Some(TreeFault::TemporaryParent);
        }
        if nests_too_deep(rows, id, parent) {
            return Some(TreeFault::Nesting);
        }
        None
    }

    // The first cause for which a move is refused.
    fn cause_against_moving(&self, id: ChannelId, parent: ChannelId) -> Option<TreeFault>
        ensures { result ≡ fault_of_move self.now id parent }
    {
        let rows = self.rows.as_slice();
        let Some(moved) = find_row(rows, id) else {
            return Some(TreeFault::NoChannel);
        };
        if !is_there(rows, parent) {
            return Some(TreeFault::NoChannel);
        }
        self.cause_against_placement(id, moved.channel.name.as_str(), parent)
    }

    /// Puts a channel, with all below it, under another. Refused, in this order: NoChannel,
    /// RootFixed, SameName, UnderItself, TemporaryParent, Nesting. It takes no memory.
    pub fn move_under(&mut self, id: ChannelId, parent: ChannelId) -> Result<(), TreeFault>
        ensures made { SettlesInPlace (fault_of_move self.old id parent)
            (with_parent self.old id parent) self.old result self.new }
        ensures proper { IsProper self.new }
    {
        let Some(at) = locate(&self.rows, id) else {
            return Err(TreeFault::NoChannel);
        };
        if let Some(cause) = self.cause_against_moving(id, parent) {
            return Err(cause);
        }
        let row = &mut self.rows[at];
        row.channel.parent = parent;
        Ok(())
    }

    // Whether after a change of its links a channel has too many, or a new partner of it has.
    fn overlinks(&self, id: ChannelId, change: &ChannelChange<'_>) -> bool
        requires added { IsTrue (list_all (is_there self.now.channels) change.now.links_add.now) }
        requires removed { IsTrue (list_all (is_there self.now.channels) change.now.links_remove.now) }
        ensures { result ≡ overlinks self.now id (change_of change.now) }
    {
        let rows = self.rows.as_slice();
        if change.links_add.is_empty() {
            return false;
        }
        let mut added = [false; PLACES];
        let mut removed = [false; PLACES];
        places_of(rows, change.links_add, &mut added);
        places_of(rows, change.links_remove, &mut removed);
        let mut partners = 0;
        for row in rows {
            let other = row.channel.id;
            let before = has_link(&self.links, id, other);
            let added = has_mark(&added, row.place) && other.0 != id.0;
            let after = (before || added) && !has_mark(&removed, row.place);
            if after && !before && is_crowded(&self.links, other) {
                return true;
            }
            partners += one_if(after);
        }
        partners > CHANNEL_LINK_LIMIT
    }

    /// The first cause for which a change of a channel is refused, as `edit` names them. It takes no
    /// memory.
    pub fn cause_against_editing(
        &self,
        id: ChannelId,
        change: &ChannelChange<'_>,
    ) -> Option<TreeFault>
        ensures { result ≡ fault_of_edit self.now id (change_of change.now) }
    {
        let rows = self.rows.as_slice();
        let Some(row) = find_row(rows, id) else {
            return Some(TreeFault::NoChannel);
        };
        let before = row.channel.name.as_str();
        let name = change.name.unwrap_or(before);
        let parent = change.parent.unwrap_or(row.channel.parent);
        if !is_there(rows, parent)
            || !all_there(rows, change.links_add)
            || !all_there(rows, change.links_remove)
        {
            return Some(TreeFault::NoChannel);
        }
        if name != before || parent.0 != row.channel.parent.0 {
            if let Some(cause) = self.cause_against_placement(id, name, parent) {
                return Some(cause);
            }
        }
        if self.overlinks(id, change) {
            return Some(TreeFault::LinkCount);
        }
        None
    }

    /// Changes a channel in several parts at once: what is given of its name, its parent and what
    /// describes it, then the links that come, then those that go. Refused, in this order: NoChannel
    /// for any that the change names; where the name or the parent changes, RootFixed,
    /// SameName under the parent that it then has, UnderItself, TemporaryParent, Nesting; LinkCount,
    /// of the links that are left.
    pub fn edit(&mut self, id: ChannelId, change: &ChannelChange<'_>) -> Result<(), TreeFault>
        ensures made { Settles named_cause (fault_of_edit self.old id (change_of change.now))
            (with_change self.old id (change_of change.now)) self.old result self.new }
        ensures proper { IsProper self.new }
    {
        let Some(at) = locate(&self.rows, id) else {
            return Err(TreeFault::NoChannel);
        };
        if let Some(cause) = self.cause_against_editing(id, change) {
            return Err(cause);
        }
        let name = Text::of_given(self.alloc, change.name)?;
        let description = Text::share_given(change.description)?;
        let adds = change.links_add;
        let removes = change.links_remove;
        self.links.reserve(link_room(adds, removes))?;
        relink(
            &mut self.links,
            &mut self.components,
            &self.rows,
            id,
            adds,
            removes,
        );
        let channel = &mut self.rows[at].channel;
        give(&mut channel.name, name);
        give(&mut channel.parent, change.parent);
        give(&mut channel.info.description, description);
        give(&mut channel.info.position, change.position);
        give(&mut channel.info.max_users, change.max_users);
        Ok(())
    }

    /// The first cause for which a channel is not removed: NoChannel or RootFixed. It takes no
    /// memory.
    pub fn cause_against_removing(&self, id: ChannelId) -> Option<TreeFault>
        ensures { result ≡ fault_of_remove self.now id }
    {
        if !is_there(&self.rows, id) {
            return Some(TreeFault::NoChannel);
        }
        if id.0 == ChannelId::ROOT.0 {
            return Some(TreeFault::RootFixed);
        }
        None
    }

    /// Removes a channel, all below it, and their links. Refused, in this order: NoChannel,
    /// RootFixed. It takes no memory.
    pub fn remove_subtree(&mut self, id: ChannelId) -> Result<(), TreeFault>
        ensures made { SettlesInPlace (fault_of_remove self.old id)
            (without_subtree self.old id) self.old result self.new }
        ensures proper { IsProper self.new }
    {
        if let Some(cause) = self.cause_against_removing(id) {
            return Err(cause);
        }
        let mut gone = [false; PLACES];
        places_below(&self.rows, id, &mut gone);
        self.rows.retain(|row| !has_mark(&gone, row.place));
        keep_ends(&mut self.links, &self.rows);
        self.components.truncate(self.rows.len());
        number_components(&mut self.components, &self.rows, &self.links);
        Ok(())
    }

    /// An equal tree.
    pub fn copy(&self, alloc: Global) -> Result<Tree, OutOfMemory>
        ensures made { IfOk result (λ tree. tree ≡ self.now) }
        ensures proper { IfOk result (λ tree. IsProper tree) }
    {
        Ok(Tree {
            alloc,
            rows: copy_rows(alloc, &self.rows)?,
            links: Vec::from_slice(alloc, &self.links)?,
            greatest: self.greatest,
            limit: self.limit,
            components: Vec::from_slice(alloc, &self.components)?,
        })
    }

    /// Finds which places have a channel. It takes no memory.
    pub fn taken_places(&self, taken: &mut [bool])
        requires { length taken.old ≡ PLACES }
        ensures length { length taken.new ≡ PLACES }
        ensures taken { (place : ℕ) →
            slice_index_or taken.new place false ≡ has_place self.now.channels place }
    {
        taken_places(&self.rows, taken);
    }

    /// Whether a channel is there. It takes no memory.
    pub fn is_there(&self, id: ChannelId) -> bool
        ensures { result ≡ is_there self.now.channels id }
    {
        is_there(&self.rows, id)
    }

    /// Whether a channel is the top, or below it. It takes no memory.
    pub fn is_below(&self, top: ChannelId, id: ChannelId) -> bool
        ensures { result ≡ is_below self.now.channels top id }
    {
        is_at_or_below(&self.rows, top, id)
    }

    /// Marks a channel and all below it. It takes no memory.
    pub fn subtree(&self, id: ChannelId, scratch: &mut Scratch)
        requires { IsTrue (is_there self.now.channels id) }
        ensures { scratch.new ≡ below self.now id }
    {
        mark_below(&self.rows, id, scratch);
    }

    /// Marks a channel and all that links lead to from it. It takes no memory.
    pub fn linked(&self, id: ChannelId, scratch: &mut Scratch)
        requires { IsTrue (is_there self.now.channels id) }
        ensures marks { scratch.new ≡ linked self.now id }
        ensures leads { (other : ChannelId) → Contains (linked self.now id) other ↔ LeadTo self.now.links id other }
    {
        let at = place_in_rows(&self.rows, id);
        mark_component(&self.rows, &self.components, at, scratch);
    }
}
