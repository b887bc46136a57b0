//! An edit, from what it sets to its counts.

ghost use Rattle.std.specs.Prelude.{◌≡◌, ◌||◌, ◌<◌, ◌≤◌, ◌^◌, None, IfSome, IsOk, IsTrue, OnErr, OnOk, false, length};
ghost use Rattle.std.specs.List.{All, list_all, list_any};
ghost use Rattle.std.specs.Prelude.{◌+◌};
ghost use Rattle.mum_tree.specs.Refusals.{fault_of_remove};
ghost use Rattle.mum_tree.specs.Rows.{is_there};
ghost use Rattle.mum_users.specs.Proper.{IsProper as IsProperRoster};
ghost use Rattle.mum_users.specs.State.{has_number};
ghost use Rattle.mum_base.specs.declared.number.TheConstants.{SLOTS};
ghost use Rattle.mum_state.specs.Applied.{applied};
ghost use Rattle.mum_state.specs.Counts.{raised_slots, raised_where};
ghost use Rattle.mum_state.specs.Fits.{fits};
ghost use Rattle.mum_state.specs.Followed.{cleared_session, counted, is_left_empty, with_left_closed};
ghost use Rattle.mum_state.specs.Kinds.{needs_no_memory, sets_policy};
ghost use Rattle.mum_state.specs.Proper.{IsProper};
ghost use Rattle.mum_state.specs.Renewed.{heard_again, is_renewed_slot};
ghost use Rattle.mum_state.specs.Suppression.{with_clearing};
ghost use Rattle.mum_state.specs.declared.renewed.Renewed.TheVariants.{One};

use crate::edit::Edit;
use crate::hearing::{Heard, Hearing};
use crate::kind::{changes_paths, changes_routes, is_of_configuration, sets_policy};
use crate::parts::Parts;
use crate::renewed::Renewed;
use mum_base::{ChannelId, OutOfMemory, Slot};

// One more where it holds.
fn raised_where(holds: bool, count: u64) -> u64
    requires { count ≤ 2 ^ 63 }
    ensures { result ≡ raised_where holds count }
{
    if holds { count + 1 } else { count }
}

// One more for the slot, if there is a count of it.
fn raise_one(counts: &mut Vec<u64>, slot: Slot)
    requires { All (λ count. count ≤ 2 ^ 63) counts.old.items }
    ensures { counts.new.items ≡ raised_slots (is_renewed_slot (One slot)) 0 counts.old.items }
{
    let slot = slot.0 as usize;
    if slot < counts.len() {
        let raised = raised_where(true, counts[slot]);
        counts[slot] = raised;
    }
}

// One more for each renewed slot.
fn raise_each(counts: &mut Vec<u64>, renewed: &Renewed)
    requires few { All (λ count. count ≤ 2 ^ 63) counts.old.items }
    requires whole { length counts.old.items ≡ SLOTS }
    ensures { counts.new.items ≡ raised_slots (is_renewed_slot renewed.now) 0 counts.old.items }
{
    for slot in 0..counts.len() {
        let raised = raised_where(renewed.has(Slot(slot as u16)), counts[slot]);
        counts[slot] = raised;
    }
}

// The same, with no walk where nobody is renewed or one session is.
fn raise_slots(counts: &mut Vec<u64>, renewed: &Renewed)
    requires few { All (λ count. count ≤ 2 ^ 63) counts.old.items }
    requires whole { length counts.old.items ≡ SLOTS }
    ensures { counts.new.items ≡ raised_slots (is_renewed_slot renewed.now) 0 counts.old.items }
{
    match *renewed {
        Renewed::Nobody => {}
        Renewed::One(slot) => raise_one(counts, slot),
        Renewed::Those(_) => raise_each(counts, renewed),
    }
}

impl Parts {
    // Whether the session in a slot may speak where it is is set again.
    fn hear_one(&mut self, slot: Slot)
        requires { IsTrue (list_all (λ user. is_there self.old.tree.channels user.channel) self.old.roster.sessions) }
        ensures { self.new ≡ heard_again (One slot) false self.old }
    {
        match self.roster.at(slot) {
            None => {}
            Some(user) => {
                let session = user.session;
                let speaks = self.channels.may_speak(user);
                match self.roster.suppress(session, !speaks) {
                    Ok(()) => {}
                    Err(_) => unreachable!(),
                }
            }
        }
    }

    // The same for those in renewed slots, or for all.
    fn hear_each(&mut self, renewed: &Renewed, all: bool)
        requires proper { IsProperRoster self.old.roster }
        requires inside { IsTrue
            (list_all (λ user. is_there self.old.tree.channels user.channel) self.old.roster.sessions) }
        ensures { self.new ≡ heard_again renewed.now all self.old }
    {
        let hearing = Hearing {
            channels: &self.channels,
            renewed,
            all,
        };
        let speakers = hearing.speakers(self.roster.users());
        let heard = Heard {
            hearing: &hearing,
            speakers: &speakers,
        };
        self.roster.place_all(&heard);
    }

    // Whether they may speak where they are is set again for those in renewed slots, and for all where
    // a policy was set.
    fn hear(&mut self, edit: &Edit, renewed: &Renewed)
        requires proper { IsProperRoster self.old.roster }
        requires inside { IsTrue
            (list_all (λ user. is_there self.old.tree.channels user.channel) self.old.roster.sessions) }
        ensures { self.new ≡ heard_again renewed.now (sets_policy edit.now) self.old }
    {
        if sets_policy(edit) {
            self.hear_each(renewed, true);
            return;
        }
        match *renewed {
            Renewed::Nobody => {}
            Renewed::One(slot) => self.hear_one(slot),
            Renewed::Those(_) => self.hear_each(renewed, false),
        }
    }

    // The session of an edit may speak where the edit says so.
    fn clear_by(&mut self, edit: &Edit)
        requires { IsTrue
            (list_all (λ session. list_any (has_number session) self.old.roster.sessions) (cleared_session edit.now)) }
        ensures { self.new ≡ with_clearing edit.now self.old }
    {
        match *edit {
            Edit::SetUser {
                session,
                clear_suppress: true,
                ..
            } => match self.roster.suppress(session, false) {
                Ok(()) => {}
                Err(_) => unreachable!(),
            },
            _ => {}
        }
    }

    // A temporary channel goes where nobody is in it.
    fn close(&mut self, left: Option<ChannelId>) -> bool
        requires { IfSome left (λ id. fault_of_remove self.old.tree id ≡ None) }
        ensures closed { self.new ≡ with_left_closed left self.old }
        ensures is_closed { result ≡ is_left_empty left self.old }
    {
        match left {
            Some(id) => {
                if self.roster.has_member(id) {
                    return false;
                }
                self.remove_channels(id);
                true
            }
            None => false,
        }
    }

    // Counts an edit.
    fn count(&mut self, edit: &Edit, renewed: &Renewed, closed: bool)
        requires revision { self.old.counts.revision ≤ 2 ^ 63 }
        requires policy { self.old.counts.policy ≤ 2 ^ 63 }
        requires routing { self.old.counts.routing ≤ 2 ^ 63 }
        requires slots { All (λ count. count ≤ 2 ^ 63) self.old.counts.slots }
        requires whole { length self.old.counts.slots ≡ SLOTS }
        ensures { self.new
            ≡ record self.old { counts = counted edit.now renewed.now closed self.old.counts } }
    {
        self.revision = raised_where(!is_of_configuration(edit), self.revision);
        self.stamps.policy = raised_where(changes_paths(edit) || closed, self.stamps.policy);
        self.stamps.routing = raised_where(changes_routes(edit), self.stamps.routing);
        raise_slots(&mut self.slot_counts, renewed);
    }

    // Makes an edit that fits. After it ran out of memory all is as it was.
    pub(crate) fn apply(&mut self, edit: &Edit) -> Result<(), OutOfMemory>
        requires proper { IsProper self.old }
        requires fits { IsTrue (fits self.old edit.now) }
        ensures ok { OnOk result (self.new ≡ applied self.old edit.now) }
        ensures err { OnErr result (self.new ≡ self.old) }
        ensures in_place { IsTrue (needs_no_memory edit.now) → IsOk result }
    {
        let renewed = self.renewed_by(edit);
        let left = self.left_by(edit);
        self.set(edit)?;
        self.hear(edit, &renewed);
        self.clear_by(edit);
        let closed = self.close(left);
        self.count(edit, &renewed, closed);
        Ok(())
    }
}
