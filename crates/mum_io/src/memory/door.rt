//! A door in memory.

ghost use Rattle.std.specs.Prelude.{◌≡◌, false, IfOk};
ghost use Rattle.std.specs.Option.{option_map};
ghost use Rattle.mum_io.specs.Door.{AcceptCounts, OpenCounts, OpensAt, given_after};
ghost use Rattle.mum_io.specs.declared.door.DoorOpen.{DoorOpen};

use super::link::{HandBack, MemLink};
use crate::door::{Accept, Door, DoorOpen};
use crate::tally::Tally;
use mum_base::{Octets, OutOfMemory};
use std::alloc::{AllocError, Global};
use std::collections::VecDeque;
use std::marker::Model;
use std::mem::replace;
use std::sync::{Arc, OnceLock};

/// What whoever asks a door in memory for a connection finds.
#[derive(Drop)]
pub enum DoorEvent {
    Conn(MemLink),
    /// That no connection has come yet.
    NotYet,
    /// A fault.
    Fail,
}

/// A door in memory. It goes along a list of events, and after the last one finds the end.
#[derive(Drop)]
pub struct MemDoor {
    alloc: Global,
    events: VecDeque<DoorEvent>,
    opens: bool,
    address: Option<Octets>,
    tally: Tally,
    given: u64,
    starved: u64,
    // one for each connection, in their order
    handed_back: Vec<HandBack>,
}

impl Model for MemDoor {
    ghost use Rattle.mum_io.specs.MemDoor.{DoorState};

    ghost Value = { DoorState };

    ghost view = { λ d. record {
      events = d.events.items;
      opens = d.opens;
      opened_at = d.address;
      counts = d.tally;
      given = d.given;
      starved = d.starved;
    } };
}

// Has what is written to a connection handed back when it is shut, and says where.
fn connect(
    alloc: Global,
    event: &mut DoorEvent,
    handed_back: &mut Vec<HandBack>,
) -> Result<(), OutOfMemory>
    ensures { event.new ≡ event.old }
{
    match event {
        DoorEvent::Conn(link) => {
            let hand_back = Arc::new(alloc, OnceLock::new()).map_err(AllocError::from)?;
            link.return_to(alloc, hand_back.clone()?)?;
            handed_back.push(hand_back).map_err(AllocError::from)
        }
        DoorEvent::NotYet => Ok(()),
        DoorEvent::Fail => Ok(()),
    }
}

fn connect_each(alloc: Global, events: &mut [DoorEvent]) -> Result<Vec<HandBack>, OutOfMemory>
    ensures { events.new ≡ events.old }
{
    let mut handed_back = Vec::new(alloc);
    for event in events.iter_mut() {
        connect(alloc, event, &mut handed_back)?;
    }
    Ok(handed_back)
}

impl MemDoor {
    ghost use Rattle.mum_io.specs.MemDoor.{new_door};

    /// A door that gives these connections. Where it does not open, each opening fails, and so does one for
    /// whose address there is no memory.
    pub fn new(
        alloc: Global,
        mut events: Vec<DoorEvent>,
        opens: bool,
    ) -> Result<MemDoor, OutOfMemory>
        ensures { IfOk result (λ door. door ≡ new_door events.items opens) }
    {
        match connect_each(alloc, events.as_mut_slice()) {
            Ok(handed_back) => Ok(MemDoor {
                alloc,
                events: VecDeque::from_vec(events),
                opens,
                address: None,
                tally: Tally::new(),
                given: 0,
                starved: 0,
                handed_back,
            }),
            Err(full) => {
                drop(events);
                Err(full)
            }
        }
    }

    /// How many openings ran out of memory. The count stays at its last value, `u64::MAX`.
    pub fn starved(&self) -> u64
        ensures { result ≡ self.now.starved }
    {
        self.starved
    }

    /// What was written to a connection, once it was shut. Connections have their places from 0, in the
    /// order in which they are given.
    pub fn written(&self, place: u32) -> Option<&Octets> {
        self.handed_back.get(place as usize)?.get()
    }
}

impl Door for MemDoor {
    ghost use Rattle.mum_io.specs.MemDoor.{accept_answer, after_accept, after_open, door_facts};

    type Conn = MemLink;

    ghost facts = { door_facts };

    fn open(&mut self, address: &str) -> DoorOpen
        ensures counts { OpenCounts result self.old.counts self.new.counts }
        ensures address { OpensAt result self.old.opened_at self.new.opened_at address.now }
        ensures given { self.new.given ≡ self.old.given }

        ensures fails { self.old.opens ≡ false → result ≡ DoorOpen.Failed }
        ensures state { self.new ≡ after_open self.old address.now result }
    {
        if !self.opens {
            self.tally.count_fault();
            return DoorOpen::Failed;
        }
        match Octets::of(self.alloc, address.as_bytes()) {
            Ok(address) => {
                drop(self.address.replace(address));
                DoorOpen::Opened
            }
            Err(_) => {
                self.tally.count_fault();
                self.starved = self.starved.saturating_add(1);
                DoorOpen::Failed
            }
        }
    }

    fn poll_accept(&mut self) -> Accept<MemLink>
        ensures counts { AcceptCounts result self.old.counts self.new.counts }
        ensures given { self.new.given ≡ given_after result self.old.given }
        ensures address { self.new.opened_at ≡ self.old.opened_at }

        ensures answer { result ≡ accept_answer self.old.events }
        ensures state { self.new ≡ after_accept self.old result }
    {
        match self.events.pop_front() {
            Some(DoorEvent::Conn(link)) => {
                self.given = self.given.saturating_add(1);
                Accept::Conn(link)
            }
            Some(DoorEvent::NotYet) => {
                self.tally.count_stall();
                Accept::NotYet
            }
            Some(DoorEvent::Fail) => {
                self.tally.count_fault();
                Accept::Failed
            }
            None => {
                self.tally.count_end();
                Accept::End
            }
        }
    }
}
