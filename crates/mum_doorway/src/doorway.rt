//! The door, and whether it is asked on.

ghost use Rattle.std.specs.Prelude.{◌≡◌, true, false};
ghost use Rattle.mum_io.specs.Door.{AcceptCounts, given_after};
ghost use Rattle.mum_doorway.specs.Asking.{failed_by, new_doorway, stopped_by};
ghost use Rattle.mum_doorway.specs.Doors.{IsSince};

use crate::entrance::Entrance;
use crate::opening::Doorside;
use mum_io::Accept;
use std::marker::{Model, PhantomData};

/// The door, and how it stopped, if it did, since the role that asks it was opened.
#[derive(Drop)]
pub struct Doorway<D: Entrance, S: Doorside> {
    door: D,
    stopped: bool,
    failed: bool,
    of: PhantomData<S>,
}

impl<D: Entrance, S: Doorside> Model for Doorway<D, S> {
    ghost use Rattle.mum_doorway.specs.Doors.{IsSince};
    ghost use Rattle.mum_doorway.specs.Asking.{DoorwayFacts};

    ghost Value = { DoorwayFacts D };

    ghost view = { λ d. record { door = d.door; stopped = d.stopped; failed = d.failed } };

    ghost invariant = { λ d. IsSince S.door (D.facts d.door).counts (D.facts d.door).opened_at d.stopped d.failed };
}

// Whether the door ended or failed by this answer.
fn stops<L>(answer: &Accept<L>) -> bool
    ensures { result ≡ stopped_by answer.now false }
{
    match answer {
        Accept::Conn(_) => false,
        Accept::NotYet => false,
        Accept::End => true,
        Accept::Failed => true,
    }
}

// Whether the door failed by this answer.
fn fails<L>(answer: &Accept<L>) -> bool
    ensures { result ≡ failed_by answer.now false }
{
    match answer {
        Accept::Conn(_) => false,
        Accept::NotYet => false,
        Accept::End => false,
        Accept::Failed => true,
    }
}

impl<D: Entrance, S: Doorside> Doorway<D, S> {
    /// The door, which has counted what `S` names.
    pub fn open(door: D) -> Doorway<D, S>
        requires counts { (D.facts door).counts ≡ S.door.counts }
        requires address { (D.facts door).opened_at ≡ S.door.opened_at }
        ensures { result ≡ new_doorway door }
    {
        Doorway {
            door,
            stopped: false,
            failed: false,
            of: PhantomData,
        }
    }

    /// Whether it ended or failed.
    pub fn is_stopped(&self) -> bool
        ensures { result ≡ self.now.stopped }
    {
        self.stopped
    }

    /// Asks the door once. It is not asked again once it ended or failed.
    pub fn ask(&mut self) -> Accept<D::Peer>
        requires { self.old.stopped ≡ false }
        ensures counts { AcceptCounts result (D.facts self.old.door).counts (D.facts self.new.door).counts }
        ensures given { (D.facts self.new.door).given ≡ given_after result (D.facts self.old.door).given }
        ensures stopped { self.new.stopped ≡ stopped_by result false }
        ensures failed { self.new.failed ≡ failed_by result self.old.failed }
    {
        let answer = self.door.accept();
        let (stops, fails) = (stops(&answer), fails(&answer));
        self.stopped = stops;
        self.failed = self.failed || fails;
        answer
    }

    /// The door, and whether it failed.
    pub fn close(self) -> (D, bool)
        ensures door { result.0 ≡ self.door }
        ensures failed { result.1 ≡ self.failed }
        ensures since { IsSince S.door (D.facts result.0).counts (D.facts result.0).opened_at self.stopped result.1 }
    {
        let Doorway {
            door,
            stopped: _,
            failed,
            of: _,
        } = self;
        (door, failed)
    }
}
