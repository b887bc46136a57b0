//! The viewer.

ghost use Rattle.std.specs.Prelude.{◌≡◌, ◌↔◌, [], IfErr, IfOk, IsTrue, false, length};
ghost use Rattle.std.specs.List.{AllByRecursion};
ghost use Rattle.mum_doorway.specs.Doors.{IsSince, given_after_all};
ghost use Rattle.mum_viewer.specs.Look.{IsViewAsk};
ghost use Rattle.mum_viewer.specs.Viewer.{Asks, AsksOnce, IsOpened, ViewerTurned, has_ended, is_not_to_ask, is_over, opening_of, turn_of};

use crate::list::VIEWS_OPEN;
use crate::naming::{ViewSide, Viewing};
use crate::views::Views;
use mum_crew::{Role, Turn};
use mum_doorway::{DoorOpening, Doorway, Entrance};
use mum_published::Pass;
use std::alloc::Global;
use std::marker::{Model, PhantomData};
use std::sync::Wait;

/// What a viewer leaves.
#[derive(Drop)]
pub struct ViewerEnd<D: Drop> {
    pub door: D,
    /// How many texts were taken whole.
    pub views: u64,
    pub door_failed: bool,
    /// A view found no memory.
    pub no_memory: bool,
}

/// What a viewer was opened with: how many views there may be, and what its door had counted.
#[derive(Drop)]
pub struct ViewerOpening {
    pub views: u32,
    pub door: DoorOpening,
}

/// The role that gives each connection of its door the text of the state that one look finds, and shuts it.
/// It reads nothing from them.
#[derive(Drop)]
pub struct Viewer<D: Entrance, N: Viewing, R: Wait + Copy> {
    rt: R,
    alloc: Global,
    doorway: Doorway<D, ViewSide<N>>,
    views: Views<D::Peer>,
    limit: u32,
    of: PhantomData<N>,
}

impl<D: Entrance, N: Viewing, R: Wait + Copy> Model for Viewer<D, N, R> {
    ghost use Rattle.mum_viewer.specs.Viewer.{IsViewer, ViewerFacts};

    ghost Value = { ViewerFacts D D.Peer };

    ghost view = { λ v. record { doorway = v.doorway; views = v.views; limit = v.limit } };

    ghost invariant = { λ v. IsViewer N.opening N.view.given (D.facts v.doorway.door).given v.views v.limit };
}

fn turn_of(has_ended: bool, stepped: bool, answered: bool) -> Turn
    ensures { result ≡ turn_of has_ended stepped answered }
{
    if has_ended {
        return Turn::Done;
    }
    if stepped {
        return Turn::Worked;
    }
    if answered { Turn::Worked } else { Turn::Idle }
}

impl<D: Entrance, N: Viewing, R: Wait + Copy> Viewer<D, N, R> {
    /// Gives at most `views` views over a door that is open, by a pass that made no look. Where memory runs
    /// out, the door comes back.
    pub fn open(rt: R, alloc: Global, pass: Pass, door: D, views: u32) -> Result<Viewer<D, N, R>, D>
        requires opening { pass.opening ≡ N.opening }
        requires no_look { pass.asks ≡ [] }
        requires door { record { counts = (D.facts door).counts; given = (D.facts door).given; opened_at = (D.facts door).opened_at }
            ≡ N.view }
        ensures viewer { IfOk result (IsOpened pass door views) }
        ensures door { IfErr result (λ back. back ≡ door) }
    {
        match Views::open(alloc, pass) {
            Ok(open) => Ok(Viewer {
                rt,
                alloc,
                doorway: Doorway::open(door),
                views: open,
                limit: views,
                of: PhantomData,
            }),
            Err(_) => Err(door),
        }
    }

    fn is_over(&self) -> bool
        ensures { result ≡ is_over self.now }
    {
        self.doorway.is_stopped() || self.views.given() == self.limit
    }

    fn is_not_to_ask(&self) -> bool
        ensures { result ≡ is_not_to_ask self.now }
    {
        self.is_over() || self.views.len() >= VIEWS_OPEN
    }

    fn has_ended(&self) -> bool
        ensures { result ≡ has_ended self.now }
    {
        self.is_over() && self.views.len() == 0
    }

    // Asks the door once. Answers whether it gave a connection, ended or failed.
    fn ask_once(&mut self) -> bool
        requires { is_not_to_ask self.old ≡ false }
        ensures { AsksOnce D.facts D.Peer.facts
            self.old result self.new }
    {
        let answer = self.doorway.ask();
        self.views.take(&self.rt, self.alloc, answer)
    }

    // Asks the door once, where it may be asked.
    fn ask(&mut self) -> bool
        ensures asks { Asks D.facts D.Peer.facts
            self.old result self.new }
        ensures limit { self.new.limit ≡ self.old.limit }
    {
        if self.is_not_to_ask() {
            return false;
        }
        self.ask_once()
    }

    /// One turn: each open view writes once, and then the door is asked once, where it may be.
    pub fn turn(&mut self) -> Turn
        ensures turned { ViewerTurned D.facts D.Peer.facts
            self.old result self.new }
        ensures opening { opening_of N.view self.new.limit ≡ opening_of N.view self.old.limit }
        ensures ended { (result ≡ Turn.Done) ↔ IsTrue (has_ended self.new) }
    {
        let stepped = self.views.step();
        let answered = self.ask();
        turn_of(self.has_ended(), stepped, answered)
    }

    /// The pass by which the viewer looks. It is of the opening that the viewer is named for.
    pub fn pass(&self) -> &Pass
        ensures pass { result.now ≡ self.now.views.pass }
        ensures opening { result.now.opening ≡ N.opening }
    {
        self.views.pass()
    }

    /// What it leaves.
    pub fn finish(self) -> ViewerEnd<D>
        ensures door { result.door ≡ self.doorway.door }
        ensures views { result.views ≡ self.views.whole }
        ensures failed { result.door_failed ≡ self.doorway.failed }
        ensures no_memory { result.no_memory ≡ self.views.no_memory }
        ensures one_each { length self.views.pass.asks ≡ self.views.given }
        ensures asks { AllByRecursion IsViewAsk self.views.pass.asks }
        ensures gave { (D.facts result.door).given ≡ given_after_all N.view.given self.views.given }
        ensures since { IsSince N.view (D.facts result.door).counts (D.facts result.door).opened_at self.doorway.stopped
            result.door_failed }
    {
        let Viewer {
            rt: _,
            alloc: _,
            doorway,
            views,
            limit: _,
            of: _,
        } = self;
        let (views, no_memory) = views.close();
        let (door, door_failed) = doorway.close();
        ViewerEnd {
            door,
            views,
            door_failed,
            no_memory,
        }
    }
}

impl<D: Entrance, N: Viewing, R: Wait + Copy> Role for Viewer<D, N, R> {
    type Opening = ViewerOpening;

    ghost opening = { λ viewer. opening_of N.view viewer.limit };

    ghost has_ended = { has_ended };

    ghost turned = { ViewerTurned D.facts D.Peer.facts };

    fn turn(&mut self) -> Turn {
        Viewer::turn(self)
    }
}
