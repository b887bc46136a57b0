//! What holds of a viewer whatever its turns are, from its opening on. These functions do nothing: each
//! contract is a theorem.

ghost use Rattle.std.specs.Prelude.{◌≡◌, ◌↔◌, ◌≤◌, ◌⊎◌, IsTrue, List, length};
ghost use Rattle.std.specs.List.{AllByRecursion};
ghost use Rattle.mum_crew.specs.declared.role.Turn.{Turn};
ghost use Rattle.mum_crew.specs.declared.role.Turn.TheVariants.{Done, Idle, Worked};
ghost use Rattle.mum_doorway.specs.Doors.{given_after_all};
ghost use Rattle.mum_viewer.specs.Turns.{EndWell, HasAnswered, HasNothingToDo, HasTurned, IsShown, SomeMoved, finished_over};
ghost use Rattle.mum_viewer.specs.Viewer.{ViewerFacts, ViewerTurned, has_ended};
ghost use Rattle.mum_viewer.specs.declared.list.TheConstants.{VIEWS_OPEN};

use mum_doorway::Entrance;

/// No more views are open at once than may be.
pub fn views_are_few<D: Entrance>()
    ensures { (turns : List Turn) (viewer : ViewerFacts D D.Peer) →
        HasTurned D.facts D.Peer.facts turns viewer →
        length viewer.views.list ≤ VIEWS_OPEN }
{}

/// Each view between two turns is open, and was written a front of the text of the state at the list of an ask.
pub fn views_are_shown<D: Entrance>()
    ensures { (turns : List Turn) (viewer : ViewerFacts D D.Peer) →
        HasTurned D.facts D.Peer.facts turns viewer →
        AllByRecursion (IsShown D.Peer.facts viewer.views.pass) viewer.views.list }
{}

/// A view that is shut in a turn was written the whole text of the state at the list of an ask, or its link
/// failed.
pub fn views_end_whole<D: Entrance>()
    ensures { (turns : List Turn) (old new : ViewerFacts D D.Peer) (answer : Turn) →
        HasTurned D.facts D.Peer.facts turns old →
        (last : ViewerTurned D.facts D.Peer.facts
        old answer new) →
        EndWell D.Peer.facts old.views.pass old.views.list last.steps.steps.stepped }
{}

/// Each answer of a turn shows its cause.
pub fn answers_have_causes<D: Entrance>()
    // `Idle` only where each view found its link not ready, and the door gave nothing or is not to be asked.
    ensures idle { (turns : List Turn) (old new : ViewerFacts D D.Peer) →
        HasTurned D.facts D.Peer.facts turns old →
        ViewerTurned D.facts D.Peer.facts old Idle new →
        HasNothingToDo D.facts D.Peer.facts old new }
    // `Worked` only where a byte went over a link, a link was shut, or the door gave a connection, ended or failed.
    ensures worked { (turns : List Turn) (old new : ViewerFacts D D.Peer) →
        HasTurned D.facts D.Peer.facts turns old →
        (last : ViewerTurned D.facts D.Peer.facts
        old Worked new) →
        SomeMoved D.Peer.facts old.views.list last.steps.steps.stepped
        ⊎ HasAnswered D.facts old new }
    // `Done` exactly where no more connections come and each view was shut.
    ensures done { (old new : ViewerFacts D D.Peer) (answer : Turn) →
        ViewerTurned D.facts D.Peer.facts old answer new →
        (answer ≡ Done) ↔ IsTrue (has_ended new) }
{}

/// As many texts are counted as steps took the last byte of one.
pub fn texts_are_counted<D: Entrance>()
    ensures { (turns : List Turn) (viewer : ViewerFacts D D.Peer) →
        (run : HasTurned D.facts D.Peer.facts turns viewer) →
        viewer.views.whole ≡ given_after_all 0
        (finished_over D.facts D.Peer.facts
        run.opened turns viewer run.all) }
{}
