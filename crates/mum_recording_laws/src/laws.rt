//! Which journals are those of runs. These functions do nothing: each contract is a theorem.

ghost use Rattle.mum_recording_laws.specs.OfRuns.{JournalsOfRunsAreAsked, JournalsOfRunsAreLegal};
ghost use Rattle.mum_recording_laws.specs.OfRuns.{LegalJournalsAreOfRuns, OrderlyRunsAreInOrder};

use mum_route::laws::hearers_are_the_route;

/// Whatever journal has the commands that a run of the core decides, in their order and with their verdicts, for each
/// worker the packets that it routes, each to those who hear it, and the connections of it that close, is legal.
pub fn journals_of_runs_are_legal()
    ensures { JournalsOfRunsAreLegal }
{
    hearers_are_the_route();
}

/// A legal journal that has lines and is in order has the verdicts and the routes of an orderly run. In order: nothing
/// after the leave of a connection and no frame after its rejection, frames that ask for commands, a session for all
/// but logins, a version that stays, and packets at the worker of their connection, at revisions that have its login and
/// nothing from its leave on. What is orderly is said at `orderly_runs_are_in_order`.
pub fn legal_journals_are_of_runs()
    ensures { LegalJournalsAreOfRuns }
{
    hearers_are_the_route();
}

/// Whatever journal has lines, and the commands and the packets of a run, is in order but for leaves and revisions: a
/// connection that lagged may ask for more after its leave, and a worker may look at a revision before the login of
/// the speaker, if it was sent none, or from its leave on.
pub fn journals_of_runs_are_asked()
    ensures { JournalsOfRunsAreAsked }
{}

/// Whatever journal has lines, and the commands and the packets of an orderly run, is in order. In an orderly run a
/// connection that is to leave takes no frame, its leave is decided when it is closed, whoever hears of an accepted
/// edit is notified of a revision, and no connection closes while its worker holds a packet.
pub fn orderly_runs_are_in_order()
    ensures { OrderlyRunsAreInOrder }
{}
