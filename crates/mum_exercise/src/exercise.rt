//! An exercise: a session of 16 users that is drawn from a seed. What a command needs next, whom a packet
//! reaches and who is notified of an edit is known only once the steps before were taken, so the steps are
//! taken while they are drawn.

ghost use Rattle.std.specs.Prelude.{◌≡◌, ◌<◌, ◌^◌, ◌++◌, ◌∷◌, [], ℕ, IfOk, IfSome, None, OnOk, length, map};
ghost use Rattle.std.specs.Prelude.{replicate, slice_index, string_bytes};
ghost use Rattle.std.specs.List.{flat_map};
ghost use Rattle.mum_frame.specs.Frame.{IsOneFrame};
ghost use Rattle.mum_record.specs.Grammar.{IsRecordable};
ghost use Rattle.mum_record.specs.Words.{line_of_words};
ghost use Rattle.mum_record.specs.declared.head.Version.TheVariants.{One};
ghost use Rattle.mum_record.specs.declared.step.Step.TheVariants.{Collect, Drain, Frame, Offer, Post};
ghost use Rattle.mum_core.specs.Core.{start, worker_at};
ghost use Rattle.mum_exercise.specs.Exercise.{IsAlike, account, all_taken, answered, begun, commanded, delivered};
ghost use Rattle.mum_exercise.specs.Exercise.{document, exercised, informed, joined, joins, note, numbers_words};
ghost use Rattle.mum_exercise.specs.Exercise.{played, progress, spoken, taken, worker_of};
ghost use Rattle.mum_opening.specs.Opening.{document_fault, opening};
ghost use Rattle.mum_exercise.specs.declared.draws.Act.TheVariants.{Talk};

use crate::acts::{
    aim_frame, enter_frame, link_frame, listen_frame, login_frame, self_mute_frame, voice_frame,
};
use crate::draws::{Act, Draws, Round, USERS};
use crate::tally::Tally;
use mum_base::{Mark, Octets, OutOfMemory, SessionId};
use mum_core::{PlainCore, StepFault, Totals};
use mum_record::{Step, Version, Word, push_line};
use std::alloc::{AllocError, Global};
use std::marker::Model;
use std::mem::{drop, replace};

/// The workers of an exercise.
pub const WORKERS: u8 = 4;

/// The numbers that the definition of an exercise names. This does nothing: its contract is what they are.
pub fn numbers()
    ensures workers { WORKERS ≡ 4 }
    ensures users { USERS ≡ 16 }
{}

/// The configuration of an exercise: channels 1 to 7 named c1 to c7, channel i under the whole part of
/// (i - 1) / 2.
pub const DOCUMENT: &str =
    "{\"channels\":[{\"id\":1,\"parent\":0,\"name\":\"c1\"},{\"id\":2,\"parent\":0,\"name\":\"c2\"},{\"id\":3,\"parent\":1,\"name\":\"c3\"},{\"id\":4,\"parent\":1,\"name\":\"c4\"},{\"id\":5,\"parent\":2,\"name\":\"c5\"},{\"id\":6,\"parent\":2,\"name\":\"c6\"},{\"id\":7,\"parent\":3,\"name\":\"c7\"}]}";

// A core at the configuration of an exercise, to which nothing happened.
fn core_at_opening(alloc: Global) -> Result<PlainCore, OutOfMemory>
    ensures core { IfOk result (λ core. core ≡ start One (opening None document) WORKERS) }
    ensures good { document_fault document ≡ None }
{
    let opening = mum_opening::open(alloc, &None, DOCUMENT.as_bytes())?;
    PlainCore::begin(alloc, Version::One, WORKERS, opening)
}

// The worker of a connection: they are dealt out in turn.
fn worker_of(connection: u32) -> u32
    ensures { result ≡ worker_of connection }
{
    connection.saturating_sub(1) % u32::from(WORKERS)
}

// Bytes fit eight bits, as their type says.
fn are_bytes(bytes: &[u8])
    ensures { (place : ℕ) → slice_index bytes.now place < 256 }
{
    let _ = bytes;
}

// The step by which the worker of a connection takes a frame.
fn frame_step(connection: u32, bytes: Octets) -> Step
    requires { IsOneFrame bytes }
    ensures step { result ≡ Frame connection bytes }
    ensures recordable { IsRecordable result }
{
    are_bytes(bytes.as_slice());
    Step::Frame { connection, bytes }
}

// An exercise that is under way.
#[derive(Drop)]
struct Course {
    core: PlainCore,
    /// The steps that were taken.
    steps: Vec<Step>,
    tally: Tally,
    /// What the last step reported.
    text: String,
}

impl Model for Course {
    ghost use Rattle.mum_exercise.specs.Exercise.{CourseValue};

    ghost Value = { CourseValue };

    ghost view = { λ c. record { core = c.core; steps = c.steps.items; tally = c.tally } };
}

impl Course {
    // A course in which nothing happened.
    fn open(alloc: Global) -> Result<Course, OutOfMemory>
        ensures { IfOk result (λ course. course ≡ begun) }
    {
        Ok(Course {
            core: core_at_opening(alloc)?,
            steps: Vec::new(alloc),
            tally: Tally::new(),
            text: String::new(alloc),
        })
    }

    // The line that reports what came of an exercise of a seed, of n rounds.
    fn account(&self, alloc: Global, seed: u64, rounds: u32) -> Result<String, OutOfMemory>
        ensures { IfOk result (λ line. string_bytes line
            ≡ line_of_words (numbers_words seed rounds self.now.tally self.now.core.totals) ++ 10 ∷ []) }
    {
        account_of(alloc, seed, rounds, self.tally, self.core.totals())
    }

    // Takes a step where it is allowed. What an error leaves is of no use.
    fn take(&mut self, step: Step) -> Result<(), OutOfMemory>
        requires { IsRecordable step }
        ensures { OnOk result (self.new ≡ taken self.old step) }
    {
        self.text.clear();
        match self.core.take(&step, &mut self.text) {
            Ok(()) => self.steps.push(step).map_err(AllocError::from),
            Err(StepFault::Illegal { .. }) => {
                drop(step);
                Ok(())
            }
            Err(StepFault::OutOfMemory) => {
                drop(step);
                Err(AllocError)
            }
        }
    }

    // Posts the next notice, and lets a connection collect it.
    fn bring(&mut self, connection: u32) -> Result<(), OutOfMemory>
        ensures { OnOk result (self.new ≡ all_taken self.old (Post ∷ Collect connection ∷ [])) }
    {
        self.take(Step::Post)?;
        self.take(Step::Collect { connection })
    }

    // Posts a notice for each of these sessions, and lets it collect.
    fn bring_each(&mut self, recipients: &[SessionId]) -> Result<(), OutOfMemory>
        ensures { OnOk result (self.new ≡ all_taken self.old
            (flat_map (λ session. Post ∷ Collect session.0 ∷ []) recipients.now)) }
    {
        for session in recipients {
            self.bring(session.0)?;
        }
        Ok(())
    }

    // For whom the notices are that are pending.
    fn recipients(&self) -> Result<Vec<SessionId>, OutOfMemory>
        ensures { IfOk result (λ sessions. sessions.items ≡ map (λ notice. notice.to) self.now.core.pending) }
    {
        self.core.pending()
    }

    // Posts each notice that is pending, and lets its recipient collect it.
    fn inform(&mut self) -> Result<(), OutOfMemory>
        ensures { OnOk result (self.new ≡ informed self.old) }
    {
        let recipients = self.recipients()?;
        self.bring_each(&recipients)
    }

    // The note with which a command of which this was decided is answered.
    fn note(&self, mark: Option<Mark>) -> Option<u64>
        ensures note { result ≡ note self.now.core mark }
        ensures fits { IfSome result (λ revision. revision < 2 ^ 64) }
    {
        match mark {
            Some(Mark::Accepted { .. }) => Some(self.core.published()),
            _ => None,
        }
    }

    // Sends a connection what was decided of its command, and all what came of it.
    fn answer(&mut self, connection: u32) -> Result<(), OutOfMemory>
        ensures { OnOk result (self.new ≡ answered connection self.old) }
    {
        let mark = self.core.decided(connection);
        self.tally.count(mark);
        let revision = self.note(mark);
        self.take(Step::Tell {
            connection,
            revision,
        })?;
        self.inform()
    }

    // Brings a command of a connection, from its frame to the last notice of it.
    fn command(&mut self, connection: u32, bytes: Octets) -> Result<(), OutOfMemory>
        requires { IsOneFrame bytes }
        ensures { OnOk result (self.new ≡ commanded connection bytes self.old) }
    {
        self.take(frame_step(connection, bytes))?;
        self.take(Step::Edit { connection })?;
        self.take(Step::Publish)?;
        self.answer(connection)
    }

    // Offers a copy of a worker for each of these sessions.
    fn offer_each(&mut self, worker: u32, audience: &[SessionId]) -> Result<(), OutOfMemory>
        ensures { OnOk result (self.new ≡ all_taken self.old (replicate (length audience.now) (Offer worker))) }
    {
        for _copy in 0..audience.len() {
            self.take(Step::Offer { worker })?;
        }
        Ok(())
    }

    // A connection drains a copy.
    fn drain(&mut self, connection: u32) -> Result<(), OutOfMemory>
        ensures { OnOk result (self.new ≡ taken self.old (Drain connection)) }
    {
        self.take(Step::Drain { connection })
    }

    // Each of these sessions drains a copy.
    fn drain_each(&mut self, audience: &[SessionId]) -> Result<(), OutOfMemory>
        ensures { OnOk result (self.new ≡ all_taken self.old
            (flat_map (λ session. Drain session.0 ∷ []) audience.now)) }
    {
        for session in audience {
            self.drain(session.0)?;
        }
        Ok(())
    }

    // For whom the copies are that a worker has.
    fn audience(&self, worker: u32) -> Result<Vec<SessionId>, OutOfMemory>
        ensures { IfOk result (λ sessions. sessions.items ≡ map (λ copy. copy.to)
            (worker_at self.now.core worker).copies) }
    {
        self.core.recipients(worker)
    }

    // Offers a copy of a worker for each of these sessions, and lets each drain one.
    fn deliver_to(&mut self, worker: u32, audience: &[SessionId]) -> Result<(), OutOfMemory>
        ensures { OnOk result (self.new ≡ all_taken
            (all_taken self.old (replicate (length audience.now) (Offer worker)))
            (flat_map (λ session. Drain session.0 ∷ []) audience.now)) }
    {
        self.offer_each(worker, audience)?;
        self.drain_each(audience)
    }

    // Offers each copy that a worker has, and lets each of the audience drain one.
    fn deliver(&mut self, worker: u32) -> Result<(), OutOfMemory>
        ensures { OnOk result (self.new ≡ delivered worker self.old) }
    {
        let audience = self.audience(worker)?;
        self.deliver_to(worker, &audience)
    }

    // Brings a packet of a connection, from its frame to the last copy of it.
    fn speak(&mut self, connection: u32, bytes: Octets) -> Result<(), OutOfMemory>
        requires { IsOneFrame bytes }
        ensures { OnOk result (self.new ≡ spoken connection bytes self.old) }
    {
        let worker = worker_of(connection);
        self.take(frame_step(connection, bytes))?;
        let revision = self.core.published();
        self.take(Step::Look { worker, revision })?;
        self.deliver(worker)
    }

    // User `number` comes.
    fn join(&mut self, alloc: Global, number: u32) -> Result<(), OutOfMemory>
        ensures { OnOk result (self.new ≡ joins number self.old) }
    {
        let worker = worker_of(number);
        self.take(Step::Open {
            connection: number,
            worker,
        })?;
        let bytes = login_frame(alloc, number)?;
        self.command(number, bytes)
    }

    // Does what is done in the round of a number.
    fn play(&mut self, alloc: Global, number: u64, round: Round) -> Result<(), OutOfMemory>
        requires { (target : ℕ) → round.act ≡ Talk target → target < 2 }
        ensures { OnOk result (self.new ≡ played number round self.old) }
    {
        let actor_from = round.connection;
        match round.act {
            Act::Talk { target } => self.speak(actor_from, voice_frame(alloc, target, number)?),
            Act::Enter { channel } => self.command(actor_from, enter_frame(alloc, channel)?),
            Act::Link { channel } => self.command(actor_from, link_frame(alloc, channel)?),
            Act::SetSelfMute { muted } => self.command(actor_from, self_mute_frame(alloc, muted)?),
            Act::Listen { channel } => self.command(actor_from, listen_frame(alloc, channel)?),
            Act::Aim { channel } => self.command(actor_from, aim_frame(alloc, channel)?),
        }
    }

    // All users come.
    fn join_all(&mut self, alloc: Global) -> Result<(), OutOfMemory>
        requires { self.old ≡ begun }
        ensures { OnOk result (self.new ≡ joined USERS) }
    {
        for before in 0..USERS {
            self.join(alloc, before + 1)?;
        }
        Ok(())
    }

    // Plays n rounds of a seed.
    fn play_all(&mut self, alloc: Global, seed: u64, rounds: u32) -> Result<(), OutOfMemory>
        requires { self.old ≡ joined USERS }
        ensures { OnOk result (self.new ≡ (progress seed rounds).course) }
    {
        let mut draws = Draws::new(seed);
        for before in 0..rounds {
            let round = draws.round();
            self.play(alloc, u64::from(before) + 1, round)?;
        }
        Ok(())
    }

    // The steps so far are kept no longer.
    fn forget(&mut self)
        ensures { self.new ≡ record self.old { steps = [] } }
    {
        self.steps.clear();
    }

    // Plays n rounds of a seed, and keeps no step of them.
    fn count_all(&mut self, alloc: Global, seed: u64, rounds: u32) -> Result<(), OutOfMemory>
        requires { self.old ≡ joined USERS }
        ensures { OnOk result (IsAlike self.new (progress seed rounds).course) }
    {
        let mut draws = Draws::new(seed);
        for before in 0..rounds {
            let round = draws.round();
            self.play(alloc, u64::from(before) + 1, round)?;
            self.forget();
        }
        Ok(())
    }

    // All users come, n rounds of a seed are played with no step kept, and the recording ends.
    fn count(&mut self, alloc: Global, seed: u64, rounds: u32) -> Result<(), OutOfMemory>
        requires { self.old ≡ begun }
        ensures { OnOk result (IsAlike self.new (exercised seed rounds)) }
    {
        self.join_all(alloc)?;
        self.count_all(alloc, seed, rounds)?;
        self.take(Step::End)
    }

    // All users come, n rounds of a seed are played, and the recording ends.
    fn run(&mut self, alloc: Global, seed: u64, rounds: u32) -> Result<(), OutOfMemory>
        requires { self.old ≡ begun }
        ensures { OnOk result (self.new ≡ exercised seed rounds) }
    {
        self.join_all(alloc)?;
        self.play_all(alloc, seed, rounds)?;
        self.take(Step::End)
    }
}

// The course of an exercise of a seed, of n rounds, to the end of its recording.
fn exercised(alloc: Global, seed: u64, rounds: u32) -> Result<Course, OutOfMemory>
    ensures { IfOk result (λ course. course ≡ exercised seed rounds) }
{
    let mut course = Course::open(alloc)?;
    match course.run(alloc, seed, rounds) {
        Ok(()) => Ok(course),
        Err(error) => {
            drop(course);
            Err(error)
        }
    }
}

// What comes of the exercise of a seed, of n rounds. Its steps are not kept.
fn counted(alloc: Global, seed: u64, rounds: u32) -> Result<Course, OutOfMemory>
    ensures { IfOk result (λ course. IsAlike course (exercised seed rounds)) }
{
    let mut course = Course::open(alloc)?;
    match course.count(alloc, seed, rounds) {
        Ok(()) => Ok(course),
        Err(error) => {
            drop(course);
            Err(error)
        }
    }
}

/// The steps of the exercise of a seed, of n rounds, as they are in its recording.
pub fn generate(alloc: Global, seed: u64, rounds: u32) -> Result<Vec<Step>, OutOfMemory>
    ensures { IfOk result (λ steps. steps.items ≡ (exercised seed rounds).steps) }
{
    let mut course = exercised(alloc, seed, rounds)?;
    let steps = replace(&mut course.steps, Vec::new(alloc));
    drop(course);
    Ok(steps)
}

// The line that reports what came of an exercise.
fn account_of(
    alloc: Global,
    seed: u64,
    rounds: u32,
    tally: Tally,
    totals: Totals,
) -> Result<String, OutOfMemory>
    ensures { IfOk result (λ line. string_bytes line ≡ line_of_words (numbers_words seed rounds tally totals) ++ 10
        ∷ []) }
{
    let words = [
        Word::Name("seed"),
        Word::Number(seed),
        Word::Name("steps"),
        Word::Number(u64::from(rounds)),
        Word::Name("accepted"),
        Word::Number(tally.accepted),
        Word::Name("lacks"),
        Word::Number(tally.lacks),
        Word::Name("refused"),
        Word::Number(tally.refused),
        Word::Name("ignored"),
        Word::Number(tally.ignored),
        Word::Name("looks"),
        Word::Number(totals.looks),
        Word::Name("copies"),
        Word::Number(totals.copies),
        Word::Name("full"),
        Word::Number(totals.full),
        Word::Name("stale"),
        Word::Number(totals.stale),
    ];
    let mut line = String::new(alloc);
    push_line(alloc, &mut line, "exercise", &words)?;
    line.push_str("\n")?;
    Ok(line)
}

/// Runs the exercise of a seed, of n rounds: the line that reports what came of it.
pub fn account(alloc: Global, seed: u64, rounds: u32) -> Result<String, OutOfMemory>
    ensures { IfOk result (λ line. string_bytes line ≡ account seed rounds) }
{
    let course = counted(alloc, seed, rounds)?;
    let line = course.account(alloc, seed, rounds);
    drop(course);
    line
}
