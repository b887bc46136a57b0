//! The control owner.

ghost use Rattle.std.specs.Prelude.{◌≡◌, ◌≢◌, ◌↔◌, ◌<◌, ◌⊎◌, ◌∷◌, [], IfErr, IfOk, IsTrue, MatchOption, OnErr, OnOk, is_none, length, map};
ghost use Rattle.std.specs.List.{AllByRecursion};
ghost use Rattle.std.specs.Vec.{vec_capacity};
ghost use mathlib.Core.List.{IsPrefix};
ghost use Rattle.mum_base.specs.declared.number.TheConstants.{SLOTS};
ghost use Rattle.mum_state.specs.Fits.{fits};
ghost use Rattle.mum_state.specs.Proper.{IsProper};
ghost use Rattle.mum_notify.specs.Notices.{FitsFrame};
ghost use Rattle.mum_rules_tree.specs.Decision.{FitsWhereAccepted};
ghost use Rattle.mum_session.specs.Reply.{reply_end};
ghost use Rattle.mum_session.specs.Verdict.{edits_of, verdict};
ghost use Rattle.mum_outbox.specs.Calls.{new_pass};
ghost use Rattle.mum_published.specs.Calls.{all_published, appended, latest, note_published};
ghost use Rattle.mum_published.specs.Rolls.{is_admitted};
ghost use Rattle.mum_control.specs.Commanded.{Accepts, Commanded, Decides, Denies, IsDropped, Publishes, accepted, current, note_of, with_login};
ghost use Rattle.mum_control.specs.Kept.{IsInSlot, MayIn, is_there, next_slot, slot_of};
ghost use Rattle.mum_control.specs.Posting.{EmptiesPost, IsOpened, Posts, PostsNext, due_notices};
ghost use Rattle.mum_parcel.specs.Rules.{Reports};
ghost use Rattle.std.specs.Option.{ForSome};
ghost use Rattle.mum_state.specs.declared.verdict.Verdict.TheVariants.{Accepted};

use crate::edits::Edits;
use crate::lagged::{keep_present, list_lagging};
use crate::permission::holds;
use crate::post::{Post, empty_at, offer_at, posts_of};
use crate::posted::Posted;
use crate::sessions::{is_there, next_slot, slot_of};
use mum_base::{ChannelId, Mark, Octets, OutOfMemory, Perm, ReplyEnd, SLOTS, SessionId, Slot};
use mum_history::EditList;
use mum_notify::{Notice, NoticeQueue, accept_edit};
use mum_outbox::Offered;
use mum_parcel::{PostBox, PostParcel};
use mum_published::{Naming, Note, Pass, Publisher, Reply, Roll};
use mum_session::{Asked, Command, decide, end_of, mark_of, wire_of};
use mum_state::{Edit, State, Verdict};
use std::alloc::Global;
use std::marker::{Model, PhantomData};
use std::mem::drop;
use std::sync::Wait;

/// The one owner of what is decided: it decides each command at the state after all accepted edits, appends
/// and publishes what it accepts, and keeps for each session what it is to be sent.
#[derive(Drop)]
pub struct Control<'a, N: Naming> {
    edits: Edits<'a>,
    // By their slots.
    posts: Vec<Post<N>>,
    pending: NoticeQueue,
    // It has room for a session of each slot.
    lagged: Vec<SessionId>,
    mark: Option<Mark>,
    alloc: Global,
    of: PhantomData<N>,
}

impl<'a, N: Naming> Model for Control<'a, N> {
    ghost use Rattle.std.specs.Vec.{vec_capacity};
    ghost use Rattle.mum_control.specs.Facts.{ControlFacts};
    ghost use Rattle.mum_control.specs.Kept.{IsKept};

    ghost Value = { ControlFacts };

    ghost view = { λ c. record {
      publisher = c.edits;
      posts = c.posts.items;
      pending = c.pending;
      lagged = c.lagged.items;
      mark = c.mark;
    } };

    ghost invariant = { λ c. IsKept N.opening c.edits c.posts.items c.pending c.lagged.items
        (vec_capacity c.lagged) };
}

// That the slots of the sessions are below the limit.
fn know_proper(state: &State)
    ensures { IsProper state.now }
{
    let _roster = state.roster();
}

fn no_bytes(alloc: Global) -> Octets
    ensures { result ≡ [] }
{
    Octets::from_vec(Vec::new(alloc))
}

// The edit of a verdict that accepts one; any other verdict comes back.
fn accepted_edit(verdict: Verdict) -> Result<Edit, Verdict>
    ensures edit { IfOk result (λ edit. verdict ≡ Accepted edit) }
    ensures others { IfErr result (λ denied. (verdict ≡ denied) × (edits_of denied ≡ [])) }
{
    match verdict {
        Verdict::Accepted(edit) => Ok(edit),
        denied => Err(denied),
    }
}

// An empty list with room for a session of each slot, and a pass of each box.
fn room_of<N: Naming>(
    alloc: Global,
    boxes: Vec<PostBox<N>>,
) -> Result<(Vec<SessionId>, Vec<Post<N>>), OutOfMemory>
    ensures nobody { IfOk result (λ made. made.0.items ≡ []) }
    ensures room { IfOk result (λ made. vec_capacity made.0 ≡ SLOTS) }
    ensures boxes { IfOk result (λ made. made.1.items ≡ map new_pass boxes.items) }
{
    let lagged = match Vec::with_capacity(alloc, SLOTS) {
        Ok(lagged) => lagged,
        Err(error) => {
            drop(boxes);
            return Err(error);
        }
    };
    let posts = posts_of(alloc, boxes)?;
    Ok((lagged, posts))
}

impl<'a, N: Naming> Control<'a, N> {
    /// Takes a publisher, the state after all that it has appended, and the box of each slot. It takes the
    /// memory for the list of sessions that lag.
    pub fn open(
        alloc: Global,
        state: State,
        publisher: &'a mut Publisher,
        posts: Vec<PostBox<N>>,
    ) -> Result<Control<'a, N>, OutOfMemory>
        requires opening { publisher.old.opening ≡ N.opening }
        requires state { state ≡ latest publisher.old }
        requires pending { publisher.old.pending ≡ [] }
        requires boxes { length posts.items ≡ SLOTS }
        ensures { IfOk result (IsOpened publisher.old posts.items) }
    {
        let (lagged, posts) = match room_of(alloc, posts) {
            Ok(made) => made,
            Err(error) => {
                drop(state);
                return Err(error);
            }
        };
        match Edits::open(alloc, state, publisher) {
            Ok(edits) => Ok(Control {
                edits,
                posts,
                pending: NoticeQueue::new(alloc),
                lagged,
                mark: None,
                alloc,
                of: PhantomData,
            }),
            Err(error) => {
                drop(lagged);
                drop(posts);
                Err(error)
            }
        }
    }

    /// The sessions whose box was full and that are still there.
    pub fn lagged(&self) -> &[SessionId]
        ensures { result.now ≡ self.now.lagged }
    {
        self.lagged.as_slice()
    }

    /// The outcome of the last command; `None` where none was given yet, or where memory ran out before it
    /// took effect.
    pub fn mark(&self) -> Option<Mark>
        ensures { result ≡ self.now.mark }
    {
        self.mark
    }

    /// How many accepted edits are not published.
    pub fn unpublished(&self) -> u64
        ensures { result ≡ length self.now.publisher.pending }
    {
        self.edits.unpublished()
    }

    /// The logins that were accepted, which each reply has.
    pub fn roll(&self) -> Roll
        ensures book { result.book ≡ N.opening.roll }
        ensures log { result.log ≡ self.now.publisher.roll }
    {
        self.edits.roll()
    }

    /// How many notices wait to be posted.
    pub fn pending(&self) -> usize
        ensures { result ≡ length self.now.pending }
    {
        self.pending.len()
    }

    /// Whether a session is in the state.
    pub fn is_there(&self, session: SessionId) -> bool
        ensures { result ≡ is_there (current self.now) session }
    {
        is_there(self.edits.latest(), session)
    }

    /// Whether a session has this permission in a channel. It has none where one of the two is not in the
    /// state.
    pub fn holds(&self, session: SessionId, perm: Perm, channel: ChannelId) -> bool
        ensures { IsTrue result ↔ MayIn (current self.now) session perm channel }
    {
        holds(self.edits.latest(), session, perm, channel)
    }

    /// The slot that the next accepted login gets; `None` where no more sessions may join.
    pub fn next_slot(&self) -> Option<Slot>
        ensures { result ≡ next_slot (current self.now) }
    {
        next_slot(self.edits.latest())
    }

    // What is decided of a command.
    fn decide(&self, session: Option<SessionId>, what: &Asked) -> Result<Verdict, OutOfMemory>
        ensures verdict { IfOk result (λ decided. decided ≡ verdict (current self.now) session what.now) }
        ensures fits { IfOk result (FitsWhereAccepted (current self.now)) }
        ensures frame { IfOk result (λ decided. AllByRecursion FitsFrame (edits_of decided)) }
    {
        decide(self.alloc, self.edits.latest(), session, what)
    }

    // Memory ran out before the command changed anything.
    fn refuse(&mut self, connection: u32) -> Reply<N>
        ensures { IsDropped self.old connection result self.new }
    {
        let roll = self.roll();
        self.mark = None;
        let wire = no_bytes(self.alloc);
        Reply::new(connection, ReplyEnd::Decided, None, wire, true, roll)
    }

    // Answers a command that is denied, answered or ignored.
    fn deny(&mut self, connection: u32, session: Option<SessionId>, denied: Verdict) -> Reply<N>
        requires { edits_of denied ≡ [] }
        ensures { IsDropped self.old connection result self.new
            ⊎ Denies self.old connection session denied result self.new }
    {
        let wire = wire_of(self.alloc, session, &denied);
        let (end, mark) = (end_of(&denied), mark_of(0, &denied));
        drop(denied);
        match wire {
            Ok(wire) => {
                let roll = self.roll();
                self.mark = Some(mark);
                Reply::new(connection, end, None, wire, false, roll)
            }
            Err(_) => self.refuse(connection),
        }
    }

    // Appends an edit, with the notices that report it.
    fn append(&mut self, edit: Edit) -> Result<(), OutOfMemory>
        requires fits { IsTrue (fits (current self.old) edit) }
        requires frame { FitsFrame edit }
        ensures ok { OnOk result (self.new ≡ accepted self.old edit) }
        ensures err { OnErr result (self.new ≡ self.old) }
    {
        know_proper(self.edits.latest());
        accept_edit(self.alloc, &mut self.edits, &mut self.pending, edit)?;
        know_proper(self.edits.latest());
        keep_present(&mut self.lagged, self.edits.latest());
        self.mark = Some(Mark::Accepted {
            revision: self.edits.revision(),
        });
        Ok(())
    }

    // Puts the login that a reply with this end reports on the roll, if it reports one.
    fn admit<R: Wait>(&mut self, rt: &R, connection: u32, end: ReplyEnd)
        ensures login { self.new ≡ record self.old { publisher = with_login self.old.publisher connection end } }
        ensures admitted { IsTrue (is_admitted end connection self.new.publisher.roll) }
    {
        self.edits.admit(rt, connection, end);
    }

    // Publishes what is appended, and answers the command that was accepted last.
    fn answer<R: Wait>(&mut self, rt: &R, connection: u32, end: ReplyEnd) -> Reply<N>
        requires { IsTrue (is_admitted end connection self.old.publisher.roll) }
        ensures published { Publishes self.old.publisher result.note self.new.publisher }
        ensures others { self.new ≡ record self.old { publisher = self.new.publisher } }
        ensures connection { result.connection ≡ connection }
        ensures end { result.end ≡ end }
        ensures wire { result.wire ≡ [] }
        ensures no_memory { result.no_memory ≡ is_none result.note }
        ensures roll { result.roll ≡ self.new.publisher.roll }
    {
        let roll = self.roll();
        let note = self.edits.publish_noted(rt);
        let no_memory = note.is_none();
        let wire = no_bytes(self.alloc);
        Reply::new(connection, end, note, wire, no_memory, roll)
    }

    // Accepts an edit, and answers its command.
    fn accept<R: Wait>(&mut self, rt: &R, connection: u32, end: ReplyEnd, edit: Edit) -> Reply<N>
        requires fits { IsTrue (fits (current self.old) edit) }
        requires frame { FitsFrame edit }
        requires end { end ≡ reply_end (Accepted edit) }
        ensures { IsDropped self.old connection result self.new
            ⊎ Accepts self.old connection edit result self.new }
    {
        match self.append(edit) {
            Ok(()) => {
                self.admit(rt, connection, end);
                self.answer(rt, connection, end)
            }
            Err(_) => self.refuse(connection),
        }
    }

    // Does what was decided of a command.
    fn settle<R: Wait>(
        &mut self,
        rt: &R,
        connection: u32,
        session: Option<SessionId>,
        decided: Verdict,
    ) -> Reply<N>
        requires fits { FitsWhereAccepted (current self.old) decided }
        requires frame { AllByRecursion FitsFrame (edits_of decided) }
        ensures { IsDropped self.old connection result self.new
            ⊎ Decides self.old connection session decided result self.new }
    {
        let end = end_of(&decided);
        match accepted_edit(decided) {
            Ok(edit) => self.accept(rt, connection, end, edit),
            Err(denied) => self.deny(connection, session, denied),
        }
    }

    /// Decides a command at the state after all accepted edits. What is accepted is appended, with the notices
    /// that report it, and published; all that memory can refuse, but the publish, comes before. It may
    /// wait for passes that look.
    pub fn command<R: Wait>(&mut self, rt: &R, command: Command) -> Reply<N>
        ensures { Commanded self.old command result self.new }
    {
        let Command {
            connection,
            worker: _,
            session,
            what,
        } = command;
        let decided = self.decide(session, &what);
        drop(what);
        match decided {
            Ok(decided) => self.settle(rt, connection, session, decided),
            Err(_) => self.refuse(connection),
        }
    }

    /// Publishes all accepted edits, and gives a note of it. After a refusal they stay as they were, and the
    /// next `publish` tries again. It may wait for passes that look.
    pub fn publish<R: Wait>(&mut self, rt: &R) -> Result<Note, OutOfMemory>
        ensures ok { OnOk result (self.new ≡ record self.old { publisher = all_published self.old.publisher }) }
        ensures err { OnErr result (self.new ≡ self.old) }
        ensures note { IfOk result (λ note. note ≡ note_of self.old.publisher) }
        ensures named { IfOk result (λ note. note.book ≡ N.opening.book) }
    {
        self.edits.publish(rt)
    }

    /// Returns once what is published, and the roll of accepted logins, begin with all that a pass of the same `open`
    /// saw and learnt, which is at once: see `Publisher::has_shown`.
    pub fn has_shown<R: Wait>(&self, rt: &R, pass: &Pass)
        requires { pass.now.opening ≡ N.opening }
        ensures known { IsPrefix pass.now.known self.now.publisher.published }
        ensures seen { IsPrefix pass.now.seen self.now.publisher.published }
        ensures roll { IsPrefix pass.now.roll self.now.publisher.roll }
    {
        self.edits.has_shown(rt, pass);
    }

    // Takes the first pending notice. It has a box, and reports an accepted edit.
    fn take_notice(&mut self) -> Option<Notice>
        ensures { MatchOption result ((self.old.pending ≡ []) × (self.new ≡ self.old))
            (λ notice. (self.old.pending ≡ notice ∷ self.new.pending)
            × (self.new ≡ record self.old { pending = self.new.pending })
            × IsInSlot notice × Reports N.opening (appended self.old.publisher) notice) }
    {
        self.pending.take_front()
    }

    // That all accepted edits are published, where they are.
    fn shown(&self) -> Option<Note>
        ensures note { MatchOption result (self.now.publisher.pending ≢ [])
            (λ note. (self.now.publisher.pending ≡ []) × (note ≡ note_published self.now.publisher)) }
        ensures named { ForSome result (λ note. note.book ≡ N.opening.book) }
    {
        self.edits.shown()
    }

    // Posts a notice that was pending, with the note of all that is published.
    fn post<R: Wait>(&mut self, rt: &R, notice: Notice, note: Note) -> Posted
        requires slot { notice.slot.0 < SLOTS }
        requires note { note ≡ note_published self.old.publisher }
        requires named { note.book ≡ N.opening.book }
        requires reports { Reports N.opening note.edits notice }
        ensures { Posts self.old notice self.old.pending result self.new }
    {
        let Notice {
            to,
            slot,
            bytes,
            last,
        } = notice;
        let parcel = PostParcel {
            to,
            bytes,
            last,
            note,
            of: PhantomData,
        };
        let place = usize::from(slot.0);
        match offer_at(rt, &mut self.posts, place, parcel) {
            Offered::Sent => Posted::Posted(to),
            Offered::Full(_) => {
                list_lagging(&mut self.lagged, self.edits.latest(), to);
                Posted::Lagged(to)
            }
        }
    }

    /// Takes the first pending notice, and offers it once to the box of its slot, with the note of all accepted edits.
    /// While one of these is not published nothing is posted. It takes no memory.
    pub fn post_next<R: Wait>(&mut self, rt: &R) -> Posted
        ensures { PostsNext self.old (due_notices self.old) result self.new }
    {
        let Some(note) = self.shown() else {
            return Posted::None;
        };
        match self.take_notice() {
            Some(notice) => self.post(rt, notice, note),
            None => Posted::None,
        }
    }

    /// Takes what lies in the box of this session's slot, until it is empty. Nothing happens where the
    /// session is not there.
    pub fn empty_post<R: Wait>(&mut self, rt: &R, session: SessionId)
        ensures { EmptiesPost self.old (slot_of (current self.old) session) self.new }
    {
        let Some(slot) = slot_of(self.edits.latest(), session) else {
            return;
        };
        let place = usize::from(slot.0);
        empty_at(rt, &mut self.posts, place);
    }

    /// The state after all accepted edits. They are of the `open` that the control owner is named for.
    pub fn into_state(self) -> State
        ensures state { result ≡ current self.entry }
        ensures opening { self.entry.publisher.opening ≡ N.opening }
    {
        let Control {
            edits,
            posts,
            pending,
            lagged,
            mark: _,
            alloc: _,
            of: _,
        } = self;
        drop(posts);
        drop(pending);
        drop(lagged);
        edits.into_state()
    }
}
