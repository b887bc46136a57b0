//! Laws of the machine, for every connection and every frame, and of what is answered, for every verdict.
//! The functions do nothing.

ghost use Rattle.std.specs.Prelude.{◌≡◌, ◌≢◌, ◌==◌, ◌↔◌, ℕ, [], List, None, Option, Some, true, false};
ghost use Rattle.std.specs.List.{list_any};
ghost use Rattle.mum_frame.specs.declared.frame.Frame.{Frame};
ghost use Rattle.mum_frame.specs.Frame.{frame_spelling};
ghost use Rattle.mum_rules_tree.specs.Denial.{denial};
ghost use Rattle.mum_base.specs.declared.outcome.Reason.TheVariants.{Gone, NotLoggedIn};
ghost use Rattle.mum_base.specs.declared.number.SessionId.{SessionId};
ghost use Rattle.mum_base.specs.declared.number.Slot.{Slot};
ghost use Rattle.mum_base.specs.declared.reply.ReplyEnd.TheVariants as ends;
ghost use Rattle.mum_base.specs.declared.reply.ReplyEnd.TheVariants.{Joined};
ghost use Rattle.mum_state.specs.declared.edit.Edit.{Edit};
ghost use Rattle.mum_state.specs.declared.verdict.Verdict.{Verdict};
ghost use Rattle.mum_state.specs.declared.verdict.Verdict.TheVariants.{Accepted, Ignored, Rejected};
ghost use Rattle.mum_session.specs.Action.{action, ignore, taken_before_login};
ghost use Rattle.mum_session.specs.declared.action.Action.TheVariants.{Bans};
ghost use Rattle.mum_session.specs.declared.action.TheConstants.{BAN_LIST};
ghost use Rattle.mum_session.specs.declared.session.Stage.TheVariants.{BeforeLogin};
ghost use Rattle.mum_session.specs.Laws.{EntersWherePermitted, SendsBans};
ghost use Rattle.mum_session.specs.Machine.{Machine, is_rejected, session_of};
ghost use Rattle.mum_session.specs.Reply.{JoinsAs, reply_end, wire};

/// Before a login, and after one that was rejected, what a frame asks for does not depend on its
/// payload, but for a Version, a Ping and an Authenticate. After a rejection nothing is asked for.
pub fn payloads_wait_for_a_login()
    ensures unread { (machine : Machine) (kind : ℕ) (payload other : List ℕ)
        → session_of machine.stage ≡ None
        → list_any (λ known. known == kind) taken_before_login ≡ false
        → action machine kind payload ≡ action machine kind other }
    ensures rejected { (machine : Machine) (kind : ℕ) (payload : List ℕ)
        → is_rejected machine.stage ≡ true
        → action machine kind payload ≡ ignore Gone }
{}

/// The wait for a reply ends with a session in its slot exactly where a login is accepted that gives
/// them, and for good exactly where the verdict is a rejection.
pub fn replies_end()
    ensures joined { (verdict : Verdict) (session : SessionId) (slot : Slot)
        → (reply_end verdict ≡ Joined session slot) ↔ JoinsAs session slot verdict }
    ensures rejected { (verdict : Verdict)
        → (reply_end verdict ≡ ends.Rejected) ↔ ((kind : ℕ) × (verdict ≡ Rejected kind)) }
{}

/// Bans are asked for exactly where a BanList comes of a connection that is logged in and may send one, and its
/// payload is handed on as it came. All else asks for what it does of a connection that may send none. Before a
/// login such a list asks for nothing.
pub fn bans_come_of_lists()
    ensures lists { (machine : Machine) (kind : ℕ) (payload asked : List ℕ)
        → (action machine kind payload ≡ Bans asked) ↔ SendsBans machine kind payload asked }
    ensures others { (machine : Machine) (kind : ℕ) (payload : List ℕ) → kind ≢ BAN_LIST
        → action machine kind payload ≡ action (record machine { bans = false }) kind payload }
    ensures strangers { (machine : Machine) (payload : List ℕ) → machine.stage ≡ BeforeLogin → machine.bans ≡ true
        → action machine BAN_LIST payload ≡ ignore NotLoggedIn }
{}

/// For an accepted and for an ignored command the actor is sent nothing.
pub fn silent_verdicts()
    ensures accepted { (session : Option SessionId) (edit : Edit) → wire session (Accepted edit) ≡ [] }
    ensures ignored { (session : Option SessionId) (why : ℕ) → wire session (Ignored why) ≡ [] }
{}

/// Whoever is denied a command or a login is sent the frame of the denial: it is always short enough.
pub fn denials_are_sent()
    ensures { (session : Option SessionId) (verdict : Verdict) (frame : Frame)
        → denial session verdict ≡ Some frame → wire session verdict ≡ frame_spelling frame }
{}

/// A session enters a channel by a command of its own only where it has Enter or Move there; or it is
/// the temporary channel that it makes, or the parent of one that it removes from around itself.
pub fn enters_where_permitted()
    ensures { EntersWherePermitted }
{}
