//! What follows from the definitions of the steps for every run of them. These functions do
//! nothing: each contract is a theorem.

ghost use Rattle.std.specs.Prelude.{◌≡◌, ◌≢◌, ◌==◌, ◌≤◌, ◌<◌, ◌+◌, ◌-◌, ◌^◌, ◌⊎◌, ◌++◌, ◌∷◌, ℕ, List, [], filter, length, map, sum_by, IsSome, IsTrue, None, Some, true};
ghost use Rattle.std.specs.List.{AllByRecursion, AllPairs};
ghost use Rattle.mum_base.specs.declared.number.SessionId.{SessionId};
ghost use Rattle.mum_base.specs.declared.number.Slot.{Slot};
ghost use Rattle.mum_users.specs.Sessions.{session_of};
ghost use Rattle.mum_state.specs.declared.edit.Edit.{Edit};
ghost use Rattle.mum_state.specs.After.{all_fit};
ghost use Rattle.mum_state.specs.Laws.{IsInSlot};
ghost use Rattle.mum_state.specs.Proper.{IsProper};
ghost use Rattle.mum_state.specs.State.{StateValue};
ghost use Rattle.mum_route.specs.Hearers.{hearers_at};
ghost use Rattle.mum_route.specs.declared.routes.TheConstants.{LOOPBACK};
ghost use Rattle.mum_core.specs.declared.connection.Seat.{Seat};
ghost use Rattle.mum_core.specs.declared.worker.Outgoing.{Outgoing};
ghost use Rattle.mum_record.specs.declared.head.Version.{Version};
ghost use Rattle.mum_record.specs.declared.step.Step.{Step};
ghost use Rattle.mum_record.specs.declared.step.Step.TheVariants.{Collect, Drain, Frame, Look, Offer};
ghost use Rattle.mum_core.specs.Core.{CoreState, start, state_at, connection_at, is_opened, outbox_at, posts_at, worker_at};
ghost use Rattle.mum_core.specs.Laws.{IsOfferOf, IsParcelOf, IsRun, IsSubsequence, IsSubsequenceBy, collected, gathered, heard, is_by, looked, noticed, offered, packet_taken, posted, posted_in, ran, removed, sent, told_notice, wired};
ghost use Rattle.mum_core.specs.Step.{does, frame_action, illegal};
ghost use Rattle.mum_session.specs.declared.action.Action.TheVariants.{Bans};
ghost use Rattle.mum_core.specs.Worker.{HeldPacket};
ghost use Rattle.mum_core.specs.steps.Look.{outgoing};

use mum_base::SLOTS;

/// Accepted edits are only added to, at their end, and the opening stays. Each of them fits in
/// its place. No more is published than was accepted, and never less than before.
pub fn accepted_edits_are_one_list()
    ensures grows { (core : CoreState) (steps : List Step) →
        (more : List Edit) × ((ran core steps).accepted ≡ core.accepted ++ more) }
    ensures opening { (core : CoreState) (steps : List Step) →
        (ran core steps).opening ≡ core.opening }
    ensures fit { (version : Version) (opening : StateValue) (workers : ℕ) (steps : List Step) →
        IsProper opening → IsRun (start version opening workers) steps →
        IsTrue (all_fit opening (ran (start version opening workers) steps).accepted) }
    ensures published { (version : Version) (opening : StateValue) (workers : ℕ) (steps : List Step) →
        let core = ran (start version opening workers) steps in core.published ≤ length core.accepted }
    ensures never_back { (version : Version) (opening : StateValue) (workers : ℕ) (steps more : List Step) →
        let core = ran (start version opening workers) steps in core.published ≤ (ran core more).published }
{}

/// What a worker has seen and was notified of never falls; a look is at a published revision, and not
/// below what its worker has seen or was notified of.
pub fn looks_go_on()
    ensures never_back { (core : CoreState) (steps : List Step) (w : ℕ) → IsRun core steps →
        ((worker_at core w).seen ≤ (worker_at (ran core steps) w).seen)
        × ((worker_at core w).told ≤ (worker_at (ran core steps) w).told) }
    ensures bounded { (core : CoreState) (w revision : ℕ) → illegal core (Look w revision) ≡ None →
        ((worker_at core w).seen ≤ revision) × ((worker_at core w).told ≤ revision)
        × (revision ≤ core.published) }
{}

/// A look leaves one copy for each who hears the packet at its revision, in their order; their slots rise
/// and no two are one session, so each is there once; none is the speaker, but for loopback, where nobody
/// else is one; an offer takes the first copy that is left, and no other.
pub fn copies_are_offered_once()
    ensures route { (core : CoreState) (w revision : ℕ) (held : HeldPacket) →
        illegal core (Look w revision) ≡ None → (worker_at core w).held ≡ Some held →
        let state = state_at core revision in
        (worker_at (does core (Look w revision)) w).copies
        ≡ map (outgoing held) (hearers_at state held.speaker held.parts.target) }
    ensures not_the_speaker { (state : StateValue) (speaker : SessionId) (target : ℕ) →
        (target ≡ LOOPBACK → ⊥) →
        AllByRecursion (λ hearer. hearer.session.0 ≡ speaker.0 → ⊥) (hearers_at state speaker target) }
    ensures loopback { (state : StateValue) (speaker : SessionId) →
        AllByRecursion (λ hearer. hearer.session.0 ≡ speaker.0) (hearers_at state speaker LOOPBACK) }
    ensures each_once { (version : Version) (opening : StateValue) (workers : ℕ) (steps : List Step)
        (revision : ℕ) (speaker : SessionId) (target : ℕ) →
        IsProper opening → IsRun (start version opening workers) steps →
        AllPairs (λ hearer other. (hearer.slot.0 < other.slot.0) × (hearer.session.0 ≡ other.session.0 → ⊥))
        (hearers_at (state_at (ran (start version opening workers) steps) revision) speaker target) }
    ensures in_order { (core : CoreState) (w : ℕ) → illegal core (Offer w) ≡ None →
        (copy : Outgoing)
        × ((worker_at core w).copies ≡ copy ∷ (worker_at (does core (Offer w)) w).copies) }
{}

/// The copies that were sent, those that found their outbox full, and those that workers have left
/// add up to the audiences that were looked for; and those that were sent, with the notices that were
/// posted, are what was delivered to connections, what was dropped, and what waits: until a count is at
/// the end of its type.
pub fn each_copy_is_counted()
    ensures offered { (version : Version) (opening : StateValue) (workers : ℕ) (steps : List Step) →
        IsRun (start version opening workers) steps → length steps < 2 ^ 64 - 1 →
        let core = ran (start version opening workers) steps in
        core.totals.copies + core.totals.full + sum_by (λ worker. length worker.copies) core.workers
        ≡ looked (start version opening workers) steps }
    ensures drained { (version : Version) (opening : StateValue) (workers : ℕ) (steps : List Step) →
        IsProper opening → IsRun (start version opening workers) steps → length steps < 2 ^ 64 - 1 →
        let core = ran (start version opening workers) steps in
        length (gathered wired (start version opening workers) steps)
        + length (gathered told_notice (start version opening workers) steps) + core.totals.stale
        + sum_by length core.outboxes + sum_by length core.posts
        ≡ core.totals.copies + length (gathered posted (start version opening workers) steps) }
{}

/// A connection stays at its worker and keeps the seat that it was sent; a session is never of two
/// connections, and the packets of one speaker are all taken by one worker. A connection that is closed
/// stays closed: none of its frames is taken, and nothing is drained or collected for it.
pub fn connections_stay_as_they_are()
    ensures stays { (core : CoreState) (steps : List Step) (c : ℕ) → is_opened core c ≡ true →
        (connection_at (ran core steps) c).worker ≡ (connection_at core c).worker }
    ensures seat_stays { (version : Version) (opening : StateValue) (workers c : ℕ) (steps more : List Step)
        (seat : Seat) →
        let core = ran (start version opening workers) steps in
        IsRun (start version opening workers) steps → IsRun core more →
        (connection_at core c).seat ≡ Some seat → (connection_at (ran core more) c).seat ≡ Some seat }
    ensures one_connection { (version : Version) (opening : StateValue) (workers c d : ℕ) (steps more : List Step)
        (seat other : Seat) →
        let core = ran (start version opening workers) steps in
        IsRun (start version opening workers) steps → IsRun core more →
        (connection_at core c).seat ≡ Some seat →
        (connection_at (ran core more) d).seat ≡ Some other →
        seat.session.0 ≡ other.session.0 → c ≡ d }
    ensures one_worker { (version : Version) (opening : StateValue) (workers v w speaker : ℕ) (steps : List Step) →
        let taken = λ (worker : ℕ). filter (λ held. held.speaker.0 == speaker)
        (gathered (packet_taken worker) (start version opening workers) steps) in
        IsRun (start version opening workers) steps → (v ≡ w → ⊥) → (taken v ≡ []) ⊎ (taken w ≡ []) }
    ensures closed_stays { (core : CoreState) (c line : ℕ) (steps : List Step) →
        IsRun core steps → (connection_at core c).closed ≡ Some line →
        (connection_at (ran core steps) c).closed ≡ Some line }
    ensures closed_is_silent { (core : CoreState) (c line : ℕ) (bytes : List ℕ) →
        (connection_at core c).closed ≡ Some line →
        IsSome (illegal core (Frame c bytes)) × IsSome (illegal core (Drain c))
        × IsSome (illegal core (Collect c)) }
{}

/// What a worker sends to a session are copies of the packets that it took, in their order, one at most
/// of each, and none is sent to a session that was never there. What was sent to a session left the outbox
/// of its slot in this order, or waits there: from the offer that has room to the drain no copy is lost,
/// doubled, changed or overtaken. Its own connection is sent what it drains of that; what another
/// connection of the slot drains is dropped, and where there is no other, it drains all.
pub fn copies_keep_their_order()
    ensures sent { (version : Version) (opening : StateValue) (workers w n : ℕ) (steps : List Step) →
        IsProper opening → IsRun (start version opening workers) steps →
        let offers = filter (λ offer. offer.0 == w)
        (gathered (sent n) (start version opening workers) steps) in
        let packets = gathered (packet_taken w) (start version opening workers) steps in
        IsSubsequenceBy IsOfferOf offers packets }
    ensures only_there { (version : Version) (opening : StateValue) (workers : ℕ) (session : SessionId)
        (steps : List Step) →
        let core = ran (start version opening workers) steps in
        IsProper opening → IsRun (start version opening workers) steps →
        ((revision : ℕ) → session_of (state_at core revision).roster session ≡ None) →
        gathered (sent session.0) (start version opening workers) steps ≡ [] }
    ensures conserved { (version : Version) (opening : StateValue) (workers revision : ℕ) (session : SessionId)
        (slot : Slot) (steps : List Step) →
        let core = ran (start version opening workers) steps in
        let offers = gathered (sent session.0) (start version opening workers) steps in
        let gone = gathered (removed session.0) (start version opening workers) steps in
        let left = filter (λ parcel. parcel.to.0 == session.0) (outbox_at core slot.0) in
        IsProper opening → IsRun (start version opening workers) steps →
        IsInSlot (state_at core revision) session slot →
        map (λ offer. offer.1.bytes) offers ≡ map (λ parcel. parcel.bytes) (gone ++ left) }
    ensures drained { (version : Version) (opening : StateValue) (workers n : ℕ) (steps : List Step) →
        IsSubsequence (gathered (heard n) (start version opening workers) steps)
        (gathered (removed n) (start version opening workers) steps) }
    ensures own { (core : CoreState) (n c : ℕ) (seat : Seat) →
        (connection_at core c).seat ≡ Some seat → (seat.session.0 ≡ n → ⊥) → heard n core (Drain c) ≡ [] }
    ensures alone { (version : Version) (opening : StateValue) (workers c : ℕ) (seat : Seat) (steps : List Step) →
        let core = ran (start version opening workers) steps in
        IsProper opening → IsRun (start version opening workers) steps →
        (connection_at core c).seat ≡ Some seat →
        ((d : ℕ) (other : Seat) → (connection_at core d).seat ≡ Some other →
        other.slot.0 ≡ seat.slot.0 → d ≡ c) →
        gathered (heard seat.session.0) (start version opening workers) steps
        ≡ gathered (removed seat.session.0) (start version opening workers) steps }
{}

/// What a connection is sent of one speaker are copies of packets that this speaker sent, in their order,
/// one at most of each: one worker took all of that speaker's packets.
pub fn speakers_are_heard_in_order()
    ensures { (version : Version) (opening : StateValue) (workers n speaker : ℕ) (steps : List Step) →
        let sent_by = λ (worker : ℕ). filter (λ held. held.speaker.0 == speaker)
        (gathered (packet_taken worker) (start version opening workers) steps) in
        let told = filter (λ parcel. is_by speaker parcel.bytes)
        (gathered (heard n) (start version opening workers) steps) in
        IsProper opening → IsRun (start version opening workers) steps →
        (w : ℕ) × ((v : ℕ) → (v ≡ w → ⊥) → sent_by v ≡ []) × IsSubsequenceBy IsParcelOf told (sent_by w) }
{}

/// Each notice of an accepted edit is posted, in the order of the edits, or it is pending. What is posted
/// into a slot is collected from it in that order, or waits there: none is lost, doubled, changed or
/// overtaken.
pub fn notices_keep_their_order()
    ensures posted { (version : Version) (opening : StateValue) (workers : ℕ) (steps : List Step) →
        gathered noticed (start version opening workers) steps
        ≡ gathered offered (start version opening workers) steps
        ++ (ran (start version opening workers) steps).pending }
    ensures conserved { (version : Version) (opening : StateValue) (workers slot : ℕ) (steps : List Step)
        → slot < SLOTS →
        gathered (posted_in slot) (start version opening workers) steps
        ≡ gathered (collected slot) (start version opening workers) steps
        ++ posts_at (ran (start version opening workers) steps) slot }
{}

/// No frame of a recording asks for bans: a BanList is passed over there, as each type that is not read.
pub fn recordings_read_no_bans()
    ensures { (core : CoreState) (c : ℕ) (bytes payload : List ℕ) → frame_action core c bytes ≢ Bans payload }
{}
