//! What the contracts of a link come to. These functions do nothing: each contract is a theorem.

ghost use Rattle.std.specs.Prelude.{◌≡◌, ◌<◌, ◌≤◌, ℕ, List, [], false, true, length, slice_index_or, vec_len};
ghost use Rattle.std.specs.List.{Contains};
ghost use Rattle.std.specs.Option.{ForSome};
ghost use Rattle.mum_crew.specs.Deal.{IsDealt, thread_at};
ghost use Rattle.mum_link.specs.Faults.{IsBroken, has_cause, is_of_shut};
ghost use Rattle.mum_link.specs.Sharing.{thread_of_link, worker_of};
ghost use Rattle.mum_link.specs.Wires.{taken};
ghost use Rattle.mum_link.specs.declared.shares.Shares.{Shares};

use crate::doorstep::VIEW_PATIENCE;
use crate::entrance::{Entrance, WAITING_LIMIT};
use crate::kept::KEPT_LIMIT;
use crate::link::SocketLink;
use crate::socket::Socket;
use crate::waiting::PATIENCE;

/// The numbers that the names of limits stand for, in bytes, connections and milliseconds.
pub fn limits()
    ensures kept { KEPT_LIMIT ≡ 8192 }
    ensures waiting { WAITING_LIMIT ≡ 64 }
    ensures for_a_header { PATIENCE ≡ 10000 }
    ensures of_a_view { VIEW_PATIENCE ≡ 10000 }
{}

/// A link that does not send in batches keeps nothing back: what was written to it was written to its socket.
pub fn nothing_is_kept_back<S: Socket>(link: &SocketLink<S>)
    ensures { link.now.wire.in_batches ≡ false →
        taken (S.written link.now.wire.line.socket) link.now.wire.kept ≡ S.written link.now.wire.line.socket }
{}

/// A link keeps back no more bytes than the limit.
pub fn little_is_kept_back<S: Socket>(link: &SocketLink<S>)
    ensures { length link.now.wire.kept ≤ KEPT_LIMIT }
{
    let _count = link.wire.kept.len();
}

/// A fault of a link has its cause. A link that was shut has a fault, and no other link has that of a shut one.
pub fn faults_have_causes<S: Socket>(link: &SocketLink<S>)
    ensures cause { ForSome link.now.wire.line.fault (λ cause. has_cause cause (S.failures link.now.wire.line.socket)
        link.now.wire.line.patience link.now.wire.line.hang_up.since ≡ true) }
    ensures shut { link.now.is_shut ≡ true → IsBroken link.now.wire.line.fault }
    ensures open { is_of_shut link.now.wire.line.fault ≡ true → link.now.is_shut ≡ true }
{}

/// No more connections wait for their headers than the limit.
pub fn few_wait_for_headers<L, S: Socket>(entrance: &Entrance<L, S>)
    ensures { vec_len entrance.now.waiting ≤ WAITING_LIMIT }
{}

/// The thread that watches the link of a connection is the one whose lane has the connection's worker, whatever roles are
/// dealt to whatever lanes.
pub fn links_are_where_their_workers_are()
    ensures { (shares : Shares) (connection : ℕ) (lanes : List (List ℕ)) (roles : List ℕ) →
        IsDealt (thread_at shares.spread shares.workers) (λ lane. lane) lanes roles →
        worker_of shares connection < length roles → thread_of_link shares connection < length lanes →
        Contains (slice_index_or lanes (thread_of_link shares connection) [])
        (slice_index_or roles (worker_of shares connection) 0) }
{}
