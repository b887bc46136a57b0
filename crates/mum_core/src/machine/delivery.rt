//! What the steps `drain` and `collect` share: a connection takes the oldest of what waits in its slot.

ghost use Rattle.std.specs.Prelude.{◌≡◌, ◌++◌, ◌∷◌, [], IfOk, MatchResult, None, Some, string_bytes, if◌then◌else◌};
ghost use Rattle.mum_core.specs.Case.{first_that_stands, named_cause};
ghost use Rattle.mum_core.specs.Core.{connection_at};
ghost use Rattle.mum_core.specs.Delivery.{Delivery, forbids, is_for, line, with_stale};
ghost use Rattle.mum_core.specs.Line.{joined, wire_words};

use super::{Machine, StepFault, illegal};
use crate::connection::Seat;
use mum_base::{OutOfMemory, SessionId};
use mum_record::{Word, push_line};
use std::alloc::Global;

// What waits for a session.
pub(super) trait Waiting {
    ghost delivery: { Self → Delivery };

    /// The session that it is for.
    fn recipient(&self) -> SessionId
        ensures { result ≡ (delivery self.now).to };

    /// Appends the line of its frame on the wire to a connection.
    fn push_frame(
        &self,
        alloc: Global,
        text: &mut String,
        connection: u32,
    ) -> Result<(), OutOfMemory>
        ensures { IfOk result
            (λ _. string_bytes text.new
            ≡ string_bytes text.old ++ joined (wire_words connection (delivery self.now).frame ∷ [])) };
}

fn is_for(recipient: SessionId, seat: &Seat) -> bool
    ensures { result ≡ is_for recipient seat.now }
{
    recipient.0 == seat.session.0
}

// Appends the line of a connection in whose slot nothing waits.
pub(super) fn push_empty(
    alloc: Global,
    text: &mut String,
    connection: u32,
    seat: &Seat,
) -> Result<(), OutOfMemory>
    ensures { IfOk result
        (λ _. string_bytes text.new ≡ string_bytes text.old ++ joined (line connection seat.now None ∷ [])) }
{
    push_line(alloc, text, "empty", &[Word::Number(u64::from(connection))])
}

// Appends the line of what a connection with this seat takes. Whether that is for the session of the
// seat.
pub(super) fn push_taken<W: Waiting>(
    alloc: Global,
    text: &mut String,
    connection: u32,
    seat: &Seat,
    oldest: &W,
) -> Result<bool, OutOfMemory>
    ensures line { IfOk result
        (λ _. string_bytes text.new
        ≡ string_bytes text.old ++ joined (line connection seat.now (Some (W.delivery oldest.now)) ∷ [])) }
    ensures own { IfOk result (λ own. own ≡ is_for (W.delivery oldest.now).to seat.now) }
{
    if is_for(oldest.recipient(), seat) {
        oldest.push_frame(alloc, text, connection)?;
        return Ok(true);
    }
    push_line(alloc, text, "stale", &[Word::Number(u64::from(connection))])?;
    Ok(false)
}

impl Machine {
    // The seat of a connection that takes what waits in its slot: it is not closed.
    pub(super) fn seated(&self, connection: u32) -> Result<Seat, StepFault>
        ensures { MatchResult result
            (λ seat. (first_that_stands (forbids self.now connection) ≡ None)
            × ((connection_at self.now connection).seat ≡ Some seat))
            (λ fault. first_that_stands (forbids self.now connection) ≡ named_cause fault) }
    {
        let Some(found) = self.connection(connection) else {
            return Err(self.unopened(connection));
        };
        if let Some(line) = found.closed {
            return Err(illegal(u64::from(connection), line));
        }
        match found.seat {
            Some(seat) => Ok(seat),
            None => Err(illegal(u64::from(connection), 0)),
        }
    }

    // What was taken is counted as stale, unless it is for the session of the seat.
    pub(super) fn count_stale(&mut self, own: bool)
        ensures { self.new ≡ (if own then self.old else with_stale self.old) }
    {
        if !own {
            self.totals.stale = self.totals.stale.saturating_add(1);
        }
    }
}
