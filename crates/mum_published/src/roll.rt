//! The roll: the ledger of accepted logins.

use crate::ledger::Prefix;
use logbook::Plain;
use mum_base::SessionId;

/// That a login of a connection was accepted, and which session it was given. Connections are numbered from 1, in
/// the order in which they came.
#[derive(Clone, Copy)]
pub struct Login {
    pub connection: u32,
    pub session: SessionId,
}

/// What was seen of the roll: logins with which it begins, now and at all later times. It has no bytes.
pub type Roll = Prefix<Login>;

// Whoever reads how many logins there are adds none.
pub(crate) struct NoLogin;

impl Plain<Roll, Login, u64> for NoLogin {
    ghost use Rattle.std.specs.Prelude.{None};

    ghost ask = { λ roll. record { connection = 0; session = record { 0 = 0 } } };

    ghost state = { λ roll. None };
}
