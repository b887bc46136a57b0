//! Clients that have hung up.

ghost use Rattle.std.specs.Prelude.{◌≡◌, None};
ghost use Rattle.mum_pace.specs.Waits.{has_waited, waits_since};

/// How long a link that has to wait is still read once its client has hung up, in milliseconds.
pub const LEFT_BEHIND_LIMIT: u64 = 10_000;

/// Since when a client has hung up, as far as its link had to wait since.
#[derive(Clone, Copy)]
pub struct HangUp {
    since: Option<u64>,
}

impl HangUp {
    /// It has not.
    pub fn new() -> HangUp
        ensures { result.since ≡ None }
    {
        HangUp { since: None }
    }

    /// The link has to wait at this time. Whether it has waited long enough for a client that has hung up.
    pub fn is_over(&mut self, has_hung_up: bool, milliseconds: u64) -> bool
        ensures since { self.new.since ≡ waits_since self.old.since has_hung_up milliseconds }
        ensures over { result ≡ has_waited self.old.since has_hung_up milliseconds }
    {
        if !has_hung_up {
            return false;
        }
        let since = self.since.unwrap_or(milliseconds);
        self.since = Some(since);
        milliseconds.saturating_sub(since) >= LEFT_BEHIND_LIMIT
    }
}
