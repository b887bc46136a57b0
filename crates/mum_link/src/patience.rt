//! How long a link waits for a peer that takes nothing.

ghost use Rattle.std.specs.Prelude.{◌≡◌};
ghost use Rattle.mum_link.specs.Timely.{has_run_out};

// For how long a peer may take nothing, in milliseconds, if not for ever, and since when it has taken nothing.
#[derive(Clone, Copy)]
pub(crate) struct Patience {
    limit: Option<u64>,
    since: u64,
}

impl Patience {
    // With a peer that came at this time.
    pub(crate) fn new(limit: Option<u64>, milliseconds: u64) -> Patience
        ensures { result ≡ record { limit = limit; since = milliseconds } }
    {
        Patience {
            limit,
            since: milliseconds,
        }
    }

    // The peer took something at this time.
    pub(crate) fn renew(&mut self, milliseconds: u64)
        ensures { self.new ≡ record self.old { since = milliseconds } }
    {
        self.since = milliseconds;
    }

    // Whether the peer has taken nothing for too long at this time.
    pub(crate) fn is_over(self, milliseconds: u64) -> bool
        ensures { result ≡ has_run_out self.limit self.since milliseconds }
    {
        match self.limit {
            Some(limit) => milliseconds.saturating_sub(self.since) >= limit,
            None => false,
        }
    }
}
