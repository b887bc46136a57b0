//! What may be read of the core between steps, by whoever has to know what was decided and who is notified.

ghost use Rattle.std.specs.Prelude.{◌≡◌, IfOk, map};
ghost use Rattle.std.specs.Option.{option_map};
ghost use Rattle.mum_core.specs.Core.{connection_at, worker_at};

use super::{Machine, Totals};
use mum_base::{Mark, OutOfMemory, SessionId};

impl Machine {
    /// How many accepted edits are published.
    pub fn published(&self) -> u64
        ensures { result ≡ self.now.published }
    {
        self.history.published()
    }

    /// What was decided of the command of a connection, until it is sent: none where nothing waits to be
    /// sent, or where no connection of that number was opened.
    pub fn decided(&self, connection: u32) -> Option<Mark>
        ensures { result ≡ option_map (λ reply. reply.mark) (connection_at self.now connection).decided }
    {
        let found = self.connection(connection)?;
        match &found.decided {
            Some(reply) => Some(reply.mark),
            None => None,
        }
    }

    /// The sessions of the copies that a worker has still to offer, in their order: none where there is no
    /// worker of that number.
    pub fn recipients(&self, worker: u32) -> Result<Vec<SessionId>, OutOfMemory>
        ensures { IfOk result (λ sessions. sessions.items ≡ map (λ copy. copy.to) (worker_at self.now worker).copies) }
    {
        match self.worker(worker) {
            Some(worker) => worker.recipients(self.alloc),
            None => Ok(Vec::new(self.alloc)),
        }
    }

    /// The sessions of the notices that were not posted yet, in their order.
    pub fn pending(&self) -> Result<Vec<SessionId>, OutOfMemory>
        ensures { IfOk result (λ sessions. sessions.items ≡ map (λ notice. notice.to) self.now.pending) }
    {
        self.pending.recipients(self.alloc)
    }

    pub fn totals(&self) -> Totals
        ensures { result ≡ self.now.totals }
    {
        self.totals
    }
}
