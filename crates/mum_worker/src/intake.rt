//! Which connections a worker takes in.

ghost use Rattle.std.specs.Prelude.{◌≡◌};
ghost use Rattle.mum_worker.specs.Intake.{first_intake, is_next, worker_of};

// Which worker it is, of how many, and the last connection that it took in, which is 0 before the first.
#[derive(Clone, Copy, Debug)]
pub(crate) struct Intake {
    pub(crate) number: u8,
    pub(crate) workers: u8,
    pub(crate) last: u32,
}

// The number of the worker to whom a connection belongs, where there are this many. Connections are numbered from 1.
fn worker_of(connection: u32, workers: u8) -> u32
    ensures { result ≡ worker_of connection workers }
{
    connection.saturating_sub(1) % u32::from(workers.max(1))
}

impl Intake {
    // A worker that took in nothing.
    pub(crate) fn new(number: u8, workers: u8) -> Intake
        ensures { result ≡ first_intake number workers }
    {
        Intake {
            number,
            workers,
            last: 0,
        }
    }

    // Whether a connection is of this worker, and above the last that it took in.
    pub(crate) fn is_next(self, connection: u32) -> bool
        ensures { result ≡ is_next self connection }
    {
        self.last < connection && worker_of(connection, self.workers) == u32::from(self.number)
    }
}
