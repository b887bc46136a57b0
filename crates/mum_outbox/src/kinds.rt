//! The queues between the control owner and the workers, and how much they hold.

use crate::queue::Queue;

/// The most commands that wait for the control owner.
pub const DESK_CAPACITY: usize = 1024;

/// The most replies that wait for one worker.
pub const BELL_CAPACITY: usize = 1024;

/// The commands of all workers to the control owner.
pub type Desk<T> = Queue<T, DESK_CAPACITY>;

/// The replies of the control owner to one worker.
pub type Bell<T> = Queue<T, BELL_CAPACITY>;
