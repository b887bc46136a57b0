//! A worker as a role of a crew.

use crate::worker::Worker;
use mum_crew::{Gate, Role, Turn};
use mum_io::Link;
use mum_published::Naming;
use std::sync::Wait;

/// What a worker is opened with.
pub struct WorkerOpening {
    pub number: u8,
    /// Whether it keeps a journal.
    pub journal: bool,
}

impl<L: Link, G: Gate, N: Naming, R: Wait + Copy> Role for Worker<L, G, N, R> {
    ghost use Rattle.mum_worker.specs.Facts.{is_done};
    ghost use Rattle.mum_worker.specs.Turning.{WorkerTurned};

    type Opening = WorkerOpening;

    ghost opening = { λ w. record { number = w.number; journal = w.common.kept.journal } };

    ghost has_ended = { is_done };

    ghost turned = { WorkerTurned L.facts N.opening };

    fn turn(&mut self) -> Turn {
        Worker::turn(self)
    }
}
