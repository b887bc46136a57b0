//! Numbers that are looked up.

ghost use Rattle.std.specs.Prelude.{◌≡◌, IfOk};
ghost use Rattle.std.specs.List.Sorted.{IsSorted};
ghost use Rattle.std.specs.Ordering.{nat_cmp};
ghost use Rattle.mum_notify.specs.Sorted.{ListAlike, lists};

use mum_base::OutOfMemory;
use std::alloc::Global;

// Numbers in rising order, so that each is found by binary search.
#[derive(Drop)]
pub(crate) struct Sorted {
    numbers: Vec<u32>,
    pub ghost rise: { IsSorted nat_cmp numbers.items },
}

impl Sorted {
    // These numbers, in rising order.
    pub(crate) fn of(alloc: Global, numbers: &[u32]) -> Result<Sorted, OutOfMemory>
        ensures { IfOk result (λ sorted. ListAlike sorted.numbers.items numbers.now) }
    {
        let mut sorted = Vec::from_slice(alloc, numbers)?;
        sorted.sort()?;
        Ok(Sorted { numbers: sorted })
    }

    // Whether the number is one of these.
    pub(crate) fn has(&self, number: u32) -> bool
        ensures { result ≡ lists self.now.numbers.items number }
    {
        self.numbers.binary_search(&number).is_ok()
    }
}
