//! The route of a packet as steps of the core. These functions do nothing: each contract is a theorem.

ghost use Rattle.mum_step_laws.specs.WorkerSteps.{LooksAreLooks, OffersAreOffers};

/// A look of a worker, at a list of edits that the core has published, is the step Look at that revision: it is
/// allowed, and the copies that it leaves are those that the worker offers, in their order.
pub fn looks_are_looks()
    ensures { LooksAreLooks }
{}

/// An offer of a worker is the step Offer: the first copy that is left, once, to the box of its slot.
pub fn offers_are_offered()
    ensures { OffersAreOffers }
{}
