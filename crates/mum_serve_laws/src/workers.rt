//! What a worker counts is what its turns did. These functions do nothing: each contract is a theorem.

ghost use Rattle.mum_serve_laws.specs.Counted.{CopiesAreRefused, CopiesAreSent, LooksAreCounted, LooksGoToThoseWhoHear, MemoryIsNoted, StaleIsOfThePorts};

use mum_io::Link;

/// As many looks are counted as packets were routed, as far as 64 bits count them.
pub fn looks_are_counted<L: Link>()
    ensures { LooksAreCounted L.facts }
{}

/// The copies of each packet that was routed are offered to those who hear it at the state of the edits that its look
/// saw, once to each, and to nobody else.
pub fn looks_go_to_those_who_hear<L: Link>()
    ensures { LooksGoToThoseWhoHear L.facts }
{}

/// The copies that are counted are those of the packets that were routed, as far as 64 bits count them.
pub fn copies_are_the_deliveries<L: Link>()
    // Those that were sent.
    ensures sent { CopiesAreSent L.facts }
    // Those that found a full box.
    ensures full { CopiesAreRefused L.facts }
{}

/// The parcels that are counted as stale are those for another session that ports took, as far as 64 bits count them.
pub fn stale_is_of_the_ports<L: Link>()
    ensures { StaleIsOfThePorts L.facts }
{}

/// That memory ran out is noted exactly where a port closed for that.
pub fn memory_is_told<L: Link>()
    ensures { MemoryIsNoted L.facts }
{}
