//! The packets of a journal.

use crate::spoken::Spoken;
use mum_base::{Items, OutOfMemory};
use mum_record::WorkerEntry;
use mum_voice::Packet;

// Appends the packet of an entry at a line, if it is one.
fn push_packet(
    packets: &mut Vec<Spoken>,
    line: u64,
    entry: &WorkerEntry,
) -> Result<(), OutOfMemory> {
    let WorkerEntry::Voice {
        connection,
        revision,
        ref packet,
        ..
    } = *entry
    else {
        return Ok(());
    };
    let Ok(parts) = Packet::parse(packet.as_slice()) else {
        return Ok(());
    };
    packets.push(Spoken {
        line,
        connection,
        revision,
        target: parts.target,
        seen: None,
    })?;
    Ok(())
}

// Appends the packets of a worker whose first entry is at a line, and gives the line after its last.
fn push_packets(
    packets: &mut Vec<Spoken>,
    first: u64,
    entries: &[WorkerEntry],
) -> Result<u64, OutOfMemory> {
    let mut line = first;
    for entry in entries {
        push_packet(packets, line, entry)?;
        line = line.saturating_add(1);
    }
    Ok(line)
}

// Appends the packets of all workers, where the line of the first worker's number is this one.
pub(crate) fn push_all(
    packets: &mut Vec<Spoken>,
    first: u64,
    by_worker: &[Items<WorkerEntry>],
) -> Result<(), OutOfMemory> {
    let mut line = first;
    for entries in by_worker {
        line = push_packets(packets, line.saturating_add(1), entries.as_slice())?;
    }
    Ok(())
}
