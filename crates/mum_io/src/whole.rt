//! Writing all of a slice, and reading all that a source has up to a limit.

ghost use Rattle.std.specs.Prelude.{◌≡◌, ◌+◌, ◌≤◌, length, vec_len, IfOk, IfSome, OnOk, OnErr};
ghost use Rattle.mum_io.specs.Outside.{Appends, AppendsFront, Consumes, ConsumesFront, IsAllOrLonger, ReadsCount, WritesCount};
ghost use Rattle.mum_io.specs.declared.whole.ReadFault.TheVariants.{OutOfMemory};

use crate::{ReadEnd, Sink, Source, WriteEnd};
use std::alloc::{AllocError, Global};
use thiserror::Error;

/// The length of the buffer that `read_up_to` reads through, in bytes.
pub const CHUNK: usize = 65_536;

/// A write failed.
#[derive(Clone, Copy, Debug, PartialEq, Eq, Error)]
#[error("a write failed")]
pub struct WriteFault;

/// Why a whole read ended early.
#[derive(Clone, Copy, Debug, PartialEq, Eq, Error)]
pub enum ReadFault {
    #[error("a read failed")]
    Failed,
    #[error("out of memory")]
    OutOfMemory,
}

impl From<AllocError> for ReadFault {
    ghost from_gives = { λ _ fault. fault ≡ OutOfMemory };

    fn from(_: AllocError) -> ReadFault {
        ReadFault::OutOfMemory
    }
}

/// Writes all of the bytes, in as many writes as the sink needs. After an error a front of them is
/// written.
pub fn write_all<O: Sink>(output: &mut O, bytes: &[u8]) -> Result<(), WriteFault>
    ensures ok { OnOk result (Appends (O.written output.old) (O.written output.new) bytes.now) }
    ensures front { OnErr result
        (AppendsFront (O.written output.old) (O.written output.new) bytes.now) }
    ensures counts { WritesCount result (O.faults output.old) (O.faults output.new) }
{
    let mut done = 0;
    while done < bytes.len() {
        match output.write(&bytes[done..]) {
            WriteEnd::Took(count) => done += count,
            WriteEnd::Failed => return Err(WriteFault),
        }
    }
    Ok(())
}

fn chunk_buffer(alloc: Global) -> Result<Vec<u8>, AllocError>
    ensures { IfOk result (λ buffer. vec_len buffer ≡ CHUNK) }
{
    vec![in alloc; 0u8; CHUNK]
}

/// Reads until the source ends, or until more than `limit` bytes were read, which are then all that is given.
/// It holds at most `CHUNK` bytes more than the limit. After
/// an error a front of what was left is taken, and lost.
pub fn read_up_to<I: Source>(
    alloc: Global,
    input: &mut I,
    limit: usize,
) -> Result<Vec<u8>, ReadFault>
    ensures bytes { IfOk result (λ bytes.
        IfSome (I.left input.old) (λ left. IsAllOrLonger limit left bytes.items)) }
    ensures none_lost { IfOk result (λ bytes.
        Consumes (I.left input.old) (I.left input.new) bytes.items) }
    ensures bounded { IfOk result (λ bytes. vec_len bytes ≤ limit + CHUNK) }
    ensures front { OnErr result (ConsumesFront (I.left input.old) (I.left input.new)) }
    ensures counts { ReadsCount result (I.faults input.old) (I.faults input.new) }
{
    let mut buffer = chunk_buffer(alloc)?;
    let chunk = buffer.as_mut_slice();
    let mut bytes = Vec::new(alloc);
    while bytes.len() <= limit {
        match input.read(chunk) {
            ReadEnd::Got(count) => bytes.extend_from_slice(&chunk[..count])?,
            ReadEnd::End => return Ok(bytes),
            ReadEnd::Failed => return Err(ReadFault::Failed),
        }
    }
    Ok(bytes)
}
