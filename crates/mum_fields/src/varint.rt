//! Base-128 varints (Protocol Buffers, "Encoding", "Base 128 Varints").

ghost use Rattle.std.specs.Prelude.{◌≡◌, ℕ, ◌≤◌, List, ◌++◌, length, IfOk, OnOk, OnErr};
ghost use Rattle.mum_fields.specs.Varint.{varint, shortest};

use crate::fault::FaultKind;
use std::alloc::AllocError;

// The index of the last byte that a varint may have. It holds the top bit of 64.
const LAST_BYTE: usize = 9;

/// The number at the front of the bytes, and how many bytes it takes.
pub fn read_varint(bytes: &[u8]) -> Result<(u64, usize), FaultKind>
    ensures reads { result ≡ varint bytes.now }
    ensures within { IfOk result (λ found. found.1 ≤ length bytes.now) }
{
    let mut number = 0u64;
    let mut scale = 1u64;
    for (index, byte) in bytes.iter().enumerate() {
        let byte = u64::from(*byte);
        if index == LAST_BYTE {
            return if byte > 1 {
                Err(FaultKind::BadVarint)
            } else {
                Ok((number + byte * scale, index + 1))
            };
        }
        if byte < 128 {
            return Ok((number + byte * scale, index + 1));
        }
        number += (byte - 128) * scale;
        scale *= 128;
    }
    Err(FaultKind::Truncated)
}

/// Writes the number at the end, in its shortest encoding.
pub fn push_varint(out: &mut Vec<u8>, number: u64) -> Result<(), AllocError>
    ensures ok { OnOk result (out.new.items ≡ out.old.items ++ shortest number) }
    ensures err { OnErr result ((part : List ℕ) × (out.new.items ≡ out.old.items ++ part)) }
{
    let mut rest = number;
    while rest >= 128 {
        out.push((rest % 128) as u8 + 128)?;
        rest /= 128;
    }
    out.push(rest as u8)?;
    Ok(())
}
