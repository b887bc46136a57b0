//! Texts in blocks.

ghost use Rattle.std.specs.Prelude.{◌≡◌, ◌↔◌, IsOk, IfOk, IfErr, MatchResult, Some, None};
ghost use Rattle.std.specs.Str.{IsUtf8};
ghost use Rattle.mum_fields.specs.declared.fault.FaultKind.TheVariants.{BadText};
ghost use Rattle.mum_fields.specs.Fault.{fault};
ghost use Rattle.mum_fields.specs.Message.{text};

use crate::fault::{FaultKind, FieldFault};

/// The block as a text, where it is UTF-8. `at` is the place of its first byte in the payload.
pub fn read_text(block: &[u8], at: usize) -> Result<&str, FieldFault>
    ensures ok { IsOk result ↔ IsUtf8 block.now }
    ensures same { IfOk result (λ read. read.now ≡ block.now) }
    ensures fault { IfErr result (λ e. e ≡ fault BadText at) }
    ensures rule { MatchResult result (λ _. text at block.now ≡ None) (λ e. text at block.now ≡ Some e) }
{
    match str::from_utf8(block) {
        Ok(read) => Ok(read),
        Err(_) => Err(FaultKind::BadText.at(at)),
    }
}
