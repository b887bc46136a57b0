//! The rules for names of users, channels and groups, and for texts.

ghost use Rattle.std.specs.Prelude.{◌≡◌, ◌<◌, ◌↔◌, length, IsOk, IfErr, None, Some};
ghost use Rattle.std.specs.List.{list_any};
ghost use Rattle.mum_base.specs.Name.{name_fault, text_fault, is_control_byte, has_space_at_edge};

use thiserror::Error;

/// The most bytes of a name.
pub const NAME_LIMIT: usize = 128;

/// The most bytes of a text, a comment or a description.
pub const TEXT_LIMIT: usize = 20_000;

/// The limits of names and texts, in bytes. This does nothing: its contract is what they are.
pub fn limits()
    ensures name { NAME_LIMIT ≡ 128 }
    ensures text { TEXT_LIMIT ≡ 20000 }
{}

/// Why a name or a text is refused.
#[derive(Clone, Copy, Debug, PartialEq, Eq, Error)]
pub enum NameFault {
    #[error("it is empty")]
    Empty,
    #[error("it is too long")]
    TooLong,
    #[error("it has a control character")]
    ControlCharacter,
    #[error("it begins or ends with a space")]
    EdgeSpace,
}

impl NameFault {
    ghost use Rattle.mum_base.specs.Name.{fault_code};

    /// The number of the fault, 1 to 4.
    pub fn code(self) -> u8
        ensures { result ≡ fault_code self }
    {
        match self {
            NameFault::Empty => 1,
            NameFault::TooLong => 2,
            NameFault::ControlCharacter => 3,
            NameFault::EdgeSpace => 4,
        }
    }
}

fn has_control(bytes: &[u8]) -> bool
    ensures { result ≡ list_any is_control_byte bytes.now }
{
    bytes.iter().any(|byte| *byte < 0x20 || *byte == 0x7f)
}

fn has_edge_space(bytes: &[u8]) -> bool
    requires { 0 < length bytes.now }
    ensures { result ≡ has_space_at_edge bytes.now }
{
    bytes[0] == b' ' || bytes[bytes.len() - 1] == b' '
}

/// Refuses, in this order, a name that is empty, has more than 128 bytes, has a control character
/// (U+0000 to U+001F, U+007F), or begins or ends with U+0020.
pub fn check_name(name: &str) -> Result<(), NameFault>
    ensures ok { IsOk result ↔ (name_fault name.now ≡ None) }
    ensures fault { IfErr result (λ e. name_fault name.now ≡ Some e) }
{
    let bytes = name.as_bytes();
    if bytes.is_empty() {
        return Err(NameFault::Empty);
    }
    if bytes.len() > NAME_LIMIT {
        return Err(NameFault::TooLong);
    }
    if has_control(bytes) {
        return Err(NameFault::ControlCharacter);
    }
    if has_edge_space(bytes) {
        return Err(NameFault::EdgeSpace);
    }
    Ok(())
}

/// Refuses a text of more than 20,000 bytes as too long, and nothing else.
pub fn check_text(text: &str) -> Result<(), NameFault>
    ensures ok { IsOk result ↔ (text_fault text.now ≡ None) }
    ensures fault { IfErr result (λ e. text_fault text.now ≡ Some e) }
{
    if text.len() > TEXT_LIMIT {
        return Err(NameFault::TooLong);
    }
    Ok(())
}
