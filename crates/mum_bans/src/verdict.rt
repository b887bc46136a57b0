//! What a BanList comes to.

use mum_base::Octets;

/// What a BanList comes to.
#[derive(Debug, Drop)]
pub enum BanVerdict {
    /// The payload is malformed.
    Ignored,
    /// The sender may not ban.
    Lacks,
    /// It asks for the bans: the payload of the BanList that has them.
    Answer(Octets),
    /// An address has not 16 bytes, a mask is above 128, a text has more than 1,024 bytes, or more than
    /// 1,024 bans come.
    Refused,
    /// These are the bans from now on.
    Set,
}
