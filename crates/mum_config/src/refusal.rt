//! Why no configuration was read.

ghost use Rattle.std.specs.Prelude.{◌≡◌, Option};
ghost use Rattle.mum_document.specs.Fault.{Fault};
ghost use Rattle.mum_document.specs.Reading.{Names};
ghost use Rattle.mum_config.specs.Refusal.{NamesByCode};

use mum_base::Text;
use mum_document::DocumentError;
use thiserror::Error;

/// Why no configuration was read.
#[derive(Debug, Drop, Error)]
pub enum BadConfig {
    /// The first fault of the document, by its number, 60 to 69 (`ConfigFault` names them). The key is its
    /// whole way, as `channels[1].name` with places from 0, and `document` for the document as a whole.
    #[error("fault {code}")]
    Fault { code: u8, key: Text },
    #[error("memory ran out")]
    OutOfMemory,
}

// The same error, with the number of the fault.
#[tactic(auto, unfolding(mum_document::specs::Reading::Names))]
pub(crate) fn by_code(error: DocumentError) -> BadConfig
    ensures { (fault : Option Fault) → Names error fault → NamesByCode result fault }
{
    match error {
        DocumentError::Fault { cause, key } => BadConfig::Fault {
            code: cause.code(),
            key,
        },
        DocumentError::OutOfMemory => BadConfig::OutOfMemory,
    }
}
