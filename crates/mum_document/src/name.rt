//! Names that no two of a list have.

ghost use Rattle.std.specs.Prelude.{◌≡◌, ◌++◌, [], ◌∷◌, OnOk, codes, map};
ghost use Rattle.serde_json.specs.View.{view};
ghost use Rattle.mum_document.specs.Object.{new_name_rows, rows_fault, text_at};
ghost use Rattle.mum_document.specs.Reading.{Lends};

use crate::fault::{ConfigFault, DocumentError};
use crate::object::Object;
use indexmap::IndexSet;

/// The name at the key `name`, which none of those before it is; it is one of them from then on. Errors:
/// `WrongKind` and `BadName` as of `read_name`, `Twice` of a name that was met.
pub fn new_name<'a>(
    object: &Object<'a>,
    names: &mut IndexSet<&'a str>,
) -> Result<&'a str, DocumentError>
    ensures reads { let value = view object.now.value.now in
        Lends (rows_fault object.now.dot.now
        (new_name_rows (map (λ n. n.now) names.old.keys) value))
        (text_at (codes "name") value) result }
    ensures names { let value = view object.now.value.now in OnOk result
        (map (λ n. n.now) names.new.keys
        ≡ map (λ n. n.now) names.old.keys ++ text_at (codes "name") value ∷ []) }
{
    let name = object.needed_name("name")?;
    let is_new = names.insert(name)?;
    object.refuse_if(!is_new, "name", ConfigFault::Twice)?;
    Ok(name)
}
