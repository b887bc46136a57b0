//! For which cause a name or a text is refused. These functions do nothing: each contract is a theorem.

ghost use Rattle.mum_part_laws.specs.Texts.{NamesAreRefusedForTheFirst, TextsAreRefusedForLength};

/// A name is refused for the first of these: it is empty, it has more than 128 bytes, it has a control character, or it
/// begins or ends with a space. A text is refused where it has more than 20,000 bytes, and for nothing else.
pub fn names_and_texts_name_the_first()
    ensures names { NamesAreRefusedForTheFirst }
    ensures texts { TextsAreRefusedForLength }
{}
