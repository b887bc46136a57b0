//! Who is sent a text. This function does nothing: its contract is a theorem.

ghost use Rattle.mum_client_laws.specs.SentTexts.{TextsGoToNobodyElse};

/// Of a text nothing is sent but its one message, once to each of those that it is sent to, by their slots; and it is
/// sent to nobody whom it is not meant for, nor to its sender.
pub fn texts_go_to_nobody_else()
    ensures { TextsGoToNobodyElse }
{}
