//! Who kicks, who listens, and who sends texts. These functions do nothing: each contract is a theorem.

ghost use Rattle.mum_command_laws.specs.UserCommands.{KicksWherePermitted, ListensWherePermitted, TextsWherePermitted};

/// Whoever kicks a session named it, and has Kick or Ban on the root; for a ban it has Ban.
pub fn kicks_where_permitted()
    ensures { KicksWherePermitted }
{}

/// Whoever begins to listen to channels has Listen in each of them.
pub fn listens_where_permitted()
    ensures { ListensWherePermitted }
{}

/// Whoever sends a text has TextMessage where each session that it names is, in each channel that it names, and in the
/// topmost channel of each tree that it names.
pub fn texts_where_permitted()
    ensures { TextsWherePermitted }
{}
