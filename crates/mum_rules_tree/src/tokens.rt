//! The tokens that count while one message is decided.

ghost use Rattle.std.specs.Prelude.{◌≡◌, IfOk};
ghost use Rattle.mum_rules_tree.specs.Tokens.{tokens_for_once};

use mum_base::{OutOfMemory, Text};
use mum_users::user::{TOKEN_BYTES, TOKENS};
use std::alloc::Global;

/// The tokens that count while one message is decided: a session's own, and then as many of those for
/// this once as it may still have. One that is too long is none, and takes nobody's place.
pub fn tokens_for_once(
    alloc: Global,
    own: &[Text],
    added: &[Text],
) -> Result<Vec<Text>, OutOfMemory>
    ensures { IfOk result (λ tokens. tokens.items ≡ tokens_for_once own.now added.now) }
{
    let mut tokens = Vec::with_capacity(alloc, own.len())?;
    for token in own {
        tokens.push(token.share()?)?;
    }
    for token in added {
        if tokens.len() < TOKENS && token.as_slice().len() <= TOKEN_BYTES {
            tokens.push(token.share()?)?;
        }
    }
    Ok(tokens)
}
