//! What the words of the command line ask for.

ghost use Rattle.std.specs.Prelude.{◌≡◌, ◌↔◌, ◌<◌, ◌∷◌, ◌^◌, [], ℕ, false, is_some, IfSome, IsTrue, MatchOption, map, string_bytes};
ghost use Rattle.mum_serve.specs.Asked.{Service};
ghost use Rattle.mum_server.specs.Command.{Asks, AsksDoor, AsksKeep, AsksRun, AsksTail, AsksView, BeginsWithServe};
ghost use Rattle.mum_server.specs.Command.{IsExercise, IsServe, audit_words, later_roles, replay_words};

use mum_record::number_within;
use mum_serve::{Asked, ViewAsked};

/// The most rounds of an exercise.
pub const ROUNDS_LIMIT: u64 = 200_000;

/// The most connections of a run that serves.
pub const CONNECTIONS_LIMIT: u64 = 1_000_000;

/// The most views of a run that serves.
pub const VIEWS_LIMIT: u64 = 1_000_000;

/// What the program is to do, where it does not serve.
#[derive(Clone, Copy)]
pub enum Command {
    /// Run the recording that the input is, and write its transcript.
    Replay,
    /// Audit the journal that the input is, and write a line of its counts.
    Audit,
    /// Run the exercise of a seed, of n rounds, and write a line of what came of it.
    Exercise { seed: u64, rounds: u32 },
}

fn is_word(word: &str, name: &str) -> bool
    ensures { IsTrue result ↔ (word.now ≡ name.now) }
{
    word == name
}

fn is_replay(words: &[String]) -> bool
    ensures { IsTrue result ↔ (map string_bytes words.now ≡ replay_words) }
{
    match words {
        [word] => is_word(word.as_str(), "replay"),
        _ => false,
    }
}

fn is_audit(words: &[String]) -> bool
    ensures { IsTrue result ↔ (map string_bytes words.now ≡ audit_words) }
{
    match words {
        [word] => is_word(word.as_str(), "audit"),
        _ => false,
    }
}

// The seed and the number of rounds of the exercise that the words ask for.
fn exercise_in(words: &[String]) -> Option<(u64, u32)>
    ensures asked { MatchOption result
        ((seed rounds : ℕ) → IsExercise (map string_bytes words.now) seed rounds → ⊥)
        (λ numbers. IsExercise (map string_bytes words.now) numbers.0 numbers.1) }
    ensures limit { ROUNDS_LIMIT ≡ 200000 }
{
    let [name, seed, rounds] = words else {
        return None;
    };
    if !is_word(name.as_str(), "exercise") {
        return None;
    }
    let seed = number_within(0, u64::MAX, seed.as_str())?;
    let rounds = number_within(0, ROUNDS_LIMIT, rounds.as_str())?;
    Some((seed, rounds as u32))
}

/// The command that the words ask for; none where they have no such shape.
pub fn command_of(words: &[String]) -> Option<Command>
    ensures { Asks (map string_bytes words.now) result }
{
    if is_replay(words) {
        return Some(Command::Replay);
    }
    if is_audit(words) {
        return Some(Command::Audit);
    }
    let (seed, rounds) = exercise_in(words)?;
    Some(Command::Exercise { seed, rounds })
}

// Whether the words ask to serve, or try to.
pub(crate) fn begins_with_serve(words: &[String]) -> bool
    ensures { IsTrue result ↔ BeginsWithServe (map string_bytes words.now) }
{
    match words {
        [name, ..] => is_word(name.as_str(), "serve"),
        [] => false,
    }
}

// The address and the number that these three words give, if the first is this name, the address is not empty and the
// number is from 1 to the limit.
fn door_of<'a>(
    name: &str,
    limit: u64,
    word: &str,
    address: &'a str,
    number: &str,
) -> Option<(&'a str, u32)>
    requires { limit < 2 ^ 32 }
    ensures { AsksDoor name.now limit word.now address.now number.now result }
{
    if !is_word(word, name) {
        return None;
    }
    if address.is_empty() {
        return None;
    }
    let number = number_within(1, limit, number)?;
    Some((address, number as u32))
}

// The door for views that these three words ask for, if they do.
fn view_of<'a>(word: &str, address: &'a str, number: &str) -> Option<ViewAsked<'a>>
    ensures { AsksView (word.now ∷ address.now ∷ number.now ∷ []) result }
{
    let (address, views) = door_of("view", VIEWS_LIMIT, word, address, number)?;
    Some(ViewAsked { address, views })
}

// The path at which these two words ask that channels are kept, if they do.
fn path_of<'a>(word: &str, path: &'a str) -> Option<&'a str>
    ensures { AsksKeep (word.now ∷ path.now ∷ []) result }
{
    if !is_word(word, "keep") {
        return None;
    }
    if path.is_empty() {
        return None;
    }
    Some(path)
}

// What follows the number of connections.
#[derive(Clone, Copy)]
struct Tail<'a> {
    journal: bool,
    view: Option<ViewAsked<'a>>,
    keep: Option<&'a str>,
}

// What the words after the number of connections ask for.
fn tail_of(words: &[String]) -> Option<Tail<'_>>
    ensures { AsksTail (map string_bytes words.now) result }
{
    match words {
        [] => Some(Tail {
            journal: false,
            view: None,
            keep: None,
        }),
        [journal] => {
            if !is_word(journal.as_str(), "journal") {
                return None;
            }
            Some(Tail {
                journal: true,
                view: None,
                keep: None,
            })
        }
        [keep, path] => {
            let path = path_of(keep.as_str(), path.as_str())?;
            Some(Tail {
                journal: false,
                view: None,
                keep: Some(path),
            })
        }
        [view, address, number] => {
            let view = view_of(view.as_str(), address.as_str(), number.as_str())?;
            Some(Tail {
                journal: false,
                view: Some(view),
                keep: None,
            })
        }
        [journal, view, address, number] => {
            if !is_word(journal.as_str(), "journal") {
                return None;
            }
            let view = view_of(view.as_str(), address.as_str(), number.as_str())?;
            Some(Tail {
                journal: true,
                view: Some(view),
                keep: None,
            })
        }
        [view, address, number, keep, path] => {
            let view = view_of(view.as_str(), address.as_str(), number.as_str())?;
            let path = path_of(keep.as_str(), path.as_str())?;
            Some(Tail {
                journal: false,
                view: Some(view),
                keep: Some(path),
            })
        }
        _ => None,
    }
}

// What a run that serves is asked for, where the words ask for one.
pub(crate) fn serve_in(words: &[String]) -> Option<Asked<'_>>
    ensures asked { AsksRun (map string_bytes words.now) result }
    ensures some { IfSome result (λ asked. 0 < asked.connections) }
    ensures views { IfSome result (λ asked. IfSome asked.view (λ view. 0 < view.views)) }
{
    let [name, address, number, tail @ ..] = words else {
        return None;
    };
    let (address, connections) = door_of(
        "serve",
        CONNECTIONS_LIMIT,
        name.as_str(),
        address.as_str(),
        number.as_str(),
    )?;
    let Tail {
        journal,
        view,
        keep,
    } = tail_of(tail)?;
    Some(Asked {
        address,
        connections,
        journal,
        view,
        keep,
    })
}

/// How many roles follow the workers of the run that the words ask for: one where it shows views, and one where it
/// keeps channels.
pub fn later_roles(words: &[String]) -> usize
    ensures served { (asked : Service) → IsServe (map string_bytes words.now) asked → result ≡ later_roles asked }
    ensures other { ((asked : Service) → IsServe (map string_bytes words.now) asked → ⊥) → result ≡ 0 }
{
    match serve_in(words) {
        Some(asked) => usize::from(asked.view.is_some()) + usize::from(asked.keep.is_some()),
        None => 0,
    }
}

/// Whether the words ask for a run that keeps channels. One of the roles after its workers then has to hear of the
/// owner's work.
pub fn keeps_channels(words: &[String]) -> bool
    ensures served { (asked : Service) → IsServe (map string_bytes words.now) asked → result ≡ is_some asked.keep }
    ensures other { ((asked : Service) → IsServe (map string_bytes words.now) asked → ⊥) → result ≡ false }
{
    match serve_in(words) {
        Some(asked) => asked.keep.is_some(),
        None => false,
    }
}
