//! How a group name is understood.

ghost use Rattle.std.specs.Prelude.{◌≡◌};
ghost use Rattle.mum_policy.specs.Name.{asked_by, asks_of, is_built_in_without_members, meaning, reading_of, understood};

// What a group name asks of a session, after its prefixes.
#[derive(Clone, Copy)]
pub(crate) enum Asked<'a> {
    Nobody,
    Everybody,
    /// The session has an account.
    Registered,
    /// The session is in the chosen channel.
    Inside,
    /// The session is not in the chosen channel.
    Outside,
    /// The session has this token.
    Token(&'a [u8]),
    /// The session is in a subtree, within the span that this list of arguments describes.
    Subtree(Option<&'a [u8]>),
    /// The account of the session is in the group that channels define by this name.
    Defined(&'a [u8]),
}

// A group name that was read.
#[derive(Clone, Copy)]
pub(crate) struct GroupName<'a> {
    pub(crate) negated: bool,
    /// Whether the channel of the list is chosen, and not the channel whose permissions are asked.
    pub(crate) at_acl: bool,
    pub(crate) asked: Asked<'a>,
}

#[tactic(auto, unfolding(crate::specs::Name::is_built_in_without_members))]
fn has_no_members(word: &[u8]) -> bool
    ensures { result ≡ is_built_in_without_members word.now }
{
    word == b"none".as_slice() || word == b"strong".as_slice()
}

#[tactic(auto, unfolding(crate::specs::Name::meaning))]
fn meaning_of(word: &[u8]) -> Asked<'_>
    ensures { asks_of result ≡ meaning word.now }
{
    if word == b"all".as_slice() {
        Asked::Everybody
    } else if word == b"auth".as_slice() {
        Asked::Registered
    } else if word == b"in".as_slice() {
        Asked::Inside
    } else if word == b"out".as_slice() {
        Asked::Outside
    } else if has_no_members(word) {
        Asked::Nobody
    } else if word == b"sub".as_slice() {
        Asked::Subtree(None)
    } else if word.starts_with(b"sub,") {
        Asked::Subtree(Some(&word[4..]))
    } else {
        Asked::Defined(word)
    }
}

// What follows the prefixes `!` and `~`.
#[tactic(auto, unfolding(crate::specs::Name::asked_by))]
fn asked_behind(name: &[u8]) -> Asked<'_>
    ensures { asks_of result ≡ asked_by name.now }
{
    match name.split_first() {
        Some((b'#', token)) => Asked::Token(token),
        Some((b'$', _)) | None => Asked::Nobody,
        Some(_) => meaning_of(name),
    }
}

// Reads a group name: its prefixes from the front, and then what is asked.
pub(crate) fn understand(name: &[u8]) -> GroupName<'_>
    ensures { reading_of result ≡ understood name.now }
{
    let mut negated = false;
    let mut at_acl = false;
    let mut rest = name;
    'prefixes: while let Some((prefix, behind)) = rest.split_first() {
        if *prefix == b'!' {
            negated = true;
        } else if *prefix == b'~' {
            at_acl = true;
        } else {
            break;
        }
        rest = behind;
    }
    GroupName {
        negated,
        at_acl,
        asked: asked_behind(rest),
    }
}
