//! The group `sub`: those who are below a channel of the path.

ghost use Rattle.std.specs.Prelude.{◌≡◌, ◌+◌, ◌<◌, ◌∷◌, [], drop, length, nat_le, position, slice_index, slice_index_or, true};
ghost use Rattle.std.specs.Char.{digit_value, is_ascii_digit};
ghost use Rattle.std.specs.List.{list_all};
ghost use Rattle.std.specs.Option.{option_copied};
ghost use Rattle.std.specs.Str.Parse.{digits_value};
ghost use Rattle.mum_policy.specs.Subtree.{is_at_least, is_at_most, is_below, is_comma, is_in_span, is_number, list_of, offset_of, separated, signed, span_by, span_of};

use mum_base::ChannelId;

// The offsets that are taken where an argument is missing or empty.
const FROM: u16 = 0;

const LEAST: u16 = 1;

const MOST: u16 = 1000;

// The most digits of an argument.
const DIGITS: usize = 4;

// A number of steps down a path, or up it.
#[derive(Clone, Copy)]
pub(crate) struct Offset {
    pub(crate) negative: bool,
    pub(crate) size: u16,
}

// The three arguments of `sub`.
#[derive(Clone, Copy)]
pub(crate) struct Span {
    /// From the channel of the list to the channel whose subtree is meant.
    pub(crate) from: Offset,
    /// From that channel to the least depth at which a session is in the group.
    pub(crate) least: Offset,
    /// From that channel to the greatest such depth.
    pub(crate) most: Offset,
}

fn are_digits(bytes: &[u8]) -> bool
    ensures { result ≡ list_all is_ascii_digit bytes.now }
{
    bytes.iter().all(|byte| byte.is_ascii_digit())
}

// Whether these are one to four digits.
fn is_number(digits: &[u8]) -> bool
    ensures { result ≡ is_number digits.now }
{
    let length = digits.len();
    1 <= length && length <= DIGITS && are_digits(digits)
}

fn digit_at(digits: &[u8], place: usize) -> u16
    requires within { place < length digits.now }
    requires digits { is_number digits.now ≡ true }
    ensures value { result ≡ digit_value (slice_index digits.now place) }
    ensures bound { result < 10 }
{
    let digit = digits[place];
    u16::from(digit - b'0')
}

// The number that one to four digits write.
fn number(digits: &[u8]) -> u16
    requires { is_number digits.now ≡ true }
    ensures { result ≡ digits_value 10 digits.now }
{
    let mut number = 0;
    'places: for place in 0..digits.len() {
        number = number * 10 + digit_at(digits, place);
    }
    number
}

// One to four digits, with this sign before them.
fn signed(negative: bool, digits: &[u8]) -> Option<Offset>
    ensures { result ≡ signed negative digits.now }
{
    if is_number(digits) {
        Some(Offset {
            negative,
            size: number(digits),
        })
    } else {
        None
    }
}

// What an argument says, or this number where it is empty.
#[tactic(auto, unfolding(crate::specs::Subtree::offset_of))]
fn parse_argument(default: u16, argument: &[u8]) -> Option<Offset>
    ensures { result ≡ offset_of default argument.now }
{
    match argument.split_first() {
        None => Some(Offset {
            negative: false,
            size: default,
        }),
        Some((b'-', digits)) => signed(true, digits),
        Some(_) => signed(false, argument),
    }
}

fn first_comma(list: &[u8]) -> Option<usize>
    ensures { result ≡ position is_comma list.now }
{
    list.iter().position(|byte| *byte == b',')
}

// The first argument of a list, and the list after its comma, if there is one.
fn split_argument(list: &[u8]) -> (&[u8], Option<&[u8]>)
    ensures { separated list.now ≡ result.0.now ∷ list_of (option_copied result.1) }
{
    match first_comma(list) {
        Some(comma) => (&list[..comma], Some(&list[comma + 1..])),
        None => (list, None),
    }
}

// The same of a list that may be missing: its first argument is then empty.
fn next_argument(list: Option<&[u8]>) -> (&[u8], Option<&[u8]>)
    ensures first { result.0.now ≡ slice_index_or (list_of (option_copied list.entry)) 0 [] }
    ensures rest { list_of (option_copied result.1) ≡ drop 1 (list_of (option_copied list.entry)) }
{
    match list {
        Some(list) => split_argument(list),
        None => (&[], None),
    }
}

fn span_by(from: Option<Offset>, least: Option<Offset>, most: Option<Offset>) -> Option<Span>
    ensures { result ≡ span_by from least most }
{
    Some(Span {
        from: from?,
        least: least?,
        most: most?,
    })
}

// The span that a list of arguments, separated by commas, describes; None where one is not an
// optional `-` and one to four digits, or there are more than three. Without a list all are missing.
fn parse_span(list: Option<&[u8]>) -> Option<Span>
    ensures { result ≡ span_of (list_of (option_copied list.entry)) }
{
    let (from, list) = next_argument(list);
    let (least, list) = next_argument(list);
    let (most, list) = next_argument(list);
    match list {
        Some(_) => None,
        None => span_by(
            parse_argument(FROM, from),
            parse_argument(LEAST, least),
            parse_argument(MOST, most),
        ),
    }
}

// Whether one number and a size are at most another number.
fn is_past(from: usize, size: usize, to: usize) -> bool
    ensures { result ≡ nat_le (from + size) to }
{
    from <= to && size <= to - from
}

// Whether a number is at most another one and a size.
fn is_within(from: usize, to: usize, size: usize) -> bool
    ensures { result ≡ nat_le from (to + size) }
{
    from.saturating_sub(size) <= to
}

impl Offset {
    fn size(self) -> usize
        ensures { result ≡ self.size }
    {
        usize::from(self.size)
    }

    // Whether the depth is at least the sum of the place and this.
    fn allows_from(self, place: usize, depth: usize) -> bool
        ensures { result ≡ is_at_least depth place self }
    {
        if self.negative {
            is_within(place, depth, self.size())
        } else {
            is_past(place, self.size(), depth)
        }
    }

    // Whether the depth is at most the sum of the place and this.
    fn allows_to(self, place: usize, depth: usize) -> bool
        ensures { result ≡ is_at_most depth place self }
    {
        if self.negative {
            is_past(depth, self.size(), place)
        } else {
            is_within(depth, place, self.size())
        }
    }
}

// Whether a session whose channel ends the path `home` is in this span below the channel at `acl_at` of
// the path.
#[tactic(auto, unfolding(crate::specs::Subtree::is_below))]
fn is_below(path: &[ChannelId], acl_at: usize, span: Span, home: &[ChannelId]) -> bool
    requires { acl_at < length path.now }
    ensures { result ≡ is_below path.now acl_at span home.now }
{
    let steps = span.from.size();
    let top = if span.from.negative {
        acl_at.saturating_sub(steps)
    } else {
        acl_at + steps
    };
    let depth = home.len().saturating_sub(1);
    match path.get(top) {
        Some(channel) => {
            home.contains(channel)
                && span.least.allows_from(top, depth)
                && span.most.allows_to(top, depth)
        }
        None => false,
    }
}

// Whether a session whose channel ends the path `home` is in the span that a list of arguments
// describes, below the channel at `acl_at` of the path; nobody is where the list describes none.
pub(crate) fn is_in_subtree(
    path: &[ChannelId],
    acl_at: usize,
    list: Option<&[u8]>,
    home: &[ChannelId],
) -> bool
    requires { acl_at < length path.now }
    ensures { result ≡ is_in_span path.now acl_at (span_of (list_of (option_copied list.entry))) home.now }
{
    match parse_span(list) {
        Some(span) => is_below(path, acl_at, span, home),
        None => false,
    }
}
