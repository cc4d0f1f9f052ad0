//! Numbers and runs of signs at the front of a text.
ghost use Rattle.std.specs.Prelude.{◌≡◌, ◌+◌, ◌≤◌, ◌==◌, ◌++◌, ◌∷◌, [], List, ℕ, Some, None, true};
ghost use Rattle.std.specs.Prelude.{IfNone, IfSome, MatchOption, length};
ghost use Rattle.std.specs.Char.{encode_utf8, is_ascii_digit};
ghost use Rattle.std.specs.List.{list_all};
ghost use Rattle.std.specs.Str.{chars, skip_leading_whitespace};
ghost use Rattle.haya_text.specs.Characters.{behind_run, hyphen, is_numeric};
ghost use Rattle.haya_time.specs.DurationText.{colons};
ghost use Rattle.haya_text.specs.Characters.{run, begins_with};
ghost use Rattle.haya_time.specs.DurationReading.{digits_at};

use crate::text::skip_whitespace;
use haya_text::chars::{is_numeric, split_char};

// The text behind the digits at its front.
fn skip_digits(text: &str) -> &str
    ensures cut { text.now ≡ run is_ascii_digit (chars text.now) ++ result.now }
    ensures rest { chars result.now ≡ behind_run is_ascii_digit (chars text.now) }
{
    let mut rest = text;
    'digits: while let Some((c, tail)) = split_char(rest) {
        if !c.is_ascii_digit() {
            return rest;
        }
        rest = tail;
    }
    rest
}

// Whether a numeric character stands first.
fn starts_numeric(text: &str) -> bool
    ensures { result ≡ begins_with is_numeric (chars text.now) }
{
    match split_char(text) {
        Some((first, _)) => is_numeric(first),
        None => false,
    }
}

// The digits of the number at the front, which white space may precede, and what follows them.
// `None` if a numeric character follows that is no ASCII digit.
pub(crate) fn take_digits(text: &str) -> Option<(&str, &str)>
    ensures cases { let read = digits_at (chars text.now) in
        MatchOption result (read ≡ None) (λ p. read ≡ Some (p.0.now, chars p.1.now)) }
    ensures digits { IfSome result (λ p. list_all is_ascii_digit p.0.now ≡ true) }
{
    let text = skip_whitespace(text);
    let rest = skip_digits(text);
    if starts_numeric(rest) {
        return None;
    }
    let (digits, rest) = text.split_at(text.len() - rest.len());
    Some((digits, rest))
}

// The text behind the hyphens at its front.
pub(crate) fn skip_hyphens(text: &str) -> &str
    ensures { chars result.now ≡ behind_run (λ c. c == hyphen) (chars text.now) }
{
    let mut rest = text;
    'hyphens: while let Some((c, tail)) = split_char(rest) {
        if c != '-' {
            return rest;
        }
        rest = tail;
    }
    rest
}

// How many colons stand before the first hyphen, or before the end.
pub(crate) fn count_colons(text: &str) -> usize
    ensures { result ≡ colons (chars text.now) }
{
    let mut rest = text;
    let mut count = 0;
    'signs: while let Some((c, tail)) = split_char(rest) {
        if c == '-' {
            return count;
        }
        if c == ':' {
            count += 1;
        }
        rest = tail;
    }
    count
}
