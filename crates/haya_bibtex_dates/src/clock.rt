//! Times of the day at the end of a date.
ghost use Rattle.std.specs.Prelude.{◌≡◌, ◌≤◌, length, option_map};
ghost use Rattle.haya_bibtex_dates.specs.Clock.{behind_fraction, behind_minutes, behind_seconds};
ghost use Rattle.haya_bibtex_dates.specs.Clock.{digits_length, is_rest, is_shift_by, is_time};
ghost use Rattle.haya_bibtex_dates.specs.Clock.{is_two, is_zone};
ghost use Rattle.haya_bibtex_dates.specs.Digits.{behind_sign};

use crate::digits::{behind_sign, behind_two};

// What is behind hours and minutes.
fn behind_minutes(text: &[char]) -> Option<&[char]>
    ensures { option_map (λ p. p.now) result ≡ behind_minutes text.now }
{
    match behind_two(text) {
        Some(rest) => match behind_sign(':', rest) {
            Some(rest) => behind_two(rest),
            None => None,
        },
        None => None,
    }
}

// How many digits are first.
fn digits_length(text: &[char]) -> usize
    ensures length { result ≡ digits_length text.now }
    ensures within { result ≤ length text.now }
{
    let mut count = 0;
    'chars: for c in text {
        if !c.is_ascii_digit() {
            return count;
        }
        count += 1;
    }
    count
}

// What is behind the digits of a fraction, if there is one.
fn behind_fraction(text: &[char]) -> Option<&[char]>
    ensures { option_map (λ p. p.now) result ≡ behind_fraction text.now }
{
    match behind_sign('.', text) {
        Some(rest) => {
            let count = digits_length(rest);
            let (_, behind) = rest.split_at(count);
            if count == 0 { None } else { Some(behind) }
        }
        None => Some(text),
    }
}

// What is behind seconds and their fraction, if there are any.
fn behind_seconds(text: &[char]) -> Option<&[char]>
    ensures { option_map (λ p. p.now) result ≡ behind_seconds text.now }
{
    match behind_sign(':', text) {
        Some(rest) => match behind_two(rest) {
            Some(rest) => behind_fraction(rest),
            None => None,
        },
        None => Some(text),
    }
}

// Whether a text has two digits.
fn is_two(text: &[char]) -> bool
    ensures { result ≡ is_two text.now }
{
    match text {
        [a, b] => a.is_ascii_digit() && b.is_ascii_digit(),
        _ => false,
    }
}

// Whether a text has two digits, with a colon in front of them or without.
fn is_shift(text: &[char]) -> bool
    ensures { result ≡ is_shift_by text.now (behind_sign 58 text.now) }
{
    match behind_sign(':', text) {
        Some(rest) => is_two(rest),
        None => is_two(text),
    }
}

// Whether a text is a zone, or empty.
fn is_zone(text: &[char]) -> bool
    ensures { result ≡ is_zone text.now }
{
    match text.split_first() {
        None => true,
        Some(('Z', rest)) => rest.is_empty(),
        Some(('+' | '-', rest)) => match behind_two(rest) {
            Some(rest) => is_shift(rest),
            None => false,
        },
        Some(_) => false,
    }
}

// Whether a text is a time.
fn is_time(text: &[char]) -> bool
    ensures { result ≡ is_time text.now }
{
    match behind_minutes(text) {
        Some(rest) => match behind_seconds(rest) {
            Some(rest) => is_zone(rest),
            None => false,
        },
        None => false,
    }
}

/// Whether nothing is left of a date's text, or a time.
pub(crate) fn is_rest(text: &[char]) -> bool
    ensures { result ≡ is_rest text.now }
{
    match text.split_first() {
        None => true,
        Some((first, rest)) => *first == 'T' && is_time(rest),
    }
}
