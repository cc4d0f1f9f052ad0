//! Years in texts.
ghost use Rattle.std.specs.Prelude.{◌≡◌, ◌≤◌, IfOk, IfSome, length, map, reverse};
ghost use Rattle.std.specs.List.{prefix_len, slice_split};
ghost use Rattle.haya_bibtex_dates.specs.Digits.{four_digits};
ghost use Rattle.haya_bibtex_dates.specs.Years.{begins_with, first_told, has_tilde_first, is_about};
ghost use Rattle.haya_bibtex_dates.specs.Years.{is_about_at, is_no_digit, is_opening, is_tilde};
ghost use Rattle.haya_bibtex_dates.specs.Years.{year_in};

use crate::calendar::marked;
use crate::digits::four_digits;
use haya_time::Date;
use std::alloc::{AllocError, Global};

// The parts of a text that have digits alone.
fn digit_runs(alloc: Global, text: &[char]) -> Result<Vec<&[char]>, AllocError>
    ensures { IfOk result (λ v. map (λ p. p.now) v.items ≡ slice_split is_no_digit text.now) }
{
    text.split(|c| !c.is_ascii_digit()).collect(alloc)
}

// The number of the first run that has four digits.
fn first_four(runs: &[&[char]]) -> Option<u16>
    ensures value { result ≡ first_told four_digits (map (λ p. p.now) runs.now) }
    ensures within { IfSome result (λ n. n ≤ 9999) }
{
    'runs: for run in runs {
        let number = four_digits(run);
        if number.is_some() {
            return number;
        }
    }
    None
}

// Whether a character is a tilde, or what it becomes in text.
fn is_tilde(c: char) -> bool
    ensures { result ≡ is_tilde c }
{
    c == '~' || c == '\u{a0}'
}

// Whether a character is passed over in front of a year.
fn is_opening(c: char) -> bool
    ensures { result ≡ is_opening c }
{
    c == '[' || (c.is_whitespace() && !is_tilde(c))
}

// How many characters are passed over in front of a year.
fn opening_length(text: &[char]) -> usize
    ensures length { result ≡ prefix_len is_opening text.now }
    ensures within { result ≤ length text.now }
{
    let mut count = 0;
    'chars: for c in text {
        if !is_opening(*c) {
            return count;
        }
        count += 1;
    }
    count
}

// Whether a text begins with another.
fn begins_with(word: &[char], text: &[char]) -> bool
    ensures { result ≡ begins_with word.now text.now }
{
    let mut left = text;
    'chars: for c in word {
        let Some((first, rest)) = left.split_first() else {
            return false;
        };
        if *first != *c {
            return false;
        }
        left = rest;
    }
    true
}

// Whether a text begins with a tilde.
fn has_tilde_first(text: &[char]) -> bool
    ensures { result ≡ has_tilde_first text.now }
{
    match text.split_first() {
        Some((first, _)) => is_tilde(*first),
        None => false,
    }
}

// Whether a text ends with a tilde.
fn has_tilde_last(text: &[char]) -> bool
    ensures { result ≡ has_tilde_first (reverse text.now) }
{
    match text.split_last() {
        Some((last, _)) => is_tilde(*last),
        None => false,
    }
}

// Whether a text begins with a sign that a year is only about right.
fn is_about_at(text: &[char]) -> bool
    ensures { result ≡ is_about_at text.now }
{
    has_tilde_first(text)
        || begins_with(&['c', '.'], text)
        || begins_with(&['c', 'a', '.'], text)
        || begins_with(&['c', ' '], text)
        || begins_with(&['c', 'a', ' '], text)
        || begins_with(&['c', 'i', 'r', 'c', 'a'], text)
}

// Whether the year of a text is only about right.
fn is_about(text: &[char]) -> bool
    ensures { result ≡ is_about text.now }
{
    let (_, rest) = text.split_at(opening_length(text));
    is_about_at(rest) || has_tilde_last(text)
}

/// The year that a text tells.
pub(crate) fn year_in(alloc: Global, text: &[char]) -> Result<Option<Date>, AllocError>
    ensures { IfOk result (λ date. date ≡ year_in text.now) }
{
    let runs = digit_runs(alloc, text)?;
    match first_four(runs.as_slice()) {
        Some(year) => {
            let date = Date::from_year(i32::from(year));
            Ok(Some(marked(is_about(text), date)))
        }
        None => Ok(None),
    }
}
