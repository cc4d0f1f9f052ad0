//! Texts from which numbers are read again.
ghost use Rattle.std.specs.Prelude.{◌≡◌, Some, IfOk, flat_map, option_map, string_bytes};
ghost use Rattle.std.specs.Fmt.{signed_decimal};
ghost use Rattle.haya_numbers.specs.Numeric.{numeric_view, value_view};
ghost use Rattle.haya_numbers.specs.NumericPrinted.{item_text, text_or_nothing};
ghost use Rattle.haya_numbers.specs.NumericRoundTrip.{behind_white, exact_text, exact_value};
ghost use Rattle.haya_numbers.specs.NumericRoundTrip.{leading_white, reads_as, round_trip_text};
ghost use Rattle.haya_numbers.specs.NumericRoundTrip.{same_numeric, set_end, spaced_delimiter};

use super::reading::eat_white;
use crate::characters::is_delimiter;
use crate::{Numeric, NumericDelimiter, NumericError, NumericValue};
use haya_text::cursor::Cursor;
use haya_text::{OutOfMemory, ReadText};
use std::alloc::Global;
use std::fmt;

impl Numeric {
    /// A text from which the number is read again, if it was read from one: what is shown of it
    /// where that reads as it. Otherwise each delimiter is in ASCII with a blank behind it, and the
    /// white space of the suffix stands behind the first number, as in `1& 2x`. The only error is
    /// out of memory.
    pub fn round_trip_text(&self, alloc: Global) -> Result<String, OutOfMemory>
        ensures { IfOk result (λ text.
            string_bytes text ≡ round_trip_text (numeric_view self.now)) }
    {
        let shown = format!(in alloc; "{self}")?;
        if self.reads_back() {
            return Ok(shown);
        }
        if reads_as(alloc, shown.as_str(), self)? {
            return Ok(shown);
        }
        Ok(format!(in alloc; "{}", Exact(self))?)
    }
}

// Whether the text reads as the number.
fn reads_as(alloc: Global, text: &str, number: &Numeric) -> Result<bool, OutOfMemory>
    ensures { IfOk result (λ b. b ≡ reads_as text.now (numeric_view number.now)) }
{
    match Numeric::from_str(alloc, text) {
        Ok(read) => Ok(is_same(&read, number)),
        Err(NumericError::OutOfMemory) => Err(OutOfMemory),
        Err(_) => Ok(false),
    }
}

// Whether two numbers are equal by value.
fn is_same(a: &Numeric, b: &Numeric) -> bool
    ensures { result ≡ same_numeric (numeric_view a.now) (numeric_view b.now) }
{
    a == b
}

// A number by the text that reads as it, if any does.
#[derive(Drop)]
pub(crate) struct Exact<'a>(pub &'a Numeric);

impl fmt::Display for Exact<'_> {
    ghost output = { λ e. Some (exact_text (numeric_view e.0.now)) };

    fn fmt<W: fmt::Write>(&self, f: &mut fmt::Formatter<W>) -> fmt::Result {
        let prefix = self.0.prefix_str().unwrap_or("");
        let suffix = self.0.suffix_str().unwrap_or("");
        let value = ExactValue {
            value: &self.0.value,
            suffix,
        };
        write!(f, "{prefix}{value}")
    }
}

// A value with its suffix.
#[derive(Drop)]
struct ExactValue<'a> {
    value: &'a NumericValue,
    suffix: &'a str,
}

impl fmt::Display for ExactValue<'_> {
    ghost output = { λ v. Some (exact_value (value_view v.value.now) v.suffix.now) };

    fn fmt<W: fmt::Write>(&self, f: &mut fmt::Formatter<W>) -> fmt::Result {
        let set = match self.value {
            NumericValue::Number(number) => return write!(f, "{number}{}", self.suffix),
            NumericValue::Set(set) => set,
        };
        let Some((first, others)) = set.as_slice().split_first() else {
            return f.write_str(self.suffix);
        };
        let (white, tail) = split_white(self.suffix);
        write!(f, "{}{white}{}", first.0, spaced(first.1))?;
        write!(f, "{}{}{tail}", Others(others), set_end(tail))
    }
}

// The numbers of a set from the second on.
#[derive(Drop)]
struct Others<'a>(&'a [(i32, Option<NumericDelimiter>)]);

impl fmt::Display for Others<'_> {
    ghost output = { λ others.
        Some (flat_map (item_text signed_decimal spaced_delimiter) others.0.now) };

    fn fmt<W: fmt::Write>(&self, f: &mut fmt::Formatter<W>) -> fmt::Result {
        for (number, delimiter) in self.0 {
            write!(f, "{number}{}", spaced(*delimiter))?;
        }
        Ok(())
    }
}

// A delimiter in ASCII, with a blank behind it.
fn spaced(delimiter: Option<NumericDelimiter>) -> &'static str
    ensures { result.now ≡ text_or_nothing (option_map spaced_delimiter delimiter) }
{
    match delimiter {
        Some(NumericDelimiter::Comma) => ", ",
        Some(NumericDelimiter::Ampersand) => "& ",
        Some(NumericDelimiter::Hyphen) => "- ",
        None => "",
    }
}

// The white space that begins a text, and what stands behind it.
fn split_white(text: &str) -> (&str, &str)
    ensures white { result.0.now ≡ leading_white text.now }
    ensures rest { result.1.now ≡ behind_white text.now }
{
    let mut cursor = Cursor::new(text);
    let white = eat_white(&mut cursor);
    (white, cursor.rest())
}

// What ends a set before this text.
fn set_end(text: &str) -> &'static str
    ensures { result.now ≡ set_end text.now }
{
    match text.chars().next() {
        Some(first) if is_delimiter(first) => "–– ",
        _ => "",
    }
}
