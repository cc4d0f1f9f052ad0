//! What stands between two numbers of a set.
ghost use Rattle.std.specs.Prelude.{◌≡◌, Some, ok_or, option_map};
ghost use Rattle.std.specs.Char.{encode_utf8};
ghost use Rattle.std.specs.Str.{chars};
ghost use Rattle.haya_numbers.specs.NumericPrinted.{delimiter_char, delimiter_text};
ghost use Rattle.haya_numbers.specs.NumericPrinted.{text_or_nothing};
ghost use Rattle.haya_numbers.specs.NumericReading.{delimiter_of, delimiter_read};
ghost use Rattle.haya_numbers.specs.declared.numeric.NumericError.TheVariants.{NotADelimiter};

use crate::{NumericDelimiter, NumericError};
use haya_text::cursor::Cursor;
use std::fmt;
use std::str::FromStr;

impl NumericDelimiter {
    /// The delimiter's character in ASCII: a comma, an ampersand or a hyphen.
    pub fn as_char(self) -> char
        ensures { result ≡ delimiter_char self }
    {
        match self {
            NumericDelimiter::Comma => ',',
            NumericDelimiter::Ampersand => '&',
            NumericDelimiter::Hyphen => '-',
        }
    }
}

impl fmt::Display for NumericDelimiter {
    ghost output = { λ d. Some (delimiter_text d) };

    /// A comma and a blank, an ampersand between blanks, or an en dash.
    fn fmt<W: fmt::Write>(&self, f: &mut fmt::Formatter<W>) -> fmt::Result {
        write!(f, "{}", text_after(Some(*self)))
    }
}

// What is shown between a number and the next one.
pub(super) fn text_after(delimiter: Option<NumericDelimiter>) -> &'static str
    ensures { result.now ≡ text_or_nothing (option_map delimiter_text delimiter) }
{
    match delimiter {
        Some(NumericDelimiter::Comma) => ", ",
        Some(NumericDelimiter::Ampersand) => " & ",
        Some(NumericDelimiter::Hyphen) => "–",
        None => "",
    }
}

impl TryFrom<char> for NumericDelimiter {
    type Error = NumericError;

    ghost try_from_gives = { λ c r. r ≡ ok_or (delimiter_of c) NotADelimiter };

    /// The delimiter that a character is: a comma, an ampersand, a hyphen or an en dash.
    fn try_from(c: char) -> Result<NumericDelimiter, NumericError> {
        match c {
            ',' => Ok(NumericDelimiter::Comma),
            '&' => Ok(NumericDelimiter::Ampersand),
            '-' | '–' => Ok(NumericDelimiter::Hyphen),
            _ => Err(NumericError::NotADelimiter),
        }
    }
}

impl FromStr for NumericDelimiter {
    type Err = NumericError;

    ghost from_str_gives = { λ text r. r ≡ delimiter_read (chars text) };

    /// The delimiter of a text that begins with a hyphen, or is one delimiter character.
    fn from_str(text: &str) -> Result<NumericDelimiter, NumericError> {
        let mut cursor = Cursor::new(text);
        let Some(first) = cursor.eat() else {
            return Err(NumericError::MissingDelimiter);
        };
        if first == '-' {
            return Ok(NumericDelimiter::Hyphen);
        }
        if cursor.peek().is_some() {
            return Err(NumericError::NotADelimiter);
        }
        NumericDelimiter::try_from(first)
    }
}
