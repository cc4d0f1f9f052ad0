//! Reads numbers.
ghost use Rattle.std.specs.Prelude.{◌≡◌, ◌++◌, ◌<◌, ℕ, ℤ, pos, Some, None, IfOk, IfErr, IfSome};
ghost use Rattle.std.specs.Prelude.{MatchOption, MatchResult, OnOk, Ok, option_map};
ghost use Rattle.std.specs.Prelude.{length, string_bytes, false};
ghost use Rattle.std.specs.Char.{is_whitespace};
ghost use Rattle.std.specs.Result.{result_ok};
ghost use Rattle.std.specs.Str.{chars, encode_utf8_all, skip_leading_whitespace};
ghost use Rattle.haya_text.specs.Cursor.{text_len};
ghost use Rattle.haya_text.specs.Characters.{is_numeric, run, behind_run, begins_with};
ghost use Rattle.haya_numbers.specs.Characters.{is_delimiter};
ghost use Rattle.haya_numbers.specs.Classes.{has, appended, own_zeros};
ghost use Rattle.haya_numbers.specs.Numeric.{value_view, affix_view, numeric_view, is_memory};
ghost use Rattle.haya_numbers.specs.NumericReading.{magnitude, number_front, delimiter_read};
ghost use Rattle.haya_numbers.specs.NumericReading.{item_front, items_read, set_from};
ghost use Rattle.haya_numbers.specs.NumericReading.{first_delimiter, affix, suffix_with};
ghost use Rattle.haya_numbers.specs.NumericReading.{prefix_run, past_prefix, numeric_read};
ghost use Rattle.haya_numbers.specs.NumericReading.{IsFaultOf};
ghost use Rattle.haya_numbers.specs.declared.numeric.NumericError.TheVariants.{NoNumber};
ghost use Rattle.haya_numbers.specs.declared.numeric.NumericError.TheVariants.{OutOfMemory};

use crate::characters::is_delimiter;
use crate::{Numeric, NumericDelimiter, NumericError, NumericValue};
use haya_text::ReadText;
use haya_text::chars::is_numeric;
use haya_text::cursor::Cursor;
use std::alloc::Global;

// The characters of which a number's text has runs.
#[derive(Clone, Copy)]
enum Class {
    Affix,
    Zero,
    Numeric,
    White,
    Delimiter,
    Suffix,
}

impl Class {
    // Whether a character is of this class.
    fn has(self, c: char) -> bool
        ensures { result ≡ has self c }
    {
        match self {
            Class::Affix => !(is_numeric(c) || c == '-'),
            Class::Zero => c == '0',
            Class::Numeric => is_numeric(c),
            Class::White => c.is_whitespace(),
            Class::Delimiter => is_delimiter(c),
            Class::Suffix => !(is_numeric(c) || c.is_whitespace()),
        }
    }
}

// Takes the characters of that class that stand next.
fn eat_run<'a>(cursor: &mut Cursor<'a>, class: Class) -> &'a str
    ensures run { chars result.now ≡ run (has class) cursor.old.rest }
    ensures rest { cursor.new.rest ≡ behind_run (has class) cursor.old.rest }
    ensures same_text { text_len cursor.new ≡ text_len cursor.old }
{
    cursor.eat_while(
        |c| -> bool
            ensures { result ≡ has class c }
        { class.has(c) },
    )
}

// Takes the white space that stands next.
pub(super) fn eat_white<'a>(cursor: &mut Cursor<'a>) -> &'a str
    ensures run { chars result.now ≡ run is_whitespace cursor.old.rest }
    ensures rest { cursor.new.rest ≡ skip_leading_whitespace cursor.old.rest }
{
    eat_run(cursor, Class::White)
}

// How many of these zeros are the number's own: the last one, where no numeric character is next.
fn own_zeros(zeros: &str, cursor: &Cursor) -> usize
    ensures { result ≡ own_zeros (chars zeros.now) cursor.now.rest }
{
    if zeros.is_empty() {
        return 0;
    }
    if is_next_numeric(cursor) { 0 } else { 1 }
}

// Whether a numeric character is next.
fn is_next_numeric(cursor: &Cursor) -> bool
    ensures { result ≡ begins_with is_numeric cursor.now.rest }
{
    match cursor.peek() {
        Some(next) => is_numeric(next),
        None => false,
    }
}

// The text cut behind its prefix.
fn split_prefix(text: &str) -> (&str, &str)
    ensures prefix { result.0.now ≡ encode_utf8_all (prefix_run (chars text.now)) }
    ensures rest { chars result.1.now ≡ past_prefix (chars text.now) }
{
    let mut cursor = Cursor::new(text);
    eat_run(&mut cursor, Class::Affix);
    let zeros = eat_run(&mut cursor, Class::Zero);
    text.split_at(cursor.place() - own_zeros(zeros, &cursor))
}

// Takes the value of the numeric characters that stand next.
fn eat_magnitude(cursor: &mut Cursor) -> Result<i32, NumericError>
    ensures value { IfOk result (λ n. (m : ℕ) × (n ≡ pos m)
        × (magnitude (run is_numeric cursor.old.rest) ≡ Some m)) }
    ensures rest { cursor.new.rest ≡ behind_run is_numeric cursor.old.rest }
    ensures fault { IfErr result (λ e. (e ≡ NoNumber)
        × (magnitude (run is_numeric cursor.old.rest) ≡ None)) }
{
    let digits = eat_run(cursor, Class::Numeric);
    match digits.parse::<i32>() {
        Ok(value) => Ok(value),
        Err(_) => Err(NumericError::NoNumber),
    }
}

// Takes a number: numeric characters, perhaps behind a hyphen.
fn eat_number(cursor: &mut Cursor) -> Result<i32, NumericError>
    ensures { MatchResult result
        (λ n. number_front cursor.old.rest ≡ Some (n, cursor.new.rest))
        (λ e. (e ≡ NoNumber) × (number_front cursor.old.rest ≡ None)) }
{
    let negative = cursor.eat_if('-');
    let value = eat_magnitude(cursor)?;
    if negative { Ok(-value) } else { Ok(value) }
}

// Takes the delimiter characters that stand next. They name a delimiter, or none.
fn eat_delimiter(cursor: &mut Cursor) -> Option<NumericDelimiter>
    ensures named { result ≡ result_ok (delimiter_read (run is_delimiter cursor.old.rest)) }
    ensures rest { cursor.new.rest ≡ behind_run is_delimiter cursor.old.rest }
{
    let characters = eat_run(cursor, Class::Delimiter);
    characters.parse::<NumericDelimiter>().ok()
}

// Takes a number of a set and what separates it from the next one.
fn eat_item(cursor: &mut Cursor) -> Result<(i32, Option<NumericDelimiter>), NumericError>
    ensures { MatchResult result
        (λ i. item_front cursor.old.rest ≡ Some (i, cursor.new.rest))
        (λ e. (e ≡ NoNumber) × (item_front cursor.old.rest ≡ None)) }
{
    cursor.eat_whitespace();
    let number = eat_number(cursor)?;
    cursor.eat_whitespace();
    Ok((number, eat_delimiter(cursor)))
}

// Appends the numbers of a set from the second on.
fn eat_items(
    set: &mut Vec<(i32, Option<NumericDelimiter>)>,
    cursor: &mut Cursor,
) -> Result<(), NumericError>
    ensures value { OnOk result (appended set.old.items (items_read cursor.old.rest)
        ≡ Some (set.new.items, cursor.new.rest)) }
    ensures fault { IfErr result (λ e. is_memory e ≡ false
        → (e ≡ NoNumber) × (items_read cursor.old.rest ≡ None)) }
{
    'items: loop {
        let item = eat_item(cursor)?;
        set.push(item)?;
        if item.1.is_none() {
            return Ok(());
        }
    }
}

// The delimiter that the next character is.
fn peek_delimiter(cursor: &Cursor) -> Option<NumericDelimiter>
    ensures { result ≡ first_delimiter cursor.now.rest }
{
    NumericDelimiter::try_from(cursor.peek()?).ok()
}

// Takes the set that begins with this number, if a delimiter follows it.
fn eat_value(alloc: Global, first: i32, cursor: &mut Cursor) -> Result<NumericValue, NumericError>
    ensures value { IfOk result
        (λ v. set_from first (first_delimiter cursor.old.rest) cursor.old.rest
        ≡ Some (value_view v, cursor.new.rest)) }
    ensures fault { IfErr result (λ e. is_memory e ≡ false → (e ≡ NoNumber)
        × (set_from first (first_delimiter cursor.old.rest) cursor.old.rest ≡ None)) }
{
    let Some(delimiter) = peek_delimiter(cursor) else {
        return Ok(NumericValue::Number(first));
    };
    eat_run(cursor, Class::Delimiter);
    let mut set = Vec::new(alloc);
    set.push((first, Some(delimiter)))?;
    eat_items(&mut set, cursor)?;
    Ok(NumericValue::Set(set))
}

// An affix of that text; an empty one is none.
fn boxed(alloc: Global, text: String) -> Result<Option<Box<String>>, NumericError>
    ensures bytes { IfOk result (λ b. affix_view b ≡ affix (string_bytes text)) }
    ensures fault { IfErr result (λ e. e ≡ OutOfMemory) }
{
    if text.is_empty() {
        return Ok(None);
    }
    Ok(Some(Box::new(alloc, text)?))
}

// The suffix behind this white space; an empty one is none.
fn suffix_behind(
    alloc: Global,
    white: &str,
    suffix: &str,
) -> Result<Option<Box<String>>, NumericError>
    ensures bytes { IfOk result (λ b. affix_view b ≡ suffix_with (chars white.now)
        (chars suffix.now)) }
    ensures fault { IfErr result (λ e. e ≡ OutOfMemory) }
{
    if suffix.is_empty() {
        return Ok(None);
    }
    boxed(alloc, format!(in alloc; "{white}{suffix}")?)
}

impl ReadText for Numeric {
    type Fault = NumericError;

    ghost use Rattle.std.specs.Prelude.{◌≡◌, false, Some, None, Ok, IfOk, IfErr};
    ghost use Rattle.std.specs.Result.{result_ok};
    ghost use Rattle.haya_numbers.specs.Numeric.{NumericView, numeric_view, is_memory};
    ghost use Rattle.haya_numbers.specs.NumericReading.{numeric_read, IsFaultOf};

    ghost Value = { NumericView };

    ghost value = { numeric_view };

    ghost reads = { λ text. result_ok (numeric_read text) };

    /// A prefix, a number or a set of numbers, and a suffix. A fault other than out of memory is
    /// the one that the text has.
    fn from_str(alloc: Global, text: &str) -> Result<Numeric, NumericError>
        ensures ok { IfOk result (λ v. result_ok (numeric_read text.now) ≡ Some (numeric_view v)) }
        ensures fault { IfErr result (λ e. is_memory e ≡ false
            → result_ok (numeric_read text.now) ≡ None) }
        ensures value { IfOk result (λ v. numeric_read text.now ≡ Ok (numeric_view v)) }
        ensures exact { IfErr result (IsFaultOf text.now) }
    {
        read_numeric(alloc, text)
    }
}

// Reads part by part.
fn read_numeric(alloc: Global, text: &str) -> Result<Numeric, NumericError>
    ensures { MatchResult result (λ v. numeric_read text.now ≡ Ok (numeric_view v))
        (IsFaultOf text.now) }
{
    let mut cursor = Cursor::new(text);
    cursor.eat_whitespace();
    let (prefix, behind) = split_prefix(cursor.rest());
    let mut cursor = Cursor::new(behind);
    let number = eat_number(&mut cursor)?;
    let white = eat_white(&mut cursor);
    let value = eat_value(alloc, number, &mut cursor)?;
    cursor.eat_whitespace();
    let suffix = eat_run(&mut cursor, Class::Suffix);
    if cursor.peek().is_some() {
        return Err(NumericError::UnexpectedCharactersAfterPostfix);
    }
    Ok(Numeric {
        value,
        prefix: boxed(alloc, String::from_str(alloc, prefix)?)?,
        suffix: suffix_behind(alloc, white, suffix)?,
    })
}
