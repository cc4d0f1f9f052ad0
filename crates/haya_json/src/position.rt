//! Positions in a text, and the position of a fault in a text that is no library.
ghost use Rattle.std.specs.Prelude.{◌≡◌, IfOk};
ghost use Rattle.std.specs.Str.{chars};
ghost use Rattle.haya_json.specs.Position.{IsPositionIn, position_behind};

use crate::nesting::Nesting;
use haya_text::cursor::Cursor;
use json::{Reader, Scratch, Token};
use std::alloc::{AllocError, Global};
use std::collections::BTreeSet;
use std::fmt;

/// A position in a text.
#[derive(Clone, Copy, Debug, PartialEq, Eq)]
pub struct Position {
    /// The line, from 1 on. Each line feed begins one.
    pub line: usize,
    /// The character of that line, from 1 on.
    pub column: usize,
}

impl fmt::Display for Position {
    ghost use Rattle.std.specs.Prelude.{Some};
    ghost use Rattle.haya_json.specs.Messages.{position_text};

    ghost output = { λ p. Some (position_text p) };

    /// The line and the column: `line 3, column 7`.
    fn fmt<W: fmt::Write>(&self, f: &mut fmt::Formatter<W>) -> fmt::Result {
        write!(f, "line {}, column {}", self.line, self.column)
    }
}

/// Where the tokens of a text stop standing as they have to: at the first that can't stand there, or
/// that opens an array or an object too deep, or at the end.
pub(crate) fn position_of_fault(
    alloc: Global,
    text: &str,
    mut nesting: Nesting,
) -> Result<Position, AllocError>
    ensures { IfOk result (IsPositionIn text.now) }
{
    let mut scratch = Scratch::new(alloc);
    let mut reader = Reader::new(text, &mut scratch)?;
    let mut place = reader.offset();
    'tokens: while let Some(token) = reader.next() {
        if !nesting.takes(&token)? {
            if nesting.expects_name() {
                place = place_of_colon(text, place);
            }
            break;
        }
        place = reader.offset();
    }
    Ok(position_at(text, place))
}

// Where the colon is missing behind the name that begins at this place of a text, or the place
// itself, where none begins there, or a colon follows it.
fn place_of_colon(text: &str, place: usize) -> usize {
    let Some(rest) = text.get(place..) else {
        return place;
    };
    let length = length_before_colon(rest.as_bytes());
    place.checked_add(length).unwrap_or(place)
}

// How many bytes a name in front takes, with the white space behind it; none where a colon follows
// them, or there is no name.
fn length_before_colon(text: &[u8]) -> usize {
    let Some((b'"', rest)) = text.split_first() else {
        return 0;
    };
    let (mut is_escaped, mut is_behind) = (false, false);
    'bytes: for (at, &byte) in rest.iter().enumerate() {
        match byte {
            _ if is_escaped => is_escaped = false,
            b' ' | b'\t' | b'\n' | b'\r' if is_behind => {}
            b':' if is_behind => return 0,
            _ if is_behind => return at + 1,
            b'\\' => is_escaped = true,
            b'"' => is_behind = true,
            _ => {}
        }
    }
    if is_behind { text.len() } else { 0 }
}

/// Where a name stands the second time in an object of a text that is JSON: the first such place,
/// or the end where there is none.
pub fn position_of_twice(alloc: Global, text: &str) -> Result<Position, AllocError>
    ensures { IfOk result (IsPositionIn text.now) }
{
    let mut scratch = Scratch::new(alloc);
    let mut reader = Reader::new(text, &mut scratch)?;
    let place = place_of_twice(alloc, &mut reader)?;
    Ok(position_at(text, place))
}

// The place in the text of the first name that its object has already, or the end.
fn place_of_twice(alloc: Global, reader: &mut Reader<'_>) -> Result<usize, AllocError> {
    let mut objects = Vec::new(alloc);
    let mut place = reader.offset();
    'tokens: while let Some(token) = reader.next() {
        match token {
            Token::BeginObject => objects.push(BTreeSet::new(alloc))?,
            Token::EndObject => drop(objects.pop()),
            Token::Key(name) if is_twice(&mut objects, name)? => break,
            _ => {}
        }
        place = reader.offset();
    }
    Ok(place)
}

// Whether the innermost object has this name already; from now on it has.
fn is_twice<'a>(objects: &mut Vec<BTreeSet<&'a str>>, name: &'a str) -> Result<bool, AllocError> {
    match objects.last_mut() {
        Some(names) => Ok(!names.insert(name)?),
        None => Ok(false),
    }
}

// The position of this place of a text.
fn position_at(text: &str, place: usize) -> Position
    ensures { IsPositionIn text.now result }
{
    match text.get(..place) {
        Some(front) => position_behind(front),
        None => position_behind(text),
    }
}

// The position behind a text that begins another.
fn position_behind(front: &str) -> Position
    ensures { result ≡ position_behind (chars front.now) }
{
    let mut cursor = Cursor::new(front);
    let mut position = Position { line: 1, column: 1 };
    'chars: while let Some(c) = cursor.eat() {
        if c == '\n' {
            position.line += 1;
            position.column = 1;
        } else {
            position.column += 1;
        }
    }
    position
}
