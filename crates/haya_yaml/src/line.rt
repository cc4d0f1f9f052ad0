//! Lines, and what begins them.
ghost use Rattle.std.specs.Prelude.{◌≡◌, ◌≤◌, ◌<◌, ◌+◌, ◌++◌, length, drop};
ghost use Rattle.std.specs.Prelude.{string_bytes, IfOk, OnOk, Option, ℕ};
ghost use Rattle.haya_yaml.specs.Block.{Node, below, from_first};
ghost use Rattle.haya_yaml.specs.Line.{are_deeper, are_skipped, begins_dash, begins_letter};
ghost use Rattle.haya_yaml.specs.Line.{indent, is_closer, is_dash, is_dash_at, is_deeper};
ghost use Rattle.haya_yaml.specs.Line.{is_skipped, joined, rest_of, texts};

use haya_yaml_text::fault::{FaultKind, ReadError, Refusal};
use haya_yaml_text::white::{begins_with, blanks, is_end, is_gap, skip, split_blanks};
use std::alloc::{AllocError, Global};

// What follows the spaces that begin a line.
fn rest_of(line: &str) -> &str
    ensures { result.now ≡ rest_of line.now }
{
    skip(false, line)
}

/// How many spaces begin a line, and what follows them.
pub(crate) fn split_indent(line: &str) -> (usize, &str)
    ensures indent { result.0 ≡ indent line.now }
    ensures rest { result.1.now ≡ rest_of line.now }
    ensures len { result.0 + length result.1.now ≡ length line.now }
{
    let (spaces, rest) = split_blanks(false, line);
    (spaces.len(), rest)
}

/// Whether nothing stands on a line, or only a comment.
pub(crate) fn is_skipped(line: &str) -> bool
    ensures { result ≡ is_skipped line.now }
{
    is_end(skip(true, line))
}

/// Whether a line begins with a closing bracket.
pub(crate) fn is_closer(line: &str) -> bool
    ensures { result ≡ is_closer line.now }
{
    let bytes = rest_of(line).as_bytes();
    begins_with(b']', bytes) || begins_with(b'}', bytes)
}

/// Whether an item of a list begins here.
pub(crate) fn is_dash(text: &str) -> bool
    ensures { result ≡ is_dash text.now }
{
    match text.as_bytes() {
        [] => false,
        [byte, rest @ ..] => *byte == b'-' && is_gap(rest),
    }
}

/// Whether a line is an item of a list at the column.
pub(crate) fn is_dash_at(column: usize, line: &str) -> bool
    ensures { result ≡ is_dash_at column line.now }
{
    blanks(false, line) == column && is_dash(rest_of(line))
}

/// Whether a small letter stands here, as at the front of most keys.
pub(crate) fn begins_letter(bytes: &[u8]) -> bool
    ensures { result ≡ begins_letter bytes.now }
{
    match bytes {
        [] => false,
        [byte, ..] => *byte >= b'a' && *byte <= b'z',
    }
}

/// Whether nothing stands on the lines.
pub(crate) fn are_skipped(lines: &[&str]) -> bool
    ensures { result ≡ are_skipped (texts lines.now) }
{
    'lines: for line in lines {
        if !is_skipped(line) {
            return false;
        }
    }
    true
}

/// Whether an indent is deeper than the entry that is there.
pub(crate) fn is_deeper(edge: Option<usize>, indent: usize) -> bool
    ensures { result ≡ is_deeper edge indent }
{
    match edge {
        None => true,
        Some(column) => column < indent,
    }
}

/// Whether each line that isn't skipped is indented deeper than the entry.
pub(crate) fn are_deeper(edge: Option<usize>, lines: &[&str]) -> bool
    ensures { result ≡ are_deeper edge (texts lines.now) }
{
    'lines: for line in lines {
        if !is_skipped(line) && !is_deeper(edge, blanks(false, line)) {
            return false;
        }
    }
    true
}

/// Whether the first line that isn't skipped is an item of a list at the column.
pub(crate) fn begins_dash(column: usize, lines: &[&str]) -> bool
    ensures { result ≡ begins_dash column (texts lines.now) }
{
    'lines: for line in lines {
        if !is_skipped(line) {
            return is_dash_at(column, line);
        }
    }
    false
}

/// How many lines at the front are skipped.
pub(crate) fn skipped(lines: &[&str]) -> usize
    ensures bound { result ≤ length lines.now }
    ensures same { (node : Node) (edge : Option ℕ) → below node edge (texts lines.now)
        ≡ from_first node edge (texts (drop result lines.now)) }
{
    let mut count = 0;
    'lines: while count < lines.len() {
        if !is_skipped(lines[count]) {
            return count;
        }
        count += 1;
    }
    count
}

/// A text with the lines behind it, and a line feed before each. The error: there was no memory for
/// them.
pub(crate) fn joined(alloc: Global, text: &str, lines: &[&str]) -> Result<String, AllocError>
    ensures { IfOk result (λ whole. string_bytes whole ≡ joined text.now (texts lines.now)) }
{
    let mut whole = String::new(alloc);
    whole.push_str(text)?;
    'lines: for line in lines {
        whole.push('\n')?;
        whole.push_str(line)?;
    }
    Ok(whole)
}

/// A fault in the line of this number, where this is left of it.
pub(crate) fn fault(kind: FaultKind, line: usize, rest: &str) -> ReadError {
    ReadError::Refused(Refusal {
        kind,
        line,
        left: rest.len(),
    })
}
