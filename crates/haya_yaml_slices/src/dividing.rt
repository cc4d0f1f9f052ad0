//! A text divided where the members of a map begin.
ghost use Rattle.std.specs.Prelude.{◌≡◌, ◌++◌, ◌∷◌, ◌≤◌, ◌<◌, [], IfOk, OnOk, List, length, map, ℕ};
ghost use Rattle.haya_yaml_slices.specs.Breaks.{IsBreak};
ghost use Rattle.haya_yaml_slices.specs.Members.{IsDividedTo};

use crate::lines::{LineKind, indent_of, kind_of};
use std::alloc::{AllocError, Global};

/// The text's lines that each member of a map has, if it is one: whether it is, and whether they are
/// the members, isn't looked at. With `moves`, comments right above a key go with it.
pub(crate) fn divided<'t>(
    alloc: Global,
    moves: bool,
    text: &'t str,
) -> Result<Vec<&'t str>, AllocError>
    ensures { IfOk result (λ parts. IsDividedTo text.now (map (λ s. s.now) parts.items)) }
{
    let content = unmarked(text);
    let column = column_of(content.as_bytes());
    let (_, members) = content.split_at(start_from(moves, true, column, 0, content.as_bytes()));
    let mut parts = Vec::new(alloc);
    let mut rest = members;
    'members: while !rest.is_empty() {
        let kind = kind_of(column, rest.as_bytes());
        if kind == LineKind::End {
            return Ok(parts);
        }
        let first = line_len(rest.as_bytes());
        let seen = kind == LineKind::Member;
        let (part, more) = rest.split_at(start_from(moves, seen, column, first, rest.as_bytes()));
        push(&mut parts, part)?;
        rest = more;
    }
    Ok(parts)
}

// A text without the byte order mark at its front.
fn unmarked(text: &str) -> &str
    ensures { (front : List ℕ) × (text.now ≡ front ++ result.now) }
{
    let mut rest = text.chars();
    match rest.next() {
        Some(first) => {
            if first == '\u{feff}' {
                return rest.as_str();
            }
            text
        }
        None => text,
    }
}

// Puts a slice behind the others.
fn push<'t>(slices: &mut Vec<&'t str>, slice: &'t str) -> Result<(), AllocError>
    ensures { OnOk result (map (λ s. s.now) slices.new.items
        ≡ map (λ s. s.now) slices.old.items ++ slice.now ∷ []) }
{
    slices.push(slice)?;
    Ok(())
}

// How many bytes the first line has, with its line feed.
fn line_len(bytes: &[u8]) -> usize
    ensures within { result ≤ length bytes.now }
    ensures some { 0 < length bytes.now → 0 < result }
    ensures ends { IsBreak bytes.now result }
{
    let mut at = 0;
    'bytes: while at < bytes.len() {
        at += 1;
        if bytes[at - 1] == b'\n' {
            return at;
        }
    }
    at
}

// The column of the first line that may begin a member.
fn column_of(bytes: &[u8]) -> usize {
    let mut rest = bytes;
    'lines: while !rest.is_empty() {
        let indent = indent_of(rest);
        if kind_of(indent, rest) == LineKind::Member {
            return indent;
        }
        (_, rest) = rest.split_at(line_len(rest));
    }
    0
}

// How many bytes come before a member that begins at this place or behind it, or before the end of
// the document, or how many there are: before the first member if one was `seen`, and otherwise
// before the second. With `moves`, they come before the comments right above the member.
fn start_from(moves: bool, seen: bool, column: usize, from: usize, bytes: &[u8]) -> usize
    requires within { from ≤ length bytes.now }
    requires place { IsBreak bytes.now from }
    ensures behind { from ≤ result }
    ensures within { result ≤ length bytes.now }
    ensures ends { IsBreak bytes.now result }
{
    let mut found = seen;
    let mut start = from;
    let mut at = from;
    'lines: while at < bytes.len() {
        let (_, rest) = bytes.split_at(at);
        let kind = kind_of(column, rest);
        if kind == LineKind::End {
            return at;
        }
        if kind == LineKind::Member && found {
            return start;
        }
        at += line_len(rest);
        found = found || kind == LineKind::Member;
        if !moves || kind != LineKind::Comment {
            start = at;
        }
    }
    at
}
