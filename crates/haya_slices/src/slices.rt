//! The elements of a text.
ghost use Rattle.std.specs.Prelude.{◌≡◌, ◌<◌, ◌∷◌, ◌++◌, [], IfOk, IfSome, IsTrue, OnOk, map};
ghost use Rattle.haya_json_elements.specs.Steps.{closing_bracket, opening_bracket};
ghost use Rattle.haya_slices.specs.Layout.{IsLaidOut, IsWhite};
ghost use Rattle.haya_slices.specs.Scan.{BeginsByte, BeginsWith};

use crate::element::element_len;
use crate::white::{trimmed_len, white_len};
use haya_json_elements::Brackets;
use std::alloc::{AllocError, Global};

/// The elements of a text that is a list in JSON in these brackets: of an array its items, and of
/// an object its members, each with its name. Each is given as it is in the text, byte for byte,
/// from its first byte to its last. `None` where the text is no such list; whether its elements
/// are JSON isn't looked at.
pub fn element_slices<'t>(
    alloc: Global,
    brackets: Brackets,
    text: &'t str,
) -> Result<Option<Vec<&'t str>>, AllocError>
    ensures { IfOk result (λ found. IfSome found (λ slices.
        IsLaidOut brackets text.now (map (λ s. s.now) slices.items))) }
{
    let Some(list) = behind_byte(opening_byte(brackets), text) else {
        return Ok(None);
    };
    let mut slices = Vec::new(alloc);
    if let Some(back) = behind_byte(closing_byte(brackets), list) {
        return Ok(before_white(slices, back));
    }
    let mut rest = list;
    'elements: for _ in 0..text.len() {
        let Some(first) = first_element(brackets, rest) else {
            return Ok(None);
        };
        push(&mut slices, first.element)?;
        if first.is_last {
            return Ok(before_white(slices, first.behind));
        }
        rest = first.behind;
    }
    Ok(None)
}

// Puts a slice behind the others.
fn push<'t>(slices: &mut Vec<&'t str>, slice: &'t str) -> Result<(), AllocError>
    ensures { OnOk result (map (λ s. s.now) slices.new.items
        ≡ map (λ s. s.now) slices.old.items ++ slice.now ∷ []) }
{
    slices.push(slice)?;
    Ok(())
}

// The slices, if nothing but white space is behind their list.
fn before_white<'t>(slices: Vec<&'t str>, behind: &str) -> Option<Vec<&'t str>>
    ensures { IfSome result (λ same. (same.items ≡ slices.entry.items) × IsWhite behind.now) }
{
    if is_white(behind) { Some(slices) } else { None }
}

// What a text begins with: an element, and what is behind it and its comma, or behind the bracket
// that closes, where it is the last.
#[derive(Clone, Copy)]
struct First<'t> {
    element: &'t str,
    is_last: bool,
    behind: &'t str,
}

// The element that a text begins with, white space aside.
fn first_element<'t>(brackets: Brackets, text: &'t str) -> Option<First<'t>>
    ensures { IfSome result (λ first.
        BeginsWith brackets text.now first.element.now first.is_last first.behind.now) }
{
    let start = white_len(text.as_bytes());
    let (_, rest) = text.split_at(start);
    let bytes = rest.as_bytes();
    let len = element_len(brackets, bytes)?;
    let (first, _) = bytes.split_at(len);
    let (element, _) = rest.split_at(trimmed_len(first));
    let (_, behind) = rest.split_at(len + 1);
    Some(First {
        element,
        is_last: bytes[len] != b',',
        behind,
    })
}

// What is behind this byte, where the text begins with it, white space aside.
fn behind_byte(byte: u8, text: &str) -> Option<&str>
    requires { byte < 128 }
    ensures { IfSome result (λ behind. BeginsByte byte text.now behind.now) }
{
    let bytes = text.as_bytes();
    let start = white_len(bytes);
    if start < bytes.len() && bytes[start] == byte {
        let (_, behind) = text.split_at(start + 1);
        Some(behind)
    } else {
        None
    }
}

// Whether a text is white space.
fn is_white(text: &str) -> bool
    ensures { IsTrue result → IsWhite text.now }
{
    white_len(text.as_bytes()) == text.len()
}

// The byte of the bracket that opens.
fn opening_byte(brackets: Brackets) -> u8
    ensures { result ≡ opening_bracket brackets }
{
    match brackets {
        Brackets::Square => b'[',
        Brackets::Curly => b'{',
    }
}

// The byte of the bracket that closes.
fn closing_byte(brackets: Brackets) -> u8
    ensures { result ≡ closing_bracket brackets }
{
    match brackets {
        Brackets::Square => b']',
        Brackets::Curly => b'}',
    }
}
