//! Where an element of a text in JSON ends.
ghost use Rattle.std.specs.Prelude.{◌≡◌, ◌⊎◌, ◌++◌, ◌<◌, ◌≤◌, ℕ, List, IfSome, IsFalse, IsTrue};
ghost use Rattle.std.specs.Prelude.{◌+◌, Some, drop, length, slice_index, take};
ghost use Rattle.json.specs.Ascii as ascii;
ghost use Rattle.haya_json_elements.specs.Steps.{closing_bracket, closing_step, comma_step, opening_step, step};
ghost use Rattle.haya_json_elements.specs.declared.place.Brackets.{Brackets as BracketsData};
ghost use Rattle.haya_json_elements.specs.declared.place.Mode.TheVariants.{Between, Text, Word};
ghost use Rattle.haya_json_elements.specs.declared.place.Place.TheVariants.{Element, Next};
ghost use Rattle.haya_slices.specs.Layout.{IsWhite, inside, is_outside_string, within};
ghost use Rattle.haya_slices.specs.Scan.{EndsAt};

use crate::nested::{nested_len, string_len};
use crate::white::white_len;
use haya_json_elements::{Brackets, Mode};

/// How many bytes the element at the front has, with the white space behind it: a comma or the
/// bracket that closes is there. `None` where there is no element, or it has no end.
pub(crate) fn element_len(brackets: Brackets, bytes: &[u8]) -> Option<usize>
    ensures { IfSome result (EndsAt brackets bytes.now) }
{
    if bytes.is_empty() || !may_begin(bytes[0]) {
        return None;
    }
    let mut mode = Mode::Between;
    let mut at = 0;
    'bytes: while at < bytes.len() {
        let Some((next, depth)) = passed(mode, 0, bytes[at]) else {
            return end_at(brackets, 0, bytes, at);
        };
        at += 1;
        let (_, rest) = bytes.split_at(at);
        let (len, there) = token_len(next, depth, rest)?;
        at += len;
        mode = there;
    }
    None
}

// How many bytes lead from a place in an element, behind a bracket of its own if one is open, to one
// that is in none, and what a byte there is part of.
#[inline(always)]
fn token_len(mode: Mode, depth: u8, rest: &[u8]) -> Option<(usize, Mode)>
    ensures within { IfSome result (λ found. found.0 ≤ length rest.now) }
    ensures outside { IfSome result (λ found. IsTrue (is_outside_string found.1)) }
    ensures leads { IfSome result (λ found. (b : BracketsData) → (ys : List ℕ) →
        inside b mode depth (take found.0 rest.now ++ ys) ≡ inside b found.1 0 ys) }
{
    match (mode, depth) {
        (Mode::Between, 0) => Some((white_len(rest), Mode::Between)),
        (Mode::Word, 0) => Some((0, Mode::Word)),
        (Mode::Text, 0) => Some((string_len(rest)?, Mode::Between)),
        (Mode::Between, 1) => Some((nested_len(rest)?, Mode::Between)),
        _ => None,
    }
}

// The place, if an element may end there at this depth.
pub(crate) fn end_at(brackets: Brackets, depth: u8, bytes: &[u8], at: usize) -> Option<usize>
    requires { at < length bytes.now }
    ensures { IfSome result (λ n. (n ≡ at) × (0 < at) × (depth ≡ 0)
        × ((slice_index bytes.now at ≡ ascii.comma)
        ⊎ (slice_index bytes.now at ≡ closing_bracket brackets))) }
{
    if at > 0 && depth == 0 && may_end(brackets, bytes[at]) {
        Some(at)
    } else {
        None
    }
}

// Whether an element may begin with the byte.
pub(crate) fn may_begin(byte: u8) -> bool
    ensures { IsTrue result → (b : BracketsData) →
        step b Next byte ≡ step b (Element Between 0) byte }
{
    !matches!(
        byte,
        b' ' | b'\t' | b'\n' | b'\r' | b'}' | b']' | b',' | b':'
    )
}

// Whether an element may end in front of the byte.
fn may_end(brackets: Brackets, byte: u8) -> bool
    ensures { IsTrue result → (byte ≡ ascii.comma) ⊎ (byte ≡ closing_bracket brackets) }
{
    match brackets {
        Brackets::Square => byte == b',' || byte == b']',
        Brackets::Curly => byte == b',' || byte == b'}',
    }
}

// Where a byte leads from a place in an element, if not out of it.
pub(crate) fn passed(mode: Mode, depth: u8, byte: u8) -> Option<(Mode, u8)>
    ensures { (b : BracketsData) → result ≡ within (step b (Element mode depth) byte).0 }
{
    match mode {
        Mode::Between => passed_between(depth, byte),
        Mode::Word => passed_word(depth, byte),
        Mode::Text => Some((behind_text(byte), depth)),
        Mode::Escape => Some((Mode::Text, depth)),
    }
}

// Where a byte leads between two tokens.
fn passed_between(depth: u8, byte: u8) -> Option<(Mode, u8)>
    ensures { (b : BracketsData) → result ≡ within (step b (Element Between depth) byte).0 }
{
    if byte == b'"' {
        return Some((Mode::Text, depth));
    }
    passed_word(depth, byte)
}

// Where a byte leads in a string.
fn behind_text(byte: u8) -> Mode
    ensures leads { (b : BracketsData) → (d : ℕ) →
        within (step b (Element Text d) byte).0 ≡ Some (result, d) }
    ensures in_string { (result ≡ Between) ⊎ IsFalse (is_outside_string result) }
{
    match byte {
        b'"' => Mode::Between,
        b'\\' => Mode::Escape,
        _ => Mode::Text,
    }
}

/// Where a byte leads in a number or a word.
pub(crate) fn passed_word(depth: u8, byte: u8) -> Option<(Mode, u8)>
    ensures { (b : BracketsData) → result ≡ within (step b (Element Word depth) byte).0 }
{
    match byte {
        b' ' | b'\t' | b'\n' | b'\r' | b':' => Some((Mode::Between, depth)),
        b'{' | b'[' => opened(depth),
        b'}' | b']' => closed(depth),
        b',' => separated(depth),
        _ => Some((Mode::Word, depth)),
    }
}

// Where a bracket leads that opens.
fn opened(depth: u8) -> Option<(Mode, u8)>
    ensures { (x : ℕ) → result ≡ within (opening_step depth x).0 }
{
    if depth < 128 {
        Some((Mode::Between, depth + 1))
    } else {
        None
    }
}

// Where a bracket leads that closes.
fn closed(depth: u8) -> Option<(Mode, u8)>
    ensures { (b : BracketsData) → (x : ℕ) → result ≡ within (closing_step b depth x).0 }
{
    if depth > 0 {
        Some((Mode::Between, depth - 1))
    } else {
        None
    }
}

// Where a comma leads.
fn separated(depth: u8) -> Option<(Mode, u8)>
    ensures { result ≡ within (comma_step depth).0 }
{
    if depth > 0 {
        Some((Mode::Between, depth))
    } else {
        None
    }
}
