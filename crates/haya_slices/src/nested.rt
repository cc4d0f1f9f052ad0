//! Where the brackets of an element close.
ghost use Rattle.std.specs.Prelude.{◌≡◌, ◌⊎◌, ◌-◌, ◌++◌, ◌≤◌, ◌<◌, ℕ, List, IfSome, IsTrue};
ghost use Rattle.std.specs.Prelude.{Some, length, slice_index, take};
ghost use Rattle.haya_json_elements.specs.Steps.{step};
ghost use Rattle.haya_json_elements.specs.declared.place.Brackets.{Brackets as BracketsData};
ghost use Rattle.haya_json_elements.specs.declared.place.Mode.TheVariants.{Between, Text, Word};
ghost use Rattle.haya_json_elements.specs.declared.place.Place.TheVariants.{Element};
ghost use Rattle.haya_slices.specs.Layout.{inside, within};

use crate::element::passed_word;
use crate::signs::{Signs, Sought};
use haya_json_elements::Mode;

/// How many bytes are behind a bracket that opens, up to the one that closes it, with that. `None`
/// where none does.
pub(crate) fn nested_len(bytes: &[u8]) -> Option<usize>
    ensures within { IfSome result (λ n. n ≤ length bytes.now) }
    ensures closed { IfSome result (λ n. (b : BracketsData) → (ys : List ℕ) →
        inside b Between 1 (take n bytes.now ++ ys) ≡ inside b Between 0 ys) }
{
    let mut depth = 1u8;
    let mut signs = Signs::new();
    'turns: loop {
        let len = signs.first(bytes, Sought::Turn)?;
        let sign = bytes[signs.start - 1];
        if sign == b'"' {
            if len > 0 && !may_quote(depth, bytes[signs.start - 2]) {
                return None;
            }
            signs.pass_string(bytes)?;
            continue;
        }
        let Some((Mode::Between, deep)) = passed_word(depth, sign) else {
            return None;
        };
        if deep == 0 {
            return Some(signs.start);
        }
        depth = deep;
    }
}

// Whether a string may begin behind this byte, which is no quote and no bracket: it is part of no
// word.
fn may_quote(depth: u8, byte: u8) -> bool
    ensures { IsTrue result → (d : ℕ) × ((b : BracketsData) →
        within (step b (Element Word depth) byte).0 ≡ Some (Between, d)) }
{
    matches!(passed_word(depth, byte), Some((Mode::Between, _)))
}

/// How many bytes a string has behind its quote, with the quote that closes it.
pub(crate) fn string_len(bytes: &[u8]) -> Option<usize>
    ensures within { IfSome result (λ n. n ≤ length bytes.now) }
    ensures closed { IfSome result (λ n. (b : BracketsData) → (d : ℕ) → (ys : List ℕ) →
        inside b Text d (take n bytes.now ++ ys) ≡ inside b Between d ys) }
{
    let mut signs = Signs::new();
    signs.pass_string(bytes)?;
    Some(signs.start)
}
