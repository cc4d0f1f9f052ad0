//! Members put together to a text.
ghost use Rattle.std.specs.Prelude.{◌≡◌, ◌++◌, IfOk, IfSome, IsTrue, OnOk, map, string_bytes};
ghost use Rattle.haya_yaml_slices.specs.Joined.{IsJoinedOf, ends_line, joined, line_ended};

use crate::slices::says_parts;
use std::alloc::{AllocError, Global};

/// A text of these members, each as `member_slices` gives it, one behind the other, with a line feed
/// behind one that doesn't end with one; of none `{}` and a line feed. It was read, and says what
/// they say alone, in this order. `None` is meant for members that together aren't so: of maps whose
/// keys are in different columns; no contract says when it is answered.
pub fn joined_members(alloc: Global, parts: &[&str]) -> Result<Option<String>, AllocError>
    ensures { IfOk result (λ found. IfSome found (λ text.
        IsJoinedOf (map (λ s. s.now) parts.now) (string_bytes text))) }
{
    let text = joined(alloc, parts)?;
    if says_parts(alloc, text.as_str(), parts)? {
        return Ok(Some(text));
    }
    Ok(None)
}

// Parts one behind the other.
fn joined(alloc: Global, parts: &[&str]) -> Result<String, AllocError>
    ensures { IfOk result (λ text. string_bytes text ≡ joined (map (λ s. s.now) parts.now)) }
{
    if parts.is_empty() {
        return String::from_str(alloc, "{}\n");
    }
    let mut text = String::new(alloc);
    'parts: for part in parts {
        push_ended(&mut text, part)?;
    }
    Ok(text)
}

// Puts a part behind a text, with a line feed at its end.
fn push_ended(text: &mut String, part: &str) -> Result<(), AllocError>
    ensures { OnOk result (string_bytes text.new ≡ string_bytes text.old ++ line_ended part.now) }
{
    text.push_str(part)?;
    if !ends_line(part.as_bytes()) {
        text.push('\n')?;
    }
    Ok(())
}

// Whether the last byte is a line feed.
fn ends_line(part: &[u8]) -> bool
    ensures { result ≡ ends_line part.now }
{
    match part.last() {
        Some(byte) => *byte == b'\n',
        None => false,
    }
}
