//! Characters as texts.
ghost use Rattle.std.specs.Prelude.{◌≡◌, ◌<◌, ◌++◌, IfOk, OnOk, bit_and, encode_utf8_all, map};
ghost use Rattle.std.specs.Prelude.{string_bytes};
ghost use Rattle.std.specs.Str.{IsAscii, chars};

use std::alloc::{AllocError, Global};

/// Adds characters to a text. The error: there was no memory for them.
pub fn push_chars(text: &mut String, characters: &[char]) -> Result<(), AllocError>
    ensures { OnOk result
        (chars (string_bytes text.new) ≡ chars (string_bytes text.old) ++ characters.now) }
{
    text.reserve(characters.len())?;
    'characters: for c in characters {
        text.push(*c)?;
    }
    Ok(())
}

// From how many characters on a text is made of many at a time.
const MANY: usize = 16;

// The bits that are set in any of the characters: below 128 where all are ASCII.
fn bits_of(characters: &[char]) -> u32
    ensures { result < 128 → IsAscii characters.now }
{
    let mut bits: u32 = 0;
    'characters: for c in characters {
        bits |= *c as u32;
    }
    bits
}

// The lowest seven bits of each of the characters: itself, where it is ASCII.
fn low_bits(alloc: Global, characters: &[char]) -> Result<Vec<u8>, AllocError>
    ensures { IfOk result (λ v. v.items ≡ map (λ c. bit_and c 127) characters.now) }
{
    let mut bytes = Vec::with_capacity(alloc, characters.len())?;
    bytes.extend(characters.iter().map(|c| (*c as u32 & 127) as u8))?;
    Ok(bytes)
}

/// The text of these characters. The error: there was no memory for it.
pub fn string_of(alloc: Global, characters: &[char]) -> Result<String, AllocError>
    ensures chars { IfOk result (λ t. chars (string_bytes t) ≡ characters.now) }
    ensures bytes { IfOk result (λ t. string_bytes t ≡ encode_utf8_all characters.now) }
{
    if characters.len() >= MANY && bits_of(characters) < 128 {
        let bytes = low_bits(alloc, characters)?;
        if let Ok(text) = String::from_utf8(bytes) {
            return Ok(text);
        }
    }
    let mut text = String::with_capacity(alloc, characters.len())?;
    push_chars(&mut text, characters)?;
    Ok(text)
}
