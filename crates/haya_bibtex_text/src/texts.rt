//! Characters in lower case.
ghost use Rattle.std.specs.Prelude.{◌≡◌, IfOk, map, string_bytes};
ghost use Rattle.std.specs.Char.{to_ascii_lowercase};
ghost use Rattle.std.specs.Str.{chars};

use std::alloc::{AllocError, Global};

/// The text of these characters with each ASCII letter in lower case. The error: there was no
/// memory for it.
pub(crate) fn lowercase(alloc: Global, characters: &[char]) -> Result<String, AllocError>
    ensures { IfOk result (λ t.
        chars (string_bytes t) ≡ map to_ascii_lowercase characters.now) }
{
    let mut text = String::with_capacity(alloc, characters.len())?;
    'characters: for c in characters {
        text.push(c.to_ascii_lowercase())?;
    }
    Ok(text)
}
