//! Items, put together to a text.
ghost use Rattle.std.specs.Prelude.{◌≡◌, ◌++◌, ◌∷◌, IfOk, OnOk, flat_map, map, string_bytes};
ghost use Rattle.haya_bibtex_slices.specs.Texts.{ended, items_text};

use haya_text::OutOfMemory;
use std::alloc::Global;

/// Parts one behind the other, with an empty line between two.
pub(crate) fn joined(alloc: Global, parts: &[&str]) -> Result<String, OutOfMemory>
    ensures { IfOk result (λ text. string_bytes text ≡ items_text (map (λ s. s.now) parts.now)) }
{
    let Some((first, others)) = parts.split_first() else {
        return Ok(String::new(alloc));
    };
    let mut text = String::from_str(alloc, first)?;
    text.push('\n')?;
    push_others(&mut text, others)?;
    Ok(text)
}

// Puts parts behind a text, with an empty line in front of each.
fn push_others(text: &mut String, others: &[&str]) -> Result<(), OutOfMemory>
    ensures { OnOk result (string_bytes text.new ≡ string_bytes text.old
        ++ flat_map (λ q. 10 ∷ ended q) (map (λ s. s.now) others.now)) }
{
    'others: for part in others {
        push_other(text, part)?;
    }
    Ok(())
}

// Puts a part behind a text, and an empty line in front of it.
fn push_other(text: &mut String, part: &str) -> Result<(), OutOfMemory>
    ensures { OnOk result (string_bytes text.new ≡ string_bytes text.old ++ 10 ∷ ended part.now) }
{
    text.push('\n')?;
    text.push_str(part)?;
    text.push('\n')?;
    Ok(())
}
