//! The line of a hit.
ghost use Rattle.std.specs.Prelude.{◌≡◌, ◌++◌, List, ℕ, OnOk, string_bytes};
ghost use Rattle.haya_hits.specs.Line.{IsEscapedLineOf, IsLineAs, IsLineOf};
ghost use Rattle.haya_hits.specs.Shown.{shown_as};

use crate::names::bindings;
use crate::shown::{Show, push_text};
use haya_text::OutOfMemory;
use hayagriva::Hit;
use std::alloc::Global;

/// Puts the hit's line behind a text: the entry's key, then a tab and `name=key` for each binding,
/// in the order of the bytes of the names, and a line feed. Keys are printed as they are. The only
/// error is out of memory; then a beginning of the line may be there.
pub fn push_line(alloc: Global, text: &mut String, hit: &Hit) -> Result<(), OutOfMemory>
    ensures { OnOk result ((line : List ℕ) × IsLineOf hit.now line
        × (string_bytes text.new ≡ string_bytes text.old ++ line)) }
{
    push_line_as(alloc, text, hit, Show::Raw)
}

/// The same with `\t`, `\n`, `\r` and `\\` in the place of a tab, a line feed, a carriage return
/// and a backslash of a key or a name, so that the hit is one line, as `laws::escaped_lines` says.
pub fn push_escaped_line(alloc: Global, text: &mut String, hit: &Hit) -> Result<(), OutOfMemory>
    ensures { OnOk result ((line : List ℕ) × IsEscapedLineOf hit.now line
        × (string_bytes text.new ≡ string_bytes text.old ++ line)) }
{
    push_line_as(alloc, text, hit, Show::Escaped)
}

// The same as the texts are to be shown.
fn push_line_as(alloc: Global, text: &mut String, hit: &Hit, show: Show) -> Result<(), OutOfMemory>
    ensures { OnOk result ((line : List ℕ) × IsLineAs (shown_as show) hit.now line
        × (string_bytes text.new ≡ string_bytes text.old ++ line)) }
{
    let names = bindings(alloc, hit)?;
    push_text(text, hit.entry.key(), show)?;
    for (name, bound) in names {
        text.push('\t')?;
        push_text(text, name.as_str(), show)?;
        text.push('=')?;
        push_text(text, bound.key(), show)?;
    }
    text.push('\n')?;
    Ok(())
}
