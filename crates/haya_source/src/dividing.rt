//! The elements of a text.
ghost use Rattle.std.specs.Prelude.{◌≡◌, ◌∷◌, ◌++◌, [], IfOk, IfSome, OnOk, map};
ghost use Rattle.std.specs.Str.Lines.{lines};
ghost use Rattle.haya_json_elements.specs.Elements.{nonempty_lines};
ghost use Rattle.haya_source.specs.Elements.{IsDivided};

use crate::kind::ElementKind;
use haya_json_elements::Brackets;
use haya_line_slices::entry_slices;
use haya_slices::element_slices;
use haya_text::OutOfMemory;
use haya_yaml_slices::member_slices;
use std::alloc::Global;

/// The elements of a text, in order, each as it is in the text, byte for byte. `None` where the
/// text has none of this kind: it isn't a list in the brackets that it has to be, or its members
/// can't be told apart.
pub fn elements<'t>(
    alloc: Global,
    kind: ElementKind,
    text: &'t str,
) -> Result<Option<Vec<&'t str>>, OutOfMemory>
    ensures { IfOk result (λ found. IfSome found (λ parts.
        IsDivided kind text.now (map (λ s. s.now) parts.items))) }
{
    match kind {
        ElementKind::Items(_) => Ok(element_slices(alloc, Brackets::Square, text)?),
        ElementKind::Members => Ok(element_slices(alloc, Brackets::Curly, text)?),
        ElementKind::JsonLines => Ok(Some(filled_lines(alloc, text)?)),
        ElementKind::Lines => Ok(Some(entry_slices(alloc, text)?)),
        ElementKind::Yaml => Ok(member_slices(alloc, text)?),
    }
}

// The lines of a text that aren't empty.
fn filled_lines<'t>(alloc: Global, text: &'t str) -> Result<Vec<&'t str>, OutOfMemory>
    ensures { IfOk result (λ parts.
        map (λ s. s.now) parts.items ≡ nonempty_lines (lines text.now)) }
{
    let mut parts = Vec::new(alloc);
    'lines: for line in text.lines() {
        push_filled(&mut parts, line)?;
    }
    Ok(parts)
}

// Puts a line behind the others, where it isn't empty.
fn push_filled<'t>(parts: &mut Vec<&'t str>, line: &'t str) -> Result<(), OutOfMemory>
    ensures { OnOk result (map (λ s. s.now) parts.new.items
        ≡ map (λ s. s.now) parts.old.items ++ nonempty_lines (line.now ∷ [])) }
{
    if line.is_empty() {
        return Ok(());
    }
    parts.push(line)?;
    Ok(())
}
