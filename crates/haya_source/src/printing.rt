//! Elements, printed.
ghost use Rattle.std.specs.Prelude.{◌≡◌, IfOk, IfSome, None, map, string_bytes};
ghost use Rattle.haya_source.specs.Printed.{IsTextOf, lines_text};

use crate::kind::ElementKind;
use haya_json_elements::Brackets;
use haya_line_slices::entries_text;
use haya_slices::list_text;
use haya_text::OutOfMemory;
use haya_yaml_slices::joined_members;
use std::alloc::Global;

/// Elements as a text of their kind, each as it is: a list in its brackets, an element a line, or
/// lines. Of no elements it is an empty list or map, or no line. `None`: members in YAML, of which a
/// text says something else than each alone, as their keys are in different columns.
pub fn printed_text(
    alloc: Global,
    kind: ElementKind,
    parts: &[&str],
) -> Result<Option<String>, OutOfMemory>
    ensures text { IfOk result (λ found. IfSome found (λ text.
        IsTextOf kind (map (λ s. s.now) parts.now) (string_bytes text))) }
    ensures none { IfOk result (λ found. found ≡ None → kind ≡ ElementKind.Yaml) }
{
    match kind {
        ElementKind::Items(_) => Ok(Some(list_text(alloc, Brackets::Square, parts)?)),
        ElementKind::Members => Ok(Some(list_text(alloc, Brackets::Curly, parts)?)),
        ElementKind::JsonLines => Ok(Some(lines_text(alloc, parts)?)),
        ElementKind::Lines => Ok(Some(entries_text(alloc, parts)?)),
        ElementKind::Yaml => Ok(joined_members(alloc, parts)?),
    }
}

// A line feed behind each.
fn lines_text(alloc: Global, parts: &[&str]) -> Result<String, OutOfMemory>
    ensures { IfOk result (λ text.
        string_bytes text ≡ lines_text (map (λ s. s.now) parts.now)) }
{
    let mut text = String::new(alloc);
    'parts: for part in parts {
        text.push_str(part)?;
        text.push('\n')?;
    }
    Ok(text)
}
