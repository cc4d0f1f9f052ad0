//! Elements, printed one after another.
ghost use Rattle.std.specs.Prelude.{◌≡◌, ◌++◌, IfOk, OnOk, string_bytes, true};
ghost use Rattle.haya_source_stream.specs.Printed.{last_text, part_text, tail_text};

use crate::asking::Shown;
use crate::kind::StreamedKind;
use haya_json_elements::Brackets;
use haya_line_slices::push_entry;
use haya_slices::{push_element, push_end};
use haya_text::OutOfMemory;
use std::alloc::Global;

/// Puts an element behind a text, the first that is printed or a later one.
pub(crate) fn push_part(
    text: &mut String,
    kind: StreamedKind,
    is_first: bool,
    part: &str,
) -> Result<(), OutOfMemory>
    ensures { OnOk result
        (string_bytes text.new ≡ string_bytes text.old ++ part_text kind is_first part.now) }
{
    match kind {
        StreamedKind::Items(_) => push_element(text, Brackets::Square, is_first, part)?,
        StreamedKind::Members => push_element(text, Brackets::Curly, is_first, part)?,
        StreamedKind::JsonLines => push_line(text, part)?,
        StreamedKind::Lines => push_entry(text, part)?,
    }
    Ok(())
}

// Puts a line behind a text.
fn push_line(text: &mut String, part: &str) -> Result<(), OutOfMemory>
    ensures { OnOk result (string_bytes text.new
        ≡ string_bytes text.old ++ part_text StreamedKind.JsonLines true part.now) }
{
    text.push_str(part)?;
    text.push_str("\n")?;
    Ok(())
}

/// What is printed behind all, where so many hits are asked for.
pub(crate) fn last(
    alloc: Global,
    shown: Shown,
    kind: StreamedKind,
    hits: usize,
) -> Result<String, OutOfMemory>
    ensures { IfOk result (λ text. string_bytes text ≡ last_text shown kind hits) }
{
    match shown {
        Shown::Elements => tail(alloc, kind, hits == 0),
        Shown::Number => Ok(format!(in alloc; "{hits}\n")?),
        Shown::Nothing => Ok(String::new(alloc)),
    }
}

// What is behind elements that are printed, or behind none.
fn tail(alloc: Global, kind: StreamedKind, is_empty: bool) -> Result<String, OutOfMemory>
    ensures { IfOk result (λ text. string_bytes text ≡ tail_text kind is_empty) }
{
    let mut text = String::new(alloc);
    match kind {
        StreamedKind::Items(_) => push_end(&mut text, Brackets::Square, is_empty)?,
        StreamedKind::Members => push_end(&mut text, Brackets::Curly, is_empty)?,
        StreamedKind::JsonLines | StreamedKind::Lines => {}
    }
    Ok(text)
}
