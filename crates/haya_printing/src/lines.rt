//! The lines of an entry and of its ancestors.
ghost use Rattle.std.specs.Prelude.{◌≡◌, ◌⊎◌, [], ◌∷◌, true, false, map, string_bytes};
ghost use Rattle.std.specs.Prelude.{IfOk, IfErr, OnOk};
ghost use Rattle.haya_entry.specs.Tree.{fields, trees, view};
ghost use Rattle.haya_line_library.specs.Input.{Describes};
ghost use Rattle.haya_printing.specs.declared.error.LinesError.TheVariants.{OutOfMemory as memory};
ghost use Rattle.haya_printing.specs.Printed.{all_lines_text, entry_text, field_items};
ghost use Rattle.haya_printing.specs.Printed.{head_text, line_text, lines_text};
ghost use Rattle.haya_printing.specs.Pushed.{Appends, Pushes};

use crate::error::LinesError;
use crate::fields::{push_last, push_numbers, push_people, push_texts};
use crate::unsaid::unsaid;
use haya_entry::Entry;
use haya_line_library::{InputError, read_library};
use haya_text::OutOfMemory;
use hayagriva::{HashKeys, Library};
use std::alloc::Global;

/// The lines of an entry and of its ancestors, as `haya_line_library::read_library` reads them: a line
/// feed ends each. Fails with `NotPrintable` where no library of this one entry is read from them.
pub fn entry_lines(alloc: Global, entry: &Entry) -> Result<String, LinesError>
    ensures text { IfOk result (λ text. string_bytes text ≡ entry_text (view entry.now)) }
    ensures said { IfOk result (λ text. Describes (string_bytes text) (view entry.now ∷ [])) }
    ensures unsaid { IfErr result (λ e. (e ≡ memory)
        ⊎ ¬ Describes (entry_text (view entry.now)) (view entry.now ∷ [])) }
{
    let mut lines = String::new(alloc);
    push_lines(alloc, &mut lines, 0, entry)?;
    if is_said(alloc, lines.as_str(), entry)? {
        Ok(lines)
    } else {
        Err(unsaid(alloc, entry)?)
    }
}

/// Whether the text describes the library of this entry alone.
pub(crate) fn is_said(alloc: Global, text: &str, entry: &Entry) -> Result<bool, OutOfMemory>
    ensures yes { IfOk result (λ b. b ≡ true → Describes text.now (view entry.now ∷ [])) }
    ensures no { IfOk result (λ b. b ≡ false → ¬ Describes text.now (view entry.now ∷ [])) }
{
    haya_line_library::laws::one_library();
    match read_library(alloc, HashKeys::new(0, 0), text) {
        Ok(read) => Ok(is_alone(&read, entry)),
        Err(InputError::OutOfMemory) => Err(OutOfMemory),
        Err(InputError::Line(_, _)) => Ok(false),
    }
}

// Whether the library has this entry and no other.
fn is_alone(library: &Library, entry: &Entry) -> bool
    ensures yes { result ≡ true → library.now ≡ view entry.now ∷ [] }
    ensures no { result ≡ false → ¬ library.now ≡ view entry.now ∷ [] }
{
    haya_entry::laws::entries_equal_by_value();
    match library.nth(0) {
        Some(first) if library.len() == 1 => first == entry,
        _ => false,
    }
}

/// The lines of an entry at a depth and of its ancestors.
#[cycle(lines)]
pub(crate) fn push_lines(
    alloc: Global,
    lines: &mut String,
    depth: usize,
    entry: &Entry,
) -> Result<(), OutOfMemory>
    ensures { OnOk result
        (Appends lines.old lines.new (lines_text depth (view entry.now))) }
{
    push_line(alloc, lines, depth, entry)?;
    match depth.checked_add(1) {
        Some(deeper) => push_parents(alloc, lines, deeper, entry.parents.as_slice()),
        // No memory holds so many ancestors.
        None => Err(OutOfMemory),
    }
}

// The lines of parents at a depth and of their ancestors.
#[cycle(lines)]
fn push_parents(
    alloc: Global,
    lines: &mut String,
    depth: usize,
    parents: &[Entry],
) -> Result<(), OutOfMemory>
    ensures { OnOk result (Appends lines.old lines.new
        (all_lines_text depth (trees (map view parents.now)))) }
{
    'parents: for parent in parents {
        push_lines(alloc, lines, depth, parent)?;
    }
    Ok(())
}

// The line of an entry at a depth.
fn push_line(
    alloc: Global,
    lines: &mut String,
    depth: usize,
    entry: &Entry,
) -> Result<(), OutOfMemory>
    ensures { OnOk result
        (Appends lines.old lines.new (line_text depth (fields (view entry.now)))) }
{
    push_items(alloc, lines, depth, entry)?;
    lines.push('\n')?;
    Ok(())
}

// The same without the line feed.
fn push_items(
    alloc: Global,
    lines: &mut String,
    depth: usize,
    entry: &Entry,
) -> Result<(), OutOfMemory>
    ensures { OnOk result (Pushes lines.old lines.new (λ rest.
        head_text depth (fields (view entry.now)) (field_items (fields (view entry.now)) rest))) }
{
    push_head(lines, depth, entry)?;
    push_texts(alloc, lines, entry)?;
    push_people(alloc, lines, entry)?;
    push_numbers(alloc, lines, entry)?;
    push_last(lines, entry)
}

// What comes before the fields: the depth, the key and the type.
fn push_head(lines: &mut String, depth: usize, entry: &Entry) -> Result<(), OutOfMemory>
    ensures { OnOk result (Pushes lines.old lines.new (head_text depth (fields (view entry.now)))) }
{
    write!(lines, "{depth}\t")?;
    lines.push_str(entry.key())?;
    lines.push('\t')?;
    lines.push_str(entry.entry_type().lower_name())?;
    Ok(())
}
