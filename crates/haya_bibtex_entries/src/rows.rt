//! Rows of the tables of fields: what a text says, and to which entry it goes.
ghost use Rattle.std.specs.Prelude.{◌≡◌, ◌++◌, ◌∷◌, IfOk, OnOk, map, option_map, string_bytes};
ghost use Rattle.haya_text.specs.Chunks.{chunks};
ghost use Rattle.haya_text.specs.Texts.{text_view, without_short};
ghost use Rattle.haya_bibtex_entries.specs.Drafts.{so_far, with_any_row};
ghost use Rattle.haya_bibtex_entries.specs.Rows.{commands, text_row};
ghost use Rattle.haya_bibtex_entries.specs.Values.{text_value, value_view};

use crate::draft::{Draft, Level};
use crate::values::{TextField, Value};
use haya_bibtex_fields::{Reading, read_formatted};
use haya_text::{ChunkedString, FormatString, OutOfMemory};
use std::alloc::Global;

// The name of a command with its backslash.
fn command_name(alloc: Global, name: &str) -> Result<String, OutOfMemory>
    ensures { IfOk result (λ s. string_bytes s ≡ 92 ∷ name.now) }
{
    let mut text = String::from_str(alloc, "\\")?;
    text.push_str(name)?;
    Ok(text)
}

/// The names of commands as they are counted, each with its backslash. The error: there was no
/// memory for them.
#[inline]
pub(crate) fn commands(alloc: Global, unknown: Vec<String>) -> Result<Vec<String>, OutOfMemory>
    ensures { IfOk result (λ v.
        map string_bytes v.items ≡ commands (map string_bytes unknown.items)) }
{
    // Most texts have none.
    if unknown.is_empty() {
        return Ok(unknown);
    }
    command_names(alloc, unknown.as_slice())
}

// The same of commands that are lent.
fn command_names(alloc: Global, unknown: &[String]) -> Result<Vec<String>, OutOfMemory>
    ensures { IfOk result (λ v.
        map string_bytes v.items ≡ commands (map string_bytes unknown.now)) }
{
    let mut names = Vec::new(alloc);
    'unknown: for name in unknown {
        names.push(command_name(alloc, name.as_str())?)?;
    }
    Ok(names)
}

/// Puts names behind others. The error: there was no memory for them.
#[inline]
pub(crate) fn push_names(names: &mut Vec<String>, mut more: Vec<String>) -> Result<(), OutOfMemory>
    ensures { OnOk result (map string_bytes names.new.items
        ≡ map string_bytes names.old.items ++ map string_bytes more.items) }
{
    if !more.is_empty() {
        names.append(&mut more)?;
    }
    Ok(())
}

/// A text without a short form.
pub(crate) fn without_short(value: ChunkedString) -> FormatString
    ensures { text_view result ≡ without_short (chunks value) }
{
    FormatString { value, short: None }
}

/// A text without a short form as the value of a field.
pub(crate) fn text_value(field: TextField, value: Option<ChunkedString>) -> Option<Value>
    ensures { option_map value_view result
        ≡ option_map (λ cs. text_value field (without_short cs)) (option_map chunks value) }
{
    match value {
        Some(value) => Some(Value::Text(field, without_short(value))),
        None => None,
    }
}

/// Puts a text without a short form, if it is there, where it goes. The error: there was no memory
/// for it.
pub(crate) fn add_text(
    alloc: Global,
    draft: &mut Draft,
    key: &str,
    level: Level,
    field: TextField,
    text: Option<&str>,
) -> Result<(), OutOfMemory>
    ensures { OnOk result (so_far draft.new
        ≡ with_any_row key.now (option_map (text_row level field)
        (option_map (λ t. t.now) text.entry)) (so_far draft.old)) }
{
    let Some(text) = text else {
        return Ok(());
    };
    let Reading { value, unknown } = read_formatted(alloc, text)?;
    draft.add_read(alloc, key, level, text_value(field, value), unknown)
}
