//! The table of notes, genres, call numbers and languages.
ghost use Rattle.std.specs.Prelude.{◌≡◌, ◌++◌, IfOk, OnOk, option_map, map, string_bytes};
ghost use Rattle.std.specs.Prelude.{is_some, option_and_then};
ghost use Rattle.haya_bibtex_fields.specs.FieldTexts.{unknown_of};
ghost use Rattle.haya_bibtex_fields.specs.Languages.{language_in, variant_in};
ghost use Rattle.haya_bibtex_inherited.specs.Views.{fields_view};
ghost use Rattle.haya_bibtex_entries.specs.Drafts.{so_far, with_any_row, with_row, with_rows};
ghost use Rattle.haya_bibtex_entries.specs.Sources.{annotation_text, genre_row, genre_text};
ghost use Rattle.haya_bibtex_entries.specs.Sources.{implied_genre, joined_note_row, language_row};
ghost use Rattle.haya_bibtex_entries.specs.Sources.{language_by, language_text, note_row};
ghost use Rattle.haya_bibtex_entries.specs.Sources.{options_passed, source_rows};
ghost use Rattle.haya_bibtex_entries.specs.Values.{language_value, value_view};

use crate::draft::{Draft, Level};
use crate::rows::{add_text, commands, push_names, text_value};
use crate::texts::{Fields, text_of};
use crate::values::{TextField, Value};
use haya_bibtex_fields::{Reading, read_genre, read_language, read_note, read_variant};
use haya_text::OutOfMemory;
use std::alloc::Global;

fn annotation_text<'a>(fields: &Fields<'a>) -> Option<&'a str>
    ensures { option_map (λ s. s.now) result ≡ annotation_text (fields_view fields.now) }
{
    text_of(fields, "annotation").or(text_of(fields, "annote"))
}

// Puts a note with its addendum.
fn add_joined_note(
    alloc: Global,
    draft: &mut Draft,
    key: &str,
    note: Option<&str>,
    addendum: Option<&str>,
) -> Result<(), OutOfMemory>
    ensures { OnOk result (so_far draft.new
        ≡ with_row key.now (joined_note_row (option_map (λ s. s.now) note.entry)
        (option_map (λ s. s.now) addendum.entry)) (so_far draft.old)) }
{
    let Reading { value, unknown } = read_note(alloc, note, addendum)?;
    let value = text_value(TextField::Note, value);
    draft.add_read(alloc, key, Level::Own, value, unknown)
}

fn add_note(
    alloc: Global,
    draft: &mut Draft,
    key: &str,
    fields: &Fields<'_>,
) -> Result<(), OutOfMemory>
    ensures { OnOk result (so_far draft.new
        ≡ with_any_row key.now (note_row (fields_view fields.now)) (so_far draft.old)) }
{
    match (text_of(fields, "note"), text_of(fields, "addendum")) {
        (None, None) => {
            let text = annotation_text(fields);
            add_text(alloc, draft, key, Level::Own, TextField::Note, text)
        }
        (note, addendum) => add_joined_note(alloc, draft, key, note, addendum),
    }
}

// The genre of a type of entries that is one.
fn implied_genre<'a>(kind: &'a str) -> Option<&'a str>
    ensures { option_map (λ s. s.now) result ≡ implied_genre kind.now }
{
    match kind {
        "phdthesis" | "mastersthesis" => Some(kind),
        _ => None,
    }
}

fn genre_text<'a>(kind: &'a str, fields: &Fields<'a>) -> Option<&'a str>
    ensures { option_map (λ s. s.now) result ≡ genre_text kind.now (fields_view fields.now) }
{
    text_of(fields, "type").or(implied_genre(kind))
}

fn add_genre(
    alloc: Global,
    draft: &mut Draft,
    key: &str,
    text: Option<&str>,
) -> Result<(), OutOfMemory>
    ensures { OnOk result (so_far draft.new
        ≡ with_any_row key.now (option_map genre_row (option_map (λ s. s.now) text.entry))
        (so_far draft.old)) }
{
    let Some(text) = text else {
        return Ok(());
    };
    let Reading { value, unknown } = read_genre(alloc, text)?;
    let value = text_value(TextField::Genre, value);
    draft.add_read(alloc, key, Level::Own, value, unknown)
}

fn language_text<'a>(fields: &Fields<'a>) -> Option<&'a str>
    ensures { option_map (λ s. s.now) result ≡ language_text (fields_view fields.now) }
{
    text_of(fields, "langid").or(text_of(fields, "hyphenation").or(text_of(fields, "language")))
}

// What a language says, if it is there.
fn read_language_if(alloc: Global, text: Option<&str>) -> Result<Reading<String>, OutOfMemory>
    ensures value { IfOk result (λ r. option_map string_bytes r.value
        ≡ option_and_then language_in (option_map (λ t. t.now) text.entry)) }
    ensures unknown { IfOk result (λ r. map string_bytes r.unknown.items
        ≡ unknown_of (option_map (λ t. t.now) text.entry)) }
{
    match text {
        Some(text) => read_language(alloc, text),
        None => Ok(Reading {
            value: None,
            unknown: Vec::new(alloc),
        }),
    }
}

// What options of a language say, if they are there.
fn read_variant_if(alloc: Global, text: Option<&str>) -> Result<Reading<String>, OutOfMemory>
    ensures value { IfOk result (λ r. option_map string_bytes r.value
        ≡ option_and_then variant_in (option_map (λ t. t.now) text.entry)) }
    ensures unknown { IfOk result (λ r. map string_bytes r.unknown.items
        ≡ unknown_of (option_map (λ t. t.now) text.entry)) }
{
    match text {
        Some(text) => read_variant(alloc, text),
        None => Ok(Reading {
            value: None,
            unknown: Vec::new(alloc),
        }),
    }
}

// A language as a value.
fn language_value(language: Option<String>) -> Option<Value>
    ensures { option_map value_view result
        ≡ option_map (λ t. language_value t) (option_map string_bytes language) }
{
    match language {
        Some(language) => Some(Value::Language(language)),
        None => None,
    }
}

// Puts the name of options behind others, where they say no variant.
fn push_options(
    alloc: Global,
    names: &mut Vec<String>,
    options: Option<&str>,
    has_variant: bool,
) -> Result<(), OutOfMemory>
    ensures { OnOk result (has_variant
        ≡ is_some (option_and_then variant_in (option_map (λ s. s.now) options.entry)) →
        map string_bytes names.new.items ≡ map string_bytes names.old.items
        ++ options_passed (option_map (λ s. s.now) options.entry)) }
{
    if options.is_some() && !has_variant {
        names.push(String::from_str(alloc, "langidopts")?)?;
    }
    Ok(())
}

fn add_language_by(
    alloc: Global,
    draft: &mut Draft,
    key: &str,
    text: Option<&str>,
    options: Option<&str>,
) -> Result<(), OutOfMemory>
    ensures { OnOk result (so_far draft.new
        ≡ with_row key.now (language_by (option_map (λ s. s.now) text.entry)
        (option_map (λ s. s.now) options.entry)) (so_far draft.old)) }
{
    let Reading {
        value: language,
        mut unknown,
    } = read_language_if(alloc, text)?;
    let Reading {
        value: variant,
        unknown: more,
    } = read_variant_if(alloc, options)?;
    push_names(&mut unknown, more)?;
    let mut passed_over = commands(alloc, unknown)?;
    push_options(alloc, &mut passed_over, options, variant.is_some())?;
    let value = language_value(variant.or(language));
    draft.add(alloc, key, Level::Own, value, passed_over)
}

fn add_language(
    alloc: Global,
    draft: &mut Draft,
    key: &str,
    fields: &Fields<'_>,
) -> Result<(), OutOfMemory>
    ensures { OnOk result (so_far draft.new
        ≡ with_row key.now (language_row (fields_view fields.now)) (so_far draft.old)) }
{
    let text = language_text(fields);
    add_language_by(alloc, draft, key, text, text_of(fields, "langidopts"))
}

/// Puts notes, genres, call numbers and languages where they go, of an entry of this type. The
/// error: there was no memory for them.
pub(crate) fn add_sources(
    alloc: Global,
    draft: &mut Draft,
    key: &str,
    kind: &str,
    fields: &Fields<'_>,
) -> Result<(), OutOfMemory>
    ensures { OnOk result (so_far draft.new
        ≡ with_rows key.now (source_rows kind.now (fields_view fields.now)) (so_far draft.old)) }
{
    add_note(alloc, draft, key, fields)?;
    let text = text_of(fields, "abstract");
    add_text(alloc, draft, key, Level::Own, TextField::Abstract, text)?;
    add_genre(alloc, draft, key, genre_text(kind, fields))?;
    let text = text_of(fields, "library");
    add_text(alloc, draft, key, Level::Own, TextField::CallNumber, text)?;
    add_language(alloc, draft, key, fields)
}
