//! The table of serial numbers and archives.
ghost use Rattle.std.specs.Prelude.{◌≡◌, ◌++◌, IfOk, OnOk, option_and_then, option_map};
ghost use Rattle.std.specs.Prelude.{map, string_bytes};
ghost use Rattle.haya_bibtex_fields.specs.Serials.{eprint_view, serial_in, serial_view};
ghost use Rattle.haya_bibtex_inherited.specs.Views.{fields_view};
ghost use Rattle.haya_bibtex_entries.specs.Drafts.{so_far, with_any_row, with_row, with_rows};
ghost use Rattle.haya_bibtex_entries.specs.Rows.{commands};
ghost use Rattle.haya_bibtex_entries.specs.Serials.{archive_passed, archive_passed_by, archive_text};
ghost use Rattle.haya_bibtex_entries.specs.Serials.{doi_row, eid_text, eprint_by};
ghost use Rattle.haya_bibtex_entries.specs.Serials.{eprint_of, eprint_passed, eprint_row};
ghost use Rattle.haya_bibtex_entries.specs.Serials.{eprint_value, has_address, is_other};
ghost use Rattle.haya_bibtex_entries.specs.Serials.{kept_number, kept_row, numbered};
ghost use Rattle.haya_bibtex_entries.specs.Serials.{archive_rows, plain_rows, plain_serial_row, serial_row};
ghost use Rattle.haya_bibtex_entries.specs.Serials.{serial_text};
ghost use Rattle.haya_bibtex_entries.specs.Values.{serial_value, value_view};

use crate::draft::{Draft, Level};
use crate::kinds::{Kind, NumberRule};
use crate::numbers::number_text;
use crate::publishers::published_at;
use crate::rows::{commands, without_short};
use crate::texts::{Fields, has_field, text_of};
use crate::values::{SerialField, TextField, Value};
use haya_bibtex_fields::{Eprint, Reading, Serial, read_doi, read_eprint, read_plain, read_serial};
use haya_text::{ChunkedString, OutOfMemory};
use std::alloc::Global;

// A serial number as a value.
fn serial_value(field: SerialField, number: Option<String>) -> Option<Value>
    ensures { option_map value_view result
        ≡ option_map (λ n. serial_value field n) (option_map string_bytes number) }
{
    match number {
        Some(number) => Some(Value::Serial(field, number)),
        None => None,
    }
}

fn add_plain_serial(
    alloc: Global,
    draft: &mut Draft,
    key: &str,
    level: Level,
    field: SerialField,
    text: Option<&str>,
) -> Result<(), OutOfMemory>
    ensures { OnOk result (so_far draft.new
        ≡ with_any_row key.now (option_map (plain_serial_row level field)
        (option_map (λ s. s.now) text.entry)) (so_far draft.old)) }
{
    let Some(text) = text else {
        return Ok(());
    };
    let Reading { value, unknown } = read_plain(alloc, text)?;
    draft.add_read(alloc, key, level, serial_value(field, value), unknown)
}

fn add_doi(
    alloc: Global,
    draft: &mut Draft,
    key: &str,
    text: Option<&str>,
) -> Result<(), OutOfMemory>
    ensures { OnOk result (so_far draft.new
        ≡ with_any_row key.now (option_map doi_row (option_map (λ s. s.now) text.entry))
        (so_far draft.old)) }
{
    let Some(text) = text else {
        return Ok(());
    };
    let number = serial_value(SerialField::Doi, read_doi(alloc, text)?);
    draft.add(alloc, key, Level::Own, number, Vec::new(alloc))
}

// ---- `number` as a serial number, and `eid` where that sets none

fn serial_text<'a>(rule: NumberRule, fields: &Fields<'a>) -> Option<&'a str>
    ensures { option_map (λ s. s.now) result ≡ serial_text rule (fields_view fields.now) }
{
    match rule {
        NumberRule::Serial => number_text(fields),
        _ => None,
    }
}

// A number of arXiv, or any other, as a value.
fn numbered(number: Option<Serial>) -> Option<Value>
    ensures { option_map value_view result ≡ option_map numbered (option_map serial_view number) }
{
    match number {
        Some(Serial::Arxiv(number)) => Some(Value::Serial(SerialField::Arxiv, number)),
        Some(Serial::Other(number)) => Some(Value::Serial(SerialField::Other, number)),
        None => None,
    }
}

fn add_serial(
    alloc: Global,
    draft: &mut Draft,
    key: &str,
    text: Option<&str>,
) -> Result<(), OutOfMemory>
    ensures { OnOk result (so_far draft.new
        ≡ with_any_row key.now (option_map serial_row (option_map (λ s. s.now) text.entry))
        (so_far draft.old)) }
{
    let Some(text) = text else {
        return Ok(());
    };
    let Reading { value, unknown } = read_serial(alloc, text)?;
    draft.add_read(alloc, key, Level::Own, numbered(value), unknown)
}

// Whether a text is a serial number that isn't one of arXiv.
fn is_other(alloc: Global, text: Option<&str>) -> Result<bool, OutOfMemory>
    ensures { IfOk result (λ b. b
        ≡ is_other (option_and_then serial_in (option_map (λ s. s.now) text.entry))) }
{
    let Some(text) = text else {
        return Ok(false);
    };
    let read = read_serial(alloc, text)?;
    Ok(matches!(&read.value, Some(Serial::Other(_))))
}

fn eid_text<'a>(
    alloc: Global,
    rule: NumberRule,
    fields: &Fields<'a>,
) -> Result<Option<&'a str>, OutOfMemory>
    ensures { IfOk result (λ t.
        option_map (λ s. s.now) t ≡ eid_text rule (fields_view fields.now)) }
{
    if is_other(alloc, serial_text(rule, fields))? {
        return Ok(None);
    }
    Ok(text_of(fields, "eid"))
}

// ---- the number of an archive

fn archive_text<'a>(fields: &Fields<'a>) -> Option<&'a str>
    ensures { option_map (λ s. s.now) result ≡ archive_text (fields_view fields.now) }
{
    text_of(fields, "eprinttype").or(text_of(fields, "archiveprefix"))
}

// What `eprint` says, and the commands in the name of its archive that aren't known.
fn read_archive(alloc: Global, fields: &Fields<'_>) -> Result<Reading<Eprint>, OutOfMemory>
    ensures value { IfOk result (λ r. option_map eprint_view r.value
        ≡ eprint_of (fields_view fields.now)) }
    ensures unknown { IfOk result (λ r. commands (map string_bytes r.unknown.items)
        ≡ archive_passed (fields_view fields.now)) }
{
    read_number_in(alloc, text_of(fields, "eprint"), archive_text(fields))
}

// The same by the texts of the number and of its archive.
fn read_number_in(
    alloc: Global,
    number: Option<&str>,
    archive: Option<&str>,
) -> Result<Reading<Eprint>, OutOfMemory>
    ensures value { IfOk result (λ r. option_map eprint_view r.value
        ≡ eprint_by (option_map (λ s. s.now) number.entry)
        (option_map (λ s. s.now) archive.entry)) }
    ensures unknown { IfOk result (λ r. commands (map string_bytes r.unknown.items)
        ≡ archive_passed_by (option_map (λ s. s.now) number.entry)
        (option_map (λ s. s.now) archive.entry)) }
{
    match number {
        Some(number) => read_eprint(alloc, number, archive),
        None => Ok(Reading {
            value: None,
            unknown: Vec::new(alloc),
        }),
    }
}

/// What `eprint` says. The error: there was no memory for it.
pub(crate) fn eprint_of(alloc: Global, fields: &Fields<'_>) -> Result<Option<Eprint>, OutOfMemory>
    ensures { IfOk result (λ e.
        option_map eprint_view e ≡ eprint_of (fields_view fields.now)) }
{
    let Reading { value, unknown } = read_archive(alloc, fields)?;
    drop(unknown);
    Ok(value)
}

// Whether the entry has an address without `eprint`.
fn has_address(alloc: Global, fields: &Fields<'_>) -> Result<bool, OutOfMemory>
    ensures { IfOk result (λ b. b ≡ has_address (fields_view fields.now)) }
{
    if has_field(fields, "url") {
        return Ok(true);
    }
    Ok(published_at(alloc, fields)?.is_some())
}

// The name of the field, where it is passed over.
fn push_passed(
    alloc: Global,
    passed_over: &mut Vec<String>,
    has_address: bool,
    eprint: &Option<Eprint>,
) -> Result<(), OutOfMemory>
    ensures { OnOk result (map string_bytes passed_over.new.items
        ≡ map string_bytes passed_over.old.items
        ++ eprint_passed has_address (option_map eprint_view eprint.now)) }
{
    let is_passed = match eprint {
        Some(Eprint::Address(_)) => has_address,
        Some(Eprint::Unread) => true,
        _ => false,
    };
    if is_passed {
        passed_over.push(String::from_str(alloc, "eprint")?)?;
    }
    Ok(())
}

// Its value but for an address.
fn eprint_value(eprint: Option<Eprint>) -> Option<Value>
    ensures { option_map value_view result ≡ eprint_value (option_map eprint_view eprint) }
{
    match eprint {
        Some(Eprint::Arxiv(number)) => Some(Value::Serial(SerialField::Arxiv, number)),
        Some(Eprint::Pmid(number)) => Some(Value::Serial(SerialField::Pmid, number)),
        Some(Eprint::Pmcid(number)) => Some(Value::Serial(SerialField::Pmcid, number)),
        Some(Eprint::Kept(archive, _)) => {
            Some(Value::Text(TextField::Archive, without_short(archive)))
        }
        _ => None,
    }
}

fn add_eprint(
    alloc: Global,
    draft: &mut Draft,
    key: &str,
    fields: &Fields<'_>,
) -> Result<(), OutOfMemory>
    ensures { OnOk result (so_far draft.new
        ≡ with_row key.now (eprint_row (fields_view fields.now)) (so_far draft.old)) }
{
    if text_of(fields, "eprint").is_none() {
        return Ok(());
    }
    let Reading { value, unknown } = read_archive(alloc, fields)?;
    let mut passed_over = commands(alloc, unknown)?;
    let has = has_address(alloc, fields)?;
    push_passed(alloc, &mut passed_over, has, &value)?;
    draft.add(alloc, key, Level::Own, eprint_value(value), passed_over)
}

// The number in another archive as a value.
fn kept_number(alloc: Global, eprint: Option<Eprint>) -> Result<Option<Value>, OutOfMemory>
    ensures { IfOk result (λ v.
        option_map value_view v ≡ kept_number (option_map eprint_view eprint)) }
{
    match eprint {
        Some(Eprint::Kept(archive, number)) => {
            drop(archive);
            let text = ChunkedString::from_string(alloc, number)?;
            Ok(Some(Value::Text(TextField::CallNumber, without_short(text))))
        }
        _ => Ok(None),
    }
}

fn add_kept(
    alloc: Global,
    draft: &mut Draft,
    key: &str,
    fields: &Fields<'_>,
) -> Result<(), OutOfMemory>
    ensures { OnOk result (so_far draft.new
        ≡ with_row key.now (kept_row (fields_view fields.now)) (so_far draft.old)) }
{
    if text_of(fields, "eprint").is_none() {
        return Ok(());
    }
    let eprint = eprint_of(alloc, fields)?;
    let number = kept_number(alloc, eprint)?;
    draft.add(alloc, key, Level::Own, number, Vec::new(alloc))
}

// Puts the numbers of `number`, `eid` and `eprint` where they go.
fn add_archive(
    alloc: Global,
    draft: &mut Draft,
    key: &str,
    kind: Kind,
    fields: &Fields<'_>,
) -> Result<(), OutOfMemory>
    ensures { OnOk result (so_far draft.new
        ≡ with_rows key.now (archive_rows kind (fields_view fields.now)) (so_far draft.old)) }
{
    add_serial(alloc, draft, key, serial_text(kind.number, fields))?;
    let text = eid_text(alloc, kind.number, fields)?;
    add_plain_serial(alloc, draft, key, Level::Own, SerialField::Other, text)?;
    add_eprint(alloc, draft, key, fields)?;
    add_kept(alloc, draft, key, fields)
}

// Puts the other serial numbers where they go.
fn add_plain(
    alloc: Global,
    draft: &mut Draft,
    key: &str,
    kind: Kind,
    fields: &Fields<'_>,
) -> Result<(), OutOfMemory>
    ensures { OnOk result (so_far draft.new
        ≡ with_rows key.now (plain_rows kind (fields_view fields.now)) (so_far draft.old)) }
{
    add_doi(alloc, draft, key, text_of(fields, "doi"))?;
    let text = text_of(fields, "isbn");
    add_plain_serial(
        alloc,
        draft,
        key,
        kind.isbn_level(),
        SerialField::Isbn,
        text,
    )?;
    let text = text_of(fields, "issn");
    add_plain_serial(
        alloc,
        draft,
        key,
        kind.issn_level(),
        SerialField::Issn,
        text,
    )?;
    let text = text_of(fields, "pmid");
    add_plain_serial(alloc, draft, key, Level::Own, SerialField::Pmid, text)?;
    let text = text_of(fields, "pmcid");
    add_plain_serial(alloc, draft, key, Level::Own, SerialField::Pmcid, text)
}

/// Puts serial numbers and archives where they go. The error: there was no memory for them.
pub(crate) fn add_serials(
    alloc: Global,
    draft: &mut Draft,
    key: &str,
    kind: Kind,
    fields: &Fields<'_>,
) -> Result<(), OutOfMemory>
    ensures { OnOk result (so_far draft.new
        ≡ with_rows key.now (plain_rows kind (fields_view fields.now))
        (with_rows key.now (archive_rows kind (fields_view fields.now)) (so_far draft.old))) }
{
    add_archive(alloc, draft, key, kind, fields)?;
    add_plain(alloc, draft, key, kind, fields)
}
