//! Which value no line says.
use crate::error::LinesError;
use crate::lines::{is_said, push_lines};
use haya_entry::Entry;
use haya_text::{OutOfMemory, TryClone};
use std::alloc::Global;

// The names of fields, in the order of a line.
const NAMES: &[&str] = &[
    "title",
    "location",
    "organization",
    "archive",
    "archive-location",
    "call-number",
    "note",
    "abstract",
    "genre",
    "author",
    "editor",
    "affiliated",
    "date",
    "publisher",
    "url",
    "issue",
    "chapter",
    "volume",
    "edition",
    "volume-total",
    "page-total",
    "page-range",
    "time-range",
    "runtime",
    "serial-number",
    "language",
];

/// What is told of an entry that no lines say: the first of it and its ancestors, and of that the
/// first name, whose value no text in a line reads as. Where each can be said by itself, the
/// ancestors are too deep.
pub(crate) fn unsaid(alloc: Global, entry: &Entry) -> Result<LinesError, OutOfMemory> {
    match first_unsaid(alloc, entry)? {
        Some(found) => Ok(found),
        None => Ok(LinesError::NotPrintable(String::from_str(alloc, entry.key())?, "parent")),
    }
}

fn first_unsaid(alloc: Global, entry: &Entry) -> Result<Option<LinesError>, OutOfMemory> {
    if let Some(name) = unsaid_name(alloc, entry)? {
        let key = String::from_str(alloc, entry.key())?;
        return Ok(Some(LinesError::NotPrintable(key, name)));
    }
    for parent in &entry.parents {
        if let Some(found) = first_unsaid(alloc, parent)? {
            return Ok(Some(found));
        }
    }
    Ok(None)
}

// The first name of an entry whose value no line says, or `key`.
fn unsaid_name(alloc: Global, entry: &Entry) -> Result<Option<&'static str>, OutOfMemory> {
    let mut part = Entry::new(alloc, entry.key(), entry.entry_type())?;
    first_name(alloc, entry, &mut part)
}

// The same, where the part is an entry of the same key and type alone. Its fields are set in turn.
fn first_name(
    alloc: Global,
    entry: &Entry,
    part: &mut Entry,
) -> Result<Option<&'static str>, OutOfMemory> {
    if !has_lines(alloc, part)? {
        return Ok(Some("key"));
    }
    for name in NAMES {
        if entry.has(*name) {
            copy_field(alloc, *name, part, entry)?;
            if !has_lines(alloc, part)? {
                return Ok(Some(*name));
            }
        }
    }
    Ok(None)
}

// Whether lines say the entry.
fn has_lines(alloc: Global, entry: &Entry) -> Result<bool, OutOfMemory> {
    let mut lines = String::new(alloc);
    push_lines(alloc, &mut lines, 0, entry)?;
    is_said(alloc, lines.as_str(), entry)
}

// Takes the field of this name over from another entry.
fn copy_field(alloc: Global, name: &str, to: &mut Entry, from: &Entry) -> Result<(), OutOfMemory> {
    match name {
        "title" => copy(alloc, &mut to.title, &from.title),
        "location" => copy(alloc, &mut to.location, &from.location),
        "organization" => copy(alloc, &mut to.organization, &from.organization),
        "archive" => copy(alloc, &mut to.archive, &from.archive),
        "archive-location" => copy(alloc, &mut to.archive_location, &from.archive_location),
        "call-number" => copy(alloc, &mut to.call_number, &from.call_number),
        "note" => copy(alloc, &mut to.note, &from.note),
        "abstract" => copy(alloc, &mut to.abstract_, &from.abstract_),
        "genre" => copy(alloc, &mut to.genre, &from.genre),
        "author" => copy(alloc, &mut to.authors, &from.authors),
        "editor" => copy(alloc, &mut to.editors, &from.editors),
        "affiliated" => copy(alloc, &mut to.affiliated, &from.affiliated),
        _ => copy_other_field(alloc, name, to, from),
    }
}

// The same of the names that aren't texts or people.
fn copy_other_field(
    alloc: Global,
    name: &str,
    to: &mut Entry,
    from: &Entry,
) -> Result<(), OutOfMemory> {
    match name {
        "date" => {
            to.date = from.date;
            Ok(())
        }
        "publisher" => copy(alloc, &mut to.publisher, &from.publisher),
        "url" => copy(alloc, &mut to.url, &from.url),
        "issue" => copy(alloc, &mut to.issue, &from.issue),
        "chapter" => copy(alloc, &mut to.chapter, &from.chapter),
        "volume" => copy(alloc, &mut to.volume, &from.volume),
        "edition" => copy(alloc, &mut to.edition, &from.edition),
        "volume-total" => copy(alloc, &mut to.volume_total, &from.volume_total),
        "page-total" => copy(alloc, &mut to.page_total, &from.page_total),
        "page-range" => copy(alloc, &mut to.page_range, &from.page_range),
        "time-range" => copy(alloc, &mut to.time_range, &from.time_range),
        "runtime" => copy(alloc, &mut to.runtime, &from.runtime),
        "serial-number" => copy(alloc, &mut to.serial_number, &from.serial_number),
        _ => copy(alloc, &mut to.language, &from.language),
    }
}

// Makes a value a copy of another one.
fn copy<T: TryClone + Drop>(alloc: Global, to: &mut T, from: &T) -> Result<(), OutOfMemory> {
    *to = from.try_clone(alloc)?;
    Ok(())
}
