//! Entries and libraries written as JSON.
ghost use Rattle.std.specs.Prelude.{◌≡◌, ◌∷◌, ◌++◌, [], IfErr, IfOk, IsSome, OnOk, option_map};
ghost use Rattle.haya_entry.specs.Tree.{view};
ghost use Rattle.haya_json.specs.Writing.{KeepsBefore, WritesValue};
ghost use Rattle.hayagriva_c.specs.Writing.{JsonGives, Puts, WriteGives, line_json, line_text};
ghost use Rattle.hayagriva_c.specs.Writing.{lines_text, text_in};

use crate::codes;
use crate::content::Shelf;
use crate::fault::Written;
use crate::reading::Format;
use crate::room::fill;
use haya_entry::Entry;
use haya_json::{to_json, write_entry};
use haya_text::OutOfMemory;
use json::Writer;
use std::alloc::Global;

/// An entry as a line of JSON, without its line feed.
pub fn write_line(entry: Option<(&Entry, Global)>, room: &mut [u8], len: &mut usize) -> u32
    ensures { JsonGives (option_map (λ e. view e.0.now) entry.entry)
        result len.new room.old room.new }
{
    *len = 0;
    let Some((entry, alloc)) = entry else {
        return codes::NO_ENTRY;
    };
    match line_of(alloc, entry) {
        Ok(line) => {
            *len = fill(line.as_slice(), room);
            codes::OK
        }
        Err(_) => codes::OUT_OF_MEMORY,
    }
}

/// A library as a text in the format with this number.
pub fn write_library(shelf: Option<&Shelf>, format: u32, written: &mut Written) -> u32
    ensures { WriteGives (option_map (λ s. s.now.library) shelf.entry) format
        result written.old written.new }
{
    let Some(shelf) = shelf else {
        return codes::WRONG_KIND;
    };
    let Some(format) = Format::of_number(format) else {
        return codes::NO_FORMAT;
    };
    match text_in(shelf, format) {
        Ok(Some(bytes)) => put(shelf.alloc, bytes, written),
        Ok(None) => codes::NO_FORMAT,
        Err(_) => codes::OUT_OF_MEMORY,
    }
}

// The text of a library in a format, if there is one.
fn text_in(shelf: &Shelf, format: Format) -> Result<Option<Vec<u8>>, OutOfMemory>
    ensures text { IfOk result (λ bytes.
        option_map (λ b. b.items) bytes ≡ text_in shelf.now.library format) }
    ensures memory { IfErr result (λ _. IsSome (text_in shelf.now.library format)) }
{
    match format {
        Format::Json => Ok(Some(to_json(shelf.alloc, &shelf.library)?)),
        Format::JsonLines => Ok(Some(lines_of(shelf)?)),
        Format::Lines | Format::Csl | Format::Yaml | Format::Bibtex => Ok(None),
    }
}

// Gives the bytes.
fn put(alloc: Global, bytes: Vec<u8>, written: &mut Written) -> u32
    ensures { Puts bytes.items result written.old written.new }
{
    match Written::of(alloc, bytes) {
        Some(made) => {
            *written = made;
            codes::OK
        }
        None => codes::OUT_OF_MEMORY,
    }
}

// The entries of a library as lines of JSON.
fn lines_of(shelf: &Shelf) -> Result<Vec<u8>, OutOfMemory>
    ensures { IfOk result (λ bytes. bytes.items ≡ lines_text shelf.now.library) }
{
    let mut lines = Vec::new(shelf.alloc);
    'entries: for entry in shelf.library.iter() {
        push_line(shelf.alloc, &mut lines, entry)?;
    }
    Ok(lines)
}

// Puts the line of an entry behind others.
fn push_line(alloc: Global, lines: &mut Vec<u8>, entry: &Entry) -> Result<(), OutOfMemory>
    ensures { OnOk result (lines.new.items
        ≡ lines.old.items ++ (line_text (view entry.now) ++ 10 ∷ [])) }
{
    let line = line_of(alloc, entry)?;
    lines.extend_from_slice(line.as_slice())?;
    lines.push(b'\n')?;
    Ok(())
}

// The line of an entry: an object of its key, and of the entry in hayagriva's file format.
fn line_of(alloc: Global, entry: &Entry) -> Result<Vec<u8>, OutOfMemory>
    ensures { IfOk result (λ line. line.items ≡ line_text (view entry.now)) }
{
    let mut out = Writer::new(Vec::new(alloc));
    write_tokens(alloc, &mut out, entry)?;
    Ok(out.into_inner())
}

fn write_tokens(alloc: Global, out: &mut Writer, entry: &Entry) -> Result<(), OutOfMemory>
    ensures value { OnOk result (WritesValue out.old out.new (line_json (view entry.now))) }
    ensures before { OnOk result (KeepsBefore out.old out.new) }
{
    out.begin_object()?;
    out.key("key")?;
    out.string(entry.key())?;
    out.key("entry")?;
    write_entry(alloc, out, None, entry)?;
    out.end_object()?;
    Ok(())
}
