//! Libraries as lines of JSON: each line an object of an entry and its key.
ghost use Rattle.std.specs.Prelude.{◌≡◌, ◌≢◌, ℕ, List, Ok, IfErr, IfOk, OnOk};
ghost use Rattle.json.specs.Value.{value_view};
ghost use Rattle.haya_entry.specs.Tree.{view};
ghost use Rattle.haya_json.specs.JsonLines.{Describes, ErrorInLine, IsErrorOf, IsJsonLineErrorOf};
ghost use Rattle.haya_json.specs.JsonLines.{IsLineOf, IsReadingOf, PushesLine, Tells, TellsLine};
ghost use Rattle.haya_json.specs.JsonLines.{entry_in, line_said, line_told};
ghost use Rattle.haya_json.specs.Notes.{all_kept, notes_view};
ghost use Rattle.haya_json.specs.Readings.{reading_view};
ghost use Rattle.haya_json.specs.Refusal.{IsFaultOf};

use crate::entries::read_entry;
use crate::error::{JsonLineError, ReadError};
use crate::fault::{ValueError, Why};
use crate::from_json::{member, needed};
use crate::notes::Notes;
use crate::parse_errors::{name_twice, not_json};
use crate::told::{Reading, push_reading, take_entry};
use haya_entry::Entry;
use hayagriva::{HashKeys, Library};
use json::{Scratch, Value};
use std::alloc::Global;

/// The library that a text says in lines of JSON: the entry that each line says, as
/// `read_entry_line` reads it, is pushed in turn. Empty lines are skipped. What is lost of the
/// entries is told, and which keys come again. The maps of the library and of the notes hash with
/// the keys.
///
/// The error is that of the first line that says no entry, or out of memory.
pub fn read_json_lines(
    alloc: Global,
    keys: HashKeys,
    text: &str,
) -> Result<(Library, Notes), JsonLineError>
    ensures library { IfOk result (λ read. Describes text.now read.0) }
    ensures notes { IfOk result (λ read. Tells text.now (notes_view read.1)) }
    ensures error { IfErr result (IsErrorOf text.now) }
{
    let mut library = Library::with_hash_keys(alloc, keys);
    let mut notes = Notes::with_hash_keys(alloc, keys);
    let mut scratch = Scratch::new(alloc);
    let mut number = 0;
    'lines: for line in text.lines() {
        number += 1;
        if let Err(error) = push_line(alloc, &mut library, line, &mut scratch, &mut notes) {
            return Err(JsonLineError {
                line: number,
                error,
            });
        }
    }
    Ok((library, notes))
}

// Pushes the entry that a line says, and tells what is lost of it. An empty line says none.
fn push_line(
    alloc: Global,
    library: &mut Library,
    line: &str,
    scratch: &mut Scratch,
    notes: &mut Notes,
) -> Result<(), ReadError>
    ensures library { OnOk result (PushesLine line.now library.old library.new) }
    ensures notes { OnOk result
        (TellsLine line.now library.old library.new (notes_view notes.old) (notes_view notes.new)) }
    ensures error { IfErr result (ErrorInLine line.now) }
{
    if line.is_empty() {
        return Ok(());
    }
    let read = read_line(alloc, line, scratch)?;
    match push_reading(alloc, library, notes, read) {
        Ok(()) => Ok(()),
        Err(_) => Err(ReadError::OutOfMemory),
    }
}

/// The entry that a line of JSON says: an object with a member `key`, the text of its key, and a
/// member `entry`, an entry of hayagriva's file format. Other members are passed over, and not told;
/// what is lost of the entry is told in `notes`. That its key comes again isn't. The reader works in
/// `scratch`, which is kept from line to line.
///
/// `NotJson`: the line is no JSON. `NameTwice`: it is, and an object has a member twice. `Refused`:
/// it has no key or no entry, or these are none. At each of these `notes` is as before.
pub fn read_entry_line(
    alloc: Global,
    line: &str,
    scratch: &mut Scratch,
    notes: &mut Notes,
) -> Result<Entry, ReadError>
    ensures entry { IfOk result (λ entry. IsLineOf line.now (view entry)) }
    ensures notes { OnOk result (notes_view notes.new
        ≡ all_kept (line_told line.now) (notes_view notes.old)) }
    ensures error { IfErr result (IsJsonLineErrorOf line.now) }
    ensures unchanged { IfErr result
        (λ e. e ≢ ReadError.OutOfMemory → notes_view notes.new ≡ notes_view notes.old) }
{
    let read = read_line(alloc, line, scratch)?;
    match take_entry(alloc, notes, read) {
        Ok(entry) => Ok(entry),
        Err(_) => Err(ReadError::OutOfMemory),
    }
}

// What is read of the entry that a line says.
#[tactic(auto, using(crate::proofs::ParseErrors::parse_errors))]
fn read_line(alloc: Global, line: &str, scratch: &mut Scratch) -> Result<Reading, ReadError>
    ensures read { IfOk result (λ read. IsReadingOf line.now (reading_view read)) }
    ensures error { IfErr result (IsJsonLineErrorOf line.now) }
{
    match Value::parse_strict(alloc, line, scratch) {
        Ok(json) => match read_object(alloc, &json) {
            Ok(read) => Ok(read),
            Err(ValueError::Refused(path, why)) => Err(ReadError::Refused(path, why)),
            Err(ValueError::OutOfMemory) => Err(ReadError::OutOfMemory),
        },
        Err(json::Error::Invalid) => Err(not_json(alloc, line)),
        Err(json::Error::DuplicateKey) => Err(name_twice(alloc, line)),
        Err(_) => Err(ReadError::OutOfMemory),
    }
}

// What is read of the entry that a value says: that of its member `entry`, under the key of its
// member `key`.
fn read_object(alloc: Global, json: &Value<'_>) -> Result<Reading, ValueError>
    ensures read { IfOk result (λ read. line_said (value_view json.now) ≡ Ok (reading_view read)) }
    ensures fault { IfErr result (IsFaultOf (entry_in (value_view json.now))) }
{
    let key: String = needed(alloc, json, "key")?;
    let Some(said) = member(json, "entry") else {
        return Err(ValueError::refused(alloc, Why::Missing).in_member(alloc, "entry"));
    };
    match read_entry(alloc, key.as_str(), None, said) {
        Ok(read) => Ok(read),
        Err(fault) => Err(fault.in_member(alloc, "entry")),
    }
}
