//! The entry that a member of a library says, on a line of its own.
ghost use Rattle.std.specs.Prelude.{◌≡◌, ◌≢◌, None, Ok, Some, IfErr, IfOk, OnOk};
ghost use Rattle.json.specs.Strict.{HasUniqueKeys};
ghost use Rattle.json.specs.Value.{value_view};
ghost use Rattle.haya_entry.specs.Tree.{view};
ghost use Rattle.haya_json.specs.Entries.{entry_of, entry_said};
ghost use Rattle.haya_json.specs.Libraries.{IsErrorOfJson, library_of};
ghost use Rattle.haya_json.specs.MemberLines.{IsMemberLineErrorOf, IsMemberLineOf};
ghost use Rattle.haya_json.specs.MemberLines.{line_told, member_in, single_object};
ghost use Rattle.haya_json.specs.Notes.{all_kept, notes_view};
ghost use Rattle.haya_json.specs.Refusal.{IsFaultOf, to_member, within};
ghost use Rattle.haya_json.specs.Told.{told_alone};

use crate::alone::read_alone;
use crate::entries::read_entry;
use crate::error::ReadError;
use crate::fault::ValueError;
use crate::notes::Notes;
use crate::parse_errors::{name_twice_in_line, no_member};
use crate::told::take_entry;
use haya_entry::Entry;
use json::{Reader, Scratch, Token, Value};
use std::alloc::Global;

/// The entry that a line says: a member of the object that a text in hayagriva's file format is,
/// without the commas round it. Its name is the key. What is lost of the entry is told in `notes`.
/// The reader works in `scratch`, which is kept from line to line.
///
/// `NotJson`: the line is no member, or its value nests more than 127 deep. `NameTwice`: it is one,
/// and an object in it has a member twice. `Refused`: the entry is no object; the path is to the
/// member. At each of these `notes` is as before.
pub fn read_member_line(
    alloc: Global,
    line: &str,
    scratch: &mut Scratch,
    notes: &mut Notes,
) -> Result<Entry, ReadError>
    ensures entry { IfOk result (λ entry. IsMemberLineOf line.now (view entry)) }
    ensures notes { OnOk result (notes_view notes.new
        ≡ all_kept (line_told line.now) (notes_view notes.old)) }
    ensures error { IfErr result (IsMemberLineErrorOf line.now) }
    ensures unchanged { IfErr result
        (λ e. e ≢ ReadError.OutOfMemory → notes_view notes.new ≡ notes_view notes.old) }
{
    let (name, json) = member_in(alloc, line, scratch)?;
    match read_named(alloc, name, &json, notes) {
        Ok(entry) => Ok(entry),
        Err(ValueError::Refused(path, why)) => Err(ReadError::Refused(path, why)),
        Err(ValueError::OutOfMemory) => Err(ReadError::OutOfMemory),
    }
}

// The name and the value of the member that a line is, in which no object has a member twice.
#[tactic(auto, using(crate::proofs::ParseErrors::parse_errors))]
fn member_in<'a>(
    alloc: Global,
    line: &'a str,
    scratch: &'a mut Scratch,
) -> Result<(&'a str, Value<'a>), ReadError>
    ensures member { IfOk result
        (λ m. member_in line.now ≡ Some (single_object m.0.now (value_view m.1))) }
    ensures unique { IfOk result (λ m. HasUniqueKeys (value_view m.1)) }
    ensures error { IfErr result (IsErrorOfJson library_of (member_in line.now)) }
{
    let Ok(mut reader) = Reader::new(line, scratch) else {
        return Err(ReadError::OutOfMemory);
    };
    let Some(Token::Key(name)) = reader.next() else {
        return Err(no_member(alloc, line));
    };
    match read_alone(alloc, &mut reader) {
        Ok(json) => Ok((name, json)),
        Err(json::Error::Invalid) => Err(no_member(alloc, line)),
        Err(json::Error::DuplicateKey) => Err(name_twice_in_line(alloc, line)),
        Err(_) => Err(ReadError::OutOfMemory),
    }
}

// The entry that a member says. What is lost of it is told.
fn read_named(
    alloc: Global,
    name: &str,
    json: &Value<'_>,
    notes: &mut Notes,
) -> Result<Entry, ValueError>
    ensures entry { IfOk result
        (λ entry. entry_of name.now None (value_view json.now) ≡ Ok (view entry)) }
    ensures notes { OnOk result (notes_view notes.new
        ≡ all_kept (told_alone (entry_said name.now None (value_view json.now)))
        (notes_view notes.old)) }
    ensures fault { IfErr result (IsFaultOf
        (within (to_member name.now) (entry_of name.now None (value_view json.now)))) }
    ensures unchanged { IfErr result
        (λ e. e ≢ ValueError.OutOfMemory → notes_view notes.new ≡ notes_view notes.old) }
{
    match read_entry(alloc, name, None, json) {
        Ok(read) => match take_entry(alloc, notes, read) {
            Ok(entry) => Ok(entry),
            Err(_) => Err(ValueError::OutOfMemory),
        },
        Err(fault) => Err(fault.in_member(alloc, name)),
    }
}
