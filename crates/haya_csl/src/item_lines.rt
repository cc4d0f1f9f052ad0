//! The entry that an item of a list says, on a line of its own.
ghost use Rattle.std.specs.Prelude.{◌≡◌, ◌≢◌, Ok, Some, IfErr, IfOk, OnOk};
ghost use Rattle.json.specs.Strict.{HasUniqueKeys};
ghost use Rattle.json.specs.Value.{value_view};
ghost use Rattle.haya_entry.specs.Tree.{view};
ghost use Rattle.haya_json.specs.Notes.{all_kept, notes_view};
ghost use Rattle.haya_json.specs.Refusal.{IsFaultOf};
ghost use Rattle.haya_json.specs.Told.{told_alone};
ghost use Rattle.haya_csl.specs.ItemLines.{IsItemLineErrorOf, IsItemLineOf};
ghost use Rattle.haya_csl.specs.ItemLines.{item_at, item_in, line_told};
ghost use Rattle.haya_csl.specs.Items.{item_of, item_said};

use crate::item_key::ItemKey;
use crate::items::read_item;
use haya_entry::Entry;
use haya_json::reading::{ValueError, name_twice_in_line, no_item, read_alone, take_entry};
use haya_json::{Notes, ReadError};
use json::{Reader, Scratch, Value};
use std::alloc::Global;

/// The entry that a line says: an item of the array that a text in CSL-JSON is, without the commas
/// round it. What is lost of the item is told in `notes`; that its key comes again isn't. The reader
/// works in `scratch`, which is kept from line to line.
///
/// `NotJson`: the line is no JSON, or it nests more than 127 deep. `NameTwice`: it is JSON, and an
/// object in it has a member twice. `Refused`: the item is no object, or has no key; the path
/// begins with the item's place in the array.
pub fn read_item_line(
    alloc: Global,
    by: ItemKey,
    place: usize,
    line: &str,
    scratch: &mut Scratch,
    notes: &mut Notes,
) -> Result<Entry, ReadError>
    ensures entry { IfOk result (λ entry. IsItemLineOf by line.now (view entry)) }
    ensures notes { OnOk result (notes_view notes.new
        ≡ all_kept (line_told by line.now) (notes_view notes.old)) }
    ensures error { IfErr result (IsItemLineErrorOf by place line.now) }
    ensures unchanged { IfErr result
        (λ e. e ≢ ReadError.OutOfMemory → notes_view notes.new ≡ notes_view notes.old) }
{
    let item = item_in(alloc, by, place, line, scratch)?;
    match read_at(alloc, by, place, &item, notes) {
        Ok(entry) => Ok(entry),
        Err(ValueError::Refused(path, why)) => Err(ReadError::Refused(path, why)),
        Err(ValueError::OutOfMemory) => Err(ReadError::OutOfMemory),
    }
}

/// The entry of the item at this place, and what is lost of it behind what was told.
pub(crate) fn read_at(
    alloc: Global,
    by: ItemKey,
    place: usize,
    item: &Value<'_>,
    notes: &mut Notes,
) -> Result<Entry, ValueError>
    ensures ok { IfOk result (λ entry. item_of by (value_view item.now) ≡ Ok (view entry)) }
    ensures notes { OnOk result (notes_view notes.new
        ≡ all_kept (told_alone (item_said by (value_view item.now))) (notes_view notes.old)) }
    ensures fault { IfErr result (IsFaultOf (item_at by place (value_view item.now))) }
    ensures unchanged { IfErr result
        (λ e. e ≢ ValueError.OutOfMemory → notes_view notes.new ≡ notes_view notes.old) }
{
    match read_item(alloc, by, item) {
        Ok(read) => match take_entry(alloc, notes, read) {
            Ok(entry) => Ok(entry),
            Err(_) => Err(ValueError::OutOfMemory),
        },
        Err(fault) => Err(fault.in_item(place)),
    }
}

// The item that a line is, in which no object has a member twice.
#[tactic(auto, using(haya_json::proofs::ParseErrors::parse_errors))]
fn item_in<'a>(
    alloc: Global,
    by: ItemKey,
    place: usize,
    line: &'a str,
    scratch: &'a mut Scratch,
) -> Result<Value<'a>, ReadError>
    ensures item { IfOk result (λ json. item_in line.now ≡ Some (value_view json)) }
    ensures unique { IfOk result (λ json. HasUniqueKeys (value_view json)) }
    ensures error { IfErr result (IsItemLineErrorOf by place line.now) }
{
    let Ok(mut reader) = Reader::new(line, scratch) else {
        return Err(ReadError::OutOfMemory);
    };
    match read_alone(alloc, &mut reader) {
        Ok(json) => Ok(json),
        Err(json::Error::Invalid) => Err(no_item(alloc, line)),
        Err(json::Error::DuplicateKey) => Err(name_twice_in_line(alloc, line)),
        Err(_) => Err(ReadError::OutOfMemory),
    }
}
