//! Libraries from a text.
ghost use Rattle.std.specs.Prelude.{◌≡◌, [], Ok, option_map, IfErr, IfOk, OnOk};
ghost use Rattle.json.specs.Value.{items_view, value_view};
ghost use Rattle.haya_json.specs.Notes.{all_kept, kept_of, notes_view};
ghost use Rattle.haya_json.specs.Refusal.{IsFaultOf};
ghost use Rattle.haya_csl.specs.Libraries.{DescribesAsCsl, IsCslErrorOf, csl_library_of};
ghost use Rattle.haya_csl.specs.Libraries.{items_pushed, list_in, list_of};
ghost use Rattle.haya_csl.specs.Told.{TellsAsCsl, items_told, list_in_told, list_told, told};

use crate::item_key::ItemKey;
use crate::items::read_item;
use crate::turns::read_list_text;
use haya_json::reading::{ValueError, member, name_twice, not_json, push_reading};
use haya_json::{Notes, ReadError, Why};
use hayagriva::{HashKeys, Library};
use json::{Scratch, Value};
use std::alloc::Global;

/// The library that a text says in CSL-JSON: a list of items, or an object that has it as its
/// `items`. The order is that of the list. An item whose key comes again takes the place of the
/// earlier one.
///
/// A value of an item that isn't read is left out, and so is a member that has no place in an
/// entry, or in whose place the item has another. All of these are told, and so are keys that come
/// again. A member that is null, or an empty text, list or object, is as if it weren't there.
///
/// `NotJson`: the text is no JSON. `NameTwice`: it is, and an object has a member twice. `Refused`:
/// it has no list of items, or an item is no object, or has no key.
///
/// The maps of the library and of the notes hash with keys that are always the same.
pub fn read_csl_json(alloc: Global, by: ItemKey, text: &str) -> Result<(Library, Notes), ReadError>
    ensures library { IfOk result (λ read. DescribesAsCsl by text.now read.0) }
    ensures notes { IfOk result (λ read. TellsAsCsl by text.now (notes_view read.1)) }
    ensures error { IfErr result (IsCslErrorOf by text.now) }
{
    read_csl_json_with_hash_keys(alloc, HashKeys::new(0, 0), by, text)
}

/// As `read_csl_json`, with maps that hash with these keys.
pub fn read_csl_json_with_hash_keys(
    alloc: Global,
    keys: HashKeys,
    by: ItemKey,
    text: &str,
) -> Result<(Library, Notes), ReadError>
    ensures library { IfOk result (λ read. DescribesAsCsl by text.now read.0) }
    ensures notes { IfOk result (λ read. TellsAsCsl by text.now (notes_view read.1)) }
    ensures error { IfErr result (IsCslErrorOf by text.now) }
{
    let mut scratch = Scratch::new(alloc);
    match read_list_text(alloc, keys, by, text, &mut scratch) {
        Ok(Some(read)) => Ok(read),
        Ok(None) => read_text(alloc, keys, by, text, &mut scratch),
        Err(error) => Err(error),
    }
}

// The library of a text that is no list, and what is told of it.
#[tactic(auto, using(haya_json::proofs::ParseErrors::parse_errors))]
fn read_text(
    alloc: Global,
    keys: HashKeys,
    by: ItemKey,
    text: &str,
    scratch: &mut Scratch,
) -> Result<(Library, Notes), ReadError>
    ensures library { IfOk result (λ read. DescribesAsCsl by text.now read.0) }
    ensures notes { IfOk result (λ read. TellsAsCsl by text.now (notes_view read.1)) }
    ensures error { IfErr result (IsCslErrorOf by text.now) }
{
    match Value::parse_strict(alloc, text, scratch) {
        Ok(json) => match library_and_notes(alloc, keys, by, &json) {
            Ok(read) => Ok(read),
            Err(ValueError::Refused(path, why)) => Err(ReadError::Refused(path, why)),
            Err(ValueError::OutOfMemory) => Err(ReadError::OutOfMemory),
        },
        Err(json::Error::Invalid) => Err(not_json(alloc, text)),
        Err(json::Error::DuplicateKey) => Err(name_twice(alloc, text)),
        Err(_) => Err(ReadError::OutOfMemory),
    }
}

// The library that a value says, and what is told of it.
#[tactic(auto, using(haya_json::proofs::NotesKept::kept_from_none))]
fn library_and_notes(
    alloc: Global,
    keys: HashKeys,
    by: ItemKey,
    json: &Value<'_>,
) -> Result<(Library, Notes), ValueError>
    ensures ok { IfOk result (λ read. csl_library_of by (value_view json.now) ≡ Ok read.0) }
    ensures notes { IfOk result (λ read.
        notes_view read.1 ≡ kept_of (told by (value_view json.now))) }
    ensures fault { IfErr result (IsFaultOf (csl_library_of by (value_view json.now))) }
{
    let mut notes = Notes::with_hash_keys(alloc, keys);
    match library_of(alloc, keys, by, json, &mut notes) {
        Ok(library) => Ok((library, notes)),
        Err(fault) => {
            drop(notes);
            Err(fault)
        }
    }
}

// The library that a value says.
fn library_of(
    alloc: Global,
    keys: HashKeys,
    by: ItemKey,
    json: &Value<'_>,
    notes: &mut Notes,
) -> Result<Library, ValueError>
    ensures ok { IfOk result (λ library. csl_library_of by (value_view json.now) ≡ Ok library) }
    ensures notes { OnOk result (notes_view notes.new
        ≡ all_kept (told by (value_view json.now)) (notes_view notes.old)) }
    ensures fault { IfErr result (IsFaultOf (csl_library_of by (value_view json.now))) }
{
    match json {
        Value::Object(_) => read_in(alloc, keys, by, member(json, "items"), notes),
        _ => read_list(alloc, keys, by, json, notes),
    }
}

// The library of the list that an object has.
fn read_in(
    alloc: Global,
    keys: HashKeys,
    by: ItemKey,
    list: Option<&Value<'_>>,
    notes: &mut Notes,
) -> Result<Library, ValueError>
    ensures ok { IfOk result (λ library.
        list_in by (option_map (λ j. value_view j.now) list.entry) ≡ Ok library) }
    ensures notes { OnOk result (notes_view notes.new
        ≡ all_kept (list_in_told by (option_map (λ j. value_view j.now) list.entry))
        (notes_view notes.old)) }
    ensures fault { IfErr result (IsFaultOf
        (list_in by (option_map (λ j. value_view j.now) list.entry))) }
{
    let Some(list) = list else {
        return Err(ValueError::refused(alloc, Why::NotList));
    };
    match read_list(alloc, keys, by, list, notes) {
        Ok(library) => Ok(library),
        Err(fault) => Err(fault.in_member(alloc, "items")),
    }
}

// The library of a list of items.
fn read_list(
    alloc: Global,
    keys: HashKeys,
    by: ItemKey,
    json: &Value<'_>,
    notes: &mut Notes,
) -> Result<Library, ValueError>
    ensures ok { IfOk result (λ library. list_of by (value_view json.now) ≡ Ok library) }
    ensures notes { OnOk result (notes_view notes.new
        ≡ all_kept (list_told by (value_view json.now)) (notes_view notes.old)) }
    ensures fault { IfErr result (IsFaultOf (list_of by (value_view json.now))) }
{
    match json {
        Value::Array(items) => read_items(alloc, keys, by, items, notes),
        _ => Err(ValueError::refused(alloc, Why::NotList)),
    }
}

// The entries of items, pushed in turn.
#[tactic(auto, using(haya_json::proofs::NotesKept::kept_together))]
fn read_items(
    alloc: Global,
    keys: HashKeys,
    by: ItemKey,
    items: &Vec<Value<'_>>,
    notes: &mut Notes,
) -> Result<Library, ValueError>
    ensures ok { IfOk result (λ library.
        items_pushed by [] 0 (items_view items.now.items) ≡ Ok library) }
    ensures notes { OnOk result (notes_view notes.new
        ≡ all_kept (items_told by [] (items_view items.now.items)) (notes_view notes.old)) }
    ensures fault { IfErr result (IsFaultOf (items_pushed by [] 0 (items_view items.now.items))) }
{
    let mut library = Library::with_hash_keys(alloc, keys);
    'items: for place in 0..items.len() {
        match read_item(alloc, by, &items[place]) {
            Ok(read) => push_reading(alloc, &mut library, notes, read)?,
            Err(fault) => return Err(fault.in_item(place)),
        }
    }
    Ok(library)
}
