//! Libraries from a text.
ghost use Rattle.std.specs.Prelude.{◌≡◌, [], None, Ok, IfErr, IfOk, OnOk};
ghost use Rattle.json.specs.Strict.{AreDistinct, HasUniqueKeys, keys as names};
ghost use Rattle.json.specs.Value.{members_view, value_view};
ghost use Rattle.haya_entry.specs.Tree.{Tree};
ghost use Rattle.hayagriva.specs.Library.{push};
ghost use Rattle.haya_json.specs.Refusal.{IsFaultOf, to_member, within};
ghost use Rattle.haya_json.specs.Entries.{entry_of, entry_said};
ghost use Rattle.haya_json.specs.Libraries.{Describes, IsErrorOf, entries_of, entries_pushed};
ghost use Rattle.haya_json.specs.Libraries.{library_of};
ghost use Rattle.haya_json.specs.Notes.{all_kept, kept_of, notes_view};
ghost use Rattle.haya_json.specs.Told.{Tells, entries_told, told, told_alone};

use crate::entries::read_entry;
use crate::error::ReadError;
use crate::fault::{ValueError, Why};
use crate::notes::Notes;
use crate::parse_errors::{name_twice, not_json};
use crate::told::take_entry;
use hayagriva::{HashKeys, Library};
use json::{Scratch, Value};
use std::alloc::Global;

/// The library that a text says in hayagriva's file format, written as JSON: an object of entries
/// under their keys, in the order of the text. An entry is an object of its `type`, its fields and
/// its `parent`. A null is as if it weren't there. What is lost of the text is told: members of other
/// names, in values too, and values that aren't read.
///
/// `NotJson`: the text is no JSON. `NameTwice`: it is, and an object has a member twice. `Refused`:
/// it is no object, or an entry is none. That their positions are where the fault is seen is only
/// tested.
///
/// The maps of the library and of the notes hash with keys that are always the same.
pub fn read_library(alloc: Global, text: &str) -> Result<(Library, Notes), ReadError>
    ensures library { IfOk result (λ read. Describes text.now read.0) }
    ensures notes { IfOk result (λ read. Tells text.now (notes_view read.1)) }
    ensures error { IfErr result (IsErrorOf text.now) }
{
    read_library_with_hash_keys(alloc, HashKeys::new(0, 0), text)
}

/// As `read_library`, with maps that hash with these keys.
#[tactic(auto, using(crate::proofs::ParseErrors::parse_errors))]
pub fn read_library_with_hash_keys(
    alloc: Global,
    keys: HashKeys,
    text: &str,
) -> Result<(Library, Notes), ReadError>
    ensures library { IfOk result (λ read. Describes text.now read.0) }
    ensures notes { IfOk result (λ read. Tells text.now (notes_view read.1)) }
    ensures error { IfErr result (IsErrorOf text.now) }
{
    let mut scratch = Scratch::new(alloc);
    match Value::parse_strict(alloc, text, &mut scratch) {
        Ok(json) => match library_and_notes(alloc, keys, json) {
            Ok(read) => Ok(read),
            Err(ValueError::Refused(path, why)) => Err(ReadError::Refused(path, why)),
            Err(ValueError::OutOfMemory) => Err(ReadError::OutOfMemory),
        },
        Err(json::Error::Invalid) => Err(not_json(alloc, text)),
        Err(json::Error::DuplicateKey) => Err(name_twice(alloc, text)),
        Err(_) => Err(ReadError::OutOfMemory),
    }
}

// The library that a value says, where no object in it has a member twice, and what is told of it.
#[tactic(auto, using(crate::proofs::NotesKept::kept_from_none))]
fn library_and_notes(
    alloc: Global,
    keys: HashKeys,
    json: Value<'_>,
) -> Result<(Library, Notes), ValueError>
    ensures library { IfOk result (λ read. HasUniqueKeys (value_view json.entry)
        → library_of (value_view json.entry) ≡ Ok read.0) }
    ensures notes { IfOk result (λ read.
        notes_view read.1 ≡ kept_of (told (value_view json.entry))) }
    ensures fault { IfErr result (IsFaultOf (library_of (value_view json.entry))) }
{
    let mut notes = Notes::with_hash_keys(alloc, keys);
    match library_of(alloc, keys, json, &mut notes) {
        Ok(library) => Ok((library, notes)),
        Err(fault) => Err(fault),
    }
}

// The library that a value says, where no object in it has a member twice. What is lost of it is
// told.
fn library_of(
    alloc: Global,
    keys: HashKeys,
    json: Value<'_>,
    notes: &mut Notes,
) -> Result<Library, ValueError>
    ensures library { IfOk result (λ library. HasUniqueKeys (value_view json.entry)
        → library_of (value_view json.entry) ≡ Ok library) }
    ensures notes { OnOk result (notes_view notes.new
        ≡ all_kept (told (value_view json.entry)) (notes_view notes.old)) }
    ensures fault { IfErr result (IsFaultOf (library_of (value_view json.entry))) }
{
    match json {
        Value::Object(members) => read_entries(alloc, keys, members, notes),
        _ => Err(ValueError::refused(alloc, Why::NotObject)),
    }
}

// The entries of an object, each under its name. What is lost of them is told.
fn read_entries(
    alloc: Global,
    keys: HashKeys,
    members: Vec<(&str, Value<'_>)>,
    notes: &mut Notes,
) -> Result<Library, ValueError>
    ensures library { IfOk result (λ library. AreDistinct (names (members_view members.entry.items))
        → entries_of (members_view members.entry.items) ≡ Ok library) }
    ensures notes { OnOk result (notes_view notes.new
        ≡ all_kept (entries_told (members_view members.entry.items)) (notes_view notes.old)) }
    ensures fault { IfErr result (IsFaultOf (entries_of (members_view members.entry.items))) }
{
    match push_entries(alloc, keys, members, notes) {
        Ok(library) => Ok(library),
        Err(fault) => Err(fault),
    }
}

// The entries of an object, each under its name, pushed in turn. What is lost of them is told. Each
// value is let go as soon as its entry is read.
#[tactic(auto, using(crate::proofs::NotesKept::kept_together))]
fn push_entries(
    alloc: Global,
    keys: HashKeys,
    members: Vec<(&str, Value<'_>)>,
    notes: &mut Notes,
) -> Result<Library, ValueError>
    ensures library { IfOk result (λ library.
        entries_pushed [] (members_view members.entry.items) ≡ Ok library) }
    ensures notes { OnOk result (notes_view notes.new
        ≡ all_kept (entries_told (members_view members.entry.items)) (notes_view notes.old)) }
    ensures fault { IfErr result
        (IsFaultOf (entries_pushed [] (members_view members.entry.items))) }
{
    let mut library = Library::with_hash_keys(alloc, keys);
    'entries: for (name, json) in members {
        let pushed = push_entry(alloc, &mut library, name, &json, notes);
        drop(json);
        if let Err(fault) = pushed {
            // By a call: at an exit, the drop of a library is proved field by field.
            drop(library);
            return Err(fault);
        }
    }
    Ok(library)
}

// Pushes the entry that a member says. What is lost of it is told.
fn push_entry(
    alloc: Global,
    library: &mut Library,
    name: &str,
    json: &Value<'_>,
    notes: &mut Notes,
) -> Result<(), ValueError>
    ensures library { OnOk result ((entry : Tree)
        × (entry_of name.now None (value_view json.now) ≡ Ok entry)
        × (library.new ≡ push entry library.old)) }
    ensures notes { OnOk result (notes_view notes.new
        ≡ all_kept (told_alone (entry_said name.now None (value_view json.now)))
        (notes_view notes.old)) }
    ensures fault { IfErr result
        (IsFaultOf (within (to_member name.now) (entry_of name.now None (value_view json.now)))) }
{
    match read_entry(alloc, name, None, json) {
        Ok(read) => {
            let entry = take_entry(alloc, notes, read)?;
            library.insert(entry)?;
            Ok(())
        }
        Err(fault) => Err(fault.in_member(alloc, name)),
    }
}
