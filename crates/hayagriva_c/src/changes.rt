//! What is changed of a library behind a pointer.
ghost use Rattle.std.specs.Prelude.{◌≡◌, ◌≢◌, ◌⊎◌, ◌∷◌, [], IfErr, IfOk, length};
ghost use Rattle.haya_entry.specs.Tree.{view};
ghost use Rattle.haya_json.specs.Notes.{notes_view};
ghost use Rattle.haya_json.specs.Told.{Tells};
ghost use Rattle.hayagriva_c.specs.Changing.{PushGives, PushesInto, Puts, RemoveGives};
ghost use Rattle.hayagriva_c.specs.Changing.{RemovesFrom, SaysEntry, WhyNoEntry};
ghost use Rattle.hayagriva_c.specs.Noted.{noted};
ghost use Rattle.hayagriva_c.specs.Notes.{AreCounted};
ghost use Rattle.hayagriva_c.specs.Told.{IsMemoryTold, IsTold};

use crate::codes;
use crate::content::{Content, Shelf};
use crate::fault::Fault;
use crate::notes::{Noted, counted};
use crate::reading::json;
use crate::told::Told;
use haya_entry::Entry;
use haya_json::Notes;
use hayagriva::{HashKeys, Library};
use std::alloc::Global;

/// Puts the entry that bytes say into a library, in the place of the one with its key, or last.
pub fn library_push(library: &mut Content, bytes: &[u8], fault: &mut Fault) -> u32
    ensures { PushGives bytes.now library.old library.new result fault.old fault.new }
{
    let alloc = library.allocator();
    match library {
        Content::Library(shelf) => push(shelf, bytes, fault),
        _ => {
            *fault = Fault::alone(alloc, codes::WRONG_KIND);
            codes::WRONG_KIND
        }
    }
}

/// Takes the entry with a key out of a library, and closes up the others.
pub fn library_remove(library: &mut Content, key: &[u8]) -> u32
    ensures { RemoveGives key.now library.old library.new result }
{
    match library {
        Content::Library(shelf) => remove(shelf, key),
        _ => codes::WRONG_KIND,
    }
}

fn push(shelf: &mut Shelf, bytes: &[u8], fault: &mut Fault) -> u32
    ensures { PushesInto bytes.now shelf.old shelf.new result fault.old fault.new }
{
    match entry_of(shelf.alloc, shelf.keys, bytes) {
        Ok((entry, notes)) => put(shelf, entry, notes, fault),
        Err(told) => {
            let code = told.code;
            *fault = Fault::of(shelf.alloc, told);
            code
        }
    }
}

// Puts an entry into a library, with what was passed over of its text.
fn put(shelf: &mut Shelf, entry: Entry, notes: Vec<Noted>, fault: &mut Fault) -> u32
    ensures { Puts (view entry) notes shelf.old shelf.new result fault.old fault.new }
{
    match shelf.library.insert(entry) {
        Ok(()) => {
            shelf.notes = notes;
            codes::OK
        }
        Err(_) => {
            *fault = Fault::alone(shelf.alloc, codes::OUT_OF_MEMORY);
            codes::OUT_OF_MEMORY
        }
    }
}

fn remove(shelf: &mut Shelf, key: &[u8]) -> u32
    ensures { RemovesFrom key.now shelf.old shelf.new result }
{
    let Ok(key) = str::from_utf8(key) else {
        return codes::NO_ENTRY;
    };
    match shelf.library.remove(key) {
        Some(entry) => {
            drop(entry);
            codes::OK
        }
        None => codes::NO_ENTRY,
    }
}

// The entry that bytes say, alone under its key, and what is passed over of them.
fn entry_of(alloc: Global, keys: HashKeys, bytes: &[u8]) -> Result<(Entry, Vec<Noted>), Told>
    ensures entry { IfOk result (λ read. SaysEntry bytes.now (view read.0)) }
    ensures notes { IfOk result (λ read. AreCounted (Tells bytes.now) (noted read.1.items)) }
    ensures told { IfErr result (WhyNoEntry bytes.now) }
{
    let Ok(text) = str::from_utf8(bytes) else {
        return Err(Told::alone(alloc, codes::NOT_TEXT));
    };
    match json(alloc, keys, text) {
        Ok((library, notes)) => only_entry(alloc, library, &notes),
        Err(told) => Err(told),
    }
}

// The entry of a library that has one alone, and the names that its notes count.
fn only_entry(alloc: Global, library: Library, notes: &Notes) -> Result<(Entry, Vec<Noted>), Told>
    ensures entry { IfOk result (λ read. library ≡ view read.0 ∷ []) }
    ensures notes { IfOk result (λ read. noted read.1.items ≡ (notes_view notes.now).counts) }
    ensures told { IfErr result (λ told. IsMemoryTold told
        ⊎ ((length library ≢ 1) × IsTold 9 0 0 0 [] [] [] told)) }
{
    if library.len() != 1 {
        return Err(Told::alone(alloc, codes::NOT_ONE));
    }
    let Ok(rows) = counted(alloc, notes) else {
        return Err(Told::memory(alloc));
    };
    match library.into_iter().next() {
        Some(entry) => Ok((entry, rows)),
        None => Err(Told::alone(alloc, codes::NOT_ONE)),
    }
}
