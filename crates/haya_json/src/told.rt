//! What is read of an entry, and what is told of it.
ghost use Rattle.std.specs.Prelude.{◌≡◌, IfOk, OnOk};
ghost use Rattle.haya_entry.specs.Tree.{view};
ghost use Rattle.hayagriva.specs.Library.{key_of, push};
ghost use Rattle.haya_json.specs.Notes.{all_kept, losts_view, notes_under, notes_view};
ghost use Rattle.haya_json.specs.Readings.{reading_view};
ghost use Rattle.haya_json.specs.Told.{told_again, told_of, told_under};

use crate::notes::{Lost, Notes};
use haya_entry::Entry;
use haya_text::OutOfMemory;
use hayagriva::Library;
use std::alloc::Global;

/// An entry, and what is lost of the JSON that it was read of.
#[derive(Drop)]
pub struct Reading {
    /// The entry.
    pub entry: Entry,
    /// What is lost.
    pub lost: Vec<Lost>,
}

/// Puts an entry in the place of the one with its key, or last if there is none, and tells what is
/// lost of it, and before that whether its key comes again.
pub fn push_reading(
    alloc: Global,
    library: &mut Library,
    notes: &mut Notes,
    reading: Reading,
) -> Result<(), OutOfMemory>
    ensures pushed { OnOk result (library.new ≡ push (view reading.entry) library.old) }
    ensures told { OnOk result (notes_view notes.new
        ≡ all_kept (told_of library.old (reading_view reading)) (notes_view notes.old)) }
{
    let Reading { entry, lost } = reading;
    match tell(alloc, library, notes, entry.key(), lost) {
        Ok(()) => library.insert(entry),
        Err(error) => {
            drop(entry);
            Err(error)
        }
    }
}

/// An entry that goes to no library. What is lost of it is told.
pub fn take_entry(alloc: Global, notes: &mut Notes, reading: Reading) -> Result<Entry, OutOfMemory>
    ensures entry { IfOk result (λ entry. view entry ≡ view reading.entry) }
    ensures told { OnOk result (notes_view notes.new
        ≡ all_kept (notes_under (key_of (view reading.entry)) (losts_view reading.lost.items))
        (notes_view notes.old)) }
{
    let Reading { entry, lost } = reading;
    match notes.add_all(alloc, entry.key(), lost) {
        Ok(()) => Ok(entry),
        Err(error) => {
            drop(entry);
            Err(error)
        }
    }
}

// Tells whether a key comes again, and then what is lost of its entry.
#[tactic(auto, using(crate::proofs::NotesKept::kept_together))]
fn tell(
    alloc: Global,
    library: &Library,
    notes: &mut Notes,
    key: &str,
    lost: Vec<Lost>,
) -> Result<(), OutOfMemory>
    ensures { OnOk result (notes_view notes.new
        ≡ all_kept (told_under library.now key.now (losts_view lost.items))
        (notes_view notes.old)) }
{
    match tell_again(alloc, library, notes, key) {
        Ok(()) => notes.add_all(alloc, key, lost),
        Err(error) => {
            drop(lost);
            Err(error)
        }
    }
}

// Tells whether the library has an entry under the key.
fn tell_again(
    alloc: Global,
    library: &Library,
    notes: &mut Notes,
    key: &str,
) -> Result<(), OutOfMemory>
    ensures { OnOk result (notes_view notes.new
        ≡ all_kept (told_again library.now key.now) (notes_view notes.old)) }
{
    if library.get(key).is_some() {
        return notes.add(alloc, key, Lost::again(alloc));
    }
    Ok(())
}
