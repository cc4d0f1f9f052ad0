//! The library of a text.
ghost use Rattle.std.specs.Prelude.{◌≡◌, IfErr, IfOk, List, OnOk, flat_map, map};
ghost use Rattle.haya_bibtex_text.specs.BibliographyViews.{bibliography_view, note_view};
ghost use Rattle.haya_bibtex_inherited.specs.Views.{entry_view, reference_view};
ghost use Rattle.haya_entry.specs.Tree.{Tree};
ghost use Rattle.haya_json.specs.Notes.{NotesView, all_kept, notes_view};
ghost use Rattle.hayagriva.specs.Library.{push};
ghost use Rattle.haya_bibtex.specs.Libraries.{DescribesAsBibtex, IsBibtexErrorOf, TellsAsBibtex};
ghost use Rattle.haya_bibtex.specs.Libraries.{all_told, entries_pushed, entry_told, note_name};
ghost use Rattle.haya_bibtex.specs.Outcomes.{IsReadOf};
ghost use Rattle.haya_bibtex_entries.specs.Entries.{entry_said};

use crate::error::BibtexReadError;
use crate::notes::{tell_names, tell_references, tell_text};
use crate::spelled::spell_entries;
use haya_bibtex_entries::{Reading, read_entry};
use haya_bibtex_inherited::{EntryRef, LibraryEntries, library_entries};
use haya_bibtex_text::{Bibliography, PassedOver, ReadError, read_bibliography};
use haya_json::Notes;
use haya_text::OutOfMemory;
use hayagriva::{HashKeys, Library};
use std::alloc::Global;

/// The library that a text says in the format of `.bib` files, and what is told of it: by
/// `haya_bibtex_text` its entries, by `haya_bibtex_inherited` what these inherit from each other,
/// and by `haya_bibtex_entries` what each says. The order is that of the text.
///
/// `NotBibtex`: the text isn't by the grammar, and this is its first fault.
///
/// The maps of the library and of the notes hash with keys that are always the same.
pub fn read_bibtex(alloc: Global, text: &str) -> Result<(Library, Notes), BibtexReadError>
    ensures library { IfOk result (λ read. DescribesAsBibtex text.now read.0) }
    ensures notes { IfOk result (λ read. TellsAsBibtex text.now (notes_view read.1)) }
    ensures error { IfErr result (IsBibtexErrorOf text.now) }
    // There is no other library of the text, and nothing else is told of it.
    ensures only { IfOk result (λ read.
        (other : List Tree) → DescribesAsBibtex text.now other → other ≡ read.0) }
    ensures no_more { IfOk result (λ read.
        (other : NotesView) → TellsAsBibtex text.now other → other ≡ notes_view read.1) }
{
    read_bibtex_with_hash_keys(alloc, HashKeys::new(0, 0), text)
}

/// As `read_bibtex`, with maps that hash with these keys.
pub fn read_bibtex_with_hash_keys(
    alloc: Global,
    keys: HashKeys,
    text: &str,
) -> Result<(Library, Notes), BibtexReadError>
    ensures library { IfOk result (λ read. DescribesAsBibtex text.now read.0) }
    ensures notes { IfOk result (λ read. TellsAsBibtex text.now (notes_view read.1)) }
    ensures error { IfErr result (IsBibtexErrorOf text.now) }
    // There is no other library of the text, and nothing else is told of it.
    ensures only { IfOk result (λ read.
        (other : List Tree) → DescribesAsBibtex text.now other → other ≡ read.0) }
    ensures no_more { IfOk result (λ read.
        (other : NotesView) → TellsAsBibtex text.now other → other ≡ notes_view read.1) }
{
    let bibliography = match read_bibliography(alloc, text) {
        Ok(bibliography) => bibliography,
        Err(ReadError::Refused(fault)) => return Err(BibtexReadError::NotBibtex(fault)),
        Err(ReadError::OutOfMemory) => return Err(BibtexReadError::OutOfMemory),
    };
    match library_of(alloc, keys, &bibliography) {
        Ok(read) => Ok(read),
        Err(_) => Err(BibtexReadError::OutOfMemory),
    }
}

// The library of a bibliography, and what is told of it.
fn library_of(
    alloc: Global,
    keys: HashKeys,
    bibliography: &Bibliography,
) -> Result<(Library, Notes), OutOfMemory>
    ensures { IfOk result (λ read.
        IsReadOf (bibliography_view bibliography.now) read.0 (notes_view read.1)) }
{
    let entries = bibliography.entries.as_slice();
    let passed_over = bibliography.passed_over.as_slice();
    spell_entries(entries);
    let found = library_entries(alloc, entries)?;
    let mut library = Library::with_hash_keys(alloc, keys);
    let mut notes = Notes::with_hash_keys(alloc, keys);
    fill(alloc, &mut library, &mut notes, passed_over, &found)?;
    Ok((library, notes))
}

// Pushes the entries that are found, and tells what is passed over.
#[tactic(auto, using(haya_json::proofs::NotesKept::kept_together))]
fn fill(
    alloc: Global,
    library: &mut Library,
    notes: &mut Notes,
    passed_over: &[PassedOver],
    found: &LibraryEntries<'_>,
) -> Result<(), OutOfMemory>
    ensures library { OnOk result (library.new
        ≡ entries_pushed (map entry_view found.now.entries.items) library.old) }
    ensures notes { OnOk result (notes_view notes.new
        ≡ all_kept (all_told (map note_name (map note_view passed_over.now))
        (map reference_view found.now.passed_over.items)
        (map entry_view found.now.entries.items)) (notes_view notes.old)) }
{
    tell_text(alloc, notes, passed_over)?;
    tell_references(alloc, notes, found.passed_over.as_slice())?;
    push_entries(alloc, library, notes, found.entries.as_slice())?;
    Ok(())
}

// Pushes the entries, in order, and tells what is passed over of each.
#[tactic(auto, using(haya_json::proofs::NotesKept::kept_together))]
fn push_entries(
    alloc: Global,
    library: &mut Library,
    notes: &mut Notes,
    entries: &[EntryRef<'_>],
) -> Result<(), OutOfMemory>
    ensures library { OnOk result (library.new
        ≡ entries_pushed (map entry_view entries.now) library.old) }
    ensures notes { OnOk result (notes_view notes.new
        ≡ all_kept (flat_map entry_told (map entry_view entries.now)) (notes_view notes.old)) }
{
    'entries: for entry in entries {
        push_entry(alloc, library, notes, entry)?;
    }
    Ok(())
}

// Pushes an entry, and tells what is passed over of it.
fn push_entry(
    alloc: Global,
    library: &mut Library,
    notes: &mut Notes,
    entry: &EntryRef<'_>,
) -> Result<(), OutOfMemory>
    ensures library { OnOk result (library.new
        ≡ push (entry_said (entry_view entry.now)).entry library.old) }
    ensures notes { OnOk result (notes_view notes.new
        ≡ all_kept (entry_told (entry_view entry.now)) (notes_view notes.old)) }
{
    // By a `match`: a `?` copies the entry once more.
    let Reading {
        entry: read,
        passed_over,
    } = match read_entry(alloc, entry) {
        Ok(reading) => reading,
        Err(error) => return Err(error),
    };
    match tell_names(alloc, notes, entry.key, passed_over.as_slice()) {
        Ok(()) => library.insert(read),
        Err(error) => {
            drop(read);
            Err(error)
        }
    }
}
