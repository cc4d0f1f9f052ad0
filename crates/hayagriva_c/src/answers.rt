//! What is answered of what may be a library, an entry or a selector.
ghost use Rattle.std.specs.Prelude.{◌≡◌, length, option_map, slice_get};
ghost use Rattle.std.specs.Option.{option_copied};
ghost use Rattle.haya_entry.specs.EntryType.{type_name};
ghost use Rattle.haya_entry.specs.Tree.{fields, view};
ghost use Rattle.hayagriva_c.specs.Asking.{HasName, KeyGives, MatchGives, NameGives, NoteGives};
ghost use Rattle.hayagriva_c.specs.Asking.{ParentGives, TextGives, WrittenOf, count_of_parents};
ghost use Rattle.hayagriva_c.specs.Asking.{size_of, text_form};
ghost use Rattle.hayagriva_c.specs.Content.{names_of};
ghost use Rattle.hayagriva_c.specs.Noted.{noted_row};

use crate::codes;
use crate::content::{Asked, Shelf};
use crate::notes::Noted;
use crate::room::fill;
use haya_entry::{Entry, Steps};
use haya_views::{EntryId, TextForm, entry_of_key, field_text, parent_of, type_name};
use std::alloc::Global;

/// How many entries a library has.
pub fn library_len(shelf: Option<&Shelf>) -> usize
    ensures { result ≡ size_of (option_map (λ s. s.now.library) shelf.entry) }
{
    match shelf {
        Some(shelf) => shelf.library.len(),
        None => 0,
    }
}

/// The number of the entry with a key.
pub fn library_get(shelf: Option<&Shelf>, key: &[u8], entry: &mut EntryId) -> u32
    ensures { KeyGives (option_map (λ s. s.now.library) shelf.entry) key.now
        result entry.old entry.new }
{
    let Some(shelf) = shelf else {
        return codes::NO_ENTRY;
    };
    let Ok(key) = str::from_utf8(key) else {
        return codes::NO_ENTRY;
    };
    match entry_of_key(&shelf.library, key) {
        Some(id) => {
            *entry = id;
            codes::OK
        }
        None => codes::NO_ENTRY,
    }
}

/// How many parents an entry has.
pub fn entry_parents(entry: Option<(&Entry, Global)>) -> usize
    ensures { result ≡ count_of_parents (option_map (λ e. view e.0.now) entry.entry) }
{
    match entry {
        Some((entry, _)) => entry.parents().len(),
        None => 0,
    }
}

/// The number of the parent at a place of an entry.
pub fn entry_parent(
    shelf: Option<&Shelf>,
    entry: &EntryId,
    place: usize,
    parent: &mut EntryId,
) -> u32
    ensures { ParentGives (option_map (λ s. s.now.library) shelf.entry) entry.now place
        result parent.old parent.new }
{
    let Some(shelf) = shelf else {
        return codes::NO_ENTRY;
    };
    match parent_of(shelf.alloc, &shelf.library, entry, place) {
        Ok(Some(id)) => {
            *parent = id;
            codes::OK
        }
        Ok(None) => codes::NO_ENTRY,
        Err(_) => codes::OUT_OF_MEMORY,
    }
}

/// The key of an entry.
pub fn entry_key(entry: Option<(&Entry, Global)>, room: &mut [u8], len: &mut usize) -> u32
    ensures { WrittenOf (λ t. (fields t).key) (option_map (λ e. view e.0.now) entry.entry)
        result len.new room.old room.new }
{
    match entry {
        Some((entry, _)) => {
            *len = fill(entry.key().as_bytes(), room);
            codes::OK
        }
        None => {
            *len = 0;
            codes::NO_ENTRY
        }
    }
}

/// The name of the type of an entry.
pub fn entry_type(entry: Option<(&Entry, Global)>, room: &mut [u8], len: &mut usize) -> u32
    ensures { WrittenOf (λ t. type_name (fields t).entry_type)
        (option_map (λ e. view e.0.now) entry.entry) result len.new room.old room.new }
{
    match entry {
        Some((entry, _)) => {
            *len = fill(type_name(entry.entry_type()).as_bytes(), room);
            codes::OK
        }
        None => {
            *len = 0;
            codes::NO_ENTRY
        }
    }
}

/// Whether an entry has a name.
pub fn entry_has(entry: Option<(&Entry, Global)>, name: &[u8]) -> bool
    ensures { HasName (option_map (λ e. view e.0.now) entry.entry) name.now result }
{
    match (entry, str::from_utf8(name)) {
        (Some((entry, _)), Ok(name)) => entry.has(name),
        _ => false,
    }
}

/// The form with this number.
pub fn text_form(number: u32) -> Option<TextForm>
    ensures { result ≡ text_form number }
{
    match number {
        0 => Some(TextForm::MarkedUp),
        1 => Some(TextForm::Plain),
        2 => Some(TextForm::Short),
        _ => None,
    }
}

/// The text of an entry's field with a name, in what may be a form.
pub fn entry_text(
    entry: Option<(&Entry, Global)>,
    name: &[u8],
    form: Option<TextForm>,
    room: &mut [u8],
    len: &mut usize,
) -> u32
    ensures { TextGives form (option_map (λ e. view e.0.now) entry.entry) name.now
        result len.new room.old room.new }
{
    *len = 0;
    let Some(form) = form else {
        return codes::NO_FORMAT;
    };
    let Some((entry, alloc)) = entry else {
        return codes::NO_ENTRY;
    };
    let Ok(name) = str::from_utf8(name) else {
        return codes::NO_FIELD;
    };
    match field_text(alloc, entry, name, form) {
        Ok(Some(text)) => {
            *len = fill(text.as_bytes(), room);
            codes::OK
        }
        Ok(None) => codes::NO_FIELD,
        Err(_) => codes::OUT_OF_MEMORY,
    }
}

/// Whether a selector holds at an entry.
pub fn entry_matches(
    entry: Option<(&Entry, Global)>,
    asked: Option<&Asked>,
    holds: &mut bool,
) -> u32
    ensures { MatchGives (option_map (λ e. view e.0.now) entry.entry) (option_copied asked.entry)
        result holds.old holds.new }
{
    let Some((entry, _)) = entry else {
        return codes::NO_ENTRY;
    };
    let Some(asked) = asked else {
        return codes::WRONG_KIND;
    };
    match asked.selector.apply(entry, &mut Steps::new()) {
        Ok(Some(bindings)) => {
            drop(bindings);
            *holds = true;
            codes::OK
        }
        Ok(None) => {
            *holds = false;
            codes::OK
        }
        Err(_) => codes::OUT_OF_MEMORY,
    }
}

/// A name that was passed over, and how often it came.
pub fn note(row: Option<&Noted>, room: &mut [u8], len: &mut usize, count: &mut u64) -> u32
    ensures { NoteGives (option_map (λ r. noted_row r.now) row.entry)
        result len.new room.old room.new count.old count.new }
{
    match row {
        Some(row) => {
            *len = fill(row.name.as_bytes(), room);
            *count = row.count;
            codes::OK
        }
        None => {
            *len = 0;
            codes::NO_FIELD
        }
    }
}

/// How many names a selector binds.
pub fn selector_names(asked: Option<&Asked>) -> usize
    ensures { result ≡ length (names_of (option_copied asked.entry)) }
{
    match asked {
        Some(asked) => asked.names.len(),
        None => 0,
    }
}

/// A name that a selector binds.
pub fn selector_name(asked: Option<&Asked>, number: usize, room: &mut [u8], len: &mut usize) -> u32
    ensures { NameGives (slice_get (names_of (option_copied asked.entry)) number)
        result len.new room.old room.new }
{
    *len = 0;
    let Some(asked) = asked else {
        return codes::NO_FIELD;
    };
    match asked.names.get(number) {
        Some(name) => {
            *len = fill(name.as_bytes(), room);
            codes::OK
        }
        None => codes::NO_FIELD,
    }
}
