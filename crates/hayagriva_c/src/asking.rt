//! What is asked of a library or a selector behind a pointer. Nothing here changes either.
ghost use Rattle.std.specs.Prelude.{◌≡◌, Some, length, slice_get};
ghost use Rattle.haya_entry.specs.EntryType.{type_name};
ghost use Rattle.haya_entry.specs.Tree.{fields};
ghost use Rattle.haya_views.specs.declared.text_form.TextForm.TheVariants.{MarkedUp};
ghost use Rattle.hayagriva_c.specs.Asking.{HasName, KeyGives, MatchGives, NameGives, NoteGives};
ghost use Rattle.hayagriva_c.specs.Asking.{ParentGives, TextGives, WrittenOf, count_of_parents};
ghost use Rattle.hayagriva_c.specs.Asking.{size_of, text_form};
ghost use Rattle.hayagriva_c.specs.Content.{entry_in, library_in, names_of, notes_in};
ghost use Rattle.hayagriva_c.specs.Content.{selector_in};
ghost use Rattle.hayagriva_c.specs.Hits.{NextGives};
ghost use Rattle.hayagriva_c.specs.Values.{DateGives, NumberGives, PagesGive, PersonGives};
ghost use Rattle.hayagriva_c.specs.Values.{PersonsAre, count_of_ranges};
ghost use Rattle.hayagriva_c.specs.Writing.{JsonGives, WriteGives};

use crate::content::{Content, entry_in, library_in, notes_in, selector_in};
use crate::fault::Written;
use crate::values::{DateParts, Pages};
use crate::{answers, hits, values, writing};
use haya_views::{EntryId, TextForm};

/// How many entries a library has: 0 of what is none.
pub fn library_len(library: &Content) -> usize
    ensures { result ≡ size_of (library_in library.now) }
{
    answers::library_len(library_in(library))
}

/// The number of the entry with a key.
pub fn library_get(library: &Content, key: &[u8], entry: &mut EntryId) -> u32
    ensures { KeyGives (library_in library.now) key.now result entry.old entry.new }
{
    answers::library_get(library_in(library), key, entry)
}

/// The first entry of a library from a place on where a selector holds, and those that its names
/// stand for.
pub fn library_next(
    library: &Content,
    selector: &Content,
    place: &mut usize,
    hit: &mut EntryId,
    bound: &mut [EntryId],
) -> u32
    ensures { NextGives (library_in library.now) (selector_in selector.now) result
        place.old place.new hit.old hit.new bound.old bound.new }
{
    hits::next_of(
        library_in(library),
        selector_in(selector),
        place,
        hit,
        bound,
    )
}

/// A library as a text in the format with this number.
pub fn library_write(library: &Content, format: u32, written: &mut Written) -> u32
    ensures { WriteGives (library_in library.now) format result written.old written.new }
{
    writing::write_library(library_in(library), format, written)
}

/// How many names were passed over of a library's text: 0 of what is none.
pub fn library_notes(library: &Content) -> usize
    ensures { result ≡ length (notes_in library.now) }
{
    notes_in(library).len()
}

/// A name that was passed over of a library's text, and how often it came.
pub fn library_note(
    library: &Content,
    number: usize,
    room: &mut [u8],
    len: &mut usize,
    count: &mut u64,
) -> u32
    ensures { NoteGives (slice_get (notes_in library.now) number)
        result len.new room.old room.new count.old count.new }
{
    answers::note(notes_in(library).get(number), room, len, count)
}

/// How many parents an entry has: 0 where there is no entry.
pub fn entry_parents(library: &Content, entry: &EntryId) -> usize
    ensures { result ≡ count_of_parents (entry_in library.now entry.now) }
{
    answers::entry_parents(entry_in(library, entry))
}

/// The number of the parent at a place of an entry.
pub fn entry_parent(library: &Content, entry: &EntryId, place: usize, parent: &mut EntryId) -> u32
    ensures { ParentGives (library_in library.now) entry.now place result parent.old parent.new }
{
    answers::entry_parent(library_in(library), entry, place, parent)
}

/// The key of an entry.
pub fn entry_key(library: &Content, entry: &EntryId, room: &mut [u8], len: &mut usize) -> u32
    ensures { WrittenOf (λ t. (fields t).key) (entry_in library.now entry.now)
        result len.new room.old room.new }
{
    answers::entry_key(entry_in(library, entry), room, len)
}

/// The name of the type of an entry.
pub fn entry_type(library: &Content, entry: &EntryId, room: &mut [u8], len: &mut usize) -> u32
    ensures { WrittenOf (λ t. type_name (fields t).entry_type) (entry_in library.now entry.now)
        result len.new room.old room.new }
{
    answers::entry_type(entry_in(library, entry), room, len)
}

/// Whether an entry has a name: a field that is set, or a serial number that is kept.
pub fn entry_has(library: &Content, entry: &EntryId, name: &[u8]) -> bool
    ensures { HasName (entry_in library.now entry.now) name.now result }
{
    answers::entry_has(entry_in(library, entry), name)
}

/// The text of an entry's field with a name, marked up.
pub fn entry_text(
    library: &Content,
    entry: &EntryId,
    name: &[u8],
    room: &mut [u8],
    len: &mut usize,
) -> u32
    ensures { TextGives (Some MarkedUp) (entry_in library.now entry.now) name.now
        result len.new room.old room.new }
{
    let form = Some(TextForm::MarkedUp);
    answers::entry_text(entry_in(library, entry), name, form, room, len)
}

/// The text of an entry's field with a name, in the form with a number.
pub fn entry_text_as(
    library: &Content,
    entry: &EntryId,
    name: &[u8],
    form: u32,
    room: &mut [u8],
    len: &mut usize,
) -> u32
    ensures { TextGives (text_form form) (entry_in library.now entry.now) name.now
        result len.new room.old room.new }
{
    let form = answers::text_form(form);
    answers::entry_text(entry_in(library, entry), name, form, room, len)
}

/// How many persons the field with a name has.
pub fn entry_persons(library: &Content, entry: &EntryId, name: &[u8]) -> usize
    ensures { PersonsAre (entry_in library.now entry.now) name.now result }
{
    values::entry_persons(entry_in(library, entry), name)
}

/// A part of the person at a place of the field with a name.
pub fn entry_person(
    library: &Content,
    entry: &EntryId,
    name: &[u8],
    place: usize,
    part: u32,
    room: &mut [u8],
    len: &mut usize,
) -> u32
    ensures { PersonGives (entry_in library.now entry.now) name.now place part
        result len.new room.old room.new }
{
    values::entry_person(entry_in(library, entry), name, place, part, room, len)
}

/// The date of the field with a name.
pub fn entry_date(library: &Content, entry: &EntryId, name: &[u8], date: &mut DateParts) -> u32
    ensures { DateGives (entry_in library.now entry.now) name.now result date.old date.new }
{
    values::entry_date(entry_in(library, entry), name, date)
}

/// The number of the field with a name.
pub fn entry_number(library: &Content, entry: &EntryId, name: &[u8], number: &mut i32) -> u32
    ensures { NumberGives (entry_in library.now entry.now) name.now
        result number.old number.new }
{
    values::entry_number(entry_in(library, entry), name, number)
}

/// How many pages and ranges of pages an entry has: 0 where there is no entry.
pub fn entry_page_ranges(library: &Content, entry: &EntryId) -> usize
    ensures { result ≡ count_of_ranges (entry_in library.now entry.now) }
{
    values::entry_page_ranges(entry_in(library, entry))
}

/// The page or the range of pages at a place.
pub fn entry_page_range(library: &Content, entry: &EntryId, place: usize, pages: &mut Pages) -> u32
    ensures { PagesGive (entry_in library.now entry.now) place result pages.old pages.new }
{
    values::entry_page_range(entry_in(library, entry), place, pages)
}

/// An entry as a line of JSON, without its line feed.
pub fn entry_json(library: &Content, entry: &EntryId, room: &mut [u8], len: &mut usize) -> u32
    ensures { JsonGives (entry_in library.now entry.now) result len.new room.old room.new }
{
    writing::write_line(entry_in(library, entry), room, len)
}

/// Whether a selector holds at an entry.
pub fn entry_matches(
    library: &Content,
    selector: &Content,
    entry: &EntryId,
    holds: &mut bool,
) -> u32
    ensures { MatchGives (entry_in library.now entry.now) (selector_in selector.now)
        result holds.old holds.new }
{
    answers::entry_matches(entry_in(library, entry), selector_in(selector), holds)
}

/// How many names a selector binds: 0 of what is none.
pub fn selector_names(selector: &Content) -> usize
    ensures { result ≡ length (names_of (selector_in selector.now)) }
{
    answers::selector_names(selector_in(selector))
}

/// A name that a selector binds.
pub fn selector_name(selector: &Content, number: usize, room: &mut [u8], len: &mut usize) -> u32
    ensures { NameGives (slice_get (names_of (selector_in selector.now)) number)
        result len.new room.old room.new }
{
    answers::selector_name(selector_in(selector), number, room, len)
}
