//! The calls that read through a pointer of C's, and write nothing there.
ghost use Rattle.std.specs.Prelude.{◌≡◌, Some, length, slice_get};
ghost use Rattle.std.specs.Borrow.{sem};
ghost use Rattle.haya_entry.specs.EntryType.{type_name};
ghost use Rattle.haya_entry.specs.Tree.{fields};
ghost use Rattle.haya_views.specs.declared.text_form.TextForm.TheVariants.{MarkedUp};
ghost use Rattle.hayagriva_c.specs.Asking.{HasName, KeyGives, MatchGives, NameGives, NoteGives};
ghost use Rattle.hayagriva_c.specs.Asking.{ParentGives, TextGives, WrittenOf, count_of_parents};
ghost use Rattle.hayagriva_c.specs.Asking.{size_of, text_form};
ghost use Rattle.hayagriva_c.specs.Content.{entry_in, library_in, names_of, notes_in};
ghost use Rattle.hayagriva_c.specs.Content.{selector_in};
ghost use Rattle.hayagriva_c.specs.Hits.{NextGives};
ghost use Rattle.hayagriva_c.specs.Lent.{Loan, both_lent, both_tokens, lent, token};
ghost use Rattle.hayagriva_c.specs.Values.{DateGives, NumberGives, PagesGive, PersonGives};
ghost use Rattle.hayagriva_c.specs.Values.{PersonsAre, count_of_ranges};
ghost use Rattle.hayagriva_c.specs.Writing.{JsonGives, WriteGives};

use crate::asking;
use crate::content::Content;
use crate::fault::Written;
use crate::values::{DateParts, Pages};
use haya_views::EntryId;

/// How many entries a library has.
#[unsafe(no_mangle)]
pub unsafe extern "C" fn haya_library_len(library: *const u8) -> usize
    ghost loan: { Loan }
    requires* { sem 𝓛 (lent library loan) }
    ensures* { sem 𝓛 (token loan) ∗ ⌜ result ≡ size_of (library_in loan.value) ⌝ }
{
    asking::library_len(&*library.cast::<Content>())
}

/// The number of the entry with a key.
#[unsafe(no_mangle)]
pub unsafe extern "C" fn haya_library_get(
    library: *const u8,
    key: &[u8],
    entry: &mut EntryId,
) -> u32
    ghost loan: { Loan }
    requires* { sem 𝓛 (lent library loan) }
    ensures* { sem 𝓛 (token loan)
        ∗ ⌜ KeyGives (library_in loan.value) key.now result entry.old entry.new ⌝ }
{
    asking::library_get(&*library.cast::<Content>(), key, entry)
}

/// How many names were passed over of the library's text.
#[unsafe(no_mangle)]
pub unsafe extern "C" fn haya_library_notes(library: *const u8) -> usize
    ghost loan: { Loan }
    requires* { sem 𝓛 (lent library loan) }
    ensures* { sem 𝓛 (token loan) ∗ ⌜ result ≡ length (notes_in loan.value) ⌝ }
{
    asking::library_notes(&*library.cast::<Content>())
}

/// A name that was passed over of the library's text, and how often it came.
#[unsafe(no_mangle)]
pub unsafe extern "C" fn haya_library_note(
    library: *const u8,
    number: usize,
    room: &mut [u8],
    len: &mut usize,
    count: &mut u64,
) -> u32
    ghost loan: { Loan }
    requires* { sem 𝓛 (lent library loan) }
    ensures* { sem 𝓛 (token loan)
        ∗ ⌜ NoteGives (slice_get (notes_in loan.value) number)
        result len.new room.old room.new count.old count.new ⌝ }
{
    asking::library_note(&*library.cast::<Content>(), number, room, len, count)
}

/// The next entry where a selector holds, from a place on, and the entries that its names stand
/// for.
#[unsafe(no_mangle)]
pub unsafe extern "C" fn haya_library_next(
    library: *const u8,
    selector: *const u8,
    place: &mut usize,
    hit: &mut EntryId,
    bound: &mut [EntryId],
) -> u32
    ghost loans: { Loan × Loan }
    requires* { sem 𝓛 (both_lent library selector loans) }
    ensures* { sem 𝓛 (both_tokens loans)
        ∗ ⌜ NextGives (library_in loans.0.value) (selector_in loans.1.value) result
        place.old place.new hit.old hit.new bound.old bound.new ⌝ }
{
    asking::library_next(
        &*library.cast::<Content>(),
        &*selector.cast::<Content>(),
        place,
        hit,
        bound,
    )
}

/// How many parents an entry has.
#[unsafe(no_mangle)]
pub unsafe extern "C" fn haya_entry_parents(library: *const u8, entry: &EntryId) -> usize
    ghost loan: { Loan }
    requires* { sem 𝓛 (lent library loan) }
    ensures* { sem 𝓛 (token loan)
        ∗ ⌜ result ≡ count_of_parents (entry_in loan.value entry.now) ⌝ }
{
    asking::entry_parents(&*library.cast::<Content>(), entry)
}

/// The number of the parent at a place of an entry.
#[unsafe(no_mangle)]
pub unsafe extern "C" fn haya_entry_parent(
    library: *const u8,
    entry: &EntryId,
    place: usize,
    parent: &mut EntryId,
) -> u32
    ghost loan: { Loan }
    requires* { sem 𝓛 (lent library loan) }
    ensures* { sem 𝓛 (token loan)
        ∗ ⌜ ParentGives (library_in loan.value) entry.now place result
        parent.old parent.new ⌝ }
{
    asking::entry_parent(&*library.cast::<Content>(), entry, place, parent)
}

/// The key of an entry.
#[unsafe(no_mangle)]
pub unsafe extern "C" fn haya_entry_key(
    library: *const u8,
    entry: &EntryId,
    room: &mut [u8],
    len: &mut usize,
) -> u32
    ghost loan: { Loan }
    requires* { sem 𝓛 (lent library loan) }
    ensures* { sem 𝓛 (token loan)
        ∗ ⌜ WrittenOf (λ t. (fields t).key) (entry_in loan.value entry.now)
        result len.new room.old room.new ⌝ }
{
    asking::entry_key(&*library.cast::<Content>(), entry, room, len)
}

/// The name of the type of an entry.
#[unsafe(no_mangle)]
pub unsafe extern "C" fn haya_entry_type(
    library: *const u8,
    entry: &EntryId,
    room: &mut [u8],
    len: &mut usize,
) -> u32
    ghost loan: { Loan }
    requires* { sem 𝓛 (lent library loan) }
    ensures* { sem 𝓛 (token loan)
        ∗ ⌜ WrittenOf (λ t. type_name (fields t).entry_type) (entry_in loan.value entry.now)
        result len.new room.old room.new ⌝ }
{
    asking::entry_type(&*library.cast::<Content>(), entry, room, len)
}

/// Whether an entry has a name: a field that is set, or a serial number that is kept.
#[unsafe(no_mangle)]
pub unsafe extern "C" fn haya_entry_has(library: *const u8, entry: &EntryId, name: &[u8]) -> bool
    ghost loan: { Loan }
    requires* { sem 𝓛 (lent library loan) }
    ensures* { sem 𝓛 (token loan)
        ∗ ⌜ HasName (entry_in loan.value entry.now) name.now result ⌝ }
{
    asking::entry_has(&*library.cast::<Content>(), entry, name)
}

/// The text of an entry's field with a name, marked up.
#[unsafe(no_mangle)]
pub unsafe extern "C" fn haya_entry_text(
    library: *const u8,
    entry: &EntryId,
    name: &[u8],
    room: &mut [u8],
    len: &mut usize,
) -> u32
    ghost loan: { Loan }
    requires* { sem 𝓛 (lent library loan) }
    ensures* { sem 𝓛 (token loan)
        ∗ ⌜ TextGives (Some MarkedUp) (entry_in loan.value entry.now) name.now
        result len.new room.old room.new ⌝ }
{
    asking::entry_text(&*library.cast::<Content>(), entry, name, room, len)
}

/// The text of an entry's field with a name, in the form with a number.
#[unsafe(no_mangle)]
pub unsafe extern "C" fn haya_entry_text_as(
    library: *const u8,
    entry: &EntryId,
    name: &[u8],
    form: u32,
    room: &mut [u8],
    len: &mut usize,
) -> u32
    ghost loan: { Loan }
    requires* { sem 𝓛 (lent library loan) }
    ensures* { sem 𝓛 (token loan)
        ∗ ⌜ TextGives (text_form form) (entry_in loan.value entry.now) name.now
        result len.new room.old room.new ⌝ }
{
    asking::entry_text_as(&*library.cast::<Content>(), entry, name, form, room, len)
}

/// How many persons the field with a name has.
#[unsafe(no_mangle)]
pub unsafe extern "C" fn haya_entry_persons(
    library: *const u8,
    entry: &EntryId,
    name: &[u8],
) -> usize
    ghost loan: { Loan }
    requires* { sem 𝓛 (lent library loan) }
    ensures* { sem 𝓛 (token loan)
        ∗ ⌜ PersonsAre (entry_in loan.value entry.now) name.now result ⌝ }
{
    asking::entry_persons(&*library.cast::<Content>(), entry, name)
}

/// A part of the person at a place of the field with a name.
#[unsafe(no_mangle)]
pub unsafe extern "C" fn haya_entry_person(
    library: *const u8,
    entry: &EntryId,
    name: &[u8],
    place: usize,
    part: u32,
    room: &mut [u8],
    len: &mut usize,
) -> u32
    ghost loan: { Loan }
    requires* { sem 𝓛 (lent library loan) }
    ensures* { sem 𝓛 (token loan)
        ∗ ⌜ PersonGives (entry_in loan.value entry.now) name.now place part
        result len.new room.old room.new ⌝ }
{
    asking::entry_person(
        &*library.cast::<Content>(),
        entry,
        name,
        place,
        part,
        room,
        len,
    )
}

/// The date of the field with a name, in parts.
#[unsafe(no_mangle)]
pub unsafe extern "C" fn haya_entry_date(
    library: *const u8,
    entry: &EntryId,
    name: &[u8],
    date: &mut DateParts,
) -> u32
    ghost loan: { Loan }
    requires* { sem 𝓛 (lent library loan) }
    ensures* { sem 𝓛 (token loan)
        ∗ ⌜ DateGives (entry_in loan.value entry.now) name.now result date.old date.new ⌝ }
{
    asking::entry_date(&*library.cast::<Content>(), entry, name, date)
}

/// The number of the field with a name.
#[unsafe(no_mangle)]
pub unsafe extern "C" fn haya_entry_number(
    library: *const u8,
    entry: &EntryId,
    name: &[u8],
    number: &mut i32,
) -> u32
    ghost loan: { Loan }
    requires* { sem 𝓛 (lent library loan) }
    ensures* { sem 𝓛 (token loan)
        ∗ ⌜ NumberGives (entry_in loan.value entry.now) name.now result number.old number.new ⌝ }
{
    asking::entry_number(&*library.cast::<Content>(), entry, name, number)
}

/// How many pages and ranges of pages an entry has.
#[unsafe(no_mangle)]
pub unsafe extern "C" fn haya_entry_page_ranges(library: *const u8, entry: &EntryId) -> usize
    ghost loan: { Loan }
    requires* { sem 𝓛 (lent library loan) }
    ensures* { sem 𝓛 (token loan)
        ∗ ⌜ result ≡ count_of_ranges (entry_in loan.value entry.now) ⌝ }
{
    asking::entry_page_ranges(&*library.cast::<Content>(), entry)
}

/// The page or the range of pages at a place.
#[unsafe(no_mangle)]
pub unsafe extern "C" fn haya_entry_page_range(
    library: *const u8,
    entry: &EntryId,
    place: usize,
    pages: &mut Pages,
) -> u32
    ghost loan: { Loan }
    requires* { sem 𝓛 (lent library loan) }
    ensures* { sem 𝓛 (token loan)
        ∗ ⌜ PagesGive (entry_in loan.value entry.now) place result pages.old pages.new ⌝ }
{
    asking::entry_page_range(&*library.cast::<Content>(), entry, place, pages)
}

/// An entry as a line of JSON: an object of its `key`, and of the `entry` in hayagriva's file format.
#[unsafe(no_mangle)]
pub unsafe extern "C" fn haya_entry_json(
    library: *const u8,
    entry: &EntryId,
    room: &mut [u8],
    len: &mut usize,
) -> u32
    ghost loan: { Loan }
    requires* { sem 𝓛 (lent library loan) }
    ensures* { sem 𝓛 (token loan)
        ∗ ⌜ JsonGives (entry_in loan.value entry.now) result len.new room.old room.new ⌝ }
{
    asking::entry_json(&*library.cast::<Content>(), entry, room, len)
}

/// A library as a text in a format. What `written` had before is freed.
#[unsafe(no_mangle)]
pub unsafe extern "C" fn haya_library_write(
    library: *const u8,
    format: u32,
    written: &mut Written,
) -> u32
    ghost loan: { Loan }
    requires* { sem 𝓛 (lent library loan) }
    ensures* { sem 𝓛 (token loan)
        ∗ ⌜ WriteGives (library_in loan.value) format result written.old written.new ⌝ }
{
    asking::library_write(&*library.cast::<Content>(), format, written)
}

/// Whether a selector holds at an entry.
#[unsafe(no_mangle)]
pub unsafe extern "C" fn haya_entry_matches(
    library: *const u8,
    selector: *const u8,
    entry: &EntryId,
    holds: &mut bool,
) -> u32
    ghost loans: { Loan × Loan }
    requires* { sem 𝓛 (both_lent library selector loans) }
    ensures* { sem 𝓛 (both_tokens loans)
        ∗ ⌜ MatchGives (entry_in loans.0.value entry.now) (selector_in loans.1.value) result
        holds.old holds.new ⌝ }
{
    asking::entry_matches(
        &*library.cast::<Content>(),
        &*selector.cast::<Content>(),
        entry,
        holds,
    )
}

/// How many names a selector binds.
#[unsafe(no_mangle)]
pub unsafe extern "C" fn haya_selector_names(selector: *const u8) -> usize
    ghost loan: { Loan }
    requires* { sem 𝓛 (lent selector loan) }
    ensures* { sem 𝓛 (token loan)
        ∗ ⌜ result ≡ length (names_of (selector_in loan.value)) ⌝ }
{
    asking::selector_names(&*selector.cast::<Content>())
}

/// A name that a selector binds.
#[unsafe(no_mangle)]
pub unsafe extern "C" fn haya_selector_name(
    selector: *const u8,
    number: usize,
    room: &mut [u8],
    len: &mut usize,
) -> u32
    ghost loan: { Loan }
    requires* { sem 𝓛 (lent selector loan) }
    ensures* { sem 𝓛 (token loan)
        ∗ ⌜ NameGives (slice_get (names_of (selector_in loan.value)) number)
        result len.new room.old room.new ⌝ }
{
    asking::selector_name(&*selector.cast::<Content>(), number, room, len)
}
