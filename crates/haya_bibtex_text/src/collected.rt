//! What the items of a text come to.
ghost use Rattle.std.specs.Prelude.{◌≡◌, ◌++◌, ◌⊎◌, List, IfErr, IfOk, OnOk, map};
ghost use Rattle.haya_bibtex_text.specs.Bibliography.{definition_notes, with_definitions};
ghost use Rattle.haya_bibtex_text.specs.Bibliography.{item_entries, item_notes};
ghost use Rattle.haya_bibtex_text.specs.Bibliography.{keys_behind, strings_behind};
ghost use Rattle.haya_bibtex_text.specs.BibliographyViews.{bibliography_view, entry_view};
ghost use Rattle.haya_bibtex_text.specs.BibliographyViews.{note_view};
ghost use Rattle.haya_bibtex_text.specs.Definitions.{strings_view};
ghost use Rattle.haya_bibtex_text.specs.FieldViews.{field_view};
ghost use Rattle.haya_bibtex_text.specs.ItemViews.{item_view, written_view};
ghost use Rattle.haya_bibtex_text.specs.Items.{Fails, RawItem, Says};
ghost use Rattle.haya_bibtex_text.specs.Names.{names_view};
ghost use Rattle.haya_bibtex_text.specs.Outcomes.{IsRefused, Reads};
ghost use Rattle.haya_bibtex_text.specs.Stops.{StopsBy};
ghost use Rattle.haya_bibtex_text.specs.Uses.{Spends, definition_uses, item_uses, room_of};
ghost use Rattle.haya_bibtex_text.specs.declared.fault.Stop.TheVariants.{Refused};

use crate::definitions::{Definitions, define, first_definitions};
use crate::entry::{Bibliography, Entry, PassedOver};
use crate::fault::Stop;
use crate::fields::WrittenField;
use crate::items::{Item, WrittenEntry, next_item};
use crate::kept::keep_last;
use crate::names::{Names, add_name, no_names};
use crate::resolved::{filled_fields, value_text};
use crate::texts::lowercase;
use haya_characters::string_of;
use std::alloc::Global;

// Each of the fields defines its name from there on.
fn define_all(
    alloc: Global,
    fields: &[WrittenField<'_>],
    strings: &mut Definitions,
    room: &mut usize,
    passed_over: &mut Vec<PassedOver>,
) -> Result<(), Stop>
    ensures strings { OnOk result (strings_view strings.new
        ≡ with_definitions (strings_view strings.old) (map field_view fields.now)) }
    ensures notes { OnOk result (map note_view passed_over.new.items
        ≡ map note_view passed_over.old.items
        ++ definition_notes (strings_view strings.old) (map field_view fields.now)) }
    ensures room { Spends room.old
        (definition_uses (strings_view strings.old) (map field_view fields.now)) room.new result }
{
    'fields: for field in fields {
        let text = match value_text(alloc, strings, field.value.as_slice(), room, passed_over) {
            Ok(text) => text,
            Err(stop) => return Err(stop),
        };
        let name = lowercase(alloc, field.name)?;
        define(strings, name, text)?;
    }
    Ok(())
}

// Adds an entry, unless its key came before.
fn take_entry(
    alloc: Global,
    entry: &WrittenEntry<'_>,
    strings: &Definitions,
    keys: &mut Names,
    room: &mut usize,
    found: &mut Bibliography,
) -> Result<(), Stop>
    ensures keys { OnOk result
        (names_view keys.new ≡ keys_behind (names_view keys.old) (written_view entry.now)) }
    ensures entries { OnOk result (map entry_view found.new.entries.items
        ≡ map entry_view found.old.entries.items
        ++ item_entries (strings_view strings.now) (names_view keys.old) (written_view entry.now)) }
    ensures notes { OnOk result (map note_view found.new.passed_over.items
        ≡ map note_view found.old.passed_over.items
        ++ item_notes (strings_view strings.now) (names_view keys.old) (written_view entry.now)) }
    ensures room { Spends room.old
        (item_uses (strings_view strings.now) (names_view keys.old) (written_view entry.now))
        room.new result }
{
    let key = string_of(alloc, entry.key)?;
    let kind = lowercase(alloc, entry.kind)?;
    if !add_name(alloc, keys, key.as_str())? {
        found.passed_over.push(PassedOver::Entry(kind))?;
        return Ok(());
    }
    let written = entry.fields.as_slice();
    let all = match filled_fields(alloc, strings, written, room, &mut found.passed_over) {
        Ok(all) => all,
        Err(stop) => return Err(stop),
    };
    let fields = keep_last(alloc, all, &mut found.passed_over)?;
    found.entries.push(Entry { kind, key, fields })?;
    Ok(())
}

// Adds what an item comes to.
fn take_item(
    alloc: Global,
    item: &Item<'_>,
    strings: &mut Definitions,
    keys: &mut Names,
    room: &mut usize,
    found: &mut Bibliography,
) -> Result<(), Stop>
    ensures strings { OnOk result (strings_view strings.new
        ≡ strings_behind (strings_view strings.old) (item_view item.now)) }
    ensures keys { OnOk result
        (names_view keys.new ≡ keys_behind (names_view keys.old) (item_view item.now)) }
    ensures entries { OnOk result (map entry_view found.new.entries.items
        ≡ map entry_view found.old.entries.items
        ++ item_entries (strings_view strings.old) (names_view keys.old) (item_view item.now)) }
    ensures notes { OnOk result (map note_view found.new.passed_over.items
        ≡ map note_view found.old.passed_over.items
        ++ item_notes (strings_view strings.old) (names_view keys.old) (item_view item.now)) }
    ensures room { Spends room.old
        (item_uses (strings_view strings.old) (names_view keys.old) (item_view item.now))
        room.new result }
{
    match item {
        Item::Sign => {
            found.passed_over.push(PassedOver::Sign)?;
            Ok(())
        }
        Item::Strings(fields) => {
            define_all(
                alloc,
                fields.as_slice(),
                strings,
                room,
                &mut found.passed_over,
            )
        }
        Item::Entry(entry) => take_entry(alloc, entry, strings, keys, room, found),
    }
}

// The first of the stops at a place of a text and behind it: faults of the grammar come first.
fn first_stop(alloc: Global, text: &[char], stop: Stop) -> Stop
    ensures { StopsBy (λ f. Fails text.now f
        ⊎ (((is : List RawItem) × Says text.now is) × (stop ≡ Refused f))) result }
{
    let mut left = text;
    'items: loop {
        match next_item(alloc, left) {
            Ok(Some((_, rest))) => left = rest,
            Ok(None) => return stop,
            Err(earlier) => return earlier,
        }
    }
}

// How many characters the strings of a text may stand for.
fn room_of(text: &[char]) -> usize
    ensures { result ≡ room_of text.now }
{
    text.len().saturating_mul(64).saturating_add(65536)
}

/// What a text says. The error: a fault of the text, or there was no memory.
pub(crate) fn collect(alloc: Global, text: &[char]) -> Result<Bibliography, Stop>
    ensures is { IfOk result (λ b. Reads text.now (bibliography_view b)) }
    ensures fault { IfErr result (StopsBy (IsRefused text.now)) }
{
    let mut strings = first_definitions(alloc);
    let mut keys = no_names(alloc);
    let mut room = room_of(text);
    let mut found = Bibliography {
        entries: Vec::new(alloc),
        passed_over: Vec::new(alloc),
    };
    let mut left = text;
    'items: loop {
        let (item, rest) = match next_item(alloc, left) {
            Ok(Some(read)) => read,
            Ok(None) => return Ok(found),
            Err(stop) => return Err(stop),
        };
        match take_item(alloc, &item, &mut strings, &mut keys, &mut room, &mut found) {
            Ok(()) => left = rest,
            Err(stop) => return Err(first_stop(alloc, rest, stop)),
        }
    }
}
