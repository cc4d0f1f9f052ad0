//! What an entry says.
ghost use Rattle.std.specs.Prelude.{◌≡◌, ◌++◌, IfOk, OnOk, map, string_bytes};
ghost use Rattle.haya_bibtex_inherited.specs.Views.{entry_view, fields_view};
ghost use Rattle.haya_bibtex_entries.specs.Drafts.{so_far};
ghost use Rattle.haya_bibtex_entries.specs.Entries.{at_first, entry_said, filled, reading_view};
ghost use Rattle.haya_bibtex_entries.specs.Entries.{said_of, type_passed, unplaced};

use crate::dates::add_dates;
use crate::draft::Draft;
use crate::kinds::{Kind, kind_named, kind_of};
use crate::numbers::add_numbers;
use crate::people::add_people;
use crate::places::is_placed;
use crate::publishers::add_publishers;
use crate::serials::add_serials;
use crate::sources::add_sources;
use crate::texts::Fields;
use crate::titles::add_titles;
use haya_bibtex_inherited::EntryRef;
use haya_entry::Entry;
use haya_text::OutOfMemory;
use std::alloc::Global;

/// What an entry of a `.bib` file says.
#[derive(Drop)]
pub struct Reading {
    /// The entry, with the parents that its fields make.
    pub entry: Entry,
    /// The names under which something of it is passed over, as often as it comes: `@type` of an
    /// unknown type, a field's name, `\command`, or `word=` of an unknown part of a name.
    pub passed_over: Vec<String>,
}

// The name under which an unknown type is passed over.
fn type_passed(alloc: Global, kind: &str, fields: &Fields<'_>) -> Result<Vec<String>, OutOfMemory>
    ensures { IfOk result (λ v. map string_bytes v.items
        ≡ type_passed kind.now (fields_view fields.now)) }
{
    let mut names = Vec::new(alloc);
    if kind_named(kind, fields).is_some() {
        return Ok(names);
    }
    let mut name = String::from_str(alloc, "@")?;
    name.push_str(kind)?;
    names.push(name)?;
    Ok(names)
}

// Puts the names of the fields behind others that have no place.
fn push_unplaced(
    alloc: Global,
    names: &mut Vec<String>,
    kind: Kind,
    fields: &Fields<'_>,
) -> Result<(), OutOfMemory>
    ensures { OnOk result (map string_bytes names.new.items
        ≡ map string_bytes names.old.items ++ unplaced kind (fields_view fields.now)) }
{
    'fields: for field in fields.list() {
        if is_placed(alloc, kind, fields, field.name)? {
            continue 'fields;
        }
        names.push(String::from_str(alloc, field.name)?)?;
    }
    Ok(())
}

// What is passed over of an entry before its fields are read.
fn passed_at_first(
    alloc: Global,
    entry: &EntryRef<'_>,
    fields: &Fields<'_>,
    kind: Kind,
) -> Result<Vec<String>, OutOfMemory>
    requires { fields.now ≡ entry.now.fields.items }
    ensures { IfOk result (λ v. map string_bytes v.items
        ≡ (at_first (entry_view entry.now) kind).passed_over) }
{
    let mut names = type_passed(alloc, entry.kind, fields)?;
    push_unplaced(alloc, &mut names, kind, fields)?;
    Ok(names)
}

// Puts what all fields say where it goes.
fn fill(
    alloc: Global,
    draft: &mut Draft,
    entry: &EntryRef<'_>,
    fields: &Fields<'_>,
    kind: Kind,
) -> Result<(), OutOfMemory>
    requires fields { fields.now ≡ entry.now.fields.items }
    requires first { so_far draft.old ≡ at_first (entry_view entry.now) kind }
    ensures { OnOk result (so_far draft.new ≡ filled (entry_view entry.now) kind) }
{
    add_titles(alloc, draft, entry.key, kind, fields)?;
    add_people(alloc, draft, entry.key, kind, fields)?;
    add_publishers(alloc, draft, entry.key, kind, fields)?;
    add_numbers(alloc, draft, entry.key, kind, fields)?;
    add_serials(alloc, draft, entry.key, kind, fields)?;
    add_dates(alloc, draft, entry.key, kind, fields)?;
    add_sources(alloc, draft, entry.key, entry.kind, fields)?;
    Ok(())
}

// What an entry with its key and type alone, and all its fields, says.
fn read_fields(
    alloc: Global,
    mut draft: Draft,
    entry: &EntryRef<'_>,
    fields: &Fields<'_>,
    kind: Kind,
) -> Result<Reading, OutOfMemory>
    requires fields { fields.now ≡ entry.now.fields.items }
    requires first { so_far draft ≡ at_first (entry_view entry.now) kind }
    ensures { IfOk result (λ r. reading_view r ≡ said_of (filled (entry_view entry.now) kind)) }
{
    fill(alloc, &mut draft, entry, fields, kind)?;
    draft.close(alloc)?;
    let Draft {
        own,
        host: _,
        conference: _,
        main: _,
        series: _,
        original: _,
        passed_over,
    } = draft;
    Ok(Reading {
        entry: own,
        passed_over,
    })
}

/// What an entry says: the entry that is read, by the tables of types and fields, and the names
/// under which something is passed over. The error: there was no memory for it.
pub fn read_entry(alloc: Global, entry: &EntryRef<'_>) -> Result<Reading, OutOfMemory>
    ensures { IfOk result (λ r. reading_view r ≡ entry_said (entry_view entry.now)) }
{
    let fields = Fields::new(entry.fields.as_slice());
    let kind = kind_of(entry.kind, &fields);
    let passed_over = passed_at_first(alloc, entry, &fields, kind)?;
    // By a `match`: a `?` copies the entry once more.
    match Entry::new(alloc, entry.key, kind.entry) {
        Ok(own) => {
            let draft = Draft::new(alloc, own, passed_over);
            read_fields(alloc, draft, entry, &fields, kind)
        }
        Err(error) => {
            drop(passed_over);
            Err(error)
        }
    }
}
