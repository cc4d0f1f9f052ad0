//! The entries that one entry makes: its own, and the parents that its fields go to.
ghost use Rattle.std.specs.Prelude.{◌≡◌, ◌++◌, [], map, option_map, IfOk, OnOk, string_bytes};
ghost use Rattle.haya_entry.specs.Tree.{view};
ghost use Rattle.haya_bibtex_entries.specs.Drafts.{below, draft_of, draft_view, draft_with};
ghost use Rattle.haya_bibtex_entries.specs.Drafts.{entry_made, parent_with, so_far, with_row};
ghost use Rattle.haya_bibtex_entries.specs.Rows.{commands, row};
ghost use Rattle.haya_bibtex_entries.specs.Values.{value_view};

use crate::rows::commands;
use crate::values::{Value, set_value};
use haya_entry::{Entry, EntryType};
use haya_text::OutOfMemory;
use std::alloc::Global;
use std::mem::replace;

/// One of the entries that an entry makes.
#[derive(Clone, Copy)]
pub(crate) enum Level {
    /// Its own.
    Own,
    /// What it appears in, of this type.
    Host(EntryType),
    /// The conference at which it was given.
    Conference,
    /// The work in several volumes that it is a part of.
    Main,
    /// The series that all of these are part of.
    Series,
    /// The work as it first appeared.
    Original,
}

/// The entry's own, each parent that a field went to, none or one, and what is passed over.
#[derive(Drop)]
pub(crate) struct Draft {
    pub(crate) own: Entry,
    pub(crate) host: Vec<Entry>,
    pub(crate) conference: Vec<Entry>,
    pub(crate) main: Vec<Entry>,
    pub(crate) series: Vec<Entry>,
    pub(crate) original: Vec<Entry>,
    pub(crate) passed_over: Vec<String>,
}

impl Draft {
    /// No field went to any entry but this one so far, and these names are passed over.
    #[inline]
    pub(crate) fn new(alloc: Global, own: Entry, passed_over: Vec<String>) -> Draft
        ensures draft { draft_view result ≡ draft_of (view own) }
        ensures passed_over { result.passed_over ≡ passed_over }
    {
        Draft {
            own,
            host: Vec::new(alloc),
            conference: Vec::new(alloc),
            main: Vec::new(alloc),
            series: Vec::new(alloc),
            original: Vec::new(alloc),
            passed_over,
        }
    }

    /// Puts a value, if there is one, where it goes, and names behind those that are passed over.
    #[inline]
    pub(crate) fn add(
        &mut self,
        alloc: Global,
        key: &str,
        level: Level,
        value: Option<Value>,
        mut passed_over: Vec<String>,
    ) -> Result<(), OutOfMemory>
        ensures { OnOk result (so_far self.new
            ≡ with_row key.now (row level (option_map value_view value)
            (map string_bytes passed_over.items)) (so_far self.old)) }
    {
        if !passed_over.is_empty() {
            self.passed_over.append(&mut passed_over)?;
        }
        match value {
            Some(value) => self.put(alloc, key, level, value),
            None => Ok(()),
        }
    }

    /// The same with commands that aren't known.
    #[inline]
    pub(crate) fn add_read(
        &mut self,
        alloc: Global,
        key: &str,
        level: Level,
        value: Option<Value>,
        unknown: Vec<String>,
    ) -> Result<(), OutOfMemory>
        ensures { OnOk result (so_far self.new
            ≡ with_row key.now (row level (option_map value_view value)
            (commands (map string_bytes unknown.items))) (so_far self.old)) }
    {
        let passed_over = commands(alloc, unknown)?;
        self.add(alloc, key, level, value, passed_over)
    }

    // Puts a value to one of the entries.
    fn put(
        &mut self,
        alloc: Global,
        key: &str,
        level: Level,
        value: Value,
    ) -> Result<(), OutOfMemory>
        ensures draft { OnOk result (draft_view self.new
            ≡ draft_with key.now level (value_view value) (draft_view self.old)) }
        ensures same { OnOk result (self.new.passed_over ≡ self.old.passed_over) }
    {
        match level {
            Level::Own => set_value(&mut self.own, value),
            Level::Host(kind) => put_parent(alloc, &mut self.host, key, kind, value),
            Level::Conference => {
                put_parent(
                    alloc,
                    &mut self.conference,
                    key,
                    EntryType::Conference,
                    value,
                )
            }
            Level::Main => put_parent(alloc, &mut self.main, key, EntryType::Anthology, value),
            Level::Series => put_parent(alloc, &mut self.series, key, EntryType::Anthology, value),
            Level::Original => {
                put_parent(alloc, &mut self.original, key, EntryType::Original, value)
            }
        }
    }

    /// Gives the entry the parents that were made.
    pub(crate) fn close(&mut self, alloc: Global) -> Result<(), OutOfMemory>
        ensures own { OnOk result (view self.new.own ≡ entry_made (draft_view self.old)) }
        ensures same { OnOk result (self.new.passed_over ≡ self.old.passed_over) }
    {
        let host = replace(&mut self.host, Vec::new(alloc));
        let conference = replace(&mut self.conference, Vec::new(alloc));
        let main = replace(&mut self.main, Vec::new(alloc));
        let series = replace(&mut self.series, Vec::new(alloc));
        let original = replace(&mut self.original, Vec::new(alloc));
        let parents = below(host, below(conference, below(main, series)));
        self.own.set_parents(joined(parents, original)?);
        Ok(())
    }
}

// Puts a value to a parent, which is made where it isn't there yet.
fn put_parent(
    alloc: Global,
    parents: &mut Vec<Entry>,
    key: &str,
    kind: EntryType,
    value: Value,
) -> Result<(), OutOfMemory>
    ensures { OnOk result (map view parents.new.items
        ≡ parent_with key.now kind (value_view value) (map view parents.old.items)) }
{
    if parents.is_empty() {
        return put_new(alloc, parents, key, kind, value);
    }
    set_value(&mut parents[0], value)
}

// The same where there is none.
fn put_new(
    alloc: Global,
    parents: &mut Vec<Entry>,
    key: &str,
    kind: EntryType,
    value: Value,
) -> Result<(), OutOfMemory>
    requires { parents.old.items ≡ [] }
    ensures { OnOk result (map view parents.new.items
        ≡ parent_with key.now kind (value_view value) (map view parents.old.items)) }
{
    // There is no other: with no more room than for this one.
    parents.reserve_exact(1)?;
    let mut entry = match Entry::new(alloc, key, kind) {
        Ok(entry) => entry,
        Err(error) => {
            drop(value);
            return Err(error);
        }
    };
    match set_value(&mut entry, value) {
        Ok(()) => match parents.push(entry) {
            Ok(()) => Ok(()),
            Err(_) => Err(OutOfMemory),
        },
        Err(error) => {
            drop(entry);
            Err(error)
        }
    }
}

// An entry in these parents, and they alone where there is none.
fn below(mut entries: Vec<Entry>, parents: Vec<Entry>) -> Vec<Entry>
    ensures { map view result.items ≡ below (map view entries.items) (map view parents.items) }
{
    if entries.is_empty() {
        drop(entries);
        return parents;
    }
    entries[0].set_parents(parents);
    entries
}

// All of these entries, in order.
fn joined(mut entries: Vec<Entry>, mut last: Vec<Entry>) -> Result<Vec<Entry>, OutOfMemory>
    ensures { IfOk result (λ all.
        map view all.items ≡ map view entries.items ++ map view last.items) }
{
    match entries.append(&mut last) {
        Ok(()) => {
            drop(last);
            Ok(entries)
        }
        Err(_) => {
            drop(entries);
            drop(last);
            Err(OutOfMemory)
        }
    }
}
