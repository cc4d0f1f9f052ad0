//! The names of bracket lists as sets of fields.
ghost use Rattle.std.specs.Prelude.{◌≡◌, ◌↔◌, ◌<◌, ℕ, IsTrue, List, map, string_bytes};
ghost use Rattle.haya_entry.specs.contracts.entry.Entry as the_entry;
ghost use Rattle.haya_entry.specs.Names.{has_all};
ghost use Rattle.haya_entry.specs.declared.entry.Entry.{Entry as EntryValue};
ghost use Rattle.haya_entry.specs.Tree.{view, view as tree};
ghost use Rattle.haya_selectors.specs.NameNumbers.{HasFields, IsHad, IsIn, SameOthers};
ghost use Rattle.haya_selectors.specs.NameNumbers.{StandsForNames};

use haya_entry::{Entry, FieldName};
use std::marker::Model;
use std::snapshot::Snapshot;

// The first field of a set that has one.
fn first_of(set: u32) -> FieldName
    requires { 0 < set }
    ensures { IsIn result set }
{
    FieldName::ALL[set.trailing_zeros() as usize]
}

// The set with this field.
fn with(set: u32, field: FieldName) -> u32
    ensures this { IsIn field result }
    ensures others { SameOthers field set result }
{
    set | 1 << field as u32
}

// The set without this field, which it has.
fn without(set: u32, field: FieldName) -> u32
    requires { IsIn field set }
    ensures smaller { result < set }
    ensures this { IsIn field result → ⊥ }
    ensures others { SameOthers field set result }
{
    set & !(1 << field as u32)
}

// Of the fields that are asked for, those that the entry has.
fn had_of(entry: &Entry, asked: u32) -> u32
    ensures { IsHad (view entry.now) asked result }
{
    let mut had = asked;
    let mut left = asked;
    'fields: while left != 0 {
        let field = first_of(left);
        if !entry.has_field(field) {
            had = without(had, field);
        }
        left = without(left, field);
    }
    had
}

// Whether the entry has each field. The first one that is missing ends the search.
fn has_each(entry: &Entry, fields: u32) -> bool
    ensures { IsTrue result ↔ HasFields (view entry.now) fields }
{
    let mut left = fields;
    'fields: while left != 0 {
        let field = first_of(left);
        if !entry.has_field(field) {
            return false;
        }
        left = without(left, field);
    }
    true
}

// The names of a bracket list: the fields that have them, and whether there are others.
#[derive(Drop)]
pub(crate) struct NameSet {
    fields: u32,
    unknown: bool,
    // The list itself, for contracts alone.
    list: Snapshot<Vec<String>>,
}

impl Model for NameSet {
    ghost Value = { List (List ℕ) };

    ghost view = { λ s. map string_bytes s.list.value.items };

    ghost invariant = { λ s.
        StandsForNames s.fields s.unknown (map string_bytes s.list.value.items) };
}

impl NameSet {
    // The set of a list.
    pub(crate) fn new(list: &Vec<String>) -> NameSet
        ensures { result ≡ map string_bytes list.now.items }
    {
        let mut fields = 0;
        let mut unknown = false;
        'names: for name in list {
            match name.parse::<FieldName>() {
                Ok(field) => fields = with(fields, field),
                Err(_) => unknown = true,
            }
        }
        NameSet {
            fields,
            unknown,
            list: Snapshot::of(list),
        }
    }

    // The fields, as the bits of a number.
    pub(crate) fn numbers(&self) -> u32 {
        self.fields
    }

    // Whether the entry has every name.
    pub(crate) fn is_had(&self, entry: &Entry) -> bool
        ensures { result ≡ has_all self.now (view entry.now) }
    {
        !self.unknown && has_each(entry, self.fields)
    }
}

// An entry, and of some fields those that it has.
#[derive(Drop)]
pub(crate) struct Asked<'e> {
    entry: &'e Entry,
    asked: u32,
    had: u32,
}

impl<'e> Model for Asked<'e> {
    ghost Value = { EntryValue };

    ghost coded = { the_entry.the_row.coded };

    ghost view = { λ a. a.entry.now };

    ghost invariant = { λ a. IsHad (tree a.entry.now) a.asked a.had };
}

impl<'e> Asked<'e> {
    // The entry, with what it has of the fields looked up.
    pub(crate) fn new(entry: &'e Entry, asked: u32) -> Asked<'e>
        ensures { result ≡ entry.now }
    {
        Asked {
            entry,
            asked,
            had: had_of(entry, asked),
        }
    }

    // The entry.
    pub(crate) fn entry(&self) -> &'e Entry
        ensures { result.now ≡ self.now }
    {
        self.entry
    }

    // Whether the entry has every name.
    pub(crate) fn has(&self, names: &NameSet) -> bool
        ensures { result ≡ has_all names.now (view self.now) }
    {
        if names.fields & !self.asked == 0 {
            return !names.unknown && names.fields & !self.had == 0;
        }
        names.is_had(self.entry)
    }
}
