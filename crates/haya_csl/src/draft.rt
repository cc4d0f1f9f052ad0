//! The entries that an item makes: its own, and the parents that its members go to.
ghost use Rattle.std.specs.Prelude.{◌≡◌, ◌++◌, [], ◌∷◌, map, if◌then◌else◌, IfOk, OnOk};
ghost use Rattle.json.specs.Value.{value_view};
ghost use Rattle.haya_entry.specs.Tree.{new_entry, view};
ghost use Rattle.haya_people.specs.Roles.{role_view};
ghost use Rattle.haya_json.specs.Notes.{losts_view};
ghost use Rattle.haya_csl.specs.Draft.{draft_view, member_view};
ghost use Rattle.haya_csl.specs.Fields.{role_setter, setter_of};
ghost use Rattle.haya_csl.specs.Items.{below, draft_of, entry_made, parent_set, parents_after};
ghost use Rattle.haya_csl.specs.Items.{set_at};
ghost use Rattle.haya_csl.specs.declared.members.Level.TheVariants.{Own};

use crate::fields::{Field, Set, add_persons, set_field};
use crate::members::Level;
use haya_entry::{Entry, EntryType};
use haya_json::Lost;
use haya_people::PersonRole;
use haya_text::OutOfMemory;
use json::Value;
use std::alloc::Global;
use std::mem::replace;

/// The item's own entry, and each parent that a member of the item went to: none, or one.
#[derive(Drop)]
pub(crate) struct Draft {
    pub(crate) own: Entry,
    host: Vec<Entry>,
    venue: Vec<Entry>,
    series: Vec<Entry>,
    original: Vec<Entry>,
}

impl Draft {
    /// Of this entry, without parents.
    pub(crate) fn new(alloc: Global, own: Entry) -> Draft
        ensures { draft_view result ≡ draft_of (view own) }
    {
        Draft {
            own,
            host: Vec::new(alloc),
            venue: Vec::new(alloc),
            series: Vec::new(alloc),
            original: Vec::new(alloc),
        }
    }

    /// Sets a field of one of the entries to what the value says, and answers what is lost of it.
    pub(crate) fn set(
        &mut self,
        alloc: Global,
        level: Level,
        key: &str,
        field: Field,
        name: &str,
        item: &Value<'_>,
        json: &Value<'_>,
    ) -> Result<Vec<Lost>, OutOfMemory>
        ensures { IfOk result (λ lost.
            set_at level key.now (setter_of field name.now (value_view item.now))
            (value_view json.now) (draft_view self.old) ≡ member_view lost.items self.new) }
    {
        match level {
            Level::Own => set_own(alloc, &mut self.own, field, name, item, json),
            Level::Host(kind) => {
                set_parent(alloc, &mut self.host, key, kind, field, name, item, json)
            }
            Level::Venue(kind) => {
                set_parent(alloc, &mut self.venue, key, kind, field, name, item, json)
            }
            Level::Series => {
                let kind = EntryType::Anthology;
                set_parent(alloc, &mut self.series, key, kind, field, name, item, json)
            }
            Level::Original => {
                let kind = EntryType::Original;
                set_parent(
                    alloc,
                    &mut self.original,
                    key,
                    kind,
                    field,
                    name,
                    item,
                    json,
                )
            }
        }
    }

    /// Puts persons with this role behind those that the item's own entry has, and answers what is
    /// lost of the value.
    pub(crate) fn add_persons(
        &mut self,
        alloc: Global,
        role: PersonRole,
        key: &str,
        name: &str,
        json: &Value<'_>,
    ) -> Result<Vec<Lost>, OutOfMemory>
        ensures { IfOk result (λ lost.
            set_at Own key.now (role_setter (role_view role) name.now) (value_view json.now)
            (draft_view self.old) ≡ member_view lost.items self.new) }
    {
        match add_persons(alloc, &mut self.own, role, name, json) {
            Ok(set) => Ok(set.lost),
            Err(error) => Err(error),
        }
    }

    /// Gives the item's own entry the parents that were made.
    pub(crate) fn close(&mut self, alloc: Global) -> Result<(), OutOfMemory>
        ensures { OnOk result (view self.new.own ≡ entry_made (draft_view self.old)) }
    {
        let host = replace(&mut self.host, Vec::new(alloc));
        let venue = replace(&mut self.venue, Vec::new(alloc));
        let series = replace(&mut self.series, Vec::new(alloc));
        let original = replace(&mut self.original, Vec::new(alloc));
        let parents = below(host, below(venue, series));
        self.own.set_parents(joined(parents, original)?);
        Ok(())
    }
}

// Sets a field of an entry, and answers what is lost of the value.
fn set_own(
    alloc: Global,
    entry: &mut Entry,
    field: Field,
    name: &str,
    item: &Value<'_>,
    json: &Value<'_>,
) -> Result<Vec<Lost>, OutOfMemory>
    ensures after { OnOk result
        ((setter_of field name.now (value_view item.now) (value_view json.now)
        (view entry.old)).after ≡ view entry.new) }
    ensures lost { IfOk result (λ lost.
        (setter_of field name.now (value_view item.now) (value_view json.now)
        (view entry.old)).lost ≡ losts_view lost.items) }
{
    match set_field(alloc, entry, field, name, item, json) {
        Ok(set) => Ok(set.lost),
        Err(error) => Err(error),
    }
}

// The same of a parent, which is made where it isn't there yet, and where the value sets anything.
fn set_parent(
    alloc: Global,
    parents: &mut Vec<Entry>,
    key: &str,
    kind: EntryType,
    field: Field,
    name: &str,
    item: &Value<'_>,
    json: &Value<'_>,
) -> Result<Vec<Lost>, OutOfMemory>
    ensures after { OnOk result
        (parents_after (parent_set key.now kind (setter_of field name.now (value_view item.now))
        (value_view json.now) (map view parents.old.items)) (map view parents.old.items)
        ≡ map view parents.new.items) }
    ensures lost { IfOk result (λ lost.
        (parent_set key.now kind (setter_of field name.now (value_view item.now))
        (value_view json.now) (map view parents.old.items)).lost ≡ losts_view lost.items) }
{
    if parents.is_empty() {
        return set_new(alloc, parents, key, kind, field, name, item, json);
    }
    set_own(alloc, &mut parents[0], field, name, item, json)
}

// The same of a new entry, which comes last.
fn set_new(
    alloc: Global,
    entries: &mut Vec<Entry>,
    key: &str,
    kind: EntryType,
    field: Field,
    name: &str,
    item: &Value<'_>,
    json: &Value<'_>,
) -> Result<Vec<Lost>, OutOfMemory>
    ensures after { OnOk result
        (let set = setter_of field name.now (value_view item.now) (value_view json.now)
        (new_entry key.now kind) in
        map view entries.new.items
        ≡ map view entries.old.items ++ (if set.is_set then set.after ∷ [] else [])) }
    ensures lost { IfOk result (λ lost.
        (setter_of field name.now (value_view item.now) (value_view json.now)
        (new_entry key.now kind)).lost ≡ losts_view lost.items) }
{
    // By a `match`: a `?` copies the entry twice more.
    let mut entry = match Entry::new(alloc, key, kind) {
        Ok(entry) => entry,
        Err(error) => return Err(error),
    };
    match set_field(alloc, &mut entry, field, name, item, json) {
        Ok(set) => keep_new(entries, entry, set),
        Err(error) => {
            drop(entry);
            Err(error)
        }
    }
}

// Puts an entry last where anything is set on it, and answers what is lost of the value.
fn keep_new(entries: &mut Vec<Entry>, entry: Entry, set: Set) -> Result<Vec<Lost>, OutOfMemory>
    ensures after { OnOk result (map view entries.new.items
        ≡ map view entries.old.items ++ (if set.is_set then view entry ∷ [] else [])) }
    ensures lost { IfOk result (λ lost. lost.items ≡ set.lost.items) }
{
    let Set { is_set, lost } = set;
    if !is_set {
        drop(entry);
        return Ok(lost);
    }
    match entries.push(entry) {
        Ok(()) => Ok(lost),
        Err(_) => {
            drop(lost);
            Err(OutOfMemory)
        }
    }
}

// An entry in these parents, and they alone where there is none.
fn below(mut entries: Vec<Entry>, parents: Vec<Entry>) -> Vec<Entry>
    ensures { map view result.items ≡ below (map view entries.items) (map view parents.items) }
{
    if entries.is_empty() {
        drop(entries);
        return parents;
    }
    entries[0].set_parents(parents);
    entries
}

// All of these entries, in order.
fn joined(mut entries: Vec<Entry>, mut last: Vec<Entry>) -> Result<Vec<Entry>, OutOfMemory>
    ensures { IfOk result (λ all.
        map view all.items ≡ map view entries.items ++ map view last.items) }
{
    match entries.append(&mut last) {
        Ok(()) => {
            drop(last);
            Ok(entries)
        }
        Err(_) => {
            drop(entries);
            drop(last);
            Err(OutOfMemory)
        }
    }
}
