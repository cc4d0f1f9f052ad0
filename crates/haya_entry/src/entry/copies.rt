//! Copies of entries.
ghost use Rattle.std.specs.Prelude.{◌≡◌, [], ◌∷◌, ◌++◌, IfOk, OnOk, map};
ghost use Rattle.haya_entry.specs.Tree.{Sets, view, fields, with_parents, with_people_of};
ghost use Rattle.haya_entry.specs.Tree.{with_rest_of};

use crate::Entry;
use haya_text::{OutOfMemory, TryClone};
use std::alloc::Global;

impl Entry {
    /// A copy, equal to this entry.
    pub fn try_clone(&self, alloc: Global) -> Result<Entry, OutOfMemory>
        ensures { IfOk result (λ copy. view copy ≡ view self.now) }
    {
        let parents = copies_of(alloc, &self.parents)?;
        self.copy_over(alloc, parents)
    }

    // A copy with these parents.
    fn copy_over(&self, alloc: Global, parents: Vec<Entry>) -> Result<Entry, OutOfMemory>
        ensures { IfOk result
            (λ copy. view copy ≡ with_parents (map view parents.items) (view self.now)) }
    {
        let mut copy = self.copy_without_parents(alloc)?;
        copy.set_parents(parents);
        Ok(copy)
    }

    // A copy of all but the parents.
    fn copy_without_parents(&self, alloc: Global) -> Result<Entry, OutOfMemory>
        ensures { IfOk result (λ copy. view copy ≡ with_parents [] (view self.now)) }
    {
        let mut copy = Entry::new(alloc, self.key(), self.entry_type())?;
        copy.copy_fields(alloc, self)?;
        Ok(copy)
    }

    // Takes all that isn't the key, the type or a parent over from another entry.
    fn copy_fields(&mut self, alloc: Global, from: &Entry) -> Result<(), OutOfMemory>
        ensures { OnOk result (Sets self.old self.new (λ f.
            with_rest_of (fields (view from.now)) (with_people_of (fields (view from.now)) f))) }
    {
        self.copy_people(alloc, from)?;
        self.copy_rest(alloc, from)?;
        Ok(())
    }

    // Takes the people over from another entry.
    fn copy_people(&mut self, alloc: Global, from: &Entry) -> Result<(), OutOfMemory>
        ensures { OnOk result (Sets self.old self.new (with_people_of (fields (view from.now)))) }
    {
        clone_from(alloc, &mut self.authors, &from.authors)?;
        clone_from(alloc, &mut self.editors, &from.editors)?;
        clone_from(alloc, &mut self.affiliated, &from.affiliated)?;
        Ok(())
    }

    // Takes the other fields over.
    fn copy_rest(&mut self, alloc: Global, from: &Entry) -> Result<(), OutOfMemory>
        ensures { OnOk result (Sets self.old self.new (with_rest_of (fields (view from.now)))) }
    {
        clone_from(alloc, &mut self.title, &from.title)?;
        clone_from(alloc, &mut self.location, &from.location)?;
        clone_from(alloc, &mut self.organization, &from.organization)?;
        clone_from(alloc, &mut self.archive, &from.archive)?;
        clone_from(alloc, &mut self.archive_location, &from.archive_location)?;
        clone_from(alloc, &mut self.call_number, &from.call_number)?;
        clone_from(alloc, &mut self.note, &from.note)?;
        clone_from(alloc, &mut self.abstract_, &from.abstract_)?;
        clone_from(alloc, &mut self.genre, &from.genre)?;
        self.date = from.date;
        clone_from(alloc, &mut self.publisher, &from.publisher)?;
        clone_from(alloc, &mut self.url, &from.url)?;
        clone_from(alloc, &mut self.issue, &from.issue)?;
        clone_from(alloc, &mut self.chapter, &from.chapter)?;
        clone_from(alloc, &mut self.volume, &from.volume)?;
        clone_from(alloc, &mut self.edition, &from.edition)?;
        clone_from(alloc, &mut self.volume_total, &from.volume_total)?;
        clone_from(alloc, &mut self.page_total, &from.page_total)?;
        clone_from(alloc, &mut self.page_range, &from.page_range)?;
        clone_from(alloc, &mut self.time_range, &from.time_range)?;
        clone_from(alloc, &mut self.runtime, &from.runtime)?;
        clone_from(alloc, &mut self.serial_number, &from.serial_number)?;
        clone_from(alloc, &mut self.language, &from.language)?;
        Ok(())
    }
}

// Copies of entries, in order. It goes up to their ancestors by calls, so it holds no entry itself.
fn copies_of(alloc: Global, entries: &[Entry]) -> Result<Vec<Entry>, OutOfMemory>
    ensures { IfOk result (λ copies. map view copies.items ≡ map view entries.now) }
{
    let mut all = Vec::with_capacity(alloc, entries.len())?;
    for entry in entries {
        let parents = copies_of(alloc, &entry.parents)?;
        push_copy(alloc, &mut all, entry, parents)?;
    }
    Ok(all)
}

// Puts a copy with these parents behind the others.
#[inline(never)]
fn push_copy(
    alloc: Global,
    all: &mut Vec<Entry>,
    entry: &Entry,
    parents: Vec<Entry>,
) -> Result<(), OutOfMemory>
    ensures { OnOk result (map view all.new.items ≡
        map view all.old.items ++ with_parents (map view parents.items) (view entry.now) ∷ []) }
{
    all.push(entry.copy_over(alloc, parents)?)?;
    Ok(())
}

// Makes a value a copy of another one.
fn clone_from<T: TryClone + Drop>(alloc: Global, to: &mut T, from: &T) -> Result<(), OutOfMemory>
    ensures { OnOk result (T.view to.new ≡ T.view from.now) }
{
    *to = from.try_clone(alloc)?;
    Ok(())
}
