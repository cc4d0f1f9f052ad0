//! Which items are printed.
ghost use Rattle.std.specs.Prelude.{◌≡◌, ◌++◌, ◌∷◌, [], IfOk, IsTrue, OnOk, Some, filter, map};
ghost use Rattle.haya_bibtex_slices.specs.Adding.{AddsCalled, AddsSome};
ghost use Rattle.haya_bibtex_slices.specs.Texts.{is_definition};
ghost use Rattle.haya_bibtex_slices.specs.Views.{item_view};

use crate::item::BibtexItem;
use haya_text::OutOfMemory;
use std::alloc::Global;
use std::collections::BTreeMap;

// Whether an entry is printed, and why.
#[derive(Clone, Copy, Drop, PartialEq, Eq)]
enum Mark {
    // It isn't.
    Left,
    // It is that of a hit.
    Picked,
    // Others inherit from it.
    Source,
}

/// Where the entries of items are, by their keys: of those with one key the first of the last text
/// that has it.
#[derive(Drop)]
pub(crate) struct Index {
    // Keys that are made to collide cost no more than others.
    places: BTreeMap<String, usize>,
}

impl Index {
    /// That of these items.
    pub(crate) fn new(alloc: Global, items: &[BibtexItem<'_>]) -> Result<Index, OutOfMemory> {
        let mut index = Index {
            places: BTreeMap::new(alloc),
        };
        'items: for (at, item) in items.iter().enumerate() {
            if let Some(entry) = &item.entry {
                index.put(alloc, items, at, item.number, entry.key.as_str())?;
            }
        }
        Ok(index)
    }

    // Puts in the entry with a key that is at a place, in the text of a number. It takes the place of
    // one of another text, not of its own.
    fn put(
        &mut self,
        alloc: Global,
        items: &[BibtexItem<'_>],
        at: usize,
        number: usize,
        key: &str,
    ) -> Result<(), OutOfMemory> {
        if let Some(before) = self.place(key) {
            if let Some(item) = items.get(before) {
                if item.number == number {
                    return Ok(());
                }
            }
        }
        self.places.insert(String::from_str(alloc, key)?, at)?;
        Ok(())
    }

    /// Where the entry with the key is.
    pub(crate) fn place(&self, key: &str) -> Option<usize> {
        self.places.get(key).copied()
    }

    /// Where the entries are that those at these places inherit from, however far, in order, but for
    /// those at the places. No circle is followed twice.
    pub(crate) fn source_places(
        &self,
        alloc: Global,
        items: &[BibtexItem<'_>],
        picks: &[usize],
    ) -> Result<Vec<usize>, OutOfMemory> {
        let mut marks = marked(alloc, items.len(), picks)?;
        let mut reached = Vec::new(alloc);
        'picks: for pick in picks {
            reached.push(*pick)?;
        }
        // Each item is reached once.
        'reached: for at in 0..items.len() {
            let Some(place) = reached.get(at).copied() else {
                break 'reached;
            };
            if let Some(item) = items.get(place) {
                self.reach(item, &mut marks, &mut reached)?;
            }
        }
        sources(alloc, marks.as_slice())
    }

    // Marks the entries that an item inherits from and that have no mark yet, and puts them behind
    // those that are reached.
    fn reach(
        &self,
        item: &BibtexItem<'_>,
        marks: &mut Vec<Mark>,
        reached: &mut Vec<usize>,
    ) -> Result<(), OutOfMemory> {
        let Some(entry) = &item.entry else {
            return Ok(());
        };
        'sources: for key in entry.sources.as_slice() {
            let Some(place) = self.place(key.as_str()) else {
                continue 'sources;
            };
            let Some(mark) = marks.get_mut(place) else {
                continue 'sources;
            };
            if *mark == Mark::Left {
                *mark = Mark::Source;
                reached.push(place)?;
            }
        }
        Ok(())
    }
}

// Marks of so many items, of which those at these places are picked.
fn marked(alloc: Global, count: usize, picks: &[usize]) -> Result<Vec<Mark>, OutOfMemory> {
    let mut marks = Vec::new(alloc);
    'items: for _ in 0..count {
        marks.push(Mark::Left)?;
    }
    'picks: for pick in picks {
        if let Some(mark) = marks.get_mut(*pick) {
            *mark = Mark::Picked;
        }
    }
    Ok(marks)
}

// The places of the sources, in order.
fn sources(alloc: Global, marks: &[Mark]) -> Result<Vec<usize>, OutOfMemory> {
    let mut places = Vec::new(alloc);
    'marks: for (at, mark) in marks.iter().enumerate() {
        if *mark == Mark::Source {
            places.push(at)?;
        }
    }
    Ok(places)
}

/// Puts the bytes of the items that are no entry behind others, in order.
pub(crate) fn push_definitions<'t>(
    items: &[BibtexItem<'t>],
    parts: &mut Vec<&'t str>,
) -> Result<(), OutOfMemory>
    ensures { OnOk result (map (λ s. s.now) parts.new.items ≡ map (λ s. s.now) parts.old.items
        ++ map (λ i. i.part) (filter is_definition (map item_view items.now))) }
{
    'items: for item in items {
        push_definition(item, parts)?;
    }
    Ok(())
}

// The same of one item.
fn push_definition<'t>(item: &BibtexItem<'t>, parts: &mut Vec<&'t str>) -> Result<(), OutOfMemory>
    ensures { OnOk result (map (λ s. s.now) parts.new.items ≡ map (λ s. s.now) parts.old.items
        ++ map (λ i. i.part) (filter is_definition (item_view item.now ∷ []))) }
{
    if item.entry.is_none() {
        parts.push(item.text)?;
    }
    Ok(())
}

/// Puts the bytes of the items at places behind others.
pub(crate) fn push_items_at<'t>(
    items: &[BibtexItem<'t>],
    places: &[usize],
    parts: &mut Vec<&'t str>,
) -> Result<(), OutOfMemory>
    ensures { OnOk result (AddsSome (map item_view items.now)
        (map (λ s. s.now) parts.old.items) (map (λ s. s.now) parts.new.items)) }
{
    'places: for place in places {
        push_item_at(items, *place, parts)?;
    }
    Ok(())
}

// The same of the item at one place, where there is one.
fn push_item_at<'t>(
    items: &[BibtexItem<'t>],
    place: usize,
    parts: &mut Vec<&'t str>,
) -> Result<(), OutOfMemory>
    ensures { OnOk result (AddsSome (map item_view items.now)
        (map (λ s. s.now) parts.old.items) (map (λ s. s.now) parts.new.items)) }
{
    if place >= items.len() {
        return Ok(());
    }
    parts.push(items[place].text)?;
    Ok(())
}

/// Puts the bytes of the item at a place behind others, where it is an entry with this key: whether
/// it is.
pub(crate) fn push_called<'t>(
    items: &[BibtexItem<'t>],
    place: usize,
    key: &str,
    parts: &mut Vec<&'t str>,
) -> Result<bool, OutOfMemory>
    ensures { IfOk result (λ is. IsTrue is → AddsCalled (map item_view items.now) key.now
        (map (λ s. s.now) parts.old.items) (map (λ s. s.now) parts.new.items)) }
{
    if place >= items.len() {
        return Ok(false);
    }
    let item = &items[place];
    if !is_called(item, key) {
        return Ok(false);
    }
    parts.push(item.text)?;
    Ok(true)
}

// Whether the item is an entry with this key.
fn is_called(item: &BibtexItem<'_>, key: &str) -> bool
    ensures { IsTrue result → (item_view item.now).key ≡ Some key.now }
{
    match &item.entry {
        Some(entry) => entry.key.as_str() == key,
        None => false,
    }
}
