//! Libraries: entries in order, each under its key.
ghost use Rattle.std.specs.Prelude.{◌≡◌, ◌↔◌, [], List, length, map, option_map, slice_get, IsTrue};
ghost use Rattle.std.specs.Prelude.{OnOk, OnErr, IfOk};
ghost use Rattle.std.specs.Iterator.{Drains, IsFinite};
ghost use Rattle.haya_entry.specs.declared.entry.Entry.{Entry as EntryData};
ghost use Rattle.haya_entry.specs.Tree.{view};
ghost use Rattle.haya_selectors.specs.Applied.{entry_value};
ghost use Rattle.indexmap.specs.IndexMap.{IsUnchanged, IsUnique, insert_entry};
ghost use Rattle.hayagriva.specs.Library.{key_of, get, push, from_entries, remove, AreDistinct};

mod iter;

use crate::HashKeys;
use haya_entry::Entry;
use haya_text::OutOfMemory;
use indexmap::IndexMap;
use indexmap::map::Entry as Place;
pub use iter::{Entries, IntoEntries, Keys};
use std::alloc::Global;
use std::hash::{BuildHasher, Hash};
use std::marker::Model;

/// Entries in order, no two of which have the same key.
#[derive(Debug, Drop)]
pub struct Library {
    stored: IndexMap<String, Entry, HashKeys>,
}

impl Model for Library {
    ghost use Rattle.std.specs.Prelude.{List};
    ghost use Rattle.std.specs.Coded.{coded_list};
    ghost use Rattle.haya_entry.specs.Tree.{Tree};
    ghost use Rattle.hayagriva.specs.Stored.{Fits, entries_of};
    ghost use Rattle.hayagriva.specs.TreeCode.{tree_coded};

    ghost Value = { List Tree };

    ghost coded = { coded_list tree_coded };

    ghost view = { λ l. entries_of l.stored.entries };

    ghost invariant = { λ l. Fits l.stored.entries };
}

impl Library {
    /// A library with no entries, whose map hashes with keys that are always the same.
    pub fn new(alloc: Global) -> Library
        ensures { result ≡ [] }
    {
        Library::with_hash_keys(alloc, HashKeys::new(0, 0))
    }

    /// A library with no entries, whose map hashes with these keys.
    pub fn with_hash_keys(alloc: Global, keys: HashKeys) -> Library
        ensures { result ≡ [] }
    {
        Library {
            stored: IndexMap::with_hasher(alloc, keys),
        }
    }

    /// A library of these entries, pushed in turn: of two with the same key, the later takes the
    /// place of the earlier. The only error is out of memory.
    pub fn from_entries<I: Iterator<Item = Entry> + Drop>(
        alloc: Global,
        entries: I,
    ) -> Result<Library, OutOfMemory>
        requires can_next { I.can_next entries }
        requires ends { IsFinite (I.remaining entries) }
        ensures { IfOk result (λ library. (given : List EntryData) ×
            Drains I.next_gives entries given × (library ≡ from_entries (map view given))) }
    {
        let mut library = Library::new(alloc);
        for entry in entries {
            library.insert(entry)?;
        }
        Ok(library)
    }

    /// How many entries there are.
    pub fn len(&self) -> usize
        ensures { result ≡ length self.now }
    {
        self.stored.len()
    }

    /// Whether there are none.
    pub fn is_empty(&self) -> bool
        ensures { IsTrue result ↔ (self.now ≡ []) }
    {
        self.stored.is_empty()
    }

    /// The entry with the key, if there is one.
    pub fn get(&self, key: &str) -> Option<&Entry>
        ensures { entry_value result ≡ get key.now self.now }
    {
        self.stored.get(key)
    }

    /// The entry at a place, if there is one. The first place is 0.
    pub fn nth(&self, place: usize) -> Option<&Entry>
        ensures { entry_value result ≡ slice_get self.now place }
    {
        let (_, entry) = self.stored.get_index(place)?;
        Some(entry)
    }

    /// The entries, in order.
    pub fn iter(&self) -> Entries<'_>
        ensures entries { result ≡ self.now }
        ensures distinct { AreDistinct self.now }
    {
        Entries::new(self.stored.iter())
    }

    /// The keys, in order.
    pub fn keys(&self) -> Keys<'_>
        ensures { result ≡ map key_of self.now }
    {
        Keys::new(self.stored.keys())
    }

    /// Puts a copy of the entry in the place of the one with its key, or last if there is none.
    /// When out of memory, the library is unchanged.
    pub fn push(&mut self, entry: &Entry) -> Result<(), OutOfMemory>
        ensures ok { OnOk result (self.new ≡ push (view entry.now) self.old) }
        ensures err { OnErr result (self.new ≡ self.old) }
    {
        let alloc = *self.stored.allocator();
        self.insert(entry.try_clone(alloc)?)
    }

    /// Puts the entry itself in the place of the one with its key, or last if there is none.
    pub fn insert(&mut self, entry: Entry) -> Result<(), OutOfMemory>
        ensures ok { OnOk result (self.new ≡ push (view entry) self.old) }
        ensures err { OnErr result (self.new ≡ self.old) }
    {
        let alloc = *self.stored.allocator();
        let key = String::from_str(alloc, entry.key())?;
        put(&mut self.stored, key, entry)?;
        Ok(())
    }

    /// Takes the entry with the key out, if there is one, and closes up the others.
    pub fn remove(&mut self, key: &str) -> Option<Entry>
        ensures entry { option_map view result ≡ get key.now self.old }
        ensures rest { self.new ≡ remove key.now self.old }
    {
        self.stored.shift_remove(key)
    }

    /// A copy: equal entries in the same order.
    pub fn try_clone(&self, alloc: Global) -> Result<Library, OutOfMemory>
        ensures { IfOk result (λ copy. copy ≡ self.now) }
    {
        let mut copy = Library::with_hash_keys(alloc, *self.stored.hasher());
        for entry in self.iter() {
            copy.push(entry)?;
        }
        Ok(copy)
    }
}

// Puts a value under a key, in the place of the one that is there, which is dropped there, or last.
fn put<K: Eq + Hash + Drop, V: Drop, S: BuildHasher>(
    map: &mut IndexMap<K, V, S>,
    key: K,
    value: V,
) -> Result<(), OutOfMemory>
    ensures entries { OnOk result
        (map.new.entries ≡ insert_entry K.eq map.old.entries key value) }
    ensures unique { OnOk result (IsUnique K.eq map.new) }
    ensures err { OnErr result (IsUnchanged map.old map.new) }
{
    match map.entry(key)? {
        Place::Occupied(held) => {
            *held.into_mut() = value;
            Ok(())
        }
        Place::Vacant(free) => {
            free.insert(value);
            Ok(())
        }
    }
}

impl<'a> IntoIterator for &'a Library {
    type Item = &'a Entry;

    type IntoIter = Entries<'a>;

    ghost into_iter_gives = { λ library entries. entries ≡ library.now };

    fn into_iter(self) -> Entries<'a> {
        self.iter()
    }
}

impl IntoIterator for Library {
    type Item = Entry;

    type IntoIter = IntoEntries;

    ghost into_iter_gives = { λ library entries. entries ≡ library };

    fn into_iter(self) -> IntoEntries {
        IntoEntries::new(self.stored.into_iter())
    }
}

impl PartialEq for Library {
    ghost use Rattle.hayagriva.specs.Equality.{library_eq};
    ghost use Rattle.hayagriva.specs.EqualityLaws.{library_laws};

    ghost eq = { library_eq };

    ghost laws = { library_laws };

    fn eq(&self, other: &Library) -> bool {
        self.stored == other.stored
    }
}
