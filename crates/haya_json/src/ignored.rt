//! The members of entries that are passed over, counted by their names.
ghost use Rattle.std.specs.Prelude.{◌≡◌, ◌↔◌, [], IsTrue, OnOk, OnErr};
ghost use Rattle.haya_json.specs.Tally.{count_of, counted};
ghost use Rattle.haya_json.specs.Ignored.{counts_of};

use haya_text::OutOfMemory;
use hayagriva::HashKeys;
use indexmap::{IndexMap, map};
use std::alloc::Global;
use std::marker::Model;

/// The members of entries that are passed over: their names, each with how often it came, in the
/// order in which they first came. A count goes to 2^64 - 1, and stays there.
#[derive(Debug, PartialEq, Eq, Drop)]
pub struct Ignored {
    counts: IndexMap<String, u64, HashKeys>,
}

impl Ignored {
    /// No names, in a map that hashes with keys that are always the same.
    pub fn new(alloc: Global) -> Ignored
        ensures { counts_of result ≡ [] }
    {
        Ignored::with_hash_keys(alloc, HashKeys::new(0, 0))
    }

    /// No names, in a map that hashes with these keys.
    pub fn with_hash_keys(alloc: Global, keys: HashKeys) -> Ignored
        ensures { counts_of result ≡ [] }
    {
        Ignored {
            counts: IndexMap::with_hasher(alloc, keys),
        }
    }

    /// Counts a name once more.
    pub fn add(&mut self, name: &str) -> Result<(), OutOfMemory>
        ensures ok { OnOk result (counts_of self.new ≡ counted name.now (counts_of self.old)) }
        ensures err { OnErr result (counts_of self.new ≡ counts_of self.old) }
    {
        let alloc = *self.counts.allocator();
        let count = self.count(name).saturating_add(1);
        let name = String::from_str(alloc, name)?;
        self.counts.insert(name, count)?;
        Ok(())
    }

    /// Whether there are no names.
    pub fn is_empty(&self) -> bool
        ensures { IsTrue result ↔ (counts_of self.now ≡ []) }
    {
        self.counts.is_empty()
    }

    /// How often the name came.
    pub fn count(&self, name: &str) -> u64
        ensures { result ≡ count_of name.now (counts_of self.now) }
    {
        self.counts.get(name).copied().unwrap_or(0)
    }

    /// The names, each with how often it came, in the order in which they first came.
    pub fn iter(&self) -> IgnoredNames<'_>
        ensures { result ≡ counts_of self.now }
    {
        IgnoredNames {
            rest: self.counts.iter(),
        }
    }
}

/// Names that were passed over, each with how often it came. Contracts see it as the list of what
/// it has left.
#[derive(Drop)]
pub struct IgnoredNames<'a> {
    rest: map::Iter<'a, String, u64>,
}

impl<'a> Model for IgnoredNames<'a> {
    ghost use Rattle.haya_json.specs.Tally.{Counts, by_bytes};

    ghost Value = { Counts };

    ghost view = { λ a. by_bytes a.rest };
}

impl<'a> Iterator for IgnoredNames<'a> {
    ghost use Rattle.std.specs.Iterator.{YieldsFirstBy, item_count};

    type Item = (&'a str, u64);

    ghost next_gives = { YieldsFirstBy (λ e. (e.0.now, e.1)) (λ s. s) };

    ghost remaining = { item_count (λ s. s) };

    fn next(&mut self) -> Option<(&'a str, u64)> {
        let (name, count) = self.rest.next()?;
        Some((name.as_str(), *count))
    }
}

impl<'a> IntoIterator for &'a Ignored {
    type Item = (&'a str, u64);

    type IntoIter = IgnoredNames<'a>;

    ghost into_iter_gives = { λ ignored names. names ≡ counts_of ignored.now };

    fn into_iter(self) -> IgnoredNames<'a> {
        self.iter()
    }
}
