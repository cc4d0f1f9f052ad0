//! The iterators of a library. Contracts see each as the list of what it has left.
ghost use Rattle.std.specs.Prelude.{◌≡◌, ℕ, List, map};
ghost use Rattle.std.specs.Coded.{coded_list};
ghost use Rattle.std.specs.Iterator.{YieldsFirstBy, item_count};
ghost use Rattle.std.specs.Map.{keys_of};
ghost use Rattle.haya_entry.specs.Tree.{Tree, view};
ghost use Rattle.hayagriva.specs.Stored.{entries_of, texts_of};
ghost use Rattle.hayagriva.specs.TreeCode.{tree_coded};

use haya_entry::Entry;
use indexmap::map;
use std::marker::Model;

/// The entries of a library, in order.
#[derive(Drop)]
pub struct Entries<'a> {
    rest: map::Iter<'a, String, Entry>,
}

impl<'a> Model for Entries<'a> {
    ghost Value = { List Tree };

    ghost coded = { coded_list tree_coded };

    ghost view = { λ a. entries_of a.rest };
}

impl<'a> Entries<'a> {
    pub(crate) fn new(rest: map::Iter<'a, String, Entry>) -> Entries<'a>
        ensures { result ≡ entries_of rest.entry }
    {
        Entries { rest }
    }
}

impl<'a> Iterator for Entries<'a> {
    type Item = &'a Entry;

    ghost next_gives = { YieldsFirstBy (λ e. view e.now) (λ s. s) };

    ghost remaining = { item_count (λ s. s) };

    fn next(&mut self) -> Option<&'a Entry> {
        let (_, entry) = self.rest.next()?;
        Some(entry)
    }
}

/// The keys of a library, in order.
#[derive(Drop)]
pub struct Keys<'a> {
    rest: map::Keys<'a, String, Entry>,
}

impl<'a> Model for Keys<'a> {
    ghost Value = { List (List ℕ) };

    ghost view = { λ a. texts_of a.rest };
}

impl<'a> Keys<'a> {
    pub(crate) fn new(rest: map::Keys<'a, String, Entry>) -> Keys<'a>
        ensures { result ≡ texts_of rest.entry }
    {
        Keys { rest }
    }
}

impl<'a> Iterator for Keys<'a> {
    type Item = &'a str;

    ghost next_gives = { YieldsFirstBy (λ key. key.now) (λ s. s) };

    ghost remaining = { item_count (λ s. s) };

    fn next(&mut self) -> Option<&'a str> {
        let key = self.rest.next()?;
        Some(key.as_str())
    }
}

/// The entries of a library that is given away, in order.
#[derive(Drop)]
pub struct IntoEntries {
    rest: map::IntoIter<String, Entry>,
}

impl Model for IntoEntries {
    ghost Value = { List Tree };

    ghost coded = { coded_list tree_coded };

    ghost view = { λ a. entries_of a.rest };
}

impl IntoEntries {
    pub(crate) fn new(rest: map::IntoIter<String, Entry>) -> IntoEntries
        ensures { result ≡ entries_of rest }
    {
        IntoEntries { rest }
    }
}

impl Iterator for IntoEntries {
    type Item = Entry;

    ghost next_gives = { YieldsFirstBy view (λ s. s) };

    ghost remaining = { item_count (λ s. s) };

    fn next(&mut self) -> Option<Entry> {
        let (_key, entry) = self.rest.next()?;
        Some(entry)
    }
}
