//! A text in lines, divided into its entries as it comes.
ghost use Rattle.std.specs.Prelude.{◌≡◌, ◌≤◌, ◌<◌, ◌+◌, [], ℕ, List, IfNone, IfSome};
ghost use Rattle.std.specs.Prelude.{IsFalse, IsTrue, length};
ghost use Rattle.haya_parts.specs.Divided.{Begins, Begun, IsSplitNext, TakesLast, TakesNext};
ghost use Rattle.haya_line_slices.specs.Coming.{AreLineParts, EntriesDivide, IsEntryEnd, NeverBefore};
ghost use Rattle.haya_line_slices.specs.EntryLines.{begins_entry};

use crate::begins::begins_entry;
use crate::slices::entry_len;
use haya_parts::{Divider, Last, Next, Split, line_end, without_return};

/// Divides a text in lines into its entries, each as it is in the text, byte for byte: its own line
/// and those of its parents, with what ends them. In front of the first entry each line is a part,
/// without what ends it: an empty one, or one that says no entry.
#[derive(Clone, Copy, Debug, Drop, PartialEq, Eq)]
pub struct EntryParts {
    place: EntryPlace,
    // No part ends in so many of the first bytes of what is held.
    looked: usize,
}

// Where in a text what is held begins.
#[derive(Clone, Copy, Debug, Drop, PartialEq, Eq)]
pub(crate) enum EntryPlace {
    // In front of the first entry.
    Front,
    // At an entry.
    Entry,
}

impl EntryParts {
    /// In front of a text.
    pub fn new() -> EntryParts
        ensures { Begins EntriesDivide result [] [] [] }
    {
        EntryParts {
            place: EntryPlace::Front,
            looked: 0,
        }
    }

    // A line in front of the first entry.
    fn front<'t>(&mut self, held: &'t [u8]) -> Next<'t>
        requires begun { Begun EntriesDivide self.old held.now }
        requires place { self.old.place ≡ EntryPlace.Front }
        requires none { IsFalse (begins_entry held.now) }
        ensures split { IsSplitNext held.now result }
        ensures takes { (taken : List ℕ) (parts : List (List ℕ)) →
            Begins EntriesDivide self.old taken parts held.now →
            TakesNext EntriesDivide self.new taken parts held.now result }
    {
        match line_end(held, self.looked) {
            Some(end) => {
                self.looked = 0;
                Next::Part(
                    without_return(&held[..end]),
                    Split {
                        front: &held[..end + 1],
                        behind: &held[end + 1..],
                    },
                )
            }
            None => {
                self.looked = held.len();
                Next::More
            }
        }
    }

    // The first entry.
    fn first<'t>(&mut self, held: &'t [u8]) -> Next<'t>
        requires begun { Begun EntriesDivide self.old held.now }
        requires place { self.old.place ≡ EntryPlace.Front }
        requires begins { IsTrue (begins_entry held.now) }
        ensures split { IsSplitNext held.now result }
        ensures takes { (taken : List ℕ) (parts : List (List ℕ)) →
            Begins EntriesDivide self.old taken parts held.now →
            TakesNext EntriesDivide self.new taken parts held.now result }
    {
        self.place = EntryPlace::Entry;
        self.looked = 0;
        self.entry(held)
    }

    // An entry.
    fn entry<'t>(&mut self, held: &'t [u8]) -> Next<'t>
        requires begun { Begun EntriesDivide self.old held.now }
        requires place { self.old.place ≡ EntryPlace.Entry }
        ensures split { IsSplitNext held.now result }
        ensures takes { (taken : List ℕ) (parts : List (List ℕ)) →
            Begins EntriesDivide self.old taken parts held.now →
            TakesNext EntriesDivide self.new taken parts held.now result }
    {
        match entry_end(held, self.looked) {
            EntryEnd::Feed(end) => {
                self.looked = 0;
                Next::Part(
                    &held[..end + 1],
                    Split {
                        front: &held[..end + 1],
                        behind: &held[end + 1..],
                    },
                )
            }
            EntryEnd::Open(looked) => {
                self.looked = looked;
                Next::More
            }
        }
    }

    // The last line, where no entry is in front of it.
    fn last_line<'t>(&self, held: &'t [u8]) -> Last<'t>
        requires begun { Begun EntriesDivide self.now held.now }
        requires place { self.now.place ≡ EntryPlace.Front }
        ensures { (taken : List ℕ) (parts : List (List ℕ)) →
            Begins EntriesDivide self.now taken parts held.now →
            TakesLast AreLineParts taken parts held.now result }
    {
        if held.is_empty() {
            return Last::Nothing;
        }
        if begins_entry(held) {
            return Last::Broken;
        }
        match line_end(held, self.looked) {
            Some(_) => Last::Broken,
            None => Last::Part(held),
        }
    }

    // The last entry.
    fn last_entry<'t>(&self, held: &'t [u8]) -> Last<'t>
        requires begun { Begun EntriesDivide self.now held.now }
        requires place { self.now.place ≡ EntryPlace.Entry }
        ensures { (taken : List ℕ) (parts : List (List ℕ)) →
            Begins EntriesDivide self.now taken parts held.now →
            TakesLast AreLineParts taken parts held.now result }
    {
        if entry_len(held) == held.len() {
            Last::Part(held)
        } else {
            Last::Broken
        }
    }
}

// Where an entry ends.
enum EntryEnd {
    // At the line feed at this place: the next begins behind it.
    Feed(usize),
    // Behind so many bytes.
    Open(usize),
}

// The longest text that an entry's first line begins with: a depth and a tab.
const DEPTH_LEN: usize = 4;

// Where an entry ends: none does in so many of the first bytes.
fn entry_end(held: &[u8], looked: usize) -> EntryEnd
    requires within { looked ≤ length held.now }
    requires none { NeverBefore held.now looked }
    ensures { IsEntryEnd held.now result }
{
    let mut at = looked;
    'bytes: while at < held.len() {
        if let Some(end) = end_at(held, at) {
            return end;
        }
        at += 1;
    }
    EntryEnd::Open(at)
}

// Whether an entry ends at this place, of which none does in front of it; or whether that can't be
// told before more bytes are there.
fn end_at(held: &[u8], at: usize) -> Option<EntryEnd>
    requires within { at < length held.now }
    requires none { NeverBefore held.now at }
    ensures ends { IfSome result (IsEntryEnd held.now) }
    ensures none { IfNone result (NeverBefore held.now (at + 1)) }
{
    if held[at] != b'\n' {
        return None;
    }
    let behind = &held[at + 1..];
    if begins_entry(behind) {
        Some(EntryEnd::Feed(at))
    } else if behind.len() < DEPTH_LEN {
        Some(EntryEnd::Open(at))
    } else {
        None
    }
}

impl Divider for EntryParts {
    ghost use Rattle.haya_line_slices.specs.Coming.{AreLineParts, EntriesDivide};

    ghost divides = { EntriesDivide };

    ghost are_parts = { λ _. AreLineParts };

    fn next<'t>(&mut self, held: &'t [u8]) -> Next<'t> {
        match self.place {
            EntryPlace::Entry => self.entry(held),
            EntryPlace::Front => {
                if begins_entry(held) {
                    self.first(held)
                } else {
                    self.front(held)
                }
            }
        }
    }

    fn last<'t>(&self, held: &'t [u8]) -> Last<'t> {
        match self.place {
            EntryPlace::Front => self.last_line(held),
            EntryPlace::Entry => self.last_entry(held),
        }
    }
}
