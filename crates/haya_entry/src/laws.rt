//! Laws of the definitions. A call of one, as `ancestors_once();`, gives its statement to the
//! caller's proof.
ghost use Rattle.std.specs.Prelude.{◌≡◌, ◌≢◌, ◌↔◌, ◌≤◌, ℕ, List, [], true, Some};
ghost use Rattle.std.specs.Prelude.{if◌then◌else◌};
ghost use Rattle.std.specs.Str.{bytes_eq};
ghost use Rattle.haya_entry.specs.declared.entry.Entry.{Entry as EntryData};
ghost use Rattle.haya_entry.specs.Levels.{AncestorsOnce, height, level};
ghost use Rattle.haya_entry.specs.Names.{has_name};
ghost use Rattle.haya_entry.specs.SerialNumber.{serial_view};
ghost use Rattle.haya_entry.specs.Tree.{Tree, view, keyed_serial_number, with_keyed_serial_number};
ghost use Rattle.haya_text.specs.Equality.{EqualsByValue, EqualsByView, HashesAlike};

use crate::{Entry, EntryType, SerialNumber};
use std::hash::Hash;

/// `==` of two entries holds exactly where their values are equal, parents and all that is above
/// them included.
pub fn entries_equal_by_value()
    ensures { EqualsByView ⟦<Entry as PartialEq>⟧.eq view }
{}

/// `==` of two types holds exactly where they are the same type.
pub fn types_equal_by_value()
    ensures { EqualsByValue ⟦<EntryType as PartialEq>⟧.eq }
{}

/// `==` of two serial numbers holds exactly where their values are equal.
pub fn serial_numbers_equal_by_value()
    ensures { EqualsByView ⟦<SerialNumber as PartialEq>⟧.eq serial_view }
{}

/// Entries, types and serial numbers that are equal by `==` hash alike.
pub fn equal_entries_hash_alike()
    ensures entry { HashesAlike ⟦<Entry as PartialEq>⟧.eq ⟦<Entry as Hash>⟧.hash_input }
    ensures kind { HashesAlike ⟦<EntryType as PartialEq>⟧.eq ⟦<EntryType as Hash>⟧.hash_input }
    ensures serial { HashesAlike ⟦<SerialNumber as PartialEq>⟧.eq
        ⟦<SerialNumber as Hash>⟧.hash_input }
{}

/// Equal entries have the same names.
pub fn equal_entries_have_alike()
    ensures { (a b : EntryData) → ⟦<Entry as PartialEq>⟧.eq a b ≡ true →
        (name : List ℕ) → has_name (view a) name ≡ has_name (view b) name }
{}

/// A serial number that is set is the one that its key then finds; any other key finds what it
/// found before.
pub fn set_serial_number_is_found()
    ensures { (key text other : List ℕ) (entry : Tree) →
        keyed_serial_number other (with_keyed_serial_number key text entry)
        ≡ (if bytes_eq other key then Some text else keyed_serial_number other entry) }
{}

/// The ancestors of an entry are all entries above it, each path once.
pub fn ancestors_once()
    ensures { AncestorsOnce }
{}

/// The height of an entry is its last level that isn't empty: at each level up to it some entry
/// stands, and at none above it.
pub fn height_is_last_level()
    ensures { (x : Tree) (d : ℕ) → (level x d ≢ []) ↔ (d ≤ height x) }
{}
