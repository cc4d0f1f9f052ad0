//! Laws of the definitions. A call of one, as `one_cut();`, gives its statement to the
//! caller's proof.
ghost use Rattle.std.specs.Prelude.{◌≡◌, ℕ, List, true};
ghost use Rattle.haya_text.specs.Equality.{EqualsByView};
ghost use Rattle.haya_entry.specs.declared.entry.Entry.{Entry as EntryData};
ghost use Rattle.haya_entry.specs.Tree.{Tree, view};
ghost use Rattle.haya_selectors.specs.AndLaws.{AndHoldsWhereAssigned, AndIsLeast};
ghost use Rattle.haya_selectors.specs.Binds.{bound_to};
ghost use Rattle.haya_selectors.specs.Fault.{fault};
ghost use Rattle.haya_selectors.specs.Holds.{holds};
ghost use Rattle.haya_selectors.specs.InWords.{picks, named_entry};
ghost use Rattle.haya_selectors.specs.ParentSide.{HoldsAtNoParent, HoldsAtSomeParent};
ghost use Rattle.haya_selectors.specs.ParentSide.{NamesChangeNoAnswer};
ghost use Rattle.haya_selectors.specs.ReadingLaws.{IsComputed, OneCut, OneListOutcome, OneOutcome};
ghost use Rattle.haya_selectors.specs.ReadingLaws.{OneReading};
ghost use Rattle.haya_selectors.specs.Spelling.{ReadAgain};
ghost use Rattle.haya_selectors.specs.Syntax.{Syntax, syntax};

use crate::{Selector, SelectorError};
use haya_assignment::laws::{least_comes_first, no_least};
use haya_entry::Entry;

/// A text is cut into tokens in one way.
pub fn one_cut()
    ensures { OneCut }
{}

/// A form of the grammar reads a list of tokens in one way, or has one fault; so does a bracket
/// list.
pub fn one_outcome()
    ensures forms { OneOutcome }
    ensures lists { OneListOutcome }
{}

/// A text reads as one selector, or has one fault.
pub fn one_reading()
    ensures { OneReading }
{}

/// What a text reads as is computed: by `selector_read`.
pub fn reading_is_computed()
    ensures { IsComputed }
{}

/// A selector is what its fully parenthesised text reads as, where each `|` and `&` has at least
/// two members and its names are identifiers.
pub fn read_again()
    ensures { ReadAgain }
{}

/// A selector holds at both of two equal entries, or at neither.
pub fn equal_entries_are_picked_alike()
    ensures { (a b : EntryData) → ⟦<Entry as PartialEq>⟧.eq a b ≡ true →
        (s : Syntax) → holds s (view a) ≡ holds s (view b) }
{}

/// A selector holds at the entries that its words say.
pub fn holds_in_words()
    ensures { (s : Syntax) (x : Tree) → holds s x ≡ picks s x }
{}

/// `l > r` holds where `l` does and `r` holds at some parent, where `r` asks for one parent.
pub fn holds_at_some_parent()
    ensures { HoldsAtSomeParent }
{}

/// `l > !r` then holds where `l` does and `r` holds at no parent, so also where there are no
/// parents.
pub fn holds_at_no_parent()
    ensures { HoldsAtNoParent }
{}

/// Names change no answer, where none stands inside a bracket list.
pub fn names_change_no_answer()
    ensures { NamesChangeNoAnswer }
{}

/// The candidates of `&` are an assignment: distinct parents, one a member, each member holding at
/// its parent. It comes before every other one: where they first differ, it has the earlier parent.
pub fn and_is_least()
    ensures { AndIsLeast }
{
    least_comes_first();
}

/// `&` holds exactly where there is an assignment.
pub fn and_holds_where_assigned()
    ensures { AndHoldsWhereAssigned }
{
    least_comes_first();
    no_least();
}

/// A name is bound, where a selector holds, to the entry that its words say.
pub fn names_in_words()
    ensures { (s : Syntax) (name : List ℕ) (x : Tree) → bound_to s x name ≡ named_entry s name x }
{}

/// `==` of two selectors holds exactly where their values are equal.
pub fn selectors_equal_by_value()
    ensures { EqualsByView ⟦<Selector as PartialEq>⟧.eq syntax }
{}

/// `==` of two errors holds exactly where they say the same fault, or both say out of memory.
pub fn selector_errors_equal_by_value()
    ensures { EqualsByView ⟦<SelectorError as PartialEq>⟧.eq fault }
{}
