//! Laws of the definitions of pages.
ghost use Rattle.std.specs.Prelude.{◌≡◌, ◌↔◌, ◌<◌, ◌^◌, ℕ, ℤ, pos, List, [], ◌∷◌, true, map};
ghost use Rattle.std.specs.Prelude.{Ok, Err};
ghost use Rattle.std.specs.Cmp.{IsTotalOrder};
ghost use Rattle.std.specs.Str.{IsUtf8, chars};
ghost use Rattle.haya_text.specs.Equality.{EqualsByValue, EqualsByView, HashesAlike};
ghost use Rattle.haya_numbers.specs.Cuts.{dash_split, escaped_split};
ghost use Rattle.haya_numbers.specs.Halves.{AreHalves, IsDash, IsEscapedHyphen};
ghost use Rattle.haya_numbers.specs.Numeric.{NumericView, single_number};
ghost use Rattle.haya_numbers.specs.NumericBack.{is_readable};
ghost use Rattle.haya_numbers.specs.Pages.{PartView, SinglePage, page_of, part_view, parts};
ghost use Rattle.haya_numbers.specs.PagesBack.{are_kept, are_readable, is_from_zero};
ghost use Rattle.haya_numbers.specs.PagesOrder.{pages_order, part_order};
ghost use Rattle.haya_numbers.specs.PagesPrinted.{shown_pages};
ghost use Rattle.haya_numbers.specs.PagesReading.{pages_read, part_read, IsFirstFault};
ghost use Rattle.haya_numbers.specs.PagesRoundTrip.{round_trip_text};
ghost use Rattle.haya_numbers.specs.Pieces.{pieces, AreItsPieces};
ghost use Rattle.haya_numbers.specs.declared.page.PageRanges as pages;
ghost use Rattle.haya_numbers.specs.declared.page.PageRangesPartErr as fault;

use crate::{PageNumberError, PageRanges, PageRangesPart, PageRangesPartErr};
use std::hash::Hash;

/// The pieces of a text are the one list of separators and longest runs that makes up the text.
pub fn pieces()
    ensures { (text : List ℕ) (ps : List (List ℕ)) → AreItsPieces text ps ↔ (ps ≡ pieces text) }
{}

/// The halves of a text at escaped hyphens, and those at dashes, are the one list that has such a
/// mark between each two, makes up the text, and has none within a half.
pub fn halves()
    ensures escaped { (text : List ℕ) (hs : List (List ℕ)) →
        AreHalves IsEscapedHyphen text hs ↔ (hs ≡ escaped_split text) }
    ensures plain { (text : List ℕ) (hs : List (List ℕ)) →
        AreHalves IsDash text hs ↔ (hs ≡ dash_split text) }
{}

/// A text reads as pages exactly where each of its pieces reads as a part, and otherwise its fault
/// is that of the first piece that has one.
pub fn reads_by_pieces()
    ensures read { (text : List ℕ) (ps : List PartView) →
        (pages_read text ≡ Ok ps) ↔ (map part_read (pieces text) ≡ map (λ p. Ok p) ps) }
    ensures fault { (text : List ℕ) (e : fault.PageRangesPartErr) →
        (pages_read text ≡ Err e) ↔ IsFirstFault (map part_read (pieces text)) e }
{}

/// `==` of parts and of lists of pages holds exactly where both are equal by value.
pub fn equal_by_value()
    ensures part { EqualsByView ⟦<PageRangesPart as PartialEq>⟧.eq part_view }
    ensures pages { EqualsByView ⟦<PageRanges as PartialEq>⟧.eq parts }
{}

/// `==` of faults of pages holds exactly where both are the same, a number's fault included.
pub fn faults_equal_by_value()
    ensures part { EqualsByValue ⟦<PageRangesPartErr as PartialEq>⟧.eq }
    ensures number { EqualsByValue ⟦<PageNumberError as PartialEq>⟧.eq }
{}

/// Parts and lists of pages that are equal by `==` hash alike.
pub fn equal_pages_hash_alike()
    ensures part { HashesAlike ⟦<PageRangesPart as PartialEq>⟧.eq
        ⟦<PageRangesPart as Hash>⟧.hash_input }
    ensures pages { HashesAlike ⟦<PageRanges as PartialEq>⟧.eq ⟦<PageRanges as Hash>⟧.hash_input }
{}

/// `csl_cmp` of parts and of lists of pages is a total preorder.
pub fn order()
    ensures part { IsTotalOrder part_order }
    ensures pages { IsTotalOrder pages_order }
{}

/// Pages and ranges of single numbers from 0 on without affixes, with one separator
/// between two, read back from their print as themselves. `PageRanges::reads_back` tells
/// whether pages are like that.
pub fn reads_back()
    ensures { (ps : List PartView) → are_readable ps ≡ true
        → pages_read (chars (shown_pages ps)) ≡ Ok ps }
{}

/// Pages that were read from a text, with affixes or without, are read again from their print,
/// where no hyphen is escaped in them or by what is shown before it, and a page or a range comes
/// behind each comma. So is the page of a number from 0 on.
pub fn read_pages_read_back()
    ensures kept { (text : List ℕ) (ps : List PartView) → IsUtf8 text
        → pages_read (chars text) ≡ Ok ps → are_kept ps ≡ true
        → pages_read (chars (shown_pages ps)) ≡ Ok ps }
    ensures page { (n : ℤ) → is_readable n ≡ true → are_kept (page_of n ∷ []) ≡ true
        → pages_read (chars (shown_pages (page_of n ∷ []))) ≡ Ok (page_of n ∷ []) }
{}

/// Pages that were read from a text are read again from their round-trip text, whatever their
/// numbers and whatever separates them. So is the page of a number from 0 on. One page alone that
/// was read, without affixes, is from 0 on.
pub fn read_pages_round_trip()
    ensures read { (text : List ℕ) (ps : List PartView) → IsUtf8 text
        → pages_read (chars text) ≡ Ok ps → pages_read (chars (round_trip_text ps)) ≡ Ok ps }
    ensures page { (n : ℕ) → n < 2 ^ 31
        → pages_read (chars (round_trip_text (page_of (pos n) ∷ []))) ≡ Ok (page_of (pos n) ∷ []) }
    ensures from_zero { (text : List ℕ) (n : NumericView) → IsUtf8 text
        → pages_read (chars text) ≡ Ok (SinglePage n ∷ [])
        → is_from_zero (single_number n) ≡ true }
{}
