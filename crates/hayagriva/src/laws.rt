//! Laws of the definitions. A call of one, as `hits_one_at_a_time();`, gives its statement to the
//! caller's proof.
ghost use Rattle.std.specs.Prelude.{◌≡◌, ◌↔◌, ◌++◌, List, filter, true};
ghost use Rattle.std.specs.List.{AllPairs, flat_map};
ghost use Rattle.haya_entry.specs.Tree.{Tree};
ghost use Rattle.haya_selectors.specs.Holds.{holds};
ghost use Rattle.haya_selectors.specs.Syntax.{Syntax};
ghost use Rattle.hayagriva.specs.Library.{AreDistinct, AreEqual, from_entries};
ghost use Rattle.hayagriva.specs.Parts.{AreApart};
ghost use Rattle.hayagriva.specs.Query.{AreHits};
ghost use Rattle.hayagriva.specs.declared.query.Hit.{Hit as HitData};
ghost use Rattle.hayagriva.specs.QueryIter.{BeginsAnswer, EndInWords, EndsAnswer, HitsInWords};
ghost use Rattle.hayagriva.specs.QueryIter.{StaysEnded};

use crate::Library;

/// What a query gives one at a time begins the list of hits, and at its end is that list; where an
/// allocation failed, an error follows a first part of it, and then nothing. Where no entry is
/// left, nothing comes for good.
pub fn hits_one_at_a_time()
    ensures begins { BeginsAnswer }
    ensures ends { EndsAnswer }
    ensures stays { StaysEnded }
{}

/// A query gives the first entry left that its selector picks, in words of entries, with what its
/// names stand for; and nothing where none is left that it picks.
pub fn hits_in_words()
    ensures hit { HitsInWords }
    ensures end { EndInWords }
{}

/// `==` of two libraries holds exactly where they have the same keys with equal entries, in
/// whatever order.
pub fn libraries_equal_by_value()
    ensures { (a b : List Tree) → (⟦<Library as PartialEq>⟧.eq a b ≡ true) ↔ AreEqual a b }
{}

/// Entries whose keys are distinct make the library that is their list; and wherever it is cut in
/// two, no key is in both.
pub fn distinct_entries_stand()
    ensures library { (a : List Tree) → AreDistinct a → from_entries a ≡ a }
    ensures cut { (a b : List Tree) → AreDistinct (a ++ b) → AreApart a b }
{}

/// Lists of entries that have no key in common make the library of the first, and then that of the
/// second.
pub fn library_in_parts()
    ensures two { (a b : List Tree) → AreApart a b →
        from_entries (a ++ b) ≡ from_entries a ++ from_entries b }
    ensures many { (parts : List (List Tree)) → AllPairs AreApart parts →
        from_entries (flat_map (λ a. a) parts) ≡ flat_map from_entries parts }
{}

/// So what a selector picks of them is what it picks of the first, and then of the second; and
/// their hits are those of the first, and then of the second.
pub fn answers_in_parts()
    ensures two { (s : Syntax) (a b : List Tree) → AreApart a b →
        filter (holds s) (from_entries (a ++ b))
        ≡ filter (holds s) (from_entries a) ++ filter (holds s) (from_entries b) }
    ensures many { (s : Syntax) (parts : List (List Tree)) → AllPairs AreApart parts →
        filter (holds s) (from_entries (flat_map (λ a. a) parts))
        ≡ flat_map (λ a. filter (holds s) (from_entries a)) parts }
    ensures hits { (s : Syntax) (a b : List Tree) (first second : List HitData) → AreApart a b →
        AreHits s (from_entries a) first → AreHits s (from_entries b) second →
        AreHits s (from_entries (a ++ b)) (first ++ second) }
{}
