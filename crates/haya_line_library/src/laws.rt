//! Laws of the definitions. A call of one, as `text_in_parts();`, gives its statement to the
//! caller's proof.
ghost use Rattle.std.specs.Prelude.{◌≡◌, ◌+◌, ◌++◌, ◌∷◌, ℕ, [], All, List, Ok, length};
ghost use Rattle.std.specs.Prelude.{option_to_list};
ghost use Rattle.std.specs.List.{AllPairs, AllZip, concat, flat_map};
ghost use Rattle.std.specs.Str.Lines.{lines};
ghost use Rattle.hayagriva.specs.Library.{AreDistinct};
ghost use Rattle.hayagriva.specs.Parts.{AreApart};
ghost use Rattle.hayagriva.specs.Tree.{Tree, trees};
ghost use Rattle.haya_line_library.specs.Chain.{LastOf, Taken, TakesLine};
ghost use Rattle.haya_line_library.specs.Input.{Describes, rows_of_all, rows_read};
ghost use Rattle.haya_line_library.specs.Opened.{Opened};
ghost use Rattle.haya_line_library.specs.Parts.{AreWholeLines};
ghost use Rattle.haya_line_library.specs.TextReading.{FaultInLine, FaultInText};
ghost use Rattle.haya_line_library.specs.declared.error.InputError.{InputError};

/// Whole lines and a text behind them describe the entries of both, where no key is in both.
pub fn text_in_parts()
    ensures lines { (first second : List ℕ) → AreWholeLines first →
        lines (first ++ second) ≡ lines first ++ lines second }
    ensures two { (first second : List ℕ) (a b : List Tree) → AreWholeLines first → AreApart a b →
        Describes first a → Describes second b → Describes (first ++ second) (a ++ b) }
    ensures many { (texts : List (List ℕ)) (parts : List (List Tree)) →
        All AreWholeLines texts → AllPairs AreApart parts →
        AllZip Describes texts parts → Describes (concat texts) (flat_map (λ a. a) parts) }
{}

/// Where the keys of a text's entries are distinct, its library is these entries as they stand.
pub fn distinct_entries_stand()
    ensures { (text : List ℕ) (library : List Tree) (given : Describes text library) →
        AreDistinct given.entries → library ≡ given.entries }
{}

/// A text describes one library.
pub fn one_library()
    ensures { (text : List ℕ) (a b : List Tree) →
        Describes text a → Describes text b → a ≡ b }
{}

/// Lines that are taken one after another, as `OpenEntries` does, read as the rows of the entries
/// that it gave, in order; at a line with a fault, this is the fault of all lines.
pub fn lines_in_turn()
    ensures start { Taken [] [] [] }
    ensures line { (before : List (List ℕ)) (given chain : List Tree) → Taken before given chain →
        (line : List ℕ) (now : Opened) → TakesLine line chain now →
        Taken (before ++ line ∷ []) (given ++ option_to_list now.closed) now.chain }
    ensures end { (before : List (List ℕ)) (given chain : List Tree) → Taken before given chain →
        (now : Opened) → LastOf chain now →
        rows_read 1 0 before ≡ Ok (rows_of_all 0 (trees (given ++ option_to_list now.closed))) }
    ensures fault { (before : List (List ℕ)) (given chain : List Tree) → Taken before given chain →
        (line : List ℕ) (more : List (List ℕ)) (e : InputError) →
        FaultInLine (length before + 1) (length chain) line e →
        FaultInText (rows_read 1 0 (before ++ line ∷ more)) e }
{}
