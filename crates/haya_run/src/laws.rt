//! Laws of the definitions. A call of one, as `runs_in_parts();`, gives its statement to the
//! caller's proof.
ghost use Rattle.std.specs.Prelude.{◌≡◌, ◌++◌, ℕ, All, List, Option};
ghost use Rattle.std.specs.List.{AllPairs, AllZip, concat, flat_map};
ghost use Rattle.std.specs.Str.{chars};
ghost use Rattle.hayagriva.specs.Reading.{TextReads};
ghost use Rattle.hayagriva.specs.Syntax.{Syntax};
ghost use Rattle.hayagriva.specs.Tree.{Tree};
ghost use Rattle.haya_line_library.specs.Parts.{AreWholeLines, DescribeApart};
ghost use Rattle.haya_hits.specs.Line.{AreLinesAt};
ghost use Rattle.haya_run.specs.Output.{Answers};
ghost use Rattle.haya_run.specs.Parts.{Shows};

/// What is printed over the entries of two libraries is what is printed over those of the first,
/// and then over those of the second.
pub fn output_in_parts()
    ensures two { (s : Syntax) (a b : List Tree) (first second : List ℕ) →
        AreLinesAt s a first → AreLinesAt s b second → AreLinesAt s (a ++ b) (first ++ second) }
    ensures many { (s : Syntax) (parts : List (List Tree)) (printed : List (List ℕ)) →
        AllZip (AreLinesAt s) parts printed →
        AreLinesAt s (flat_map (λ a. a) parts) (concat printed) }
{}

/// What a run that ends well prints is told by its word and its input.
pub fn one_output()
    ensures run { (word : List ℕ) (unread left before after : Option (List ℕ)) →
        (run : Answers word unread left before after) → Shows word run.text run.printed }
    ensures one { (word text p q : List ℕ) → Shows word text p → Shows word text q → p ≡ q }
{}

/// So what a run prints over whole lines and a text behind them, with no key in both, is what runs
/// print over each of them, joined; and so of any number of texts.
pub fn runs_in_parts()
    ensures two { (word first second p q : List ℕ) →
        AreWholeLines first → DescribeApart first second →
        Shows word first p → Shows word second q → Shows word (first ++ second) (p ++ q) }
    ensures many { (word : List ℕ) (s : Syntax) (texts printed : List (List ℕ)) →
        TextReads (chars word) s → All AreWholeLines texts → AllPairs DescribeApart texts →
        AllZip (Shows word) texts printed → Shows word (concat texts) (concat printed) }
{}
