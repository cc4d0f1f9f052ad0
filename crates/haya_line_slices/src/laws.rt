//! Laws of the definitions. A call of one, as `parts_are_entries();`, gives its statement to the
//! caller's proof.
ghost use Rattle.std.specs.Prelude.{◌≡◌, ℕ, List, Ok};
ghost use Rattle.std.specs.List.{AllZip};
ghost use Rattle.std.specs.Str.Lines.{lines};
ghost use Rattle.haya_entry.specs.Tree.{Tree, trees};
ghost use Rattle.haya_line_library.specs.Input.{rows_of_all, rows_read};
ghost use Rattle.haya_line_slices.specs.EntryLines.{AreEntryParts, IsEntryOf};

/// The parts of a text that lists entries are these entries, one after the other.
pub fn parts_are_entries()
    ensures { (text : List ℕ) (parts : List (List ℕ)) (entries : List Tree) →
        AreEntryParts text parts →
        rows_read 1 0 (lines text) ≡ Ok (rows_of_all 0 (trees entries)) →
        AllZip IsEntryOf parts entries }
{}
