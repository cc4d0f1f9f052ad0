//! A law of the definitions. A call of it gives its statement to the caller's proof.
ghost use Rattle.std.specs.Prelude.{All, List, [], ◌∷◌};
ghost use Rattle.std.specs.List.{flat_map};
ghost use Rattle.haya_entry.specs.Tree.{Tree};
ghost use Rattle.hayagriva.specs.Library.{AreDistinct};
ghost use Rattle.haya_line_library.specs.Input.{Describes};
ghost use Rattle.haya_line_library.specs.Parts.{AreWholeLines};
ghost use Rattle.haya_printing.specs.Printed.{entry_text};

/// The lines of an entry are whole; and those of several entries, no two of which have the same
/// key, describe the library of these entries, where the lines of each describe that of it alone.
pub fn lines_join()
    ensures whole { (t : Tree) → AreWholeLines (entry_text t) }
    ensures join { (ts : List Tree) → AreDistinct ts →
        All (λ t. Describes (entry_text t) (t ∷ [])) ts → Describes (flat_map entry_text ts) ts }
{}
