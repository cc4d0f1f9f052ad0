//! What is asked of each entry of a list.
ghost use Rattle.std.specs.Prelude.{◌≡◌, ◌++◌, ℕ, Bool, List, OnOk, IfErr, string_bytes};
ghost use Rattle.hayagriva.specs.Tree.{Tree, view};

use hayagriva::Entry;

/// What is asked of each entry of a list in turn. A state goes from entry to entry.
pub trait EntryAnswerer {
    /// Why an entry isn't answered.
    type Refusal: Drop;

    // What may be printed of an entry, and the state that this leaves.
    ghost answers: { Self → Tree → List ℕ → Self → Type 0 };
    // Why nothing is printed of an entry.
    ghost refuses: { Self → Tree → Self.Refusal → Type 0 };
    // Whether no more entries need to be read.
    ghost is_done: { Self → Bool };

    /// Puts what is to be printed of an entry behind `printed`.
    fn answer(&mut self, entry: &Entry, printed: &mut String) -> Result<(), Self::Refusal>
        ensures answers { OnOk result ((more : List ℕ)
            × answers self.old (view entry.now) more self.new
            × (string_bytes printed.new ≡ string_bytes printed.old ++ more)) }
        ensures refuses { IfErr result (refuses self.old (view entry.now)) };

    /// Whether no more entries need to be read.
    fn is_done(&self) -> bool
        ensures { result ≡ is_done self.now };
}
