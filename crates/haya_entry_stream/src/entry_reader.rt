//! How an entry is read from a line.
ghost use Rattle.std.specs.Prelude.{ℕ, List, IfErr, IfOk};
ghost use Rattle.hayagriva.specs.Tree.{Tree, view};

use hayagriva::Entry;

/// Reads an entry from each line of a text in turn. A state goes from line to line.
pub trait EntryReader {
    /// Why a line says no entry.
    type Error: Drop;

    // Which entry a line says, and the state that this leaves.
    ghost says: { Self → List ℕ → Tree → Self → Type 0 };
    // What an error says of the line that is read in a state.
    ghost refuses: { Self → List ℕ → Self.Error → Type 0 };
    // The state that an error leaves of the one in which a line is read.
    ghost leaves: { Self → List ℕ → Self.Error → Self → Type 0 };

    /// The entry that a line says, which isn't empty and is given without its line feed.
    fn read(&mut self, line: &str) -> Result<Entry, Self::Error>
        ensures says { IfOk result (λ entry. says self.old line.now (view entry) self.new) }
        ensures refuses { IfErr result (refuses self.old line.now) }
        ensures leaves { IfErr result (λ e. leaves self.old line.now e self.new) };
}
