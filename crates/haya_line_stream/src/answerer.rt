//! What is asked of each line of a text, and of its end.
ghost use Rattle.std.specs.Prelude.{◌≡◌, ◌++◌, ℕ, Bool, List, Option, Some, None, OnOk, IfErr};
ghost use Rattle.std.specs.Prelude.{string_bytes};

/// What is asked of each line of a text in turn, and then of its end. A state goes from line to
/// line.
pub trait Answerer {
    /// Why a line, or the end, isn't answered.
    type Refusal: Drop;

    // What may be printed of a line, or at the end, for which None stands, and the state that this
    // leaves.
    ghost answers: { Self → Option (List ℕ) → List ℕ → Self → Type 0 };
    // Why nothing is printed of a line, or at the end, and the state that this leaves.
    ghost refuses: { Self → Option (List ℕ) → Self.Refusal → Self → Type 0 };
    // Whether nothing more needs to be read.
    ghost is_done: { Self → Bool };

    /// Puts what is to be printed of a line, which is given without its line feed, behind
    /// `printed`.
    fn answer(&mut self, line: &str, printed: &mut String) -> Result<(), Self::Refusal>
        ensures answers { OnOk result ((more : List ℕ)
            × answers self.old (Some line.now) more self.new
            × (string_bytes printed.new ≡ string_bytes printed.old ++ more)) }
        ensures refuses { IfErr result (λ e. refuses self.old (Some line.now) e self.new) };

    /// Puts what is to be printed at the end behind `printed`.
    fn end(&mut self, printed: &mut String) -> Result<(), Self::Refusal>
        ensures answers { OnOk result ((more : List ℕ) × answers self.old None more self.new
            × (string_bytes printed.new ≡ string_bytes printed.old ++ more)) }
        ensures refuses { IfErr result (λ e. refuses self.old None e self.new) };

    /// Whether nothing more needs to be read.
    fn is_done(&self) -> bool
        ensures { result ≡ is_done self.now };
}
