//! How a text is divided.
ghost use Rattle.std.specs.Prelude.{ℕ, List};
ghost use Rattle.haya_parts.specs.Divided.{Begins, Begun, IsSplitNext, TakesLast, TakesNext};

/// Bytes in front, and what is behind them.
#[derive(Clone, Copy)]
pub struct Split<'t> {
    /// The bytes in front.
    pub front: &'t [u8],
    /// What is behind them.
    pub behind: &'t [u8],
}

/// What a text goes on with, of which more may come.
#[derive(Clone, Copy)]
pub enum Next<'t> {
    /// A part, among the bytes in front.
    Part(&'t [u8], Split<'t>),
    /// The bytes in front, of no part.
    Between(Split<'t>),
    /// What can't be told before more of the text is there.
    More,
    /// The bytes in front, which no part begins with.
    Broken(Split<'t>),
}

/// What a text ends with.
#[derive(Clone, Copy)]
pub enum Last<'t> {
    /// A part.
    Part(&'t [u8]),
    /// No part.
    Nothing,
    /// Bytes that are no part.
    Broken,
}

/// Divides a text into parts, as it comes. A state goes from part to part.
pub trait Divider {
    // A text that is divided up to here: it, its parts so far, and what is left of it.
    ghost divides: { Self → List ℕ → List (List ℕ) → List ℕ → Type 0 };
    // The parts of a whole text.
    ghost are_parts: { Self → List ℕ → List (List ℕ) → Type 0 };

    /// What the text goes on with: `held` is what is read of it and not taken.
    fn next<'t>(&mut self, held: &'t [u8]) -> Next<'t>
        requires { Begun divides self.old held.now }
        ensures split { IsSplitNext held.now result }
        ensures takes { (taken : List ℕ) (parts : List (List ℕ)) →
            Begins divides self.old taken parts held.now →
            TakesNext divides self.new taken parts held.now result }
        ensures same { (text : List ℕ) (parts : List (List ℕ)) →
            are_parts self.new text parts → are_parts self.old text parts };

    /// What the text ends with, of which this is left.
    fn last<'t>(&self, held: &'t [u8]) -> Last<'t>
        requires { Begun divides self.now held.now }
        ensures ends { (taken : List ℕ) (parts : List (List ℕ)) →
            Begins divides self.now taken parts held.now →
            TakesLast (are_parts self.now) taken parts held.now result };
}
