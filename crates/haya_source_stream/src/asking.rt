//! What is asked of elements.
ghost use Rattle.std.specs.Prelude.{◌≡◌};
ghost use Rattle.haya_source_stream.specs.Enough.{has_enough};

use crate::kind::StreamedKind;
use haya_asked::Questions;
use hayagriva::CompiledSelector;

/// What is printed of hits.
#[derive(Clone, Copy, Debug, Drop, PartialEq, Eq)]
pub enum Shown {
    /// Their elements.
    Elements,
    /// How many there are.
    Number,
    /// Nothing: one is enough.
    Nothing,
}

/// What is asked of elements, and what is printed of them.
#[derive(Drop)]
pub struct Asking<'q> {
    /// The selector that picks an entry.
    pub selector: CompiledSelector,
    /// The tests that a hit has to pass, and how many are wanted at most.
    pub questions: &'q Questions,
    /// What the elements are.
    pub kind: StreamedKind,
    /// What is printed.
    pub shown: Shown,
}

impl<'q> Asking<'q> {
    /// Whether no more hits are needed where so many are there that are asked for: as many as are
    /// wanted, or, where nothing is printed, one.
    pub fn has_enough(&self, hits: usize) -> bool
        ensures { result ≡ has_enough self.now hits }
    {
        if matches!(self.shown, Shown::Nothing) && hits > 0 {
            return true;
        }
        match self.questions.max {
            Some(most) => most <= hits,
            None => false,
        }
    }
}
