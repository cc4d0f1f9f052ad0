//! Which brackets are around a list.
ghost use Rattle.std.specs.Prelude.{◌≡◌};
ghost use Rattle.haya_json_elements.specs.declared.place.Brackets.{Brackets as BracketsData};
ghost use Rattle.haya_json_elements.specs.declared.place.Brackets.TheVariants.{Curly, Square};

use haya_json_elements::Brackets;

/// Which brackets are around a list.
pub trait Enclosed {
    ghost around: { BracketsData };

    /// These.
    fn brackets() -> Brackets
        ensures { result ≡ around };
}

/// A list in square brackets.
#[derive(Clone, Copy, Debug, Drop, PartialEq, Eq)]
pub struct InSquare;

impl Enclosed for InSquare {
    ghost around = { Square };

    fn brackets() -> Brackets {
        Brackets::Square
    }
}

/// A list in curly brackets.
#[derive(Clone, Copy, Debug, Drop, PartialEq, Eq)]
pub struct InCurly;

impl Enclosed for InCurly {
    ghost around = { Curly };

    fn brackets() -> Brackets {
        Brackets::Curly
    }
}
