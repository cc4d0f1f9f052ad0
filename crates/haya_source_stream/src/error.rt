//! Why an element isn't asked.
use haya_json::{ElementError, JsonLineError};
use haya_line_library::InputError;
use haya_text::OutOfMemory;

/// Why an element isn't asked.
#[derive(Debug, Drop)]
pub enum PartError {
    /// It is an item, or a member, that says no entry.
    Element(ElementError),
    /// It is a line of JSON that says none.
    Line(JsonLineError),
    /// It is lines of which one has this fault, by its number in the input.
    Lines(InputError),
    /// An allocation failed that isn't told by the errors above.
    OutOfMemory,
}

impl From<OutOfMemory> for PartError {
    ghost use Rattle.std.specs.Prelude.{◌≡◌};
    ghost use Rattle.haya_source_stream.specs.declared.error.PartError.TheVariants.{OutOfMemory};

    ghost from_gives = { λ _ e. e ≡ OutOfMemory };

    fn from(_error: OutOfMemory) -> PartError {
        PartError::OutOfMemory
    }
}
