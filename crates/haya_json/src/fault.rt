//! Why a value is refused, and where in the text.
ghost use Rattle.std.specs.Prelude.{◌≡◌};
ghost use Rattle.haya_json.specs.Refusal.{IsOutside, here, refusal_of, step_view, to_member};
ghost use Rattle.haya_json.specs.Refusal.{to_item};

use haya_text::OutOfMemory;
use std::alloc::{AllocError, AllocFailed, Global};

/// Why a value is refused: what was expected, or which reader refused its text.
#[derive(Clone, Copy, Debug, PartialEq, Eq)]
pub enum Why {
    /// An entry or a value of several parts is no object.
    NotObject,
    /// The parents of an entry are neither an entry nor a list of entries.
    NotEntries,
    /// A list of values is no array.
    NotList,
    /// Neither a text nor a number, which is read as the text that it is written as.
    NotText,
    /// Neither true nor false.
    NotTruth,
    /// No whole number, or one of more than 32 bits, or a month or a day of more than 8.
    NotWhole,
    /// A member that has to be there is missing.
    Missing,
    /// The same is said before, by another name.
    Twice,
    /// A name of no type.
    UnknownType,
    /// A name of no role.
    UnknownRole,
    /// A text that closes a group that isn't open.
    NotChunks,
    /// A text that isn't read as a person.
    NotPerson,
    /// A text that isn't read as a date.
    NotDate,
    /// A text that isn't read as a number.
    NotNumber,
    /// A text that isn't read as a duration.
    NotDuration,
}

/// A step into a value.
#[derive(Debug, Drop)]
pub enum Step {
    /// To the member with this name.
    Name(String),
    /// To the item at this place. The first place is 0.
    Place(usize),
}

/// Why nothing is read of a value.
#[derive(Debug, Drop)]
pub enum ValueError {
    /// The value at the end of these steps is refused.
    Refused(Vec<Step>, Why),
    /// An allocation failed, which says nothing of the value.
    OutOfMemory,
}

impl std::error::Error for Why {}

impl ValueError {
    /// The value itself is refused.
    pub fn refused(alloc: Global, why: Why) -> ValueError
        ensures { refusal_of result ≡ here why }
    {
        ValueError::Refused(Vec::new(alloc), why)
    }

    /// The same fault, seen from the object that has the value under this name.
    pub fn in_member(self, alloc: Global, name: &str) -> ValueError
        ensures { IsOutside (to_member name.now) self result }
    {
        match String::from_str(alloc, name) {
            Ok(name) => self.behind(Step::Name(name)),
            Err(_) => ValueError::OutOfMemory,
        }
    }

    /// The same fault, seen from the array that has the value at this place.
    pub fn in_item(self, place: usize) -> ValueError
        ensures { IsOutside (to_item place) self result }
    {
        self.behind(Step::Place(place))
    }

    // The same fault, seen from one step further out.
    fn behind(self, step: Step) -> ValueError
        ensures { IsOutside (step_view step) self result }
    {
        match self {
            ValueError::OutOfMemory => ValueError::OutOfMemory,
            ValueError::Refused(mut path, why) => match path.insert(0, step) {
                Ok(()) => ValueError::Refused(path, why),
                Err(_) => ValueError::OutOfMemory,
            },
        }
    }
}

impl From<OutOfMemory> for ValueError {
    ghost use Rattle.haya_json.specs.declared.fault.ValueError.TheVariants as fault;

    ghost from_gives = { λ _ e. e ≡ fault.OutOfMemory };

    fn from(_error: OutOfMemory) -> ValueError {
        ValueError::OutOfMemory
    }
}

impl From<AllocError> for ValueError {
    ghost use Rattle.haya_json.specs.declared.fault.ValueError.TheVariants as fault;

    ghost from_gives = { λ _ e. e ≡ fault.OutOfMemory };

    fn from(_error: AllocError) -> ValueError {
        ValueError::OutOfMemory
    }
}

impl<T: Drop> From<AllocFailed<T>> for ValueError {
    ghost use Rattle.haya_json.specs.declared.fault.ValueError.TheVariants as fault;

    ghost from_gives = { λ _ e. e ≡ fault.OutOfMemory };

    fn from(_error: AllocFailed<T>) -> ValueError {
        ValueError::OutOfMemory
    }
}
