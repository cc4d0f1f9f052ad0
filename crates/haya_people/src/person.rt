//! Persons: the parts of a name.
ghost use Rattle.std.specs.Prelude.{◌≡◌, string_bytes, IfOk};
ghost use Rattle.haya_people.specs.Person.{person_view};
ghost use Rattle.haya_people.specs.PersonText.{person_text};

use haya_text::{OutOfMemory, ReadFault, TryClone};
use std::alloc::Global;
use thiserror::Error;

/// A person, by the parts of the name. Two persons are equal where all their parts are.
#[derive(Debug, Drop, PartialEq, Eq, Hash)]
pub struct Person {
    /// The family name without its prefix, as `Dissmer`.
    pub name: String,
    /// The given name, as `Courtney Deliah`.
    pub given_name: Option<String>,
    /// What stands before the family name, as `van`.
    pub prefix: Option<String>,
    /// What stands behind the name, as `Jr.`.
    pub suffix: Option<String>,
    /// Whether the suffix stands after a comma.
    pub comma_suffix: bool,
    /// Another name of the person.
    pub alias: Option<String>,
}

impl Person {
    /// A copy, equal to this person.
    pub fn try_clone(&self, alloc: Global) -> Result<Person, OutOfMemory>
        ensures { IfOk result (λ copy. person_view copy ≡ person_view self.now) }
    {
        Ok(Person {
            name: self.name.try_clone(alloc)?,
            given_name: self.given_name.try_clone(alloc)?,
            prefix: self.prefix.try_clone(alloc)?,
            suffix: self.suffix.try_clone(alloc)?,
            comma_suffix: self.comma_suffix,
            alias: self.alias.try_clone(alloc)?,
        })
    }

    /// The name as one text: the prefix and the family name, then the suffix and the given name,
    /// each behind a comma, as `van der Kooy, Jr., Ruben`. `from_str` reads it; the alias, and
    /// whether the suffix stands after a comma, aren't in it.
    pub fn to_serialized(&self, alloc: Global) -> Result<String, OutOfMemory>
        ensures { IfOk result (λ text. string_bytes text ≡ person_text (person_view self.now)) }
    {
        let mut text = String::new(alloc);
        if let Some(prefix) = &self.prefix {
            text.push_str(prefix.as_str())?;
            text.push_str(" ")?;
        }
        text.push_str(self.name.as_str())?;
        if let Some(suffix) = &self.suffix {
            text.push_str(", ")?;
            text.push_str(suffix.as_str())?;
        }
        if let Some(given_name) = &self.given_name {
            text.push_str(", ")?;
            text.push_str(given_name.as_str())?;
        }
        Ok(text)
    }
}

impl TryClone for Person {
    ghost use Rattle.haya_people.specs.Person.{PersonView, person_view};

    ghost View = { PersonView };

    ghost view = { person_view };

    fn try_clone(&self, alloc: Global) -> Result<Person, OutOfMemory> {
        self.try_clone(alloc)
    }
}

/// Why a text is not read as a person, or as a role.
#[derive(Clone, Copy, Debug, PartialEq, Eq, Error)]
pub enum PersonError {
    /// A name of more than three parts.
    #[error("a name has at most three parts")]
    TooManyParts,
    /// A name of no part.
    #[error("a name has at least one part")]
    Empty,
    /// A text that names no role.
    #[error("unknown role")]
    UnknownRole,
    /// An allocation fails.
    #[error("out of memory")]
    OutOfMemory,
}

impl From<OutOfMemory> for PersonError {
    ghost use Rattle.std.specs.Prelude.{◌≡◌};
    ghost use Rattle.haya_people.specs.declared.person.PersonError.TheVariants as error;

    ghost from_gives = { λ _ e. e ≡ error.OutOfMemory };

    fn from(_error: OutOfMemory) -> PersonError {
        PersonError::OutOfMemory
    }
}

impl ReadFault for PersonError {
    ghost use Rattle.haya_people.specs.Person.{is_memory};

    ghost out_of_memory = { is_memory };

    fn is_out_of_memory(&self) -> bool {
        matches!(self, PersonError::OutOfMemory)
    }
}
