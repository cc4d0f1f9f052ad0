//! What persons did for a work.
ghost use Rattle.std.specs.Prelude.{◌≡◌, IfOk, map, ok_or};
ghost use Rattle.haya_people.specs.Person.{person_view};
ghost use Rattle.haya_people.specs.Roles.{RoleView, RolesView, role_name, role_read, role_view};
ghost use Rattle.haya_people.specs.Roles.{roles_view};
ghost use Rattle.haya_people.specs.declared.person.PersonError.TheVariants.{UnknownRole};

use crate::{Person, PersonError};
use haya_text::{OutOfMemory, TryClone};
use std::alloc::Global;
use std::str::FromStr;

/// What a person did for a work, beside writing or editing it.
#[derive(Debug, Drop, PartialEq, Eq, Hash)]
pub enum PersonRole {
    /// Translated the work from another language.
    Translator,
    /// Wrote the afterword.
    Afterword,
    /// Wrote the foreword.
    Foreword,
    /// Wrote the introduction.
    Introduction,
    /// Wrote notes on the work.
    Annotator,
    /// Wrote a commentary on the work.
    Commentator,
    /// Holds a patent or the like.
    Holder,
    /// Put the works of others together.
    Compiler,
    /// Founded the publication.
    Founder,
    /// Took part in the work.
    Collaborator,
    /// Organized the event, or the work of others on it.
    Organizer,
    /// Is in the cast of a performed work.
    CastMember,
    /// Composed all or some of the music.
    Composer,
    /// Produced the work.
    Producer,
    /// Was the leading producer.
    ExecutiveProducer,
    /// Did the writing for a performed work.
    Writer,
    /// Led the camera work.
    Cinematography,
    /// Directed the work.
    Director,
    /// Made the pictures.
    Illustrator,
    /// Narrated the work, in sound or speech.
    Narrator,
    /// Any other part, in words.
    Unknown(String),
}

impl PersonRole {
    /// The role's name, as `from_str` reads it, or, where it has none, its words.
    pub fn name(&self) -> &str
        ensures { result.now ≡ role_name (role_view self.now) }
    {
        match self {
            PersonRole::Translator => "translator",
            PersonRole::Afterword => "afterword",
            PersonRole::Foreword => "foreword",
            PersonRole::Introduction => "introduction",
            PersonRole::Annotator => "annotator",
            PersonRole::Commentator => "commentator",
            PersonRole::Holder => "holder",
            PersonRole::Compiler => "compiler",
            PersonRole::Founder => "founder",
            PersonRole::Collaborator => "collaborator",
            PersonRole::Organizer => "organizer",
            PersonRole::CastMember => "cast-member",
            PersonRole::Composer => "composer",
            PersonRole::Producer => "producer",
            PersonRole::ExecutiveProducer => "executive-producer",
            PersonRole::Writer => "writer",
            PersonRole::Cinematography => "cinematography",
            PersonRole::Director => "director",
            PersonRole::Illustrator => "illustrator",
            PersonRole::Narrator => "narrator",
            PersonRole::Unknown(words) => words.as_str(),
        }
    }

    /// A copy, equal to this role.
    pub fn try_clone(&self, alloc: Global) -> Result<PersonRole, OutOfMemory>
        ensures { IfOk result (λ copy. role_view copy ≡ role_view self.now) }
    {
        Ok(match self {
            PersonRole::Translator => PersonRole::Translator,
            PersonRole::Afterword => PersonRole::Afterword,
            PersonRole::Foreword => PersonRole::Foreword,
            PersonRole::Introduction => PersonRole::Introduction,
            PersonRole::Annotator => PersonRole::Annotator,
            PersonRole::Commentator => PersonRole::Commentator,
            PersonRole::Holder => PersonRole::Holder,
            PersonRole::Compiler => PersonRole::Compiler,
            PersonRole::Founder => PersonRole::Founder,
            PersonRole::Collaborator => PersonRole::Collaborator,
            PersonRole::Organizer => PersonRole::Organizer,
            PersonRole::CastMember => PersonRole::CastMember,
            PersonRole::Composer => PersonRole::Composer,
            PersonRole::Producer => PersonRole::Producer,
            PersonRole::ExecutiveProducer => PersonRole::ExecutiveProducer,
            PersonRole::Writer => PersonRole::Writer,
            PersonRole::Cinematography => PersonRole::Cinematography,
            PersonRole::Director => PersonRole::Director,
            PersonRole::Illustrator => PersonRole::Illustrator,
            PersonRole::Narrator => PersonRole::Narrator,
            PersonRole::Unknown(text) => PersonRole::Unknown(text.try_clone(alloc)?),
        })
    }
}

impl TryClone for PersonRole {
    ghost View = { RoleView };

    ghost view = { role_view };

    fn try_clone(&self, alloc: Global) -> Result<PersonRole, OutOfMemory> {
        self.try_clone(alloc)
    }
}

impl FromStr for PersonRole {
    type Err = PersonError;

    ghost from_str_gives = { λ text read. read ≡ ok_or (role_read text) UnknownRole };

    /// The role of this name: its name here in lower case, words joined by hyphens, as
    /// `cast-member`. Any other text is an `UnknownRole`, also `unknown`; the text isn't trimmed.
    fn from_str(name: &str) -> Result<PersonRole, PersonError> {
        match name {
            "translator" => Ok(PersonRole::Translator),
            "afterword" => Ok(PersonRole::Afterword),
            "foreword" => Ok(PersonRole::Foreword),
            "introduction" => Ok(PersonRole::Introduction),
            "annotator" => Ok(PersonRole::Annotator),
            "commentator" => Ok(PersonRole::Commentator),
            "holder" => Ok(PersonRole::Holder),
            "compiler" => Ok(PersonRole::Compiler),
            "founder" => Ok(PersonRole::Founder),
            "collaborator" => Ok(PersonRole::Collaborator),
            "organizer" => Ok(PersonRole::Organizer),
            "cast-member" => Ok(PersonRole::CastMember),
            "composer" => Ok(PersonRole::Composer),
            "producer" => Ok(PersonRole::Producer),
            "executive-producer" => Ok(PersonRole::ExecutiveProducer),
            "writer" => Ok(PersonRole::Writer),
            "cinematography" => Ok(PersonRole::Cinematography),
            "director" => Ok(PersonRole::Director),
            "illustrator" => Ok(PersonRole::Illustrator),
            "narrator" => Ok(PersonRole::Narrator),
            _ => Err(PersonError::UnknownRole),
        }
    }
}

/// Persons who did the same for a work.
#[derive(Debug, Drop, PartialEq, Eq, Hash)]
pub struct PersonsWithRoles {
    /// The persons, in order.
    pub names: Vec<Person>,
    /// What they did.
    pub role: PersonRole,
}

impl PersonsWithRoles {
    /// These persons in this role.
    pub fn new(names: Vec<Person>, role: PersonRole) -> PersonsWithRoles
        ensures { roles_view result
            ≡ record { names = map person_view names.items; role = role_view role } }
    {
        PersonsWithRoles { names, role }
    }

    /// A copy, equal to these persons and their role.
    pub fn try_clone(&self, alloc: Global) -> Result<PersonsWithRoles, OutOfMemory>
        ensures { IfOk result (λ copy. roles_view copy ≡ roles_view self.now) }
    {
        let names = self.names.try_clone(alloc)?;
        let role = self.role.try_clone(alloc)?;
        Ok(PersonsWithRoles { names, role })
    }
}

impl TryClone for PersonsWithRoles {
    ghost View = { RolesView };

    ghost view = { roles_view };

    fn try_clone(&self, alloc: Global) -> Result<PersonsWithRoles, OutOfMemory> {
        self.try_clone(alloc)
    }
}
