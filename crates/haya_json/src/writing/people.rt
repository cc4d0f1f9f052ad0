//! Persons, and persons with their roles.
ghost use Rattle.std.specs.Prelude.{◌≡◌, option_map, string_bytes, IfOk, OnOk};
ghost use Rattle.std.specs.Option.{option_eq};
ghost use Rattle.std.specs.Str.{bytes_eq};
ghost use Rattle.haya_people.specs.Person.{person_view};
ghost use Rattle.haya_people.specs.Roles.{roles_view};
ghost use Rattle.haya_json.specs.Printed.{person_parts, reads_as_person};
ghost use Rattle.haya_json.specs.Printed.{same_person, same_truth};
ghost use Rattle.haya_json.specs.Writing.{KeepsBefore, WritesValue};

use crate::members::{ToJson, also_text, also_true, write_many, write_text};
use haya_people::{Person, PersonError, PersonsWithRoles};
use haya_text::{OutOfMemory, ReadText};
use json::Writer;
use std::alloc::Global;

impl ToJson for Person {
    ghost use Rattle.haya_people.specs.Person.{PersonView, person_view};
    ghost use Rattle.haya_json.specs.Printed.{person_json};

    ghost View = { PersonView };

    ghost view = { person_view };

    ghost json = { person_json };

    /// A text where that reads as the person, otherwise an object of the parts of the name.
    #[tactic(auto, unfolding(crate::specs::Printed::person_json))]
    fn write_json(&self, alloc: Global, out: &mut Writer) -> Result<(), OutOfMemory> {
        let text = self.to_serialized(alloc)?;
        if reads_as(alloc, text.as_str(), self)? {
            return Ok(out.string(text.as_str())?);
        }
        write_parts(out, self)
    }
}

// Whether the text reads as the person.
fn reads_as(alloc: Global, text: &str, person: &Person) -> Result<bool, OutOfMemory>
    ensures { IfOk result (λ b. b ≡ reads_as_person text.now (person_view person.now)) }
{
    match Person::from_str(alloc, text) {
        Ok(read) => Ok(same_person(&read, person)),
        Err(PersonError::OutOfMemory) => Err(OutOfMemory),
        Err(_) => Ok(false),
    }
}

// Whether two persons have the same parts.
fn same_person(a: &Person, b: &Person) -> bool
    ensures { result ≡ same_person (person_view a.now) (person_view b.now) }
{
    a.name == b.name
        && same_part(&a.given_name, &b.given_name)
        && same_part(&a.prefix, &b.prefix)
        && same_part(&a.suffix, &b.suffix)
        && same_truth(a.comma_suffix, b.comma_suffix)
        && same_part(&a.alias, &b.alias)
}

// Whether two parts are the same.
fn same_part(a: &Option<String>, b: &Option<String>) -> bool
    ensures { result ≡ option_eq bytes_eq
        (option_map string_bytes a.now) (option_map string_bytes b.now) }
{
    match (a, b) {
        (Some(a), Some(b)) => a == b,
        (None, None) => true,
        _ => false,
    }
}

// Whether both are true, or neither.
pub(super) fn same_truth(a: bool, b: bool) -> bool
    ensures { result ≡ same_truth a b }
{
    if a { b } else { !b }
}

// The parts of a name as an object.
fn write_parts(out: &mut Writer, person: &Person) -> Result<(), OutOfMemory>
    ensures value { OnOk result (WritesValue out.old out.new
        (person_parts (person_view person.now))) }
    ensures before { OnOk result (KeepsBefore out.old out.new) }
{
    out.begin_object()?;
    write_text(out, "name", person.name.as_str())?;
    also_text(out, "given-name", text_of(&person.given_name))?;
    also_text(out, "prefix", text_of(&person.prefix))?;
    also_text(out, "suffix", text_of(&person.suffix))?;
    also_true(out, "comma-suffix", person.comma_suffix)?;
    also_text(out, "alias", text_of(&person.alias))?;
    out.end_object()?;
    Ok(())
}

// The text, if there is one.
fn text_of(text: &Option<String>) -> Option<&str>
    ensures { option_map (λ t. t.now) result ≡ option_map string_bytes text.now }
{
    match text {
        Some(text) => Some(text.as_str()),
        None => None,
    }
}

impl ToJson for PersonsWithRoles {
    ghost use Rattle.haya_people.specs.Roles.{RolesView, roles_view};
    ghost use Rattle.haya_json.specs.Printed.{roles_json};

    ghost View = { RolesView };

    ghost view = { roles_view };

    ghost json = { roles_json };

    /// The role and the persons, as an object.
    #[tactic(auto, unfolding(crate::specs::Printed::roles_json))]
    fn write_json(&self, alloc: Global, out: &mut Writer) -> Result<(), OutOfMemory> {
        out.begin_object()?;
        write_text(out, "role", self.role.name())?;
        write_many(alloc, out, "names", self.names.as_slice())?;
        out.end_object()?;
        Ok(())
    }
}
