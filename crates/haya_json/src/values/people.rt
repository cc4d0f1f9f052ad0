//! Persons, and persons with their roles.
ghost use Rattle.std.specs.Prelude.{◌≡◌, IfOk, IfErr, Ok};
ghost use Rattle.json.specs.Value.{value_view};
ghost use Rattle.haya_people.specs.Person.{person_view};
ghost use Rattle.haya_people.specs.Roles.{roles_view};
ghost use Rattle.haya_json.specs.Refusal.{IsFaultOf};
ghost use Rattle.haya_json.specs.Values.{person_in, roles_in};

use crate::fault::{ValueError, Why};
use crate::from_json::{FromJson, flag, needed, optional, read_by, read_text};
use haya_people::{Person, PersonRole, PersonsWithRoles};
use json::Value;
use std::alloc::Global;

impl FromJson for Person {
    ghost use Rattle.haya_people.specs.Person.{PersonView, person_view};
    ghost use Rattle.haya_json.specs.Values.{person_of};

    ghost View = { PersonView };

    ghost view = { person_view };

    ghost reads = { person_of };

    /// A text whose parts are separated by commas, or an object of the parts of the name.
    #[tactic(auto, unfolding(crate::specs::Values::person_of))]
    fn from_json(alloc: Global, json: &Value<'_>) -> Result<Person, ValueError> {
        match json {
            Value::Object(_) => read_parts(alloc, json),
            _ => read_by(alloc, json, Why::NotPerson),
        }
    }
}

// The person of an object.
fn read_parts(alloc: Global, json: &Value<'_>) -> Result<Person, ValueError>
    ensures ok { IfOk result (λ p. person_in (value_view json.now) ≡ Ok (person_view p)) }
    ensures fault { IfErr result (IsFaultOf (person_in (value_view json.now))) }
{
    let name = needed::<String>(alloc, json, "name")?;
    let given_name = optional::<String>(alloc, json, "given-name")?;
    let prefix = optional::<String>(alloc, json, "prefix")?;
    let suffix = optional::<String>(alloc, json, "suffix")?;
    let comma_suffix = flag(alloc, json, "comma-suffix")?;
    let alias = optional::<String>(alloc, json, "alias")?;
    Ok(Person {
        name,
        given_name,
        prefix,
        suffix,
        comma_suffix,
        alias,
    })
}

impl FromJson for PersonRole {
    ghost use Rattle.haya_people.specs.Roles.{RoleView, role_view};
    ghost use Rattle.haya_json.specs.Values.{role_of};

    ghost View = { RoleView };

    ghost view = { role_view };

    ghost reads = { role_of };

    /// The role of this name.
    #[tactic(auto, unfolding(crate::specs::Values::role_of))]
    fn from_json(alloc: Global, json: &Value<'_>) -> Result<PersonRole, ValueError> {
        let text = read_text(alloc, json)?;
        match text.parse::<PersonRole>() {
            Ok(role) => Ok(role),
            Err(_) => Err(ValueError::refused(alloc, Why::UnknownRole)),
        }
    }
}

impl FromJson for PersonsWithRoles {
    ghost use Rattle.haya_people.specs.Roles.{RolesView, roles_view};
    ghost use Rattle.haya_json.specs.Values.{roles_of};

    ghost View = { RolesView };

    ghost view = { roles_view };

    ghost reads = { roles_of };

    /// An object of a `role` and its `names`.
    #[tactic(auto, unfolding(crate::specs::Values::roles_of))]
    fn from_json(alloc: Global, json: &Value<'_>) -> Result<PersonsWithRoles, ValueError> {
        match json {
            Value::Object(_) => read_roles(alloc, json),
            _ => Err(ValueError::refused(alloc, Why::NotObject)),
        }
    }
}

// The persons of an object with their role.
#[tactic(auto, unfolding(crate::specs::Values::persons_of))]
fn read_roles(alloc: Global, json: &Value<'_>) -> Result<PersonsWithRoles, ValueError>
    ensures ok { IfOk result (λ ps. roles_in (value_view json.now) ≡ Ok (roles_view ps)) }
    ensures fault { IfErr result (IsFaultOf (roles_in (value_view json.now))) }
{
    let role = needed::<PersonRole>(alloc, json, "role")?;
    let names = needed::<Vec<Person>>(alloc, json, "names")?;
    Ok(PersonsWithRoles::new(names, role))
}
