//! The texts that are shown of values.
ghost use Rattle.std.specs.Prelude.{◌≡◌, ◌++◌, IfOk, OnOk, map, string_bytes};
ghost use Rattle.haya_people.specs.Person.{person_view};
ghost use Rattle.haya_people.specs.Roles.{role_view};
ghost use Rattle.haya_text.specs.Texts.{text_view};
ghost use Rattle.haya_questions.specs.Value.{in_role_text, long_text, shown, value_view};

use crate::value::Value;
use haya_people::{Person, PersonRole};
use haya_text::{FormatString, OutOfMemory};
use std::alloc::Global;

/// The text that is shown of the value.
#[tactic(auto, unfolding(crate::specs::Value::shown))]
pub(crate) fn shown(alloc: Global, value: Value) -> Result<String, OutOfMemory>
    ensures { IfOk result (λ text. string_bytes text ≡ shown (value_view value.entry)) }
{
    match value {
        Value::Key(text) | Value::Plain(text) | Value::Untyped(text) => {
            Ok(String::from_str(alloc, text)?)
        }
        Value::Text(text) => long_text(alloc, text),
        Value::Person(person) => person.to_serialized(alloc),
        Value::InRole(role, person) => in_role(alloc, role, person),
        Value::Date(date) => Ok(format!(in alloc; "{date}")?),
        Value::Number(number) => number.round_trip_text(alloc),
        Value::Pages(pages) => pages.round_trip_text(alloc),
        Value::Duration(duration) => Ok(format!(in alloc; "{duration}")?),
        Value::Range(range) => Ok(format!(in alloc; "{range}")?),
    }
}

/// The text of the long form, without markup.
#[tactic(auto, unfolding(crate::specs::Value::long_text))]
pub(crate) fn long_text(alloc: Global, text: &FormatString) -> Result<String, OutOfMemory>
    ensures { IfOk result (λ shown. string_bytes shown ≡ long_text (text_view text.now)) }
{
    Ok(text.value.to_str(alloc)?.into_owned(alloc)?)
}

// A role, a colon, and a person.
fn in_role(alloc: Global, role: &PersonRole, person: &Person) -> Result<String, OutOfMemory>
    ensures { IfOk result (λ text. string_bytes text
        ≡ in_role_text (role_view role.now) (person_view person.now)) }
{
    let mut text = String::from_str(alloc, role.name())?;
    text.push(':')?;
    let person = person.to_serialized(alloc)?;
    text.push_str(person.as_str())?;
    Ok(text)
}

/// The text that is shown of each value.
pub(crate) fn shown_each(alloc: Global, values: &[Value]) -> Result<Vec<String>, OutOfMemory>
    ensures { IfOk result (λ texts. map string_bytes texts.items
        ≡ map shown (map value_view values.now)) }
{
    let mut texts = Vec::with_capacity(alloc, values.len())?;
    'values: for value in values {
        texts.push(shown(alloc, *value)?)?;
    }
    Ok(texts)
}
