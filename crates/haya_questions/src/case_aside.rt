//! Texts that are compared case aside.
ghost use Rattle.std.specs.Prelude.{◌≡◌, IfOk, option_map, string_bytes};
ghost use Rattle.std.specs.Str.{bytes_eq};
ghost use Rattle.haya_people.specs.Particles.{folded};
ghost use Rattle.haya_questions.specs.CaseAside.{case_aside, compared, family_name, has_part};
ghost use Rattle.haya_questions.specs.Place.{part_view};
ghost use Rattle.haya_questions.specs.Value.{value_view};

use crate::place::Part;
use crate::shown::shown;
use crate::value::Value;
use caseless::default_case_fold_str;
use haya_text::OutOfMemory;
use std::alloc::Global;

/// The text in default case fold.
pub(crate) fn folded(alloc: Global, text: &str) -> Result<String, OutOfMemory>
    ensures { IfOk result (λ fold. string_bytes fold ≡ folded text.now) }
{
    Ok(default_case_fold_str(alloc, text)?)
}

/// The text that the values of the part are compared with.
#[tactic(auto, unfolding(crate::specs::CaseAside::case_aside))]
pub(crate) fn case_aside(alloc: Global, part: &Part, text: &str) -> Result<String, OutOfMemory>
    ensures { IfOk result (λ aside. string_bytes aside
        ≡ case_aside (part_view part.now) text.now) }
{
    match part {
        Part::Key => Ok(String::from_str(alloc, text)?),
        Part::Field(_) | Part::Type | Part::Role(_) => folded(alloc, text),
    }
}

/// The text by which the value is compared.
#[tactic(auto, unfolding(crate::specs::CaseAside::compared))]
pub(crate) fn compared(alloc: Global, value: Value) -> Result<String, OutOfMemory>
    ensures { IfOk result (λ text. string_bytes text ≡ compared (value_view value.entry)) }
{
    match value {
        Value::Key(text) => Ok(String::from_str(alloc, text)?),
        _ => folded(alloc, shown(alloc, value)?.as_str()),
    }
}

/// The family name of a person.
pub(crate) fn family_name(value: Value<'_>) -> Option<&str>
    ensures { option_map (λ t. t.now) result ≡ family_name (value_view value.entry) }
{
    match value {
        Value::Person(person) | Value::InRole(_, person) => Some(person.name.as_str()),
        _ => None,
    }
}

/// Whether the text has the part in it.
pub(crate) fn has_part(part: &str, text: &str) -> bool
    ensures { result ≡ has_part part.now text.now }
{
    text.contains(part)
}
