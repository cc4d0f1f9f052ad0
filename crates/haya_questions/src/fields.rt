//! The values of each part of an entry.
ghost use Rattle.std.specs.Prelude.{◌≡◌, ◌++◌, IfOk, OnOk, map, option_map};
ghost use Rattle.haya_text.specs.Texts.{text_view};
ghost use Rattle.haya_people.specs.Person.{person_view};
ghost use Rattle.haya_people.specs.Roles.{role_view, roles_view};
ghost use Rattle.haya_entry.specs.EntryType.{in_lower_case, type_name};
ghost use Rattle.haya_entry.specs.Lookups.{affiliated_with_role};
ghost use Rattle.haya_entry.specs.SerialNumber.{serial_view};
ghost use Rattle.haya_entry.specs.Tree.{fields, view};
ghost use Rattle.haya_questions.specs.Fields.{each, each_in_roles, field_values, in_roles, one};
ghost use Rattle.haya_questions.specs.Fields.{part_values, publisher_name};
ghost use Rattle.haya_questions.specs.Place.{part_view};
ghost use Rattle.haya_questions.specs.Value.{PersonValue, RoleValue, TextValue, value_view};

use crate::place::Part;
use crate::value::{ToValue, Value};
use haya_entry::{Entry, FieldName, SerialNumber};
use haya_people::{Person, PersonRole, PersonsWithRoles};
use haya_text::{FormatString, OutOfMemory};
use std::alloc::Global;

/// The values of a part of an entry, in order.
#[tactic(auto, unfolding(crate::specs::Fields::part_values))]
pub(crate) fn part_values<'e>(
    alloc: Global,
    entry: &'e Entry,
    part: &Part,
) -> Result<Vec<Value<'e>>, OutOfMemory>
    ensures { IfOk result (λ values. map value_view values.items
        ≡ part_values (part_view part.now) (view entry.now)) }
{
    match part {
        Part::Field(field) => field_values(alloc, entry, *field),
        Part::Key => Ok(vec![in alloc; Value::Key(entry.key())]?),
        Part::Type => Ok(vec![in alloc; Value::Plain(type_name(entry))]?),
        Part::Role(role) => persons_in_role(alloc, entry, role),
    }
}

// The name of the type, in lower case.
fn type_name(entry: &Entry) -> &str
    ensures { result.now ≡ in_lower_case (type_name (fields (view entry.now)).entry_type) }
{
    entry.entry_type().lower_name()
}

// The values of a field.
fn field_values<'e>(
    alloc: Global,
    entry: &'e Entry,
    field: FieldName,
) -> Result<Vec<Value<'e>>, OutOfMemory>
    ensures { IfOk result (λ values. map value_view values.items
        ≡ field_values field (fields (view entry.now))) }
{
    match field {
        FieldName::Title => one(alloc, entry.title()),
        FieldName::Location => one(alloc, entry.location()),
        FieldName::Organization => one(alloc, entry.organization()),
        FieldName::Archive => one(alloc, entry.archive()),
        FieldName::ArchiveLocation => one(alloc, entry.archive_location()),
        FieldName::CallNumber => one(alloc, entry.call_number()),
        FieldName::Note => one(alloc, entry.note()),
        FieldName::Abstract => one(alloc, entry.abstract_()),
        FieldName::Genre => one(alloc, entry.genre()),
        FieldName::Author => each(alloc, entry.authors()),
        FieldName::Editor => each(alloc, entry.editors()),
        FieldName::Affiliated => each_in_roles(alloc, entry.affiliated()),
        FieldName::Date => one(alloc, entry.date()),
        FieldName::Publisher => one(alloc, publisher_name(entry)),
        FieldName::Url => one(alloc, entry.url()),
        FieldName::Issue => one(alloc, entry.issue()),
        FieldName::Chapter => one(alloc, entry.chapter()),
        FieldName::Volume => one(alloc, entry.volume()),
        FieldName::Edition => one(alloc, entry.edition()),
        FieldName::VolumeTotal => one(alloc, entry.volume_total()),
        FieldName::PageTotal => one(alloc, entry.page_total()),
        FieldName::PageRange => one(alloc, entry.page_range()),
        FieldName::TimeRange => one(alloc, entry.time_range()),
        FieldName::Runtime => one(alloc, entry.runtime()),
        FieldName::SerialNumber => serials(alloc, entry.serial_number()),
        FieldName::Language => plain(alloc, entry.language()),
        // Each of the others is a serial number.
        _ => plain(alloc, entry.keyed_serial_number(field.as_str())),
    }
}

// A value where the field is set.
fn one<'e, T: ToValue>(alloc: Global, field: Option<&'e T>) -> Result<Vec<Value<'e>>, OutOfMemory>
    ensures { IfOk result (λ values. map value_view values.items
        ≡ one T.value (option_map (λ v. T.view v.now) field.entry)) }
{
    match field {
        Some(value) => Ok(vec![in alloc; value.to_value()]?),
        None => Ok(Vec::new(alloc)),
    }
}

// A text as it stands, where there is one.
fn plain<'e>(alloc: Global, text: Option<&'e str>) -> Result<Vec<Value<'e>>, OutOfMemory>
    ensures { IfOk result (λ values. map value_view values.items
        ≡ one TextValue (option_map (λ t. t.now) text.entry)) }
{
    match text {
        Some(text) => Ok(vec![in alloc; Value::Plain(text)]?),
        None => Ok(Vec::new(alloc)),
    }
}

// A value for each of a list that is set.
fn each<'e, T: ToValue>(alloc: Global, list: Option<&'e [T]>) -> Result<Vec<Value<'e>>, OutOfMemory>
    ensures { IfOk result (λ values. map value_view values.items
        ≡ each T.value (option_map (λ v. map T.view v.now) list.entry)) }
{
    let mut values = Vec::new(alloc);
    if let Some(list) = list {
        push_each(&mut values, list)?;
    }
    Ok(values)
}

// A value for each of a list.
fn push_each<'e, T: ToValue>(values: &mut Vec<Value<'e>>, list: &'e [T]) -> Result<(), OutOfMemory>
    ensures { OnOk result (map value_view values.new.items
        ≡ map value_view values.old.items ++ map T.value (map T.view list.now)) }
{
    'list: for value in list {
        values.push(value.to_value())?;
    }
    Ok(())
}

// A value for each person in each role.
fn each_in_roles(
    alloc: Global,
    affiliated: Option<&[PersonsWithRoles]>,
) -> Result<Vec<Value<'_>>, OutOfMemory>
    ensures { IfOk result (λ values. map value_view values.items
        ≡ each_in_roles (option_map (λ v. map roles_view v.now) affiliated.entry)) }
{
    let mut values = Vec::new(alloc);
    if let Some(affiliated) = affiliated {
        push_in_roles(&mut values, affiliated)?;
    }
    Ok(values)
}

// The same of a list.
fn push_in_roles<'e>(
    values: &mut Vec<Value<'e>>,
    affiliated: &'e [PersonsWithRoles],
) -> Result<(), OutOfMemory>
    ensures { OnOk result (map value_view values.new.items
        ≡ map value_view values.old.items ++ in_roles (map roles_view affiliated.now)) }
{
    'affiliated: for persons in affiliated {
        push_in_role(values, &persons.role, persons.names.as_slice())?;
    }
    Ok(())
}

// A value for each person in a role.
fn push_in_role<'e>(
    values: &mut Vec<Value<'e>>,
    role: &'e PersonRole,
    persons: &'e [Person],
) -> Result<(), OutOfMemory>
    ensures { OnOk result (map value_view values.new.items ≡ map value_view values.old.items
        ++ map (RoleValue (role_view role.now)) (map person_view persons.now)) }
{
    'persons: for person in persons {
        values.push(Value::InRole(role, person))?;
    }
    Ok(())
}

// A value for each person with the role that the place names.
fn persons_in_role<'e>(
    alloc: Global,
    entry: &'e Entry,
    role: &PersonRole,
) -> Result<Vec<Value<'e>>, OutOfMemory>
    ensures { IfOk result (λ values. map value_view values.items
        ≡ map PersonValue (affiliated_with_role (role_view role.now) (view entry.now))) }
{
    let persons = entry.affiliated_with_role(alloc, role.try_clone(alloc)?)?;
    let mut values = Vec::with_capacity(alloc, persons.len())?;
    push_persons(&mut values, persons.as_slice())?;
    Ok(values)
}

// A value for each person.
fn push_persons<'e>(values: &mut Vec<Value<'e>>, persons: &[&'e Person]) -> Result<(), OutOfMemory>
    ensures { OnOk result (map value_view values.new.items ≡ map value_view values.old.items
        ++ map PersonValue (map (λ p. person_view p.now) persons.now)) }
{
    'persons: for person in persons {
        values.push(Value::Person(*person))?;
    }
    Ok(())
}

// The name of the publisher.
fn publisher_name(entry: &Entry) -> Option<&FormatString>
    ensures { option_map (λ t. text_view t.now) result
        ≡ publisher_name (fields (view entry.now)).publisher }
{
    entry.publisher()?.name()
}

// A value for each serial number, in the order of their keys.
fn serials(alloc: Global, numbers: Option<&SerialNumber>) -> Result<Vec<Value<'_>>, OutOfMemory>
    ensures { IfOk result (λ values. map value_view values.items
        ≡ each (λ e. TextValue e.1) (option_map (λ s. serial_view s.now) numbers.entry)) }
{
    let mut values = Vec::new(alloc);
    if let Some(numbers) = numbers {
        push_serials(&mut values, numbers)?;
    }
    Ok(values)
}

// The same of numbers that are set.
fn push_serials<'e>(
    values: &mut Vec<Value<'e>>,
    numbers: &'e SerialNumber,
) -> Result<(), OutOfMemory>
    ensures { OnOk result (map value_view values.new.items
        ≡ map value_view values.old.items ++ map (λ e. TextValue e.1) (serial_view numbers.now)) }
{
    if let Some(number) = numbers.only() {
        values.push(Value::Plain(number.1.as_str()))?;
    }
    'numbers: for (_, number) in numbers.several().iter() {
        values.push(Value::Plain(number.as_str()))?;
    }
    Ok(())
}
