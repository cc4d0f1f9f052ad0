//! The parts of an entry that lines have no room for, and the entry without a part.
ghost use Rattle.std.specs.Prelude.{◌≡◌, IfOk, OnOk, map, option_and_then, option_map};
ghost use Rattle.std.specs.List.{list_any};
ghost use Rattle.haya_entry.specs.Tree.{Sets, fields, view};
ghost use Rattle.haya_people.specs.Person.{person_view};
ghost use Rattle.haya_people.specs.Roles.{roles_view};
ghost use Rattle.haya_text.specs.Texts.{text_view};
ghost use Rattle.haya_values.specs.Publisher.{publisher_view};
ghost use Rattle.haya_values.specs.Url.{url_view};
ghost use Rattle.haya_printing.specs.Parts.{address_alone, alias_is_in, has_alias, has_part};
ghost use Rattle.haya_printing.specs.Parts.{has_short_form};
ghost use Rattle.haya_printing.specs.Parts.{have_alias, have_alias_in_roles, long_alone, long_name};
ghost use Rattle.haya_printing.specs.Parts.{name_alone, text_of, without, without_alias};
ghost use Rattle.haya_printing.specs.Parts.{without_alias_in, without_aliases, without_field};
ghost use Rattle.haya_printing.specs.Parts.{without_fields, without_short_form};
ghost use Rattle.haya_printing.specs.LeftOut.{IsAlone};

use crate::fields::publisher_name;
use crate::left_out::Part;
use haya_entry::{Entry, FieldName};
use haya_people::{Person, PersonsWithRoles};
use haya_text::{FormatString, OutOfMemory, TryClone};
use haya_time::Date;
use haya_values::{Publisher, QualifiedUrl};
use std::alloc::Global;

// The parts that lines have no room for, in the order of a line.
pub(crate) const NO_ROOM: [Part; 15] = [
    Part::ShortForm(FieldName::Title),
    Part::ShortForm(FieldName::Location),
    Part::ShortForm(FieldName::Organization),
    Part::ShortForm(FieldName::Archive),
    Part::ShortForm(FieldName::ArchiveLocation),
    Part::ShortForm(FieldName::CallNumber),
    Part::ShortForm(FieldName::Note),
    Part::ShortForm(FieldName::Abstract),
    Part::ShortForm(FieldName::Genre),
    Part::Alias(FieldName::Author),
    Part::Alias(FieldName::Editor),
    Part::Alias(FieldName::Affiliated),
    Part::ShortForm(FieldName::Publisher),
    Part::PublisherLocation,
    Part::VisitDate,
];

/// Whether the entry has this part, and lines have no room for it.
pub(crate) fn has_part(entry: &Entry, part: Part) -> bool
    ensures { result ≡ has_part part (fields (view entry.now)) }
{
    match part {
        Part::ShortForm(field) => has_short_form(text_of(entry, field)),
        Part::Alias(field) => alias_is_in(entry, field),
        Part::PublisherLocation => publisher_location(entry).is_some(),
        Part::VisitDate => visit_date(entry).is_some(),
        Part::Field(_) | Part::Key | Part::Parents => false,
    }
}

// The text that the field is.
fn text_of(entry: &Entry, field: FieldName) -> Option<&FormatString>
    ensures { option_map (λ t. text_view t.now) result ≡ text_of field (fields (view entry.now)) }
{
    match field {
        FieldName::Title => entry.title(),
        FieldName::Location => entry.location(),
        FieldName::Organization => entry.organization(),
        FieldName::Archive => entry.archive(),
        FieldName::ArchiveLocation => entry.archive_location(),
        FieldName::CallNumber => entry.call_number(),
        FieldName::Note => entry.note(),
        FieldName::Abstract => entry.abstract_(),
        FieldName::Genre => entry.genre(),
        FieldName::Publisher => publisher_name(entry),
        _ => None,
    }
}

fn has_short_form(text: Option<&FormatString>) -> bool
    ensures { result ≡ has_short_form (option_map (λ t. text_view t.now) text.entry) }
{
    match text {
        Some(text) => text.short.is_some(),
        None => false,
    }
}

// Whether someone in the field has an alias.
fn alias_is_in(entry: &Entry, field: FieldName) -> bool
    ensures { result ≡ alias_is_in field (fields (view entry.now)) }
{
    match field {
        FieldName::Author => have_alias(entry.authors()),
        FieldName::Editor => have_alias(entry.editors()),
        FieldName::Affiliated => have_alias_in_roles(entry.affiliated()),
        _ => false,
    }
}

fn have_alias(people: Option<&[Person]>) -> bool
    ensures { result ≡ have_alias (option_map (λ v. map person_view v.now) people.entry) }
{
    match people {
        Some(people) => some_has_alias(people),
        None => false,
    }
}

fn some_has_alias(people: &[Person]) -> bool
    ensures { result ≡ list_any has_alias (map person_view people.now) }
{
    people.iter().any(|person| person.alias.is_some())
}

fn have_alias_in_roles(roles: Option<&[PersonsWithRoles]>) -> bool
    ensures { result ≡ have_alias_in_roles (option_map (λ v. map roles_view v.now) roles.entry) }
{
    match roles {
        Some(roles) => some_in_roles_has_alias(roles),
        None => false,
    }
}

fn some_in_roles_has_alias(roles: &[PersonsWithRoles]) -> bool
    ensures { result ≡ list_any (λ r. list_any has_alias r.names) (map roles_view roles.now) }
{
    roles
        .iter()
        .any(|persons| some_has_alias(persons.names.as_slice()))
}

// The place of the publisher.
fn publisher_location(entry: &Entry) -> Option<&FormatString>
    ensures { option_map (λ t. text_view t.now) result
        ≡ option_and_then (λ p. p.location) (fields (view entry.now)).publisher }
{
    entry.publisher()?.location()
}

// The date on which the address was visited.
fn visit_date(entry: &Entry) -> Option<Date>
    ensures { result ≡ option_and_then (λ u. u.visit_date) (fields (view entry.now)).url }
{
    entry.url()?.visit_date
}

/// Leaves a part of an entry out. Nothing else changes.
pub(crate) fn leave_out(alloc: Global, entry: &mut Entry, part: Part) -> Result<(), OutOfMemory>
    ensures { OnOk result (Sets entry.old entry.new (without part)) }
{
    match part {
        Part::ShortForm(field) => leave_out_short_form(alloc, entry, field)?,
        Part::Alias(field) => leave_out_aliases(entry, field),
        Part::PublisherLocation => leave_out_location(alloc, &mut entry.publisher)?,
        Part::VisitDate => leave_out_visit_date(&mut entry.url),
        Part::Field(field) => leave_out_field(entry, field),
        Part::Key | Part::Parents => {}
    }
    Ok(())
}

fn leave_out_short_form(
    alloc: Global,
    entry: &mut Entry,
    field: FieldName,
) -> Result<(), OutOfMemory>
    ensures { OnOk result (Sets entry.old entry.new (without_short_form field)) }
{
    match field {
        FieldName::Title => leave_long_form(&mut entry.title),
        FieldName::Location => leave_long_form(&mut entry.location),
        FieldName::Organization => leave_long_form(&mut entry.organization),
        FieldName::Archive => leave_long_form(&mut entry.archive),
        FieldName::ArchiveLocation => leave_long_form(&mut entry.archive_location),
        FieldName::CallNumber => leave_long_form(&mut entry.call_number),
        FieldName::Note => leave_long_form(&mut entry.note),
        FieldName::Abstract => leave_long_form(&mut entry.abstract_),
        FieldName::Genre => leave_long_form(&mut entry.genre),
        FieldName::Publisher => leave_long_name(alloc, &mut entry.publisher)?,
        _ => {}
    }
    Ok(())
}

fn leave_long_form(text: &mut Option<FormatString>)
    ensures { option_map text_view text.new
        ≡ option_map long_alone (option_map text_view text.old) }
{
    if let Some(text) = text {
        text.short = None;
    }
}

fn leave_long_name(alloc: Global, publisher: &mut Option<Publisher>) -> Result<(), OutOfMemory>
    ensures { OnOk result (option_map publisher_view publisher.new
        ≡ option_map long_name (option_map publisher_view publisher.old)) }
{
    if let Some(known) = publisher {
        let mut name = copied(alloc, known.name())?;
        leave_long_form(&mut name);
        *known = Publisher::new(name, copied(alloc, known.location())?);
    }
    Ok(())
}

fn leave_out_location(alloc: Global, publisher: &mut Option<Publisher>) -> Result<(), OutOfMemory>
    ensures { OnOk result (option_map publisher_view publisher.new
        ≡ option_map name_alone (option_map publisher_view publisher.old)) }
{
    if let Some(known) = publisher {
        *known = Publisher::new(copied(alloc, known.name())?, None);
    }
    Ok(())
}

fn copied(alloc: Global, text: Option<&FormatString>) -> Result<Option<FormatString>, OutOfMemory>
    ensures { IfOk result (λ copy. option_map text_view copy
        ≡ option_map (λ t. text_view t.now) text.entry) }
{
    match text {
        Some(text) => Ok(Some(text.try_clone(alloc)?)),
        None => Ok(None),
    }
}

fn leave_out_visit_date(url: &mut Option<QualifiedUrl>)
    ensures { option_map url_view url.new ≡ option_map address_alone (option_map url_view url.old) }
{
    if let Some(url) = url {
        url.visit_date = None;
    }
}

fn leave_out_aliases(entry: &mut Entry, field: FieldName)
    ensures { Sets entry.old entry.new (without_alias_in field) }
{
    match field {
        FieldName::Author => leave_out_alias_of_each(&mut entry.authors),
        FieldName::Editor => leave_out_alias_of_each(&mut entry.editors),
        FieldName::Affiliated => leave_out_alias_in_roles(&mut entry.affiliated),
        _ => {}
    }
}

fn leave_out_alias_of_each(people: &mut Option<Vec<Person>>)
    ensures { option_map (λ v. map person_view v.items) people.new
        ≡ option_map (map without_alias) (option_map (λ v. map person_view v.items) people.old) }
{
    if let Some(people) = people {
        leave_out_each_alias(people);
    }
}

fn leave_out_each_alias(people: &mut [Person])
    ensures { map person_view people.new ≡ map without_alias (map person_view people.old) }
{
    'people: for person in people.iter_mut() {
        person.alias = None;
    }
}

fn leave_out_alias_in_roles(roles: &mut Option<Vec<PersonsWithRoles>>)
    ensures { option_map (λ v. map roles_view v.items) roles.new
        ≡ option_map (map without_aliases) (option_map (λ v. map roles_view v.items) roles.old) }
{
    if let Some(roles) = roles {
        leave_out_alias_in_each(roles);
    }
}

fn leave_out_alias_in_each(roles: &mut [PersonsWithRoles])
    ensures { map roles_view roles.new ≡ map without_aliases (map roles_view roles.old) }
{
    'roles: for persons in roles.iter_mut() {
        leave_out_each_alias(&mut persons.names);
    }
}

/// Leaves fields of an entry out. Nothing else changes.
pub(crate) fn leave_out_fields(entry: &mut Entry, names: &[FieldName])
    requires { IsAlone (view entry.old) }
    ensures alone { IsAlone (view entry.new) }
    ensures fields { fields (view entry.new)
        ≡ without_fields names.now (fields (view entry.old)) }
{
    'names: for name in names {
        leave_out_field(entry, *name);
    }
}

fn leave_out_field(entry: &mut Entry, field: FieldName)
    ensures { Sets entry.old entry.new (without_field field) }
{
    match field {
        FieldName::Title => entry.title = None,
        FieldName::Location => entry.location = None,
        FieldName::Organization => entry.organization = None,
        FieldName::Archive => entry.archive = None,
        FieldName::ArchiveLocation => entry.archive_location = None,
        FieldName::CallNumber => entry.call_number = None,
        FieldName::Note => entry.note = None,
        FieldName::Abstract => entry.abstract_ = None,
        FieldName::Genre => entry.genre = None,
        FieldName::Author => entry.authors = None,
        FieldName::Editor => entry.editors = None,
        FieldName::Affiliated => entry.affiliated = None,
        FieldName::Date => entry.date = None,
        FieldName::Publisher => entry.publisher = None,
        FieldName::Url => entry.url = None,
        FieldName::Issue => entry.issue = None,
        FieldName::Chapter => entry.chapter = None,
        FieldName::Volume => entry.volume = None,
        FieldName::Edition => entry.edition = None,
        FieldName::VolumeTotal => entry.volume_total = None,
        FieldName::PageTotal => entry.page_total = None,
        FieldName::PageRange => entry.page_range = None,
        FieldName::TimeRange => entry.time_range = None,
        FieldName::Runtime => entry.runtime = None,
        FieldName::SerialNumber => entry.serial_number = None,
        FieldName::Language => entry.language = None,
        _ => {}
    }
}
