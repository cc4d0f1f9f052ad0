//! The fields of a line: values that are read as the types of their fields are.
ghost use Rattle.std.specs.Prelude.{◌≡◌, Err, Ok, Some, option_map, IfOk, IfErr, IsSomeAnd, OnOk};
ghost use Rattle.haya_people.specs.Roles.{role_view, roles_view};
ghost use Rattle.haya_entry.specs.Tree.{Sets, view, fields};
ghost use Rattle.haya_entry.specs.declared.field_name.FieldName.TheVariants as field;
ghost use Rattle.haya_lines.specs.FieldTable.{affiliated_of, date_of, ok_or_refused, person_of};
ghost use Rattle.haya_lines.specs.FieldTable.{role_of, setter, with_field, with_last, with_number};
ghost use Rattle.haya_lines.specs.Line.{field_read, fields_read};
ghost use Rattle.haya_lines.specs.LineReading.{IsFaultOf, SetsFields};

use crate::error::LineError;
use crate::items::Items;
use haya_entry::{Entry, FieldName};
use haya_people::{Person, PersonRole, PersonsWithRoles};
use haya_text::{ReadFault, ReadText};
use haya_time::Date;
use std::alloc::{AllocError, Global};

/// Sets the field of each item in turn, in the place of what was there. Where an item has a fault,
/// those before it are set.
pub fn read_fields(alloc: Global, entry: &mut Entry, items: Items) -> Result<(), LineError>
    ensures ok { OnOk result (SetsFields
        (fields_read (fields (view entry.old)) items.entry) entry.old entry.new) }
    ensures fault { IfErr result (IsFaultOf
        (fields_read (fields (view entry.old)) items.entry)) }
{
    'items: for item in items {
        read_field(alloc, entry, item)?;
    }
    Ok(())
}

// Sets the field of one item.
fn read_field(alloc: Global, entry: &mut Entry, item: &str) -> Result<(), LineError>
    ensures ok { OnOk result (SetsFields
        (field_read (fields (view entry.old)) item.now) entry.old entry.new) }
    ensures fault { IfErr result (IsFaultOf (field_read (fields (view entry.old)) item.now)) }
{
    match item.split_once('=') {
        Some((name, value)) => set_field(alloc, entry, name, value),
        None => Err(LineError::Shape),
    }
}

// Sets the field with this name to what the value reads as.
fn set_field(alloc: Global, entry: &mut Entry, name: &str, value: &str) -> Result<(), LineError>
    ensures ok { OnOk result (SetsFields
        (with_field name.now value.now (fields (view entry.old))) entry.old entry.new) }
    ensures fault { IfErr result
        (IsFaultOf (with_field name.now value.now (fields (view entry.old)))) }
{
    let Ok(field) = name.parse::<FieldName>() else {
        return Err(LineError::UnknownField);
    };
    set(alloc, entry, field, value)
}

// Sets a field to what the value reads as. Authors, editors and affiliated people are appended; any
// other value takes the place of what was there.
fn set(alloc: Global, entry: &mut Entry, field: FieldName, value: &str) -> Result<(), LineError>
    ensures ok { OnOk result (SetsFields
        (setter field value.now (fields (view entry.old))) entry.old entry.new) }
    ensures fault { IfErr result (IsFaultOf (setter field value.now (fields (view entry.old)))) }
{
    match field {
        FieldName::Title => read_into(alloc, &mut entry.title, value),
        FieldName::Location => read_into(alloc, &mut entry.location, value),
        FieldName::Organization => read_into(alloc, &mut entry.organization, value),
        FieldName::Archive => read_into(alloc, &mut entry.archive, value),
        FieldName::ArchiveLocation => read_into(alloc, &mut entry.archive_location, value),
        FieldName::CallNumber => read_into(alloc, &mut entry.call_number, value),
        FieldName::Note => read_into(alloc, &mut entry.note, value),
        FieldName::Abstract => read_into(alloc, &mut entry.abstract_, value),
        FieldName::Genre => read_into(alloc, &mut entry.genre, value),
        FieldName::Author => add_author(alloc, entry, value),
        FieldName::Editor => add_editor(alloc, entry, value),
        FieldName::Affiliated => add_affiliated(alloc, entry, value),
        FieldName::Date => set_date(entry, value),
        FieldName::Publisher => read_into(alloc, &mut entry.publisher, value),
        FieldName::Url => read_into(alloc, &mut entry.url, value),
        FieldName::Issue => read_into(alloc, &mut entry.issue, value),
        FieldName::Chapter => read_into(alloc, &mut entry.chapter, value),
        FieldName::Volume => read_into(alloc, &mut entry.volume, value),
        FieldName::Edition => read_into(alloc, &mut entry.edition, value),
        FieldName::VolumeTotal => read_into(alloc, &mut entry.volume_total, value),
        FieldName::PageTotal => read_into(alloc, &mut entry.page_total, value),
        FieldName::PageRange => read_into(alloc, &mut entry.page_range, value),
        FieldName::TimeRange => read_into(alloc, &mut entry.time_range, value),
        FieldName::Runtime => read_into(alloc, &mut entry.runtime, value),
        FieldName::SerialNumber => set_number(alloc, entry, "serial", value),
        FieldName::Language => set_language(alloc, entry, value),
        // Each of the others is a serial number.
        _ => set_number(alloc, entry, field.as_str(), value),
    }
}

// Puts what the value reads as into a field, in the place of what was there.
fn read_into<T: ReadText + Drop>(
    alloc: Global,
    field: &mut Option<T>,
    value: &str,
) -> Result<(), LineError>
    ensures ok { OnOk result (IsSomeAnd field.new (λ v. T.reads value.now ≡ Some (T.value v))) }
    ensures fault { IfErr result (IsFaultOf (ok_or_refused (T.reads value.now))) }
{
    *field = Some(read_value(alloc, value)?);
    Ok(())
}

// What the value reads as, or why it isn't read.
fn read_value<T: ReadText>(alloc: Global, value: &str) -> Result<T, LineError>
    ensures ok { IfOk result (λ v. T.reads value.now ≡ Some (T.value v)) }
    ensures fault { IfErr result (IsFaultOf (ok_or_refused (T.reads value.now))) }
{
    match T::from_str(alloc, value) {
        Ok(read) => Ok(read),
        Err(fault) if fault.is_out_of_memory() => Err(LineError::OutOfMemory),
        Err(_) => Err(LineError::RefusedValue),
    }
}

// The same of a date, which takes no memory.
fn read_date(value: &str) -> Result<Date, LineError>
    ensures { result ≡ date_of value.now }
{
    let Ok(date) = value.parse::<Date>() else {
        return Err(LineError::RefusedValue);
    };
    Ok(date)
}

// A role and one person, separated by the first colon.
fn read_affiliated(alloc: Global, value: &str) -> Result<PersonsWithRoles, LineError>
    ensures ok { IfOk result (λ v. affiliated_of value.now ≡ Ok (roles_view v)) }
    ensures fault { IfErr result (IsFaultOf (affiliated_of value.now)) }
{
    let Some((role, person)) = value.split_once(':') else {
        return Err(LineError::Shape);
    };
    let role = read_role(role)?;
    let person = read_value::<Person>(alloc, person)?;
    Ok(PersonsWithRoles::new(vec![in alloc; person]?, role))
}

// The role of this name.
fn read_role(name: &str) -> Result<PersonRole, LineError>
    ensures ok { IfOk result (λ role. role_of name.now ≡ Ok (role_view role)) }
    ensures fault { IfErr result (λ e. role_of name.now ≡ Err e) }
{
    let Ok(role) = name.parse::<PersonRole>() else {
        return Err(LineError::RefusedValue);
    };
    Ok(role)
}

// One more author.
fn add_author(alloc: Global, entry: &mut Entry, value: &str) -> Result<(), LineError>
    ensures ok { OnOk result (SetsFields
        (setter field.Author value.now (fields (view entry.old))) entry.old entry.new) }
    ensures fault { IfErr result (IsFaultOf (person_of value.now)) }
{
    append(alloc, &mut entry.authors, read_value(alloc, value)?)?;
    Ok(())
}

// One more editor.
fn add_editor(alloc: Global, entry: &mut Entry, value: &str) -> Result<(), LineError>
    ensures ok { OnOk result (SetsFields
        (setter field.Editor value.now (fields (view entry.old))) entry.old entry.new) }
    ensures fault { IfErr result (IsFaultOf (person_of value.now)) }
{
    append(alloc, &mut entry.editors, read_value(alloc, value)?)?;
    Ok(())
}

// One more person with a role.
fn add_affiliated(alloc: Global, entry: &mut Entry, value: &str) -> Result<(), LineError>
    ensures ok { OnOk result (SetsFields
        (setter field.Affiliated value.now (fields (view entry.old))) entry.old entry.new) }
    ensures fault { IfErr result (IsFaultOf (affiliated_of value.now)) }
{
    append(alloc, &mut entry.affiliated, read_affiliated(alloc, value)?)?;
    Ok(())
}

// Sets the date.
fn set_date(entry: &mut Entry, value: &str) -> Result<(), LineError>
    ensures ok { OnOk result (SetsFields
        (setter field.Date value.now (fields (view entry.old))) entry.old entry.new) }
    ensures fault { IfErr result (IsFaultOf (date_of value.now)) }
{
    entry.date = Some(read_date(value)?);
    Ok(())
}

// Sets the language.
fn set_language(alloc: Global, entry: &mut Entry, value: &str) -> Result<(), LineError>
    ensures ok { OnOk result (SetsFields
        (setter field.Language value.now (fields (view entry.old))) entry.old entry.new) }
    ensures fault { IfErr result (λ e. e ≡ LineError.OutOfMemory) }
{
    entry.language = Some(String::from_str(alloc, value)?);
    Ok(())
}

// Appends to a list that begins with its first item.
fn append<T: Drop>(alloc: Global, list: &mut Option<Vec<T>>, item: T) -> Result<(), AllocError>
    ensures { OnOk result (option_map (λ v. v.items) list.new
        ≡ with_last (option_map (λ v. v.items) list.old) item) }
{
    list.get_or_insert(Vec::new(alloc)).push(item)?;
    Ok(())
}

// Keeps the serial number under this key.
fn set_number(alloc: Global, entry: &mut Entry, key: &str, value: &str) -> Result<(), LineError>
    ensures ok { OnOk result (Sets entry.old entry.new (with_number key.now value.now)) }
    ensures fault { IfErr result (λ e. e ≡ LineError.OutOfMemory) }
{
    entry.set_keyed_serial_number(key, String::from_str(alloc, value)?)?;
    Ok(())
}
