//! Values as JSON: the trait, and the writers of members and items that all types share.
ghost use Rattle.std.specs.Prelude.{◌≡◌, map, option_map, string_bytes, OnOk};
ghost use Rattle.json.specs.Json.{array, member, string};
ghost use Rattle.haya_json.specs.Printed.{also, also_true, array_of, one_or_many_json};
ghost use Rattle.haya_json.specs.Writing.{KeepsBefore, WritesMembers, WritesValue};

use haya_text::OutOfMemory;
use json::Writer;
use std::alloc::Global;

/// A value that is written as JSON.
pub(crate) trait ToJson {
    ghost use Rattle.std.specs.Prelude.{◌≡◌, OnOk};
    ghost use Rattle.json.specs.Json.{Json};
    ghost use Rattle.haya_json.specs.Writing.{KeepsBefore, WritesValue};

    // What a value is to its readers.
    ghost View: { Type 0 };

    ghost view: { Self → View };

    // The JSON that is written of it.
    ghost json: { View → Json };

    /// Writes the value.
    fn write_json(&self, alloc: Global, out: &mut Writer) -> Result<(), OutOfMemory>
        ensures value { OnOk result (WritesValue out.old out.new (json (view self.now))) }
        ensures before { OnOk result (KeepsBefore out.old out.new) };
}

/// A member with this name and text.
pub(crate) fn write_text(out: &mut Writer, name: &str, text: &str) -> Result<(), OutOfMemory>
    ensures member { OnOk result (WritesMembers out.old out.new
        (λ ms. member name.now (string text.now) ms)) }
    ensures before { OnOk result (KeepsBefore out.old out.new) }
{
    out.key(name)?;
    out.string(text)?;
    Ok(())
}

/// The same where there is a text.
pub(crate) fn also_text(out: &mut Writer, name: &str, text: Option<&str>) -> Result<(), OutOfMemory>
    ensures member { OnOk result (WritesMembers out.old out.new
        (λ ms. also name.now string (option_map (λ t. t.now) text.entry) ms)) }
    ensures before { OnOk result (KeepsBefore out.old out.new) }
{
    match text {
        Some(text) => write_text(out, name, text),
        None => Ok(()),
    }
}

/// A member with this name that is true, where it is.
pub(crate) fn also_true(out: &mut Writer, name: &str, truth: bool) -> Result<(), OutOfMemory>
    ensures member { OnOk result (WritesMembers out.old out.new
        (λ ms. also_true name.now truth ms)) }
    ensures before { OnOk result (KeepsBefore out.old out.new) }
{
    if truth {
        out.key(name)?;
        out.boolean(true)?;
    }
    Ok(())
}

/// A member with this name and value.
pub(crate) fn write_member<T: ToJson>(
    alloc: Global,
    out: &mut Writer,
    name: &str,
    value: &T,
) -> Result<(), OutOfMemory>
    ensures member { OnOk result (WritesMembers out.old out.new
        (λ ms. member name.now (T.json (T.view value.now)) ms)) }
    ensures before { OnOk result (KeepsBefore out.old out.new) }
{
    out.key(name)?;
    value.write_json(alloc, out)
}

/// The same where there is a value.
pub(crate) fn also<T: ToJson>(
    alloc: Global,
    out: &mut Writer,
    name: &str,
    value: Option<&T>,
) -> Result<(), OutOfMemory>
    ensures member { OnOk result (WritesMembers out.old out.new
        (λ ms. also name.now T.json (option_map (λ v. T.view v.now) value.entry) ms)) }
    ensures before { OnOk result (KeepsBefore out.old out.new) }
{
    match value {
        Some(value) => write_member(alloc, out, name, value),
        None => Ok(()),
    }
}

/// One value alone, and an array where there isn't exactly one.
pub(crate) fn write_list<T: ToJson>(
    alloc: Global,
    out: &mut Writer,
    values: &[T],
) -> Result<(), OutOfMemory>
    ensures value { OnOk result (WritesValue out.old out.new
        (one_or_many_json T.json (map T.view values.now))) }
    ensures before { OnOk result (KeepsBefore out.old out.new) }
{
    match values {
        [value] => value.write_json(alloc, out),
        _ => write_array(alloc, out, values),
    }
}

// An array of values.
fn write_array<T: ToJson>(alloc: Global, out: &mut Writer, values: &[T]) -> Result<(), OutOfMemory>
    ensures value { OnOk result (WritesValue out.old out.new
        (array (array_of T.json (map T.view values.now)))) }
    ensures before { OnOk result (KeepsBefore out.old out.new) }
{
    out.begin_array()?;
    'values: for value in values {
        value.write_json(alloc, out)?;
    }
    out.end_array()?;
    Ok(())
}

/// A member with this name and one or many values.
pub(crate) fn write_many<T: ToJson>(
    alloc: Global,
    out: &mut Writer,
    name: &str,
    values: &[T],
) -> Result<(), OutOfMemory>
    ensures member { OnOk result (WritesMembers out.old out.new
        (λ ms. member name.now (one_or_many_json T.json (map T.view values.now)) ms)) }
    ensures before { OnOk result (KeepsBefore out.old out.new) }
{
    out.key(name)?;
    write_list(alloc, out, values)
}

/// The same where there is a list.
pub(crate) fn also_many<T: ToJson>(
    alloc: Global,
    out: &mut Writer,
    name: &str,
    values: Option<&[T]>,
) -> Result<(), OutOfMemory>
    ensures member { OnOk result (WritesMembers out.old out.new
        (λ ms. also name.now (one_or_many_json T.json)
        (option_map (λ v. map T.view v.now) values.entry) ms)) }
    ensures before { OnOk result (KeepsBefore out.old out.new) }
{
    match values {
        Some(values) => write_many(alloc, out, name, values),
        None => Ok(()),
    }
}
