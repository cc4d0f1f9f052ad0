//! Values as messages show them.
use crate::fault::Step;
use haya_text::OutOfMemory;
use json::{Value, Writer, is_number};
use std::alloc::Global;

// How many characters are shown of a value.
const SHOWN: usize = 60;

/// A value as it is written, without white space, or how it begins.
pub(crate) fn shown(alloc: Global, json: &Value<'_>) -> Result<String, OutOfMemory> {
    let mut out = Writer::new(Vec::new(alloc));
    write_value(&mut out, json)?;
    let Ok(text) = String::from_utf8(out.into_inner()) else {
        return Err(OutOfMemory);
    };
    cut(alloc, text)
}

/// The value at the end of these steps, or nothing where there is none.
pub(crate) fn shown_at(
    alloc: Global,
    path: &Vec<Step>,
    json: &Value<'_>,
) -> Result<String, OutOfMemory> {
    match value_at(json, path.as_slice()) {
        Some(value) => shown(alloc, value),
        None => Ok(String::new(alloc)),
    }
}

// The value at the end of these steps, if there is one.
fn value_at<'v, 'a>(json: &'v Value<'a>, path: &[Step]) -> Option<&'v Value<'a>> {
    match path {
        [] => Some(json),
        [Step::Name(name), rest @ ..] => value_at(json.get(name.as_str())?, rest),
        [Step::Place(place), rest @ ..] => value_at(item_at(json, *place)?, rest),
    }
}

// The item of an array at this place.
fn item_at<'v, 'a>(json: &'v Value<'a>, place: usize) -> Option<&'v Value<'a>> {
    match json {
        Value::Array(items) => items.get(place),
        _ => None,
    }
}

// A text, or its first characters and a sign for the rest.
fn cut(alloc: Global, text: String) -> Result<String, OutOfMemory> {
    let Some((end, _)) = text.as_str().char_indices().nth(SHOWN) else {
        return Ok(text);
    };
    let mut shown = String::from_str(alloc, &text.as_str()[..end])?;
    shown.push('…')?;
    Ok(shown)
}

// Writes a value.
#[cycle(shown)]
fn write_value(out: &mut Writer, json: &Value<'_>) -> Result<(), OutOfMemory> {
    match json {
        Value::Null => out.null()?,
        Value::Bool(truth) => out.boolean(*truth)?,
        Value::Number(text) if is_number(text) => out.number(text)?,
        Value::Number(text) | Value::String(text) => out.string(text)?,
        Value::Array(items) => write_items(out, items)?,
        Value::Object(members) => write_members(out, members)?,
    }
    Ok(())
}

// Writes an array.
#[cycle(shown)]
fn write_items(out: &mut Writer, items: &Vec<Value<'_>>) -> Result<(), OutOfMemory> {
    out.begin_array()?;
    'items: for item in items {
        write_value(out, item)?;
    }
    out.end_array()?;
    Ok(())
}

// Writes an object.
#[cycle(shown)]
fn write_members(out: &mut Writer, members: &Vec<(&str, Value<'_>)>) -> Result<(), OutOfMemory> {
    out.begin_object()?;
    'members: for member in members {
        out.key(member.0)?;
        write_value(out, &member.1)?;
    }
    out.end_object()?;
    Ok(())
}
