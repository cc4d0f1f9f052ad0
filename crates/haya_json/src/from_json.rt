//! Values that JSON says: the trait, and the readers of members and items that all types share.
ghost use Rattle.std.specs.Prelude.{◌≡◌, List, map, option_map, string_bytes, IfOk, IfErr, Ok};
ghost use Rattle.json.specs.Value.{items_view, value_view};
ghost use Rattle.haya_json.specs.Refusal.{IsFaultOf};
ghost use Rattle.haya_json.specs.Parts.{bytes_of, flag, items_of, member_of, needed, one_or_many};
ghost use Rattle.haya_json.specs.Parts.{optional, read_by, text_in};

use crate::fault::{ValueError, Why};
use haya_text::{ReadFault, ReadText};
use json::Value;
use std::alloc::Global;

/// A value that JSON says.
pub trait FromJson: Sized {
    ghost use Rattle.std.specs.Prelude.{◌≡◌, Result, Ok, IfOk, IfErr};
    ghost use Rattle.json.specs.Json.{Json};
    ghost use Rattle.json.specs.Value.{value_view};
    ghost use Rattle.haya_json.specs.Refusal.{Refusal, IsFaultOf};

    // What a value is to its readers.
    ghost View: { Type 0 };

    ghost view: { Self → View };

    // What JSON reads as, or why it is refused.
    ghost reads: { Json → Result View Refusal };

    /// The value that this JSON says.
    fn from_json(alloc: Global, json: &Value<'_>) -> Result<Self, ValueError>
        ensures ok { IfOk result (λ v. reads (value_view json.now) ≡ Ok (view v)) }
        ensures fault { IfErr result (IsFaultOf (reads (value_view json.now))) };
}

/// The text of a value. A number stands for the text that it is written as.
pub fn text_in<'a>(json: &Value<'a>) -> Option<&'a str>
    ensures { option_map (λ s. s.now) result ≡ text_in (value_view json.now) }
{
    match json {
        Value::String(text) => Some(*text),
        Value::Number(text) => Some(*text),
        _ => None,
    }
}

/// The text of a value, where it has one.
pub fn read_text<'a>(alloc: Global, json: &Value<'a>) -> Result<&'a str, ValueError>
    ensures ok { IfOk result (λ text. bytes_of (value_view json.now) ≡ Ok text.now) }
    ensures fault { IfErr result (IsFaultOf (bytes_of (value_view json.now))) }
{
    match text_in(json) {
        Some(text) => Ok(text),
        None => Err(ValueError::refused(alloc, Why::NotText)),
    }
}

/// What the text of the value reads as. A text that isn't read is refused for this reason.
pub fn read_by<T: ReadText>(alloc: Global, json: &Value<'_>, why: Why) -> Result<T, ValueError>
    ensures ok { IfOk result (λ v. read_by why T.reads (value_view json.now) ≡ Ok (T.value v)) }
    ensures fault { IfErr result (IsFaultOf (read_by why T.reads (value_view json.now))) }
{
    let Some(text) = text_in(json) else {
        return Err(ValueError::refused(alloc, Why::NotText));
    };
    match T::from_str(alloc, text) {
        Ok(read) => Ok(read),
        Err(fault) if fault.is_out_of_memory() => Err(ValueError::OutOfMemory),
        Err(_) => Err(ValueError::refused(alloc, why)),
    }
}

impl FromJson for String {
    ghost use Rattle.std.specs.Prelude.{ℕ, List, string_bytes};
    ghost use Rattle.haya_json.specs.Parts.{plain_of};

    ghost View = { List ℕ };

    ghost view = { string_bytes };

    ghost reads = { plain_of };

    /// The text as it stands.
    fn from_json(alloc: Global, json: &Value<'_>) -> Result<String, ValueError> {
        match text_in(json) {
            Some(text) => Ok(String::from_str(alloc, text)?),
            None => Err(ValueError::refused(alloc, Why::NotText)),
        }
    }
}

impl FromJson for bool {
    ghost use Rattle.std.specs.Prelude.{Bool};
    ghost use Rattle.haya_json.specs.Parts.{truth_of};

    ghost View = { Bool };

    ghost view = { λ b. b };

    ghost reads = { truth_of };

    fn from_json(alloc: Global, json: &Value<'_>) -> Result<bool, ValueError> {
        match json.as_bool() {
            Some(truth) => Ok(truth),
            None => Err(ValueError::refused(alloc, Why::NotTruth)),
        }
    }
}

/// The member with this name, if there is one and it isn't null.
pub fn member<'v, 'a>(json: &'v Value<'a>, name: &str) -> Option<&'v Value<'a>>
    ensures { option_map (λ v. value_view v.now) result ≡ member_of name.now (value_view json.now) }
{
    let member = json.get(name)?;
    if member.is_null() { None } else { Some(member) }
}

/// What a member that has to be there reads as.
pub fn needed<T: FromJson>(alloc: Global, json: &Value<'_>, name: &str) -> Result<T, ValueError>
    ensures ok { IfOk result
        (λ v. needed name.now T.reads (value_view json.now) ≡ Ok (T.view v)) }
    ensures fault { IfErr result (IsFaultOf (needed name.now T.reads (value_view json.now))) }
{
    let Some(member) = member(json, name) else {
        return Err(ValueError::refused(alloc, Why::Missing).in_member(alloc, name));
    };
    match T::from_json(alloc, member) {
        Ok(read) => Ok(read),
        Err(fault) => Err(fault.in_member(alloc, name)),
    }
}

/// What a member that may be left out reads as.
pub fn optional<T: FromJson>(
    alloc: Global,
    json: &Value<'_>,
    name: &str,
) -> Result<Option<T>, ValueError>
    ensures ok { IfOk result
        (λ v. optional name.now T.reads (value_view json.now) ≡ Ok (option_map T.view v)) }
    ensures fault { IfErr result (IsFaultOf (optional name.now T.reads (value_view json.now))) }
{
    let Some(member) = member(json, name) else {
        return Ok(None);
    };
    match T::from_json(alloc, member) {
        Ok(read) => Ok(Some(read)),
        Err(fault) => Err(fault.in_member(alloc, name)),
    }
}

/// Whether the member with this name is true. One that is left out isn't.
pub fn flag(alloc: Global, json: &Value<'_>, name: &str) -> Result<bool, ValueError>
    ensures ok { IfOk result (λ b. flag name.now (value_view json.now) ≡ Ok b) }
    ensures fault { IfErr result (IsFaultOf (flag name.now (value_view json.now))) }
{
    match optional::<bool>(alloc, json, name) {
        Ok(truth) => Ok(truth.unwrap_or(false)),
        Err(fault) => Err(fault),
    }
}

impl<T: FromJson + Drop> FromJson for Vec<T> {
    ghost use Rattle.std.specs.Prelude.{List, map};
    ghost use Rattle.haya_json.specs.Parts.{one_or_many};

    ghost View = { List T.View };

    ghost view = { λ vs. map T.view vs.items };

    ghost reads = { one_or_many T.reads };

    /// One value alone, or an array of them.
    fn from_json(alloc: Global, json: &Value<'_>) -> Result<Vec<T>, ValueError> {
        match json {
            Value::Array(items) => read_items(alloc, items),
            _ => {
                let mut values = Vec::with_capacity(alloc, 1)?;
                values.push_reserved(T::from_json(alloc, json)?);
                Ok(values)
            }
        }
    }
}

/// Each item as a value, in order.
pub fn read_items<T: FromJson + Drop>(
    alloc: Global,
    items: &Vec<Value<'_>>,
) -> Result<Vec<T>, ValueError>
    ensures ok { IfOk result (λ vs.
        items_of T.reads 0 (items_view items.now.items) ≡ Ok (map T.view vs.items)) }
    ensures fault { IfErr result (IsFaultOf (items_of T.reads 0 (items_view items.now.items))) }
{
    let mut values = Vec::with_capacity(alloc, items.len())?;
    'values: for place in 0..items.len() {
        match T::from_json(alloc, &items[place]) {
            Ok(value) => values.push(value)?,
            Err(fault) => return Err(fault.in_item(place)),
        }
    }
    Ok(values)
}
