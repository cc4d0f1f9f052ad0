//! A value that nothing follows.
ghost use Rattle.std.specs.Prelude.{◌≡◌, Err, None, Some, IfOk, IsSomeAnd};
ghost use Rattle.json.specs.Strict.{HasUniqueKeys};
ghost use Rattle.json.specs.Value.{value_view};
ghost use Rattle.haya_json.specs.Alone.{value_alone};

use crate::unique::has_unique_names;
use json::{Error, Reader, Value};
use std::alloc::Global;

/// How deep an element of a text may nest: one less than the text.
pub const ELEMENT_DEPTH: usize = 127;

/// The value that is all that a reader has left, in which no object has a member twice. It nests no
/// deeper than an element of a text may.
pub fn read_alone<'a>(alloc: Global, reader: &mut Reader<'a>) -> Result<Value<'a>, Error>
    ensures ok { IfOk result (λ json. value_alone reader.old ≡ Some (value_view json)) }
    ensures unique { IfOk result (λ json. HasUniqueKeys (value_view json)) }
    ensures invalid { result ≡ Err Error.Invalid → value_alone reader.old ≡ None }
    ensures duplicate { result ≡ Err Error.DuplicateKey
        → IsSomeAnd (value_alone reader.old) (λ j. ¬ HasUniqueKeys j) }
{
    let json = Value::read(alloc, reader, ELEMENT_DEPTH)?;
    if reader.next().is_some() {
        return Err(Error::Invalid);
    }
    if !has_unique_names(&json, &mut Vec::new(alloc))? {
        return Err(Error::DuplicateKey);
    }
    Ok(json)
}
