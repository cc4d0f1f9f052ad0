//! The fields of an entry.
ghost use Rattle.std.specs.Prelude.{◌≡◌, ◌≤◌, ◌<◌, Ok, Err, map, IfOk, IfErr, length};
ghost use Rattle.haya_bibtex_text.specs.FieldViews.{FrontIsShorter, field_view, front_view};
ghost use Rattle.haya_bibtex_text.specs.Fields.{AreFields, FailFields, FailsField, IsField};
ghost use Rattle.haya_bibtex_text.specs.Fields.{equals_behind, front, head_at};
ghost use Rattle.haya_bibtex_text.specs.Stops.{StopsBy};

use crate::blanks::behind_blank;
use crate::classes::Class;
use crate::fault::{FaultKind, Refusal, Stop, stop_at};
use crate::values::{Pieces, read_value};
use std::alloc::Global;

// How many fields an entry has room for at first: most have fewer.
const FIELDS: usize = 12;

/// A field as it is written: its name, and the pieces of its value.
#[derive(Drop)]
pub(crate) struct WrittenField<'a> {
    pub(crate) name: &'a [char],
    pub(crate) value: Pieces<'a>,
}

/// What begins a text where a field may begin, or behind one.
#[derive(Clone, Copy)]
pub(crate) enum Front<'a> {
    /// The closing bracket, and what is left behind it.
    Ended(&'a [char]),
    /// A comma, and what is left behind it and a blank.
    More(&'a [char]),
    /// Another character.
    Other,
    /// Nothing: the text has ended.
    Nothing,
}

/// What begins a text where a field may begin, or behind one.
pub(crate) fn front_of(close: char, text: &[char]) -> Front<'_>
    ensures front { front_view result ≡ front close text.now }
    ensures shorter { FrontIsShorter (length text.now) result }
{
    let Some((first, behind)) = text.split_first() else {
        return Front::Nothing;
    };
    if *first == close {
        return Front::Ended(behind);
    }
    if *first == ',' {
        return Front::More(behind_blank(behind));
    }
    Front::Other
}

// The name of a field, and what is left behind it, an equals sign and blanks.
fn read_head<'a>(entry: usize, text: &'a [char]) -> Result<(&'a [char], &'a [char]), Refusal>
    ensures ok { IfOk result (λ p. head_at entry text.now ≡ Ok (p.0.now, p.1.now)) }
    ensures fault { IfErr result (λ f. head_at entry text.now ≡ Err f) }
    ensures shorter { IfOk result (λ p. length p.1.now ≤ length text.now) }
{
    let count = Class::Name.prefix_len(text);
    if count == 0 {
        return Err(Refusal {
            kind: FaultKind::Name,
            left: text.len(),
        });
    }
    let (name, behind) = text.split_at(count);
    read_equals(entry, name, behind_blank(behind))
}

// The same behind the name and a blank.
fn read_equals<'a>(
    entry: usize,
    name: &'a [char],
    text: &'a [char],
) -> Result<(&'a [char], &'a [char]), Refusal>
    ensures ok { IfOk result (λ p.
        equals_behind entry name.now text.now ≡ Ok (p.0.now, p.1.now)) }
    ensures fault { IfErr result (λ f. equals_behind entry name.now text.now ≡ Err f) }
    ensures shorter { IfOk result (λ p. length p.1.now ≤ length text.now) }
{
    let Some((first, behind)) = text.split_first() else {
        return Err(Refusal {
            kind: FaultKind::Open,
            left: entry,
        });
    };
    if *first == '=' {
        return Ok((name, behind_blank(behind)));
    }
    Err(Refusal {
        kind: FaultKind::Equals,
        left: text.len(),
    })
}

// The field at the front of a text, and what is left behind it and a blank.
fn read_field<'a>(
    alloc: Global,
    entry: usize,
    text: &'a [char],
) -> Result<(WrittenField<'a>, &'a [char]), Stop>
    ensures ok { IfOk result (λ v. IsField entry text.now (field_view v.0) v.1.now) }
    ensures fault { IfErr result (StopsBy (FailsField entry text.now)) }
    ensures shorter { IfOk result (λ v. length v.1.now < length text.now) }
{
    let (name, left) = match read_head(entry, text) {
        Ok(read) => read,
        Err(fault) => return Err(Stop::Refused(fault)),
    };
    match read_value(alloc, entry, left) {
        Ok((value, rest)) => Ok((WrittenField { name, value }, rest)),
        Err(stop) => Err(stop),
    }
}

/// The fields up to the closing bracket, and what is left behind that.
pub(crate) fn read_fields<'a>(
    alloc: Global,
    entry: usize,
    close: char,
    text: &'a [char],
) -> Result<(Vec<WrittenField<'a>>, &'a [char]), Stop>
    ensures ok { IfOk result (λ v.
        AreFields entry close text.now (map field_view v.0.items) v.1.now) }
    ensures fault { IfErr result (StopsBy (FailFields entry close text.now)) }
    ensures shorter { IfOk result (λ v. length v.1.now < length text.now) }
{
    let mut fields = Vec::with_capacity(alloc, FIELDS)?;
    let mut left = text;
    'fields: loop {
        match front_of(close, left) {
            Front::Ended(rest) => return Ok((fields, rest)),
            Front::More(next) => {
                left = next;
                continue 'fields;
            }
            Front::Nothing => return Err(stop_at(FaultKind::Open, entry)),
            Front::Other => {}
        }
        let (field, behind) = match read_field(alloc, entry, left) {
            Ok(read) => read,
            Err(stop) => return Err(stop),
        };
        fields.push(field)?;
        match front_of(close, behind) {
            Front::Ended(rest) => return Ok((fields, rest)),
            Front::More(next) => left = next,
            Front::Nothing => return Err(stop_at(FaultKind::Open, entry)),
            Front::Other => return Err(stop_at(FaultKind::Comma, behind.len())),
        }
    }
}
