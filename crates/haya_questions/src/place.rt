//! Places: what of an entry is asked for, and of which entry of a hit.
ghost use Rattle.std.specs.Prelude.{◌≡◌, Some, IfErr, IfOk, IfSome, option_map, string_bytes};
ghost use Rattle.haya_questions.specs.Place.{IsUnknown, field_or_role, part_name, part_named};
ghost use Rattle.haya_questions.specs.Place.{part_view, place_read, place_text, place_view};
ghost use Rattle.haya_questions.specs.Place.{place_words, unknown_word};

use crate::error::PlaceError;
use haya_entry::FieldName;
use haya_people::PersonRole;
use std::alloc::{AllocError, Global};
use std::fmt;

/// What of an entry is asked for.
#[derive(Debug, Drop, PartialEq, Eq)]
pub enum Part {
    /// A field, or a serial number, by its name.
    Field(FieldName),
    /// The key.
    Key,
    /// The type.
    Type,
    /// The persons with a role.
    Role(PersonRole),
}

impl Part {
    /// The name, as `Place::parse` reads it: that of the field or the role, `key` or `type`.
    pub fn name(&self) -> &str
        ensures { result.now ≡ part_name (part_view self.now) }
    {
        match self {
            Part::Field(field) => field.as_str(),
            Part::Key => "key",
            Part::Type => "type",
            Part::Role(role) => role.name(),
        }
    }
}

/// A place of a hit: a part of its entry, or of the entry that the selector binds to a name. It
/// displays as it is read: `title`, `p.title`.
#[derive(Debug, Drop, PartialEq, Eq)]
pub struct Place {
    /// The name that is bound, if it isn't the hit's own entry that is meant.
    pub name: Option<String>,
    /// What of the entry is asked for.
    pub part: Part,
}

impl Place {
    /// The place of a text `FIELD` or `NAME.FIELD`, where `FIELD` is the name of a field or of a
    /// role, `key` or `type`. A name is what stands before the first dot; whether a selector binds
    /// it isn't asked here. `UnknownField`: nothing has the name behind it, which the error holds.
    pub fn parse(alloc: Global, text: &str) -> Result<Place, PlaceError>
        ensures ok { IfOk result (λ place. place_read text.now ≡ Some (place_view place)) }
        ensures fault { IfErr result (λ e. IfSome (unknown_word e) (IsUnknown text.now)) }
    {
        let (name, word) = split_name(text);
        let Some(part) = part_named(word) else {
            return Err(PlaceError::UnknownField(String::from_str(alloc, word)?));
        };
        let name = owned(alloc, name)?;
        Ok(Place { name, part })
    }
}

// What stands before the first dot, if there is one, and the word behind it.
fn split_name(text: &str) -> (Option<&str>, &str)
    ensures name { option_map (λ t. t.now) result.0 ≡ (place_words text.now).0 }
    ensures word { result.1.now ≡ (place_words text.now).1 }
{
    match text.split_once('.') {
        Some((name, word)) => (Some(name), word),
        None => (None, text),
    }
}

// The part with this name.
fn part_named(word: &str) -> Option<Part>
    ensures { option_map part_view result ≡ part_named word.now }
{
    if word == "key" {
        return Some(Part::Key);
    }
    if word == "type" {
        return Some(Part::Type);
    }
    field_or_role(word)
}

// The field, or the role, with this name.
fn field_or_role(word: &str) -> Option<Part>
    ensures { option_map part_view result ≡ field_or_role word.now }
{
    if let Ok(field) = word.parse::<FieldName>() {
        return Some(Part::Field(field));
    }
    match word.parse::<PersonRole>() {
        Ok(role) => Some(Part::Role(role)),
        Err(_) => None,
    }
}

// The text in a string, where there is one.
fn owned(alloc: Global, text: Option<&str>) -> Result<Option<String>, AllocError>
    ensures { IfOk result (λ copy. option_map string_bytes copy
        ≡ option_map (λ t. t.now) text.entry) }
{
    match text {
        Some(text) => Ok(Some(String::from_str(alloc, text)?)),
        None => Ok(None),
    }
}

impl fmt::Display for Place {
    ghost output = { λ place. Some (place_text (place_view place)) };

    /// The name and a dot, where there is one, and the part's name.
    fn fmt<W: fmt::Write>(&self, f: &mut fmt::Formatter<W>) -> fmt::Result {
        let part = self.part.name();
        match &self.name {
            Some(name) => write!(f, "{name}.{part}"),
            None => write!(f, "{part}"),
        }
    }
}
