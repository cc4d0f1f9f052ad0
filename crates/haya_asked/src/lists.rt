//! Lists of places and of keys, with commas between.
ghost use Rattle.std.specs.Prelude.{◌≡◌, Any, IfErr, IfOk, IfSome, Some, map};
ghost use Rattle.haya_questions.specs.Place.{IsUnknown, place_read, place_view, unknown_word};
ghost use Rattle.haya_questions.specs.SortText.{sort_key_read, sort_key_view, sort_words};
ghost use Rattle.haya_asked.specs.Lists.{parts};

use haya_questions::{Place, PlaceError, SortKey};
use std::alloc::{AllocError, Global};

/// The places of a text such as `key,date,p.title`: one for each part between commas, as
/// `Place::parse` reads it. `UnknownField`: nothing has the name of one of them, which the error
/// holds.
pub fn parse_places(alloc: Global, text: &str) -> Result<Vec<Place>, PlaceError>
    ensures ok { IfOk result (λ places.
        map Some (map place_view places.items) ≡ map place_read (parts text.now)) }
    ensures fault { IfErr result (λ e. IfSome (unknown_word e)
        (λ word. Any (λ part. IsUnknown part word) (parts text.now))) }
{
    let parts = parts(alloc, text)?;
    places_of(alloc, parts.as_slice())
}

// The places of the parts.
fn places_of(alloc: Global, parts: &[&str]) -> Result<Vec<Place>, PlaceError>
    ensures ok { IfOk result (λ places.
        map Some (map place_view places.items) ≡ map place_read (map (λ p. p.now) parts.now)) }
    ensures fault { IfErr result (λ e. IfSome (unknown_word e)
        (λ word. Any (λ part. IsUnknown part word) (map (λ p. p.now) parts.now))) }
{
    let mut places = Vec::with_capacity(alloc, parts.len())?;
    'parts: for part in parts {
        let place = Place::parse(alloc, part)?;
        if places.push(place).is_err() {
            return Err(PlaceError::OutOfMemory);
        }
    }
    Ok(places)
}

/// The keys of a text such as `-date,title`: one for each part between commas, as `SortKey::parse`
/// reads it. `UnknownField`: nothing has the name of one of their places, which the error holds.
pub fn parse_sort_keys(alloc: Global, text: &str) -> Result<Vec<SortKey>, PlaceError>
    ensures ok { IfOk result (λ keys.
        map Some (map sort_key_view keys.items) ≡ map sort_key_read (parts text.now)) }
    ensures fault { IfErr result (λ e. IfSome (unknown_word e)
        (λ word. Any (λ part. IsUnknown (sort_words part).1 word) (parts text.now))) }
{
    let parts = parts(alloc, text)?;
    sort_keys_of(alloc, parts.as_slice())
}

// The keys of the parts.
fn sort_keys_of(alloc: Global, parts: &[&str]) -> Result<Vec<SortKey>, PlaceError>
    ensures ok { IfOk result (λ keys.
        map Some (map sort_key_view keys.items) ≡ map sort_key_read (map (λ p. p.now) parts.now)) }
    ensures fault { IfErr result (λ e. IfSome (unknown_word e) (λ word.
        Any (λ part. IsUnknown (sort_words part).1 word) (map (λ p. p.now) parts.now))) }
{
    let mut keys = Vec::with_capacity(alloc, parts.len())?;
    'parts: for part in parts {
        let key = SortKey::parse(alloc, part)?;
        if keys.push(key).is_err() {
            return Err(PlaceError::OutOfMemory);
        }
    }
    Ok(keys)
}

// The parts of a text between its commas.
fn parts(alloc: Global, text: &str) -> Result<Vec<&str>, AllocError>
    ensures { IfOk result (λ found. map (λ part. part.now) found.items ≡ parts text.now) }
{
    text.split(',').collect(alloc)
}
