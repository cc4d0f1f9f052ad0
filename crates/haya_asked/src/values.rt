//! The values by which hits are told apart.
ghost use Rattle.std.specs.Prelude.{◌≡◌, IfOk, map, option_map, string_bytes};
ghost use Rattle.haya_people.specs.Particles.{folded};
ghost use Rattle.haya_questions.specs.CaseAside.{case_aside};
ghost use Rattle.haya_questions.specs.Place.{part_view, place_view};
ghost use Rattle.haya_asked.specs.Alike.{first_value, first_values};

use caseless::default_case_fold_str;
use haya_questions::{Part, Place, values};
use haya_text::OutOfMemory;
use hayagriva::Hit;
use std::alloc::Global;

/// The first values at all the places, case aside, where there is one at each.
pub(crate) fn first_values(
    alloc: Global,
    hit: &Hit,
    places: &[Place],
) -> Result<Option<Vec<String>>, OutOfMemory>
    ensures { IfOk result (λ values. option_map (λ v. map string_bytes v.items) values
        ≡ first_values (map place_view places.now) hit.now) }
{
    let mut firsts = Vec::with_capacity(alloc, places.len())?;
    'places: for place in places {
        let Some(first) = first_value(alloc, hit, place)? else {
            return Ok(None);
        };
        firsts.push(first)?;
    }
    Ok(Some(firsts))
}

// The first value at a place, case aside.
#[tactic(auto, unfolding(crate::specs::Alike::first_value))]
fn first_value(alloc: Global, hit: &Hit, place: &Place) -> Result<Option<String>, OutOfMemory>
    ensures { IfOk result (λ first. option_map string_bytes first
        ≡ first_value (place_view place.now) hit.now) }
{
    let values = values(alloc, hit, place)?;
    match values.first() {
        Some(value) => Ok(Some(case_aside(alloc, &place.part, value.as_str())?)),
        None => Ok(None),
    }
}

// A text as the values of the part are compared with it.
#[tactic(auto, unfolding(haya_questions::specs::CaseAside::case_aside))]
fn case_aside(alloc: Global, part: &Part, text: &str) -> Result<String, OutOfMemory>
    ensures { IfOk result (λ aside. string_bytes aside
        ≡ case_aside (part_view part.now) text.now) }
{
    match part {
        Part::Key => Ok(String::from_str(alloc, text)?),
        Part::Field(_) | Part::Type | Part::Role(_) => folded(alloc, text),
    }
}

// The text in default case fold.
fn folded(alloc: Global, text: &str) -> Result<String, OutOfMemory>
    ensures { IfOk result (λ fold. string_bytes fold ≡ folded text.now) }
{
    Ok(default_case_fold_str(alloc, text)?)
}
