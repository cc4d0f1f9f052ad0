//! The values at a place of a hit.
ghost use Rattle.std.specs.Prelude.{◌≡◌, IfOk, map, option_map, string_bytes};
ghost use Rattle.haya_entry.specs.Tree.{view};
ghost use Rattle.haya_questions.specs.Fields.{entry_named, values_at};
ghost use Rattle.haya_questions.specs.Place.{place_view};
ghost use Rattle.haya_questions.specs.Value.{shown, value_view};

use crate::fields::part_values;
use crate::place::Place;
use crate::shown::shown_each;
use crate::value::Value;
use haya_text::OutOfMemory;
use hayagriva::{Entry, Hit};
use std::alloc::Global;

/// The values at a place of a hit, in order, each as a text: one where the field holds a text, a
/// date, a number, pages or a time; one for each person of a list or with a role; and for
/// `affiliated` one for each person in each role, with the role and a colon before it. Texts are
/// without markup, all else is as lines of text print it. There is none where the field isn't set,
/// or the name isn't bound in this hit. The only error is out of memory.
pub fn values(alloc: Global, hit: &Hit, place: &Place) -> Result<Vec<String>, OutOfMemory>
    ensures { IfOk result (λ texts. map string_bytes texts.items
        ≡ map shown (values_at (place_view place.now) hit.now)) }
{
    let values = values_at(alloc, hit, place)?;
    shown_each(alloc, values.as_slice())
}

/// The values at a place of a hit, in order.
pub(crate) fn values_at<'h>(
    alloc: Global,
    hit: &'h Hit,
    place: &Place,
) -> Result<Vec<Value<'h>>, OutOfMemory>
    ensures { IfOk result (λ values. map value_view values.items
        ≡ values_at (place_view place.now) hit.now) }
{
    match entry_named(hit, place.name.as_deref()) {
        Some(entry) => part_values(alloc, entry, &place.part),
        None => Ok(Vec::new(alloc)),
    }
}

// The hit's entry, or the one that it binds to the name.
fn entry_named<'h>(hit: &'h Hit, name: Option<&str>) -> Option<&'h Entry>
    ensures { option_map (λ e. view e.now) result
        ≡ entry_named (option_map (λ t. t.now) name.entry) hit.now }
{
    match name {
        Some(name) => hit.bindings.get(name).copied(),
        None => Some(hit.entry),
    }
}
