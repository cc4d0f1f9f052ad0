//! The names of places, which the selector has to bind.
ghost use Rattle.std.specs.Prelude.{◌≡◌, ◌⊎◌, All, Any, IfErr, OnOk, string_bytes};
ghost use Rattle.std.specs.Str.{chars};
ghost use Rattle.hayagriva.specs.Reading.{TextReads};
ghost use Rattle.hayagriva.specs.Syntax.{Syntax, members_of, syntax};
ghost use Rattle.haya_command.specs.Bound.{EachColumn, EachPlace, EachRepeated, IsBindable};
ghost use Rattle.haya_command.specs.Bound.{IsNamesFault, IsUnbound, SomeColumn, SomeRepeated};
ghost use Rattle.haya_command.specs.Bound.{can_bind, some_can_bind};
ghost use Rattle.haya_command.specs.Picks.{wanted};
ghost use Rattle.haya_questions.specs.Place.{place_view};

use crate::error::CommandError;
use crate::options::Options;
use haya_asked::{Columns, Repeats};
use haya_questions::{Place, SortKey, Test};
use hayagriva::Selector;
use std::alloc::Global;

/// Refuses a place of an entry that is bound to a name which the selector can't bind: one that is
/// before none of its parts, or before parts alone that are negated, as all are where the run is
/// inverted. `Selector`: the selector's text is none. `Unbound`: the first such place, as it is
/// written, and its name.
pub fn check_names(alloc: Global, options: &Options) -> Result<(), CommandError>
    ensures bound { OnOk result ((s : Syntax)
        × TextReads (chars (string_bytes options.now.selector)) s
        × EachPlace (IsBindable (wanted options.now.invert s)) options.now) }
    ensures fault { IfErr result (IsNamesFault options.now) }
{
    let selector = match Selector::parse(alloc, options.selector.as_str()) {
        Ok(selector) => selector,
        Err(error) => return Err(CommandError::Selector(error)),
    };
    let invert = options.invert;
    check_tests(alloc, invert, &selector, options.questions.tests.as_slice())?;
    check_keys(alloc, invert, &selector, options.questions.keys.as_slice())?;
    check_repeats(alloc, invert, &selector, &options.questions.repeats)?;
    check_columns(alloc, invert, &selector, &options.columns)?;
    Ok(())
}

// Refuses the place of a test whose name can't be bound.
fn check_tests(
    alloc: Global,
    invert: bool,
    selector: &Selector,
    tests: &[Test],
) -> Result<(), CommandError>
    ensures bound { let s = wanted invert (syntax selector.now) in
        OnOk result (All (λ t. IsBindable s (place_view t.place)) tests.now) }
    ensures fault { let s = wanted invert (syntax selector.now) in IfErr result
        (λ e. (e ≡ CommandError.OutOfMemory)
        ⊎ Any (λ t. IsUnbound s (place_view t.place) e) tests.now) }
{
    'tests: for test in tests {
        match check_place(alloc, invert, selector, &test.place) {
            Ok(()) => {}
            Err(fault) => return Err(fault),
        }
    }
    Ok(())
}

// The same of a key of a sort.
fn check_keys(
    alloc: Global,
    invert: bool,
    selector: &Selector,
    keys: &[SortKey],
) -> Result<(), CommandError>
    ensures bound { let s = wanted invert (syntax selector.now) in
        OnOk result (All (λ k. IsBindable s (place_view k.place)) keys.now) }
    ensures fault { let s = wanted invert (syntax selector.now) in IfErr result
        (λ e. (e ≡ CommandError.OutOfMemory)
        ⊎ Any (λ k. IsUnbound s (place_view k.place) e) keys.now) }
{
    'keys: for key in keys {
        match check_place(alloc, invert, selector, &key.place) {
            Ok(()) => {}
            Err(fault) => return Err(fault),
        }
    }
    Ok(())
}

// The same of those whose values are to come once, or to be shared.
fn check_repeats(
    alloc: Global,
    invert: bool,
    selector: &Selector,
    repeats: &Repeats,
) -> Result<(), CommandError>
    ensures bound { let s = wanted invert (syntax selector.now) in
        OnOk result (EachRepeated (IsBindable s) repeats.now) }
    ensures fault { let s = wanted invert (syntax selector.now) in IfErr result (λ e.
        (e ≡ CommandError.OutOfMemory) ⊎ SomeRepeated (λ place. IsUnbound s place e) repeats.now) }
{
    match repeats {
        Repeats::Kept => Ok(()),
        Repeats::Dropped(places) | Repeats::Alone(places) => {
            check_places(alloc, invert, selector, places.as_slice())
        }
    }
}

// The same of the columns.
fn check_columns(
    alloc: Global,
    invert: bool,
    selector: &Selector,
    columns: &Option<Columns>,
) -> Result<(), CommandError>
    ensures bound { let s = wanted invert (syntax selector.now) in
        OnOk result (EachColumn (IsBindable s) columns.now) }
    ensures fault { let s = wanted invert (syntax selector.now) in IfErr result (λ e.
        (e ≡ CommandError.OutOfMemory) ⊎ SomeColumn (λ place. IsUnbound s place e) columns.now) }
{
    match columns {
        Some(columns) => check_places(alloc, invert, selector, columns.places.as_slice()),
        None => Ok(()),
    }
}

// The same of places.
fn check_places(
    alloc: Global,
    invert: bool,
    selector: &Selector,
    places: &[Place],
) -> Result<(), CommandError>
    ensures bound { let s = wanted invert (syntax selector.now) in
        OnOk result (All (λ p. IsBindable s (place_view p)) places.now) }
    ensures fault { let s = wanted invert (syntax selector.now) in IfErr result
        (λ e. (e ≡ CommandError.OutOfMemory) ⊎ Any (λ p. IsUnbound s (place_view p) e) places.now) }
{
    'places: for place in places {
        match check_place(alloc, invert, selector, place) {
            Ok(()) => {}
            Err(fault) => return Err(fault),
        }
    }
    Ok(())
}

// Refuses a place whose name can't be bound.
fn check_place(
    alloc: Global,
    invert: bool,
    selector: &Selector,
    place: &Place,
) -> Result<(), CommandError>
    ensures bound { OnOk result
        (IsBindable (wanted invert (syntax selector.now)) (place_view place.now)) }
    ensures fault { IfErr result (λ e. (e ≡ CommandError.OutOfMemory)
        ⊎ IsUnbound (wanted invert (syntax selector.now)) (place_view place.now) e) }
{
    let Some(name) = &place.name else {
        return Ok(());
    };
    if binds(invert, selector, name.as_str()) {
        return Ok(());
    }
    let Ok(text) = format!(in alloc; "{place}") else {
        return Err(CommandError::OutOfMemory);
    };
    match String::from_str(alloc, name.as_str()) {
        Ok(name) => Err(CommandError::Unbound(text, name)),
        Err(_) => {
            drop(text);
            Err(CommandError::OutOfMemory)
        }
    }
}

// Whether the selector, or, inverted, its opposite, can bind the name.
fn binds(invert: bool, selector: &Selector, name: &str) -> bool
    ensures { result ≡ can_bind name.now (wanted invert (syntax selector.now)) }
{
    if invert {
        return false;
    }
    can_bind(selector, name)
}

// Whether the name stands before a part of the selector that isn't negated.
#[cycle(can_bind)]
fn can_bind(selector: &Selector, name: &str) -> bool
    ensures { result ≡ can_bind name.now (syntax selector.now) }
{
    let mut at = selector;
    'down: loop {
        match at {
            Selector::Wildcard | Selector::Entry(_) | Selector::Neg(_) => return false,
            Selector::Binding(own, inner) => {
                if own.as_str() == name {
                    return true;
                }
                at = inner;
            }
            Selector::Attr(inner, _) => at = inner,
            Selector::Alt(members) | Selector::Multi(members) => {
                return some_can_bind(members, name);
            }
            Selector::Ancestrage(child, ancestor) => {
                if can_bind(ancestor, name) {
                    return true;
                }
                at = child;
            }
        }
    }
}

// The same of the members of a list.
#[cycle(can_bind)]
fn some_can_bind(members: &[Selector], name: &str) -> bool
    ensures { result ≡ some_can_bind name.now (members_of members.now) }
{
    'members: for member in members {
        if can_bind(member, name) {
            return true;
        }
    }
    false
}
