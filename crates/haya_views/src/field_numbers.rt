//! The dates and the numbers of an entry.
ghost use Rattle.std.specs.Prelude.{◌≡◌, [], Option, map, option_map, slice_get, unwrap_or, length};
ghost use Rattle.std.specs.List.{filter_map};
ghost use Rattle.haya_entry.specs.Tree.{view};
ghost use Rattle.haya_numbers.specs.Numeric.{numeric_view, single_number};
ghost use Rattle.haya_numbers.specs.Pages.{part_view, parts};
ghost use Rattle.haya_values.specs.MaybeTyped.{maybe_typed_view};
ghost use Rattle.haya_views.specs.Numbers.{field_date, field_number, page_ranges, pages_of};
ghost use Rattle.haya_views.specs.Numbers.{both, typed_number, typed_pages};

use haya_entry::Entry;
use haya_numbers::{Numeric, PageRanges, PageRangesPart};
use haya_time::Date;
use haya_values::MaybeTyped;

/// The date of the field with a name, if the entry has one: of `url` that of the visit.
pub fn field_date(entry: &Entry, name: &str) -> Option<Date>
    ensures { result ≡ field_date (view entry.now) name.now }
{
    match name {
        "date" => entry.date().copied(),
        "url" => entry.url()?.visit_date,
        _ => None,
    }
}

/// The number of the field with a name, if the entry has the field: none where it isn't one number
/// alone, as `3a` or `1-2`.
pub fn field_number(entry: &Entry, name: &str) -> Option<Option<i32>>
    ensures { result ≡ field_number (view entry.now) name.now }
{
    match name {
        "issue" => typed(entry.issue()),
        "chapter" => typed(entry.chapter()),
        "volume" => typed(entry.volume()),
        "edition" => typed(entry.edition()),
        "volume-total" => single(entry.volume_total()),
        "page-total" => single(entry.page_total()),
        _ => None,
    }
}

fn typed(value: Option<&MaybeTyped<Numeric>>) -> Option<Option<i32>>
    ensures { result ≡ option_map typed_number
        (option_map (λ v. maybe_typed_view numeric_view v.now) value.entry) }
{
    match value? {
        MaybeTyped::Typed(number) => Some(number.single_number()),
        MaybeTyped::String(_) => Some(None),
    }
}

fn single(number: Option<&Numeric>) -> Option<Option<i32>>
    ensures { result
        ≡ option_map single_number (option_map (λ n. numeric_view n.now) number.entry) }
{
    match number {
        Some(number) => Some(number.single_number()),
        None => None,
    }
}

/// How many pages and ranges of pages the entry has.
pub fn page_ranges_len(entry: &Entry) -> usize
    ensures { result ≡ length (page_ranges (view entry.now)) }
{
    match entry.page_range() {
        Some(MaybeTyped::Typed(pages)) => ranges_in(pages),
        _ => 0,
    }
}

/// The first and the last page of the page or the range at a place, if there is one: none where
/// they aren't numbers alone, as `12a`.
pub fn page_range_at(entry: &Entry, place: usize) -> Option<Option<(i32, i32)>>
    ensures { result ≡ slice_get (page_ranges (view entry.now)) place }
{
    match entry.page_range() {
        Some(MaybeTyped::Typed(pages)) => range_at(pages, place),
        _ => None,
    }
}

// How many pages and ranges there are.
fn ranges_in(pages: &PageRanges) -> usize
    ensures { result ≡ length (filter_map pages_of (parts pages.now)) }
{
    let mut number = 0;
    'parts: for part in &pages.ranges {
        if pages_of(part).is_some() {
            number += 1;
        }
    }
    number
}

// The page or the range at a place.
fn range_at(pages: &PageRanges, place: usize) -> Option<Option<(i32, i32)>>
    ensures { result ≡ slice_get (filter_map pages_of (parts pages.now)) place }
{
    let mut left = place;
    'parts: for part in &pages.ranges {
        match pages_of(part) {
            Some(range) if left == 0 => return Some(range),
            Some(_) => left -= 1,
            None => {}
        }
    }
    None
}

// The first and the last page of a part, if it isn't a separator.
fn pages_of(part: &PageRangesPart) -> Option<Option<(i32, i32)>>
    ensures { result ≡ pages_of (part_view part.now) }
{
    match part {
        PageRangesPart::Ampersand | PageRangesPart::Comma => None,
        PageRangesPart::SinglePage(page) => Some(both(page, page)),
        PageRangesPart::EscapedRange(first, last) | PageRangesPart::Range(first, last) => {
            Some(both(first, last))
        }
    }
}

// Two numbers, if both are alone.
fn both(first: &Numeric, last: &Numeric) -> Option<(i32, i32)>
    ensures { result ≡ both (single_number (numeric_view first.now))
        (single_number (numeric_view last.now)) }
{
    Some((first.single_number()?, last.single_number()?))
}
