//! The fields of an entry as texts.
ghost use Rattle.std.specs.Prelude.{◌≡◌, IfOk, map, option_map, string_bytes};
ghost use Rattle.haya_entry.specs.Tree.{fields, view};
ghost use Rattle.haya_numbers.specs.Numeric.{numeric_view};
ghost use Rattle.haya_numbers.specs.NumericPrinted.{shown_numeric};
ghost use Rattle.haya_numbers.specs.Pages.{parts};
ghost use Rattle.haya_numbers.specs.PagesPrinted.{shown_pages};
ghost use Rattle.haya_people.specs.Person.{person_view};
ghost use Rattle.haya_text.specs.Texts.{text_view};
ghost use Rattle.haya_time.specs.DatePrinted.{date_text};
ghost use Rattle.haya_time.specs.DurationPrint.{duration_text, range_text};
ghost use Rattle.haya_values.specs.MaybeTyped.{maybe_typed_view};
ghost use Rattle.haya_values.specs.Url.{url_view};
ghost use Rattle.haya_views.specs.FieldTexts.{field_text, form_text, people_text};
ghost use Rattle.haya_views.specs.FieldTexts.{publisher_name, typed_text};

use crate::text_form::TextForm;
use haya_entry::Entry;
use haya_numbers::{Numeric, PageRanges};
use haya_people::Person;
use haya_text::{FormatString, LongShortForm, OutOfMemory};
use haya_time::{Date, Duration, DurationRange};
use haya_values::{MaybeTyped, QualifiedUrl};
use std::alloc::Global;

/// The text of the field with this name in a form, if the entry has one. A field that isn't a text
/// of chunks has one text in all forms.
pub fn field_text(
    alloc: Global,
    entry: &Entry,
    name: &str,
    form: TextForm,
) -> Result<Option<String>, OutOfMemory>
    ensures { IfOk result (λ text.
        option_map string_bytes text ≡ field_text (view entry.now) name.now form) }
{
    match name {
        "title" => in_form(alloc, entry.title(), form),
        "location" => in_form(alloc, entry.location(), form),
        "organization" => in_form(alloc, entry.organization(), form),
        "archive" => in_form(alloc, entry.archive(), form),
        "archive-location" => in_form(alloc, entry.archive_location(), form),
        "call-number" => in_form(alloc, entry.call_number(), form),
        "note" => in_form(alloc, entry.note(), form),
        "abstract" => in_form(alloc, entry.abstract_(), form),
        "genre" => in_form(alloc, entry.genre(), form),
        "author" => people(alloc, entry.authors()),
        "editor" => people(alloc, entry.editors()),
        "date" => date(alloc, entry.date()),
        "publisher" => in_form(alloc, publisher_name(entry), form),
        "url" => url(alloc, entry.url()),
        "issue" => typed_number(alloc, entry.issue()),
        "chapter" => typed_number(alloc, entry.chapter()),
        "volume" => typed_number(alloc, entry.volume()),
        "edition" => typed_number(alloc, entry.edition()),
        "volume-total" => number(alloc, entry.volume_total()),
        "page-total" => number(alloc, entry.page_total()),
        "page-range" => pages(alloc, entry.page_range()),
        "time-range" => time_range(alloc, entry.time_range()),
        "runtime" => runtime(alloc, entry.runtime()),
        "serial-number" => copied(alloc, entry.keyed_serial_number("serial")),
        "language" => copied(alloc, entry.language()),
        "doi" => copied(alloc, entry.doi()),
        "isbn" => copied(alloc, entry.isbn()),
        "issn" => copied(alloc, entry.issn()),
        "pmid" => copied(alloc, entry.pmid()),
        "pmcid" => copied(alloc, entry.pmcid()),
        "arxiv" => copied(alloc, entry.arxiv()),
        _ => Ok(None),
    }
}

// The name of the publisher.
fn publisher_name(entry: &Entry) -> Option<&FormatString>
    ensures { option_map (λ t. text_view t.now) result
        ≡ publisher_name (fields (view entry.now)).publisher }
{
    entry.publisher()?.name()
}

// A copy of the text.
fn copied(alloc: Global, text: Option<&str>) -> Result<Option<String>, OutOfMemory>
    ensures { IfOk result (λ s. option_map string_bytes s ≡ option_map (λ t. t.now) text.entry) }
{
    match text {
        Some(text) => Ok(Some(String::from_str(alloc, text)?)),
        None => Ok(None),
    }
}

// A text in a form.
fn in_form(
    alloc: Global,
    text: Option<&FormatString>,
    form: TextForm,
) -> Result<Option<String>, OutOfMemory>
    ensures { IfOk result (λ s. option_map string_bytes s
        ≡ option_map (form_text form) (option_map (λ t. text_view t.now) text.entry)) }
{
    match text {
        Some(text) => Ok(Some(form_text(alloc, text, form)?)),
        None => Ok(None),
    }
}

fn form_text(alloc: Global, text: &FormatString, form: TextForm) -> Result<String, OutOfMemory>
    ensures { IfOk result (λ s. string_bytes s ≡ form_text form (text_view text.now)) }
{
    match form {
        TextForm::MarkedUp => text.value.to_serialized(alloc),
        TextForm::Plain => Ok(format!(in alloc; "{text}")?),
        TextForm::Short => Ok(format!(in alloc; "{}", text.select(LongShortForm::Short))?),
    }
}

// A line for each person.
fn people(alloc: Global, people: Option<&[Person]>) -> Result<Option<String>, OutOfMemory>
    ensures { IfOk result (λ s. option_map string_bytes s
        ≡ option_map people_text (option_map (λ ps. map person_view ps.now) people.entry)) }
{
    match people {
        Some(people) => Ok(Some(lines_of(alloc, people)?)),
        None => Ok(None),
    }
}

fn lines_of(alloc: Global, people: &[Person]) -> Result<String, OutOfMemory>
    ensures { IfOk result (λ s. string_bytes s ≡ people_text (map person_view people.now)) }
{
    let mut lines = String::new(alloc);
    'people: for person in people {
        let name = person.name_first(alloc, false, false)?;
        lines.push_str(name.as_str())?;
        lines.push('\n')?;
    }
    Ok(lines)
}

fn date(alloc: Global, date: Option<&Date>) -> Result<Option<String>, OutOfMemory>
    ensures { IfOk result (λ s. option_map string_bytes s
        ≡ option_map date_text (option_map (λ d. d.now) date.entry)) }
{
    match date {
        Some(date) => Ok(Some(format!(in alloc; "{date}")?)),
        None => Ok(None),
    }
}

fn url(alloc: Global, url: Option<&QualifiedUrl>) -> Result<Option<String>, OutOfMemory>
    ensures { IfOk result (λ s. option_map string_bytes s
        ≡ option_map (λ u. u.value) (option_map (λ u. url_view u.now) url.entry)) }
{
    match url {
        Some(url) => copied(alloc, Some(url.value.as_str())),
        None => Ok(None),
    }
}

fn number(alloc: Global, number: Option<&Numeric>) -> Result<Option<String>, OutOfMemory>
    ensures { IfOk result (λ s. option_map string_bytes s
        ≡ option_map shown_numeric (option_map (λ n. numeric_view n.now) number.entry)) }
{
    match number {
        Some(number) => Ok(Some(format!(in alloc; "{number}")?)),
        None => Ok(None),
    }
}

fn typed_number(
    alloc: Global,
    value: Option<&MaybeTyped<Numeric>>,
) -> Result<Option<String>, OutOfMemory>
    ensures { IfOk result (λ s. option_map string_bytes s ≡ option_map (typed_text shown_numeric)
        (option_map (λ v. maybe_typed_view numeric_view v.now) value.entry)) }
{
    match value {
        Some(MaybeTyped::Typed(value)) => Ok(Some(format!(in alloc; "{value}")?)),
        Some(MaybeTyped::String(text)) => copied(alloc, Some(text.as_str())),
        None => Ok(None),
    }
}

fn pages(
    alloc: Global,
    value: Option<&MaybeTyped<PageRanges>>,
) -> Result<Option<String>, OutOfMemory>
    ensures { IfOk result (λ s. option_map string_bytes s ≡ option_map (typed_text shown_pages)
        (option_map (λ v. maybe_typed_view parts v.now) value.entry)) }
{
    match value {
        Some(MaybeTyped::Typed(value)) => Ok(Some(format!(in alloc; "{value}")?)),
        Some(MaybeTyped::String(text)) => copied(alloc, Some(text.as_str())),
        None => Ok(None),
    }
}

fn time_range(
    alloc: Global,
    value: Option<&MaybeTyped<DurationRange>>,
) -> Result<Option<String>, OutOfMemory>
    ensures { IfOk result (λ s. option_map string_bytes s ≡ option_map (typed_text range_text)
        (option_map (λ v. maybe_typed_view (λ r. r) v.now) value.entry)) }
{
    match value {
        Some(MaybeTyped::Typed(value)) => Ok(Some(format!(in alloc; "{value}")?)),
        Some(MaybeTyped::String(text)) => copied(alloc, Some(text.as_str())),
        None => Ok(None),
    }
}

fn runtime(
    alloc: Global,
    value: Option<&MaybeTyped<Duration>>,
) -> Result<Option<String>, OutOfMemory>
    ensures { IfOk result (λ s. option_map string_bytes s ≡ option_map (typed_text duration_text)
        (option_map (λ v. maybe_typed_view (λ d. d) v.now) value.entry)) }
{
    match value {
        Some(MaybeTyped::Typed(value)) => Ok(Some(format!(in alloc; "{value}")?)),
        Some(MaybeTyped::String(text)) => copied(alloc, Some(text.as_str())),
        None => Ok(None),
    }
}
