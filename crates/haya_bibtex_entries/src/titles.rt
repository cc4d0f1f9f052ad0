//! The table of titles.
ghost use Rattle.std.specs.Prelude.{◌≡◌, true, IfOk, None, OnOk, map, option_and_then, option_map};
ghost use Rattle.std.specs.Prelude.{string_bytes};
ghost use Rattle.haya_text.specs.Chunks.{chunks};
ghost use Rattle.haya_text.specs.Texts.{text_view};
ghost use Rattle.haya_bibtex_fields.specs.FieldTexts.{unknown_of};
ghost use Rattle.haya_bibtex_fields.specs.Genres.{series_in};
ghost use Rattle.haya_bibtex_fields.specs.Titles.{title_bytes};
ghost use Rattle.haya_bibtex_inherited.specs.Views.{fields_view};
ghost use Rattle.haya_bibtex_entries.specs.Drafts.{so_far, with_any_row, with_row, with_rows};
ghost use Rattle.haya_bibtex_entries.specs.Titles.{book_texts, conference_title_row, event_texts};
ghost use Rattle.haya_bibtex_entries.specs.Titles.{host_title_row, journal_texts, main_texts};
ghost use Rattle.haya_bibtex_entries.specs.Titles.{main_title_row, original_texts};
ghost use Rattle.haya_bibtex_entries.specs.Titles.{original_title_row, own_texts, own_title_row};
ghost use Rattle.haya_bibtex_entries.specs.Titles.{other_title_rows, series_row};
ghost use Rattle.haya_bibtex_entries.specs.Titles.{series_title_row, title_row, title_rows};
ghost use Rattle.haya_bibtex_entries.specs.Titles.{whole_title_row};
ghost use Rattle.haya_bibtex_entries.specs.Values.{title_value, value_view};

use crate::containers::{Container, container_of};
use crate::draft::{Draft, Level};
use crate::kinds::{Host, Kind};
use crate::rows::push_names;
use crate::texts::{Fields, text_of};
use crate::values::Value;
use haya_bibtex_fields::{
    Reading, TitleTexts, read_series, read_short_title, read_whole_title, title_if_any, with_short,
};
use haya_text::{ChunkedString, FormatString, OutOfMemory};
use std::alloc::Global;

fn own_texts<'a>(fields: &Fields<'a>) -> TitleTexts<'a>
    ensures { title_bytes result ≡ own_texts (fields_view fields.now) }
{
    TitleTexts {
        title: text_of(fields, "title"),
        subtitle: text_of(fields, "subtitle"),
        addition: text_of(fields, "titleaddon"),
    }
}

fn journal_texts<'a>(fields: &Fields<'a>) -> TitleTexts<'a>
    ensures { title_bytes result ≡ journal_texts (fields_view fields.now) }
{
    TitleTexts {
        title: text_of(fields, "journaltitle").or(text_of(fields, "journal")),
        subtitle: text_of(fields, "journalsubtitle"),
        addition: text_of(fields, "journaltitleaddon"),
    }
}

fn book_texts<'a>(fields: &Fields<'a>) -> TitleTexts<'a>
    ensures { title_bytes result ≡ book_texts (fields_view fields.now) }
{
    let title = text_of(fields, "booktitle");
    let subtitle = text_of(fields, "booksubtitle");
    let addition = text_of(fields, "booktitleaddon");
    TitleTexts {
        title,
        subtitle,
        addition,
    }
}

fn main_texts<'a>(fields: &Fields<'a>) -> TitleTexts<'a>
    ensures { title_bytes result ≡ main_texts (fields_view fields.now) }
{
    let title = text_of(fields, "maintitle");
    let subtitle = text_of(fields, "mainsubtitle");
    let addition = text_of(fields, "maintitleaddon");
    TitleTexts {
        title,
        subtitle,
        addition,
    }
}

fn event_texts<'a>(fields: &Fields<'a>) -> TitleTexts<'a>
    ensures { title_bytes result ≡ event_texts (fields_view fields.now) }
{
    TitleTexts {
        title: text_of(fields, "eventtitle"),
        subtitle: None,
        addition: text_of(fields, "eventtitleaddon"),
    }
}

fn original_texts<'a>(fields: &Fields<'a>) -> TitleTexts<'a>
    ensures { title_bytes result ≡ original_texts (fields_view fields.now) }
{
    TitleTexts {
        title: text_of(fields, "origtitle"),
        subtitle: None,
        addition: None,
    }
}

// A title as a value.
fn title_value(title: Option<FormatString>) -> Option<Value>
    ensures { option_map value_view result
        ≡ option_map (λ t. title_value t) (option_map text_view title) }
{
    match title {
        Some(title) => Some(Value::Title(title)),
        None => None,
    }
}

// Whether none of the texts of a title is there.
fn is_missing(texts: TitleTexts<'_>) -> bool
    ensures { result ≡ true → title_bytes texts.entry
        ≡ record { title = None; subtitle = None; addition = None } }
{
    texts.title.is_none() && texts.subtitle.is_none() && texts.addition.is_none()
}

// Puts texts joined as a title, with the short form that is written.
fn add_title(
    alloc: Global,
    draft: &mut Draft,
    key: &str,
    level: Level,
    texts: TitleTexts<'_>,
    short: Option<&str>,
) -> Result<(), OutOfMemory>
    ensures { OnOk result (so_far draft.new
        ≡ with_row key.now (title_row level (title_bytes texts.entry)
        (option_map (λ t. t.now) short.entry)) (so_far draft.old)) }
{
    if is_missing(texts) && short.is_none() {
        return Ok(());
    }
    let Reading { value, unknown } = read_short_title(alloc, texts, short)?;
    draft.add_read(alloc, key, level, title_value(value), unknown)
}

// Puts a title that may be its own short form.
fn add_whole_title(
    alloc: Global,
    draft: &mut Draft,
    key: &str,
    texts: TitleTexts<'_>,
    short: Option<&str>,
) -> Result<(), OutOfMemory>
    ensures { OnOk result (so_far draft.new
        ≡ with_row key.now (whole_title_row (title_bytes texts.entry)
        (option_map (λ t. t.now) short.entry)) (so_far draft.old)) }
{
    let Reading { value, unknown } = read_whole_title(alloc, texts, short)?;
    draft.add_read(alloc, key, Level::Own, title_value(value), unknown)
}

fn add_own_title(
    alloc: Global,
    draft: &mut Draft,
    key: &str,
    container: Container,
    fields: &Fields<'_>,
) -> Result<(), OutOfMemory>
    ensures { OnOk result (so_far draft.new
        ≡ with_row key.now (own_title_row container (fields_view fields.now))
        (so_far draft.old)) }
{
    let short = text_of(fields, "shorttitle");
    match container {
        Container::Own => {
            let texts = journal_texts(fields);
            add_title(alloc, draft, key, Level::Own, texts, short)
        }
        _ => add_whole_title(alloc, draft, key, own_texts(fields), short),
    }
}

fn add_host_title(
    alloc: Global,
    draft: &mut Draft,
    key: &str,
    host: Option<Host>,
    container: Container,
    fields: &Fields<'_>,
) -> Result<(), OutOfMemory>
    ensures { OnOk result (so_far draft.new
        ≡ with_any_row key.now (host_title_row host container (fields_view fields.now))
        (so_far draft.old)) }
{
    let Some(host) = host else {
        return Ok(());
    };
    let level = Level::Host(host.entry);
    match container {
        Container::Journal => {
            let short = text_of(fields, "shortjournal");
            add_title(alloc, draft, key, level, journal_texts(fields), short)
        }
        Container::Book => add_title(alloc, draft, key, level, book_texts(fields), None),
        _ => Ok(()),
    }
}

fn add_main_title(
    alloc: Global,
    draft: &mut Draft,
    key: &str,
    fields: &Fields<'_>,
) -> Result<(), OutOfMemory>
    ensures { OnOk result (so_far draft.new
        ≡ with_row key.now (main_title_row (fields_view fields.now)) (so_far draft.old)) }
{
    add_title(alloc, draft, key, Level::Main, main_texts(fields), None)
}

// What the name of a series says, if it is there.
fn read_series_if(alloc: Global, text: Option<&str>) -> Result<Reading<ChunkedString>, OutOfMemory>
    ensures value { IfOk result (λ r. option_map chunks r.value
        ≡ option_and_then series_in (option_map (λ t. t.now) text.entry)) }
    ensures unknown { IfOk result (λ r. map string_bytes r.unknown.items
        ≡ unknown_of (option_map (λ t. t.now) text.entry)) }
{
    match text {
        Some(text) => read_series(alloc, text),
        None => Ok(Reading {
            value: None,
            unknown: Vec::new(alloc),
        }),
    }
}

fn add_series_title(
    alloc: Global,
    draft: &mut Draft,
    key: &str,
    fields: &Fields<'_>,
) -> Result<(), OutOfMemory>
    ensures { OnOk result (so_far draft.new
        ≡ with_row key.now (series_title_row (fields_view fields.now)) (so_far draft.old)) }
{
    let series = text_of(fields, "series");
    let short = text_of(fields, "shortseries");
    add_series(alloc, draft, key, series, short)
}

// Puts a series with its short form.
fn add_series(
    alloc: Global,
    draft: &mut Draft,
    key: &str,
    series: Option<&str>,
    short: Option<&str>,
) -> Result<(), OutOfMemory>
    ensures { OnOk result (so_far draft.new
        ≡ with_row key.now (series_row (option_map (λ t. t.now) series.entry)
        (option_map (λ t. t.now) short.entry)) (so_far draft.old)) }
{
    if series.is_none() && short.is_none() {
        return Ok(());
    }
    let Reading { value, mut unknown } = read_series_if(alloc, series)?;
    let Reading {
        value: short,
        unknown: more,
    } = title_if_any(alloc, short)?;
    push_names(&mut unknown, more)?;
    let title = with_short(alloc, value, short)?;
    draft.add_read(alloc, key, Level::Series, title_value(title), unknown)
}

fn add_conference_title(
    alloc: Global,
    draft: &mut Draft,
    key: &str,
    is_given: bool,
    fields: &Fields<'_>,
) -> Result<(), OutOfMemory>
    ensures { OnOk result (so_far draft.new
        ≡ with_any_row key.now (conference_title_row is_given (fields_view fields.now))
        (so_far draft.old)) }
{
    if !is_given {
        return Ok(());
    }
    add_title(
        alloc,
        draft,
        key,
        Level::Conference,
        event_texts(fields),
        None,
    )
}

fn add_original_title(
    alloc: Global,
    draft: &mut Draft,
    key: &str,
    fields: &Fields<'_>,
) -> Result<(), OutOfMemory>
    ensures { OnOk result (so_far draft.new
        ≡ with_row key.now (original_title_row (fields_view fields.now)) (so_far draft.old)) }
{
    add_title(
        alloc,
        draft,
        key,
        Level::Original,
        original_texts(fields),
        None,
    )
}

// Puts the titles of the entry, its host and the work in several volumes where they go.
fn add_own_titles(
    alloc: Global,
    draft: &mut Draft,
    key: &str,
    kind: Kind,
    fields: &Fields<'_>,
) -> Result<(), OutOfMemory>
    ensures { OnOk result (so_far draft.new
        ≡ with_rows key.now (title_rows kind (fields_view fields.now)) (so_far draft.old)) }
{
    let container = container_of(kind, fields);
    add_own_title(alloc, draft, key, container, fields)?;
    add_host_title(alloc, draft, key, kind.host, container, fields)?;
    add_main_title(alloc, draft, key, fields)
}

/// Puts the titles where they go. The error: there was no memory for them.
pub(crate) fn add_titles(
    alloc: Global,
    draft: &mut Draft,
    key: &str,
    kind: Kind,
    fields: &Fields<'_>,
) -> Result<(), OutOfMemory>
    ensures { OnOk result (so_far draft.new
        ≡ with_rows key.now (other_title_rows kind (fields_view fields.now))
        (with_rows key.now (title_rows kind (fields_view fields.now)) (so_far draft.old))) }
{
    add_own_titles(alloc, draft, key, kind, fields)?;
    add_other_titles(alloc, draft, key, kind, fields)
}

// Puts the titles of the series, the conference and the original where they go.
fn add_other_titles(
    alloc: Global,
    draft: &mut Draft,
    key: &str,
    kind: Kind,
    fields: &Fields<'_>,
) -> Result<(), OutOfMemory>
    ensures { OnOk result (so_far draft.new
        ≡ with_rows key.now (other_title_rows kind (fields_view fields.now)) (so_far draft.old)) }
{
    add_series_title(alloc, draft, key, fields)?;
    add_conference_title(alloc, draft, key, kind.is_given, fields)?;
    add_original_title(alloc, draft, key, fields)
}
