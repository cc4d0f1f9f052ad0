//! Kinds of works, and series.
ghost use Rattle.std.specs.Prelude.{◌≡◌, IfOk, map, option_map, string_bytes};
ghost use Rattle.haya_text.specs.Chunks.{chunks};
ghost use Rattle.haya_bibtex_fields.specs.FieldTexts.{unknown_in};
ghost use Rattle.haya_bibtex_fields.specs.Genres.{genre_in, genres, series_in, series_names};
ghost use Rattle.haya_bibtex_fields.specs.Tables.{text_or, text_under};

use crate::reading::Reading;
use crate::tables::text_under;
use crate::texts::{read_formatted, read_plain, read_title};
use haya_text::{ChunkedString, OutOfMemory};
use std::alloc::Global;

// The kinds of works by the names of BibLaTeX: theses, reports and other works, then patents, and
// requests for them.
const GENRES: &[(&str, &str)] = &[
    ("mathesis", "Master’s thesis"),
    ("mastersthesis", "Master’s thesis"),
    ("phdthesis", "PhD thesis"),
    ("bathesis", "Bachelor’s thesis"),
    ("candthesis", "Candidate thesis"),
    ("techreport", "technical report"),
    ("resreport", "research report"),
    ("software", "computer software"),
    ("datacd", "data CD"),
    ("audiocd", "audio CD"),
    ("patent", "patent"),
    ("patentde", "German patent"),
    ("patenteu", "European patent"),
    ("patentfr", "French patent"),
    ("patentuk", "British patent"),
    ("patentus", "U.S. patent"),
    ("patreq", "patent request"),
    ("patreqde", "German patent request"),
    ("patreqeu", "European patent request"),
    ("patreqfr", "French patent request"),
    ("patrequk", "British patent request"),
    ("patrequs", "U.S. patent request"),
];

/// The kind of work that a name of BibLaTeX stands for, as `phdthesis`.
#[tactic(auto, unfolding(crate::specs::Genres::genres))]
pub fn genre_named(name: &str) -> Option<&'static str>
    ensures { option_map (λ t. t.now) result ≡ text_under genres name.now }
{
    text_under(GENRES, name)
}

// The titles of series by their names.
const SERIES: &[(&str, &str)] = &[("newseries", "New series"), ("oldseries", "Old series")];

// The title of a series that a name stands for.
fn series_named(name: &str) -> Option<&'static str>
    ensures { option_map (λ t. t.now) result ≡ text_under series_names name.now }
{
    text_under(SERIES, name)
}

// One chunk of a text, or another text where there is none.
fn text_or(
    alloc: Global,
    text: Option<&'static str>,
    other: Option<ChunkedString>,
) -> Result<Option<ChunkedString>, OutOfMemory>
    ensures { IfOk result (λ t. option_map chunks t
        ≡ text_or (option_map (λ s. s.now) text.entry) (option_map chunks other)) }
{
    match text {
        Some(text) => {
            let value = String::from_str(alloc, text)?;
            Ok(Some(ChunkedString::from_string(alloc, value)?))
        }
        None => Ok(other),
    }
}

/// What a field `type` says: the kind of work that a name of BibLaTeX stands for, or any other text
/// as it is.
pub fn read_genre(alloc: Global, text: &str) -> Result<Reading<ChunkedString>, OutOfMemory>
    ensures value { IfOk result (λ r. option_map chunks r.value ≡ genre_in text.now) }
    ensures unknown { IfOk result (λ r. map string_bytes r.unknown.items ≡ unknown_in text.now) }
{
    let Reading { value, unknown } = read_formatted(alloc, text)?;
    let Reading {
        value: name,
        unknown: _,
    } = read_plain(alloc, text)?;
    let value = match name {
        Some(name) => text_or(alloc, genre_named(name.as_str()), value)?,
        None => value,
    };
    Ok(Reading { value, unknown })
}

/// The title of a series: `newseries` and `oldseries` stand for a new and an old series.
pub fn read_series(alloc: Global, text: &str) -> Result<Reading<ChunkedString>, OutOfMemory>
    ensures value { IfOk result (λ r. option_map chunks r.value ≡ series_in text.now) }
    ensures unknown { IfOk result (λ r. map string_bytes r.unknown.items ≡ unknown_in text.now) }
{
    let Reading { value, unknown } = read_title(alloc, text)?;
    let Reading {
        value: name,
        unknown: _,
    } = read_plain(alloc, text)?;
    let value = match name {
        Some(name) => text_or(alloc, series_named(name.as_str()), value)?,
        None => value,
    };
    Ok(Reading { value, unknown })
}
