//! The fields that have a place, by their names.
ghost use Rattle.std.specs.Prelude.{◌≡◌, IfOk, false, map, true, unwrap_or};
ghost use Rattle.std.specs.Map.{lookup};
ghost use Rattle.std.specs.Str.{bytes_eq};
ghost use Rattle.haya_bibtex_inherited.specs.Entries.{is_among};
ghost use Rattle.haya_bibtex_inherited.specs.Views.{fields_view};
ghost use Rattle.haya_bibtex_entries.specs.Places.{container_names, is_always_placed, is_of_book};
ghost use Rattle.haya_bibtex_entries.specs.Places.{is_of_journal, is_placed, is_short_of_journal};
ghost use Rattle.haya_bibtex_entries.specs.Places.{is_subtype_read, name_view, parent_names};
ghost use Rattle.haya_bibtex_entries.specs.Places.{side_names};

use crate::containers::{Container, container_of};
use crate::dates::address_of;
use crate::kinds::{Kind, is_subtype};
use crate::texts::{Fields, has_field};
use haya_text::OutOfMemory;
use std::alloc::Global;

// The fields that always have a place, though another one may be preferred.
const PLACED: &[&str] = &[
    // Titles.
    "title",
    "subtitle",
    "titleaddon",
    "shorttitle",
    "maintitle",
    "mainsubtitle",
    "maintitleaddon",
    "series",
    "shortseries",
    // Persons.
    "author",
    "editor",
    "editora",
    "editorb",
    "editorc",
    "translator",
    "afterword",
    "foreword",
    "introduction",
    "annotator",
    "commentator",
    "holder",
    "director",
    // Publishers and places.
    "publisher",
    "location",
    "address",
    "institution",
    "school",
    "organization",
    "venue",
    // Dates, and the original.
    "date",
    "year",
    "month",
    "day",
    "origtitle",
    "origdate",
    "origyear",
    "origpublisher",
    "origlocation",
    // Numbers and pages.
    "volume",
    "number",
    "issue",
    "edition",
    "version",
    "chapter",
    "pages",
    "volumes",
    "pagetotal",
    // Serial numbers, archives, addresses and references.
    "doi",
    "isbn",
    "issn",
    "pmid",
    "pmcid",
    "eid",
    "eprint",
    "url",
    "howpublished",
    "crossref",
    "xdata",
    // Notes, genres, call numbers and languages.
    "note",
    "addendum",
    "annotation",
    "annote",
    "abstract",
    "type",
    "library",
    "langid",
    "hyphenation",
    "language",
    "langidopts",
];

// Whether the name is one of these.
fn is_among(names: &[&str], name: &str) -> bool
    ensures { result ≡ is_among (map name_view names.now) name.now }
{
    'names: for other in names {
        if name == *other {
            return true;
        }
    }
    false
}

// Whether a field is one of those that most entries have, for which the table is long.
fn is_usual(name: &str) -> bool
    ensures { result ≡ true → is_always_placed name.now ≡ true }
{
    match name.len() {
        3 => matches!(name, "doi" | "url"),
        4 => matches!(name, "date" | "year" | "isbn" | "issn" | "note"),
        5 => matches!(name, "title" | "month" | "pages"),
        6 => matches!(
            name,
            "author" | "editor" | "series" | "volume" | "number" | "langid"
        ),
        7 => name == "address",
        8 => name == "abstract",
        9 => name == "publisher",
        _ => false,
    }
}

fn is_always_placed(name: &str) -> bool
    ensures { result ≡ is_always_placed name.now }
{
    if is_usual(name) {
        return true;
    }
    match name {
        "journal" | "journaltitle" | "booktitle" => false,
        _ => is_among(PLACED, name),
    }
}

// ---- fields that have a place where another field, or the type, gives them one

fn is_of_journal(container: Container) -> bool
    ensures { result ≡ is_of_journal container }
{
    match container {
        Container::Journal | Container::Own => true,
        _ => false,
    }
}

fn is_of_book(container: Container) -> bool
    ensures { result ≡ is_of_book container }
{
    match container {
        Container::Book => true,
        _ => false,
    }
}

fn is_short_of_journal(container: Container) -> bool
    ensures { result ≡ is_short_of_journal container }
{
    match container {
        Container::Journal => true,
        _ => false,
    }
}

fn is_subtype_read(kind: Kind, fields: &Fields<'_>) -> bool
    ensures { result ≡ is_subtype_read kind (fields_view fields.now) }
{
    kind.has_subtype() && (is_subtype("newspaper", fields) || is_subtype("magazine", fields))
}

// Whether a field of a journal or a book has a place, and what follows.
fn is_contained(
    alloc: Global,
    kind: Kind,
    fields: &Fields<'_>,
    name: &str,
) -> Result<bool, OutOfMemory>
    ensures { IfOk result (λ b. b
        ≡ unwrap_or (lookup (bytes_eq name.now) (container_names kind (fields_view fields.now)))
        false) }
{
    match name {
        "journaltitle" | "journal" | "journalsubtitle" | "journaltitleaddon" => {
            Ok(is_of_journal(container_of(kind, fields)))
        }
        "booktitle" | "booksubtitle" | "booktitleaddon" => {
            Ok(is_of_book(container_of(kind, fields)))
        }
        "shortjournal" => Ok(is_short_of_journal(container_of(kind, fields))),
        _ => is_of_parent(alloc, kind, fields, name),
    }
}

// The same of a conference and a host, and of what follows.
fn is_of_parent(
    alloc: Global,
    kind: Kind,
    fields: &Fields<'_>,
    name: &str,
) -> Result<bool, OutOfMemory>
    ensures { IfOk result (λ b. b
        ≡ unwrap_or (lookup (bytes_eq name.now) (parent_names kind (fields_view fields.now)))
        false) }
{
    match name {
        "eventtitle" | "eventtitleaddon" | "eventdate" => Ok(kind.is_given),
        "bookauthor" => Ok(kind.has_host_authors()),
        _ => is_beside(alloc, kind, fields, name),
    }
}

// The same of what is beside another field.
fn is_beside(
    alloc: Global,
    kind: Kind,
    fields: &Fields<'_>,
    name: &str,
) -> Result<bool, OutOfMemory>
    ensures { IfOk result (λ b. b
        ≡ unwrap_or (lookup (bytes_eq name.now) (side_names kind (fields_view fields.now)))
        false) }
{
    match name {
        "editortype" => Ok(has_field(fields, "editor")),
        "editoratype" => Ok(has_field(fields, "editora")),
        "editorbtype" => Ok(has_field(fields, "editorb")),
        "editorctype" => Ok(has_field(fields, "editorc")),
        "eprinttype" | "archiveprefix" => Ok(has_field(fields, "eprint")),
        "urldate" => Ok(address_of(alloc, fields)?.is_some()),
        "entrysubtype" => Ok(is_subtype_read(kind, fields)),
        _ => Ok(false),
    }
}

/// Whether a field with this name has a place in an entry of this kind. The error: there was no
/// memory to see it.
pub(crate) fn is_placed(
    alloc: Global,
    kind: Kind,
    fields: &Fields<'_>,
    name: &str,
) -> Result<bool, OutOfMemory>
    ensures { IfOk result (λ b. b ≡ is_placed kind (fields_view fields.now) name.now) }
{
    if is_always_placed(name) {
        return Ok(true);
    }
    is_contained(alloc, kind, fields, name)
}
