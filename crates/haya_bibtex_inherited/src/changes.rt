//! What becomes of names where an entry gives its fields to another.
ghost use Rattle.std.specs.Prelude.{◌≡◌, ◌++◌, ◌∷◌, [], codes, option_map};
ghost use Rattle.haya_bibtex_inherited.specs.Changes.{books, changes_between, date_names};
ghost use Rattle.haya_bibtex_inherited.specs.Changes.{is_multivolume};
ghost use Rattle.haya_bibtex_inherited.specs.Changes.{keeps_name, name_under, new_authors};
ghost use Rattle.haya_bibtex_inherited.specs.Changes.{new_name, new_titles, own_names};
ghost use Rattle.haya_bibtex_inherited.specs.Changes.{parts_of_books, parts_of_periodicals};
ghost use Rattle.haya_bibtex_inherited.specs.Changes.{parts_of_volumes, short_titles};
ghost use Rattle.haya_bibtex_inherited.specs.Changes.{titles_between};
ghost use Rattle.haya_bibtex_inherited.specs.Entries.{is_among};
ghost use Rattle.haya_bibtex_inherited.specs.declared.changes.Titles.TheVariants.{Book, Journal};
ghost use Rattle.haya_bibtex_inherited.specs.declared.changes.Titles.TheVariants.{Main};

use crate::names::is_among;
use crate::reference::Link;

/// What becomes of a title, a subtitle and an addition.
#[derive(Clone, Copy)]
pub(crate) enum Titles {
    /// They stay.
    Same,
    /// They become those of a work in several volumes.
    Main,
    /// They become those of a book.
    Book,
    /// They become those of a journal.
    Journal,
}

/// What becomes of names.
#[derive(Clone, Copy)]
pub(crate) struct Changes {
    /// What becomes of titles.
    pub(crate) titles: Titles,
    /// The authors are those of the book too.
    pub(crate) book_author: bool,
    /// Short titles, and those to sort by, aren't inherited.
    pub(crate) no_short_titles: bool,
}

// Whether a type begins with `mv`.
fn is_multivolume(kind: &str) -> bool
    ensures { result ≡ is_multivolume kind.now }
{
    kind.starts_with("mv")
}

fn is_book(kind: &str) -> bool
    ensures { result ≡ is_among books kind.now }
{
    match kind {
        "book" | "mvbook" => true,
        _ => false,
    }
}

fn is_part_of_book(kind: &str) -> bool
    ensures { result ≡ is_among parts_of_books kind.now }
{
    match kind {
        "inbook" | "bookinbook" | "suppbook" => true,
        _ => false,
    }
}

// Types of which a book or another volume is the whole.
const PARTS_OF_VOLUMES: &[&str] = &[
    "inbook",
    "bookinbook",
    "suppbook",
    "incollection",
    "suppcollection",
    "inreference",
    "inproceedings",
    "conference",
];

fn is_part_of_volume(kind: &str) -> bool
    ensures { result ≡ is_among parts_of_volumes kind.now }
{
    is_among(PARTS_OF_VOLUMES, kind)
}

fn is_part_of_periodical(kind: &str) -> bool
    ensures { result ≡ is_among parts_of_periodicals kind.now }
{
    match kind {
        "article" | "suppperiodical" | "review" => true,
        _ => false,
    }
}

// What becomes of the titles of an entry of the first type, in one of the second.
fn titles_between(source: &str, target: &str) -> Titles
    ensures { result ≡ titles_between source.now target.now }
{
    if is_multivolume(source) {
        Titles::Main
    } else if is_part_of_volume(target) {
        Titles::Book
    } else if source == "periodical" && is_part_of_periodical(target) {
        Titles::Journal
    } else {
        Titles::Same
    }
}

/// What changes where an entry of the first type gives its fields to one of the second.
pub(crate) fn changes_between(link: Link, source: &str, target: &str) -> Changes
    ensures { result ≡ changes_between link source.now target.now }
{
    match link {
        Link::Xdata => Changes {
            titles: Titles::Same,
            book_author: false,
            no_short_titles: false,
        },
        Link::Crossref => Changes {
            titles: titles_between(source, target),
            book_author: is_book(source) && is_part_of_book(target),
            no_short_titles: is_multivolume(source)
                || is_part_of_volume(target)
                || is_part_of_periodical(target),
        },
    }
}

fn main_title(name: &str) -> Option<&'static str>
    ensures { option_map (λ t. t.now) result ≡ name_under (new_titles Main) name.now }
{
    match name {
        "title" => Some("maintitle"),
        "subtitle" => Some("mainsubtitle"),
        "titleaddon" => Some("maintitleaddon"),
        _ => None,
    }
}

fn book_title(name: &str) -> Option<&'static str>
    ensures { option_map (λ t. t.now) result ≡ name_under (new_titles Book) name.now }
{
    match name {
        "title" => Some("booktitle"),
        "subtitle" => Some("booksubtitle"),
        "titleaddon" => Some("booktitleaddon"),
        _ => None,
    }
}

fn journal_title(name: &str) -> Option<&'static str>
    ensures { option_map (λ t. t.now) result ≡ name_under (new_titles Journal) name.now }
{
    match name {
        "title" => Some("journaltitle"),
        "subtitle" => Some("journalsubtitle"),
        "titleaddon" => Some("journaltitleaddon"),
        _ => None,
    }
}

// What a title's name becomes.
fn new_title(titles: Titles, name: &str) -> Option<&'static str>
    ensures { option_map (λ t. t.now) result ≡ name_under (new_titles titles) name.now }
{
    match titles {
        Titles::Same => None,
        Titles::Main => main_title(name),
        Titles::Book => book_title(name),
        Titles::Journal => journal_title(name),
    }
}

// What the name of the authors becomes.
fn new_author(book_author: bool, name: &str) -> Option<&'static str>
    ensures { option_map (λ t. t.now) result ≡ name_under (new_authors book_author) name.now }
{
    if book_author && name == "author" {
        return Some("bookauthor");
    }
    None
}

/// The name that a name changes to.
pub(crate) fn new_name(changes: Changes, name: &str) -> Option<&'static str>
    ensures { option_map (λ t. t.now) result ≡ new_name changes name.now }
{
    match new_title(changes.titles, name) {
        Some(other) => Some(other),
        None => new_author(changes.book_author, name),
    }
}

// Names that no entry inherits.
const OWN_NAMES: &[&str] = &[
    "crossref",
    "xref",
    "xdata",
    "ids",
    "entryset",
    "entrysubtype",
    "execute",
    "label",
    "options",
    "presort",
    "related",
    "relatedoptions",
    "relatedstring",
    "relatedtype",
    "shorthand",
    "shorthandintro",
    "sortkey",
    "key",
];

fn is_own_name(name: &str) -> bool
    ensures { result ≡ is_among own_names name.now }
{
    is_among(OWN_NAMES, name)
}

fn is_date_name(name: &str) -> bool
    ensures { result ≡ is_among date_names name.now }
{
    match name {
        "date" | "year" | "month" | "day" => true,
        _ => false,
    }
}

fn is_short_title(name: &str) -> bool
    ensures { result ≡ is_among short_titles name.now }
{
    match name {
        "shorttitle" | "sorttitle" | "indextitle" | "indexsorttitle" => true,
        _ => false,
    }
}

/// Whether a name is inherited as it is, by an entry that has a date or hasn't.
pub(crate) fn keeps_name(changes: Changes, dated: bool, name: &str) -> bool
    ensures { result ≡ keeps_name changes dated name.now }
{
    !(is_own_name(name)
        || new_title(changes.titles, name).is_some()
        || changes.no_short_titles && is_short_title(name)
        || dated && is_date_name(name))
}
