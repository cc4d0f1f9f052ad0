//! Where the titles of journals and books go that an entry names.
ghost use Rattle.std.specs.Prelude.{◌≡◌};
ghost use Rattle.haya_bibtex_entries.specs.Containers.{container_of};
ghost use Rattle.haya_bibtex_entries.specs.Containers.{container_of_host, has_book, has_journal};
ghost use Rattle.haya_bibtex_entries.specs.Containers.{has_title, is_book, is_periodical};
ghost use Rattle.haya_bibtex_inherited.specs.Views.{fields_view};

use crate::kinds::{Kind, Takes};
use crate::texts::{Fields, has_field};
use haya_entry::EntryType;

/// Where the titles of journals and books go.
#[derive(Clone, Copy)]
pub(crate) enum Container {
    /// The title of a journal is that of the host.
    Journal,
    /// The title of a book is that of the host.
    Book,
    /// The title of a journal is that of the entry.
    Own,
    /// They have no place.
    Nothing,
}

fn has_journal(fields: &Fields<'_>) -> bool
    ensures { result ≡ has_journal (fields_view fields.now) }
{
    has_field(fields, "journaltitle")
        || has_field(fields, "journal")
        || has_field(fields, "journalsubtitle")
        || has_field(fields, "journaltitleaddon")
}

fn has_book(fields: &Fields<'_>) -> bool
    ensures { result ≡ has_book (fields_view fields.now) }
{
    has_field(fields, "booktitle")
        || has_field(fields, "booksubtitle")
        || has_field(fields, "booktitleaddon")
}

fn has_title(fields: &Fields<'_>) -> bool
    ensures { result ≡ has_title (fields_view fields.now) }
{
    has_field(fields, "title") || has_field(fields, "subtitle") || has_field(fields, "titleaddon")
}

// Whether the title of a book is usual for a host.
fn is_book(takes: Takes) -> bool
    ensures { result ≡ is_book takes }
{
    match takes {
        Takes::Proceedings | Takes::Book | Takes::Reference => true,
        _ => false,
    }
}

// The title that a host has: the one that is usual for it, or the other one where that alone is
// there.
fn container_of_host(takes: Takes, fields: &Fields<'_>) -> Container
    ensures { result ≡ container_of_host takes (fields_view fields.now) }
{
    if is_book(takes) {
        if !has_book(fields) && has_journal(fields) {
            Container::Journal
        } else {
            Container::Book
        }
    } else if !has_journal(fields) && has_book(fields) {
        Container::Book
    } else {
        Container::Journal
    }
}

fn is_periodical(entry: EntryType) -> bool
    ensures { result ≡ is_periodical entry }
{
    match entry {
        EntryType::Periodical => true,
        _ => false,
    }
}

/// Where the titles of journals and books go that an entry of this kind names: one of them is the
/// host's, and a periodical without a title has the journal's.
pub(crate) fn container_of(kind: Kind, fields: &Fields<'_>) -> Container
    ensures { result ≡ container_of kind (fields_view fields.now) }
{
    match kind.host {
        Some(host) => container_of_host(host.takes, fields),
        None if is_periodical(kind.entry) && !has_title(fields) => Container::Own,
        None => Container::Nothing,
    }
}
