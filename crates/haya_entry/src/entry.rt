//! Entries: works with their fields and parents.
ghost use Rattle.std.specs.Prelude.{◌≡◌, IfOk, map};
ghost use Rattle.haya_entry.specs.Names.{has_field, has_name};
ghost use Rattle.haya_entry.specs.Tree.{view, fields, parents, with_parents, new_entry};
ghost use Rattle.haya_entry.specs.declared.entry.Entry.{out-Entry};

mod ancestors;
mod copies;
mod fields;
mod lookups;
mod serials;

use crate::{EntryType, FieldName, SerialNumber};
use haya_numbers::{Numeric, PageRanges};
use haya_people::{Person, PersonsWithRoles};
use haya_text::{FormatString, OutOfMemory};
use haya_time::{Date, Duration, DurationRange};
use haya_values::{MaybeTyped, Publisher, QualifiedUrl};
use std::alloc::Global;

/// A work of the literature: its key, its type, its fields, and the works that it appears in, its
/// parents.
#[derive(PartialEq, Eq, Hash, Debug)]
pub struct Entry {
    /// The key, under which a library keeps the entry.
    pub key: String,
    /// What kind of work it is.
    pub entry_type: EntryType,
    /// The works that it appears in, in order.
    pub parents: Vec<Entry>,
    /// The title.
    pub title: Option<FormatString>,
    /// The place where the work was made or is kept.
    pub location: Option<FormatString>,
    /// The organization that the work comes from.
    pub organization: Option<FormatString>,
    /// The archive that keeps the work.
    pub archive: Option<FormatString>,
    /// The place of that archive.
    pub archive_location: Option<FormatString>,
    /// The number that the archive or library has it under.
    pub call_number: Option<FormatString>,
    /// A note on the work.
    pub note: Option<FormatString>,
    /// A summary of what the work says.
    pub abstract_: Option<FormatString>,
    /// The kind of work within its type, as `Doctoral dissertation`.
    pub genre: Option<FormatString>,
    /// The people who made the work, in order.
    pub authors: Option<Vec<Person>>,
    /// The people who chose and prepared what it has, in order.
    pub editors: Option<Vec<Person>>,
    /// People with another part in the work, each list with its role.
    pub affiliated: Option<Vec<PersonsWithRoles>>,
    /// When the work came out, or was made.
    pub date: Option<Date>,
    /// Who published the work.
    pub publisher: Option<Publisher>,
    /// Where the work is found on the web.
    pub url: Option<QualifiedUrl>,
    /// Its place among the issues of its parent, or among the episodes of a series.
    pub issue: Option<MaybeTyped<Numeric>>,
    /// The chapter of its parent that the work is found in.
    pub chapter: Option<MaybeTyped<Numeric>>,
    /// Which volume, part or season of its parent the work is.
    pub volume: Option<MaybeTyped<Numeric>>,
    /// Which edition of the work it is.
    pub edition: Option<MaybeTyped<Numeric>>,
    /// Of how many volumes the work is.
    pub volume_total: Option<Numeric>,
    /// How many pages the work has.
    pub page_total: Option<Numeric>,
    /// The pages of its parent that the work takes up.
    pub page_range: Option<MaybeTyped<PageRanges>>,
    /// From when to when in its parent the work runs.
    pub time_range: Option<MaybeTyped<DurationRange>>,
    /// How long the work runs.
    pub runtime: Option<MaybeTyped<Duration>>,
    /// The numbers that catalogues know the work by.
    pub serial_number: Option<SerialNumber>,
    /// The language of the work.
    pub language: Option<String>,
}

// A loop along the first parents, so that a long chain of them takes no room on the stack. Other
// parents are dropped by a call.
impl Drop for Entry {
    fn drop(self) {
        let mut parents = self.into_parents();
        'parents: while !parents.is_empty() {
            let first = parents.swap_remove(0);
            parents = first.into_parents();
        }
    }
}

impl Entry {
    // The parents; all else is dropped.
    fn into_parents(self) -> Vec<Entry>
        ensures { result ≡ (out-Entry self).parents }
    {
        let Entry {
            key: _,
            entry_type: _,
            parents,
            title: _,
            location: _,
            organization: _,
            archive: _,
            archive_location: _,
            call_number: _,
            note: _,
            abstract_: _,
            genre: _,
            authors: _,
            editors: _,
            affiliated: _,
            date: _,
            publisher: _,
            url: _,
            issue: _,
            chapter: _,
            volume: _,
            edition: _,
            volume_total: _,
            page_total: _,
            page_range: _,
            time_range: _,
            runtime: _,
            serial_number: _,
            language: _,
        } = self;
        parents
    }
}

impl Entry {
    /// An entry with a key and a type, no fields and no parents.
    #[inline(never)]
    pub fn new(alloc: Global, key: &str, entry_type: EntryType) -> Result<Entry, OutOfMemory>
        ensures { IfOk result (λ entry. view entry ≡ new_entry key.now entry_type) }
    {
        Ok(Entry {
            key: String::from_str(alloc, key)?,
            entry_type,
            parents: Vec::new(alloc),
            title: None,
            location: None,
            organization: None,
            archive: None,
            archive_location: None,
            call_number: None,
            note: None,
            abstract_: None,
            genre: None,
            authors: None,
            editors: None,
            affiliated: None,
            date: None,
            publisher: None,
            url: None,
            issue: None,
            chapter: None,
            volume: None,
            edition: None,
            volume_total: None,
            page_total: None,
            page_range: None,
            time_range: None,
            runtime: None,
            serial_number: None,
            language: None,
        })
    }

    /// The key, under which a library keeps the entry.
    pub fn key(&self) -> &str
        ensures { result.now ≡ (fields (view self.now)).key }
    {
        self.key.as_str()
    }

    /// What kind of work the entry is.
    pub fn entry_type(&self) -> EntryType
        ensures { result ≡ (fields (view self.now)).entry_type }
    {
        self.entry_type
    }

    /// The works that the entry appears in, in order.
    pub fn parents(&self) -> &[Entry]
        ensures { map view result.now ≡ parents (view self.now) }
    {
        self.parents.as_slice()
    }

    /// Sets the parents, in the place of those that were there. Nothing else changes.
    pub fn set_parents(&mut self, parents: Vec<Entry>)
        ensures { view self.new ≡ with_parents (map view parents.items) (view self.old) }
    {
        self.parents = parents;
    }

    /// Whether the entry has a name. It has the names of the fields that it has, as `has_field`
    /// says, written as `FieldName` writes them, and no other name.
    pub fn has(&self, name: &str) -> bool
        ensures { result ≡ has_name (view self.now) name.now }
    {
        match name.parse::<FieldName>() {
            Ok(field) => self.has_field(field),
            Err(_) => false,
        }
    }

    /// Whether the entry has a field: it is set or, of `doi`, `isbn`, `issn`, `pmid`, `pmcid` and
    /// `arxiv`, a serial number is kept under this name.
    pub fn has_field(&self, field: FieldName) -> bool
        ensures { result ≡ has_field (view self.now) field }
    {
        match field {
            FieldName::Title => self.title.is_some(),
            FieldName::Location => self.location.is_some(),
            FieldName::Organization => self.organization.is_some(),
            FieldName::Archive => self.archive.is_some(),
            FieldName::ArchiveLocation => self.archive_location.is_some(),
            FieldName::CallNumber => self.call_number.is_some(),
            FieldName::Note => self.note.is_some(),
            FieldName::Abstract => self.abstract_.is_some(),
            FieldName::Genre => self.genre.is_some(),
            FieldName::Author => self.authors.is_some(),
            FieldName::Editor => self.editors.is_some(),
            FieldName::Affiliated => self.affiliated.is_some(),
            FieldName::Date => self.date.is_some(),
            FieldName::Publisher => self.publisher.is_some(),
            FieldName::Url => self.url.is_some(),
            FieldName::Issue => self.issue.is_some(),
            FieldName::Chapter => self.chapter.is_some(),
            FieldName::Volume => self.volume.is_some(),
            FieldName::Edition => self.edition.is_some(),
            FieldName::VolumeTotal => self.volume_total.is_some(),
            FieldName::PageTotal => self.page_total.is_some(),
            FieldName::PageRange => self.page_range.is_some(),
            FieldName::TimeRange => self.time_range.is_some(),
            FieldName::Runtime => self.runtime.is_some(),
            FieldName::SerialNumber => self.serial_number.is_some(),
            FieldName::Language => self.language.is_some(),
            FieldName::Doi
            | FieldName::Isbn
            | FieldName::Issn
            | FieldName::Pmid
            | FieldName::Pmcid
            | FieldName::Arxiv => self.keyed_serial_number(field.as_str()).is_some(),
        }
    }
}
