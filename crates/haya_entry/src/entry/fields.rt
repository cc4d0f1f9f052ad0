//! The fields of an entry: for each a getter, and a setter that changes it alone.
ghost use Rattle.std.specs.Prelude.{◌≡◌, Some, map, option_map, string_bytes};
ghost use Rattle.haya_entry.specs.SerialNumber.{serial_view};
ghost use Rattle.haya_numbers.specs.Numeric.{numeric_view};
ghost use Rattle.haya_numbers.specs.Pages.{parts};
ghost use Rattle.haya_people.specs.Person.{person_view};
ghost use Rattle.haya_people.specs.Roles.{roles_view};
ghost use Rattle.haya_text.specs.Texts.{text_view};
ghost use Rattle.haya_values.specs.MaybeTyped.{maybe_typed_view};
ghost use Rattle.haya_values.specs.Publisher.{publisher_view};
ghost use Rattle.haya_values.specs.Url.{url_view};
ghost use Rattle.haya_entry.specs.Tree.{Sets, view, fields};

use crate::{Entry, SerialNumber};
use haya_numbers::{Numeric, PageRanges};
use haya_people::{Person, PersonsWithRoles};
use haya_text::FormatString;
use haya_time::{Date, Duration, DurationRange};
use haya_values::{MaybeTyped, Publisher, QualifiedUrl};

impl Entry {
    /// The title.
    pub fn title(&self) -> Option<&FormatString>
        ensures { option_map (λ t. text_view t.now) result ≡ (fields (view self.now)).title }
    {
        self.title.as_ref()
    }

    /// Sets the title. Nothing else changes.
    pub fn set_title(&mut self, title: FormatString)
        ensures { Sets self.old self.new (λ f. record f { title = Some (text_view title) }) }
    {
        self.title = Some(title);
    }

    /// The place where the work was made or is kept.
    pub fn location(&self) -> Option<&FormatString>
        ensures { option_map (λ t. text_view t.now) result ≡ (fields (view self.now)).location }
    {
        self.location.as_ref()
    }

    /// Sets the place. Nothing else changes.
    pub fn set_location(&mut self, location: FormatString)
        ensures { Sets self.old self.new (λ f. record f { location = Some (text_view location) }) }
    {
        self.location = Some(location);
    }

    /// The organization that the work comes from.
    pub fn organization(&self) -> Option<&FormatString>
        ensures { option_map (λ t. text_view t.now) result ≡ (fields (view self.now)).organization }
    {
        self.organization.as_ref()
    }

    /// Sets the organization. Nothing else changes.
    pub fn set_organization(&mut self, organization: FormatString)
        ensures { Sets self.old self.new
            (λ f. record f { organization = Some (text_view organization) }) }
    {
        self.organization = Some(organization);
    }

    /// The archive that keeps the work.
    pub fn archive(&self) -> Option<&FormatString>
        ensures { option_map (λ t. text_view t.now) result ≡ (fields (view self.now)).archive }
    {
        self.archive.as_ref()
    }

    /// Sets the archive. Nothing else changes.
    pub fn set_archive(&mut self, archive: FormatString)
        ensures { Sets self.old self.new (λ f. record f { archive = Some (text_view archive) }) }
    {
        self.archive = Some(archive);
    }

    /// The place of that archive.
    pub fn archive_location(&self) -> Option<&FormatString>
        ensures { option_map (λ t. text_view t.now) result
            ≡ (fields (view self.now)).archive_location }
    {
        self.archive_location.as_ref()
    }

    /// Sets the place of the archive. Nothing else changes.
    pub fn set_archive_location(&mut self, archive_location: FormatString)
        ensures { Sets self.old self.new
            (λ f. record f { archive_location = Some (text_view archive_location) }) }
    {
        self.archive_location = Some(archive_location);
    }

    /// The number that the archive or library has it under.
    pub fn call_number(&self) -> Option<&FormatString>
        ensures { option_map (λ t. text_view t.now) result ≡ (fields (view self.now)).call_number }
    {
        self.call_number.as_ref()
    }

    /// Sets the call number. Nothing else changes.
    pub fn set_call_number(&mut self, call_number: FormatString)
        ensures { Sets self.old self.new
            (λ f. record f { call_number = Some (text_view call_number) }) }
    {
        self.call_number = Some(call_number);
    }

    /// A note on the work.
    pub fn note(&self) -> Option<&FormatString>
        ensures { option_map (λ t. text_view t.now) result ≡ (fields (view self.now)).note }
    {
        self.note.as_ref()
    }

    /// Sets the note. Nothing else changes.
    pub fn set_note(&mut self, note: FormatString)
        ensures { Sets self.old self.new (λ f. record f { note = Some (text_view note) }) }
    {
        self.note = Some(note);
    }

    /// A summary of what the work says.
    pub fn abstract_(&self) -> Option<&FormatString>
        ensures { option_map (λ t. text_view t.now) result ≡ (fields (view self.now)).abstract_ }
    {
        self.abstract_.as_ref()
    }

    /// Sets the summary. Nothing else changes.
    pub fn set_abstract_(&mut self, abstract_: FormatString)
        ensures { Sets self.old self.new
            (λ f. record f { abstract_ = Some (text_view abstract_) }) }
    {
        self.abstract_ = Some(abstract_);
    }

    /// The kind of work within its type, as `Doctoral dissertation`.
    pub fn genre(&self) -> Option<&FormatString>
        ensures { option_map (λ t. text_view t.now) result ≡ (fields (view self.now)).genre }
    {
        self.genre.as_ref()
    }

    /// Sets the genre. Nothing else changes.
    pub fn set_genre(&mut self, genre: FormatString)
        ensures { Sets self.old self.new (λ f. record f { genre = Some (text_view genre) }) }
    {
        self.genre = Some(genre);
    }

    /// The people who made the work, in order.
    pub fn authors(&self) -> Option<&[Person]>
        ensures { option_map (λ v. map person_view v.now) result
            ≡ (fields (view self.now)).authors }
    {
        self.authors.as_deref()
    }

    /// Sets the authors. Nothing else changes.
    pub fn set_authors(&mut self, authors: Vec<Person>)
        ensures { Sets self.old self.new
            (λ f. record f { authors = Some (map person_view authors.items) }) }
    {
        self.authors = Some(authors);
    }

    /// The people who chose and prepared what it has, in order.
    pub fn editors(&self) -> Option<&[Person]>
        ensures { option_map (λ v. map person_view v.now) result
            ≡ (fields (view self.now)).editors }
    {
        self.editors.as_deref()
    }

    /// Sets the editors. Nothing else changes.
    pub fn set_editors(&mut self, editors: Vec<Person>)
        ensures { Sets self.old self.new
            (λ f. record f { editors = Some (map person_view editors.items) }) }
    {
        self.editors = Some(editors);
    }

    /// People with another part in the work, each list with its role.
    pub fn affiliated(&self) -> Option<&[PersonsWithRoles]>
        ensures { option_map (λ v. map roles_view v.now) result
            ≡ (fields (view self.now)).affiliated }
    {
        self.affiliated.as_deref()
    }

    /// Sets these people. Nothing else changes.
    pub fn set_affiliated(&mut self, affiliated: Vec<PersonsWithRoles>)
        ensures { Sets self.old self.new
            (λ f. record f { affiliated = Some (map roles_view affiliated.items) }) }
    {
        self.affiliated = Some(affiliated);
    }

    /// When the work came out, or was made.
    pub fn date(&self) -> Option<&Date>
        ensures { option_map (λ v. v.now) result ≡ (fields (view self.now)).date }
    {
        self.date.as_ref()
    }

    /// Sets the date. Nothing else changes.
    pub fn set_date(&mut self, date: Date)
        ensures { Sets self.old self.new (λ f. record f { date = Some date }) }
    {
        self.date = Some(date);
    }

    /// Who published the work.
    pub fn publisher(&self) -> Option<&Publisher>
        ensures { option_map (λ v. publisher_view v.now) result
            ≡ (fields (view self.now)).publisher }
    {
        self.publisher.as_ref()
    }

    /// Sets the publisher. Nothing else changes.
    pub fn set_publisher(&mut self, publisher: Publisher)
        ensures { Sets self.old self.new
            (λ f. record f { publisher = Some (publisher_view publisher) }) }
    {
        self.publisher = Some(publisher);
    }

    /// Where the work is found on the web.
    pub fn url(&self) -> Option<&QualifiedUrl>
        ensures { option_map (λ v. url_view v.now) result ≡ (fields (view self.now)).url }
    {
        self.url.as_ref()
    }

    /// Sets the address. Nothing else changes.
    pub fn set_url(&mut self, url: QualifiedUrl)
        ensures { Sets self.old self.new
            (λ f. record f { url = Some (url_view url) }) }
    {
        self.url = Some(url);
    }

    /// Its place among the issues of its parent, or among the episodes of a series.
    pub fn issue(&self) -> Option<&MaybeTyped<Numeric>>
        ensures { option_map (λ v. maybe_typed_view numeric_view v.now) result
            ≡ (fields (view self.now)).issue }
    {
        self.issue.as_ref()
    }

    /// Sets the issue. Nothing else changes.
    pub fn set_issue(&mut self, issue: MaybeTyped<Numeric>)
        ensures { Sets self.old self.new
            (λ f. record f { issue = Some (maybe_typed_view numeric_view issue) }) }
    {
        self.issue = Some(issue);
    }

    /// The chapter of its parent that the work is found in.
    pub fn chapter(&self) -> Option<&MaybeTyped<Numeric>>
        ensures { option_map (λ v. maybe_typed_view numeric_view v.now) result
            ≡ (fields (view self.now)).chapter }
    {
        self.chapter.as_ref()
    }

    /// Sets the chapter. Nothing else changes.
    pub fn set_chapter(&mut self, chapter: MaybeTyped<Numeric>)
        ensures { Sets self.old self.new
            (λ f. record f { chapter = Some (maybe_typed_view numeric_view chapter) }) }
    {
        self.chapter = Some(chapter);
    }

    /// Which volume, part or season of its parent the work is.
    pub fn volume(&self) -> Option<&MaybeTyped<Numeric>>
        ensures { option_map (λ v. maybe_typed_view numeric_view v.now) result
            ≡ (fields (view self.now)).volume }
    {
        self.volume.as_ref()
    }

    /// Sets the volume. Nothing else changes.
    pub fn set_volume(&mut self, volume: MaybeTyped<Numeric>)
        ensures { Sets self.old self.new
            (λ f. record f { volume = Some (maybe_typed_view numeric_view volume) }) }
    {
        self.volume = Some(volume);
    }

    /// Which edition of the work it is.
    pub fn edition(&self) -> Option<&MaybeTyped<Numeric>>
        ensures { option_map (λ v. maybe_typed_view numeric_view v.now) result
            ≡ (fields (view self.now)).edition }
    {
        self.edition.as_ref()
    }

    /// Sets the edition. Nothing else changes.
    pub fn set_edition(&mut self, edition: MaybeTyped<Numeric>)
        ensures { Sets self.old self.new
            (λ f. record f { edition = Some (maybe_typed_view numeric_view edition) }) }
    {
        self.edition = Some(edition);
    }

    /// Of how many volumes the work is.
    pub fn volume_total(&self) -> Option<&Numeric>
        ensures { option_map (λ v. numeric_view v.now) result
            ≡ (fields (view self.now)).volume_total }
    {
        self.volume_total.as_ref()
    }

    /// Sets that number. Nothing else changes.
    pub fn set_volume_total(&mut self, volume_total: Numeric)
        ensures { Sets self.old self.new
            (λ f. record f { volume_total = Some (numeric_view volume_total) }) }
    {
        self.volume_total = Some(volume_total);
    }

    /// How many pages the work has.
    pub fn page_total(&self) -> Option<&Numeric>
        ensures { option_map (λ v. numeric_view v.now) result
            ≡ (fields (view self.now)).page_total }
    {
        self.page_total.as_ref()
    }

    /// Sets that number. Nothing else changes.
    pub fn set_page_total(&mut self, page_total: Numeric)
        ensures { Sets self.old self.new
            (λ f. record f { page_total = Some (numeric_view page_total) }) }
    {
        self.page_total = Some(page_total);
    }

    /// The pages of its parent that the work takes up.
    pub fn page_range(&self) -> Option<&MaybeTyped<PageRanges>>
        ensures { option_map (λ v. maybe_typed_view parts v.now) result
            ≡ (fields (view self.now)).page_range }
    {
        self.page_range.as_ref()
    }

    /// Sets the pages. Nothing else changes.
    pub fn set_page_range(&mut self, page_range: MaybeTyped<PageRanges>)
        ensures { Sets self.old self.new
            (λ f. record f { page_range = Some (maybe_typed_view parts page_range) }) }
    {
        self.page_range = Some(page_range);
    }

    /// From when to when in its parent the work runs.
    pub fn time_range(&self) -> Option<&MaybeTyped<DurationRange>>
        ensures { option_map (λ v. maybe_typed_view (λ range. range) v.now) result
            ≡ (fields (view self.now)).time_range }
    {
        self.time_range.as_ref()
    }

    /// Sets the range of times. Nothing else changes.
    pub fn set_time_range(&mut self, time_range: MaybeTyped<DurationRange>)
        ensures { Sets self.old self.new
            (λ f. record f { time_range = Some (maybe_typed_view (λ range. range) time_range) }) }
    {
        self.time_range = Some(time_range);
    }

    /// How long the work runs.
    pub fn runtime(&self) -> Option<&MaybeTyped<Duration>>
        ensures { option_map (λ v. maybe_typed_view (λ duration. duration) v.now) result
            ≡ (fields (view self.now)).runtime }
    {
        self.runtime.as_ref()
    }

    /// Sets the runtime. Nothing else changes.
    pub fn set_runtime(&mut self, runtime: MaybeTyped<Duration>)
        ensures { Sets self.old self.new
            (λ f. record f { runtime = Some (maybe_typed_view (λ duration. duration) runtime) }) }
    {
        self.runtime = Some(runtime);
    }

    /// All serial numbers of the work.
    pub fn serial_number(&self) -> Option<&SerialNumber>
        ensures { option_map (λ s. serial_view s.now) result
            ≡ (fields (view self.now)).serial_number }
    {
        self.serial_number.as_ref()
    }

    /// Sets all serial numbers, in the place of those that were there. Nothing else changes.
    pub fn set_serial_number(&mut self, serial_number: SerialNumber)
        ensures { Sets self.old self.new
            (λ f. record f { serial_number = Some (serial_view serial_number) }) }
    {
        self.serial_number = Some(serial_number);
    }

    /// The language of the work, as it was handed in.
    pub fn language(&self) -> Option<&str>
        ensures { option_map (λ t. t.now) result ≡ (fields (view self.now)).language }
    {
        self.language.as_deref()
    }

    /// Sets the language. Nothing else changes.
    pub fn set_language(&mut self, language: String)
        ensures { Sets self.old self.new
            (λ f. record f { language = Some (string_bytes language) }) }
    {
        self.language = Some(language);
    }
}
