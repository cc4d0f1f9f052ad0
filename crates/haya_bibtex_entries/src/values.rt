//! The values that fields of entries say, and what each makes of an entry.
ghost use Rattle.std.specs.Prelude.{◌≡◌, OnOk};
ghost use Rattle.haya_numbers.specs.Numeric.{numeric_view};
ghost use Rattle.haya_text.specs.Texts.{text_view};
ghost use Rattle.haya_values.specs.MaybeTyped.{maybe_typed_view};
ghost use Rattle.haya_entry.specs.Tree.{view, with_fields};
ghost use Rattle.haya_bibtex_entries.specs.Values.{serial_key, value_view, with_count};
ghost use Rattle.haya_bibtex_entries.specs.Values.{with_number, with_text, with_value};

use haya_entry::Entry;
use haya_numbers::{Numeric, PageRanges};
use haya_people::{Person, PersonsWithRoles};
use haya_text::{FormatString, OutOfMemory};
use haya_time::Date;
use haya_values::{MaybeTyped, Publisher, QualifiedUrl};

/// A value of one of an entry's fields.
#[derive(Drop)]
pub(crate) enum Value {
    /// The title.
    Title(FormatString),
    /// A text.
    Text(TextField, FormatString),
    /// The authors.
    Authors(Vec<Person>),
    /// The editors.
    Editors(Vec<Person>),
    /// The persons of other roles.
    Affiliated(Vec<PersonsWithRoles>),
    /// The date.
    On(Date),
    /// The publisher.
    By(Publisher),
    /// The address.
    Url(QualifiedUrl),
    /// A number, or a text in its place.
    Number(NumberField, MaybeTyped<Numeric>),
    /// A count.
    Count(CountField, Numeric),
    /// The pages.
    Pages(MaybeTyped<PageRanges>),
    /// A serial number.
    Serial(SerialField, String),
    /// The language.
    Language(String),
}

/// A field of a text.
#[derive(Clone, Copy)]
pub(crate) enum TextField {
    Location,
    Organization,
    Archive,
    CallNumber,
    Note,
    Abstract,
    Genre,
}

/// A field of a number.
#[derive(Clone, Copy)]
pub(crate) enum NumberField {
    Volume,
    Issue,
    Edition,
    Chapter,
}

/// A field of a count.
#[derive(Clone, Copy)]
pub(crate) enum CountField {
    Volumes,
    Pages,
}

/// A serial number.
#[derive(Clone, Copy)]
pub(crate) enum SerialField {
    Doi,
    Isbn,
    Issn,
    Pmid,
    Pmcid,
    Arxiv,
    /// One of no known series.
    Other,
}

/// Sets the field of an entry that the value is one of. The error: there was no memory for it.
pub(crate) fn set_value(entry: &mut Entry, value: Value) -> Result<(), OutOfMemory>
    ensures { OnOk result (view entry.new ≡ with_value (value_view value) (view entry.old)) }
{
    match value {
        Value::Title(title) => entry.set_title(title),
        Value::Text(field, text) => set_text(entry, field, text),
        Value::Authors(authors) => entry.set_authors(authors),
        Value::Editors(editors) => entry.set_editors(editors),
        Value::Affiliated(affiliated) => entry.set_affiliated(affiliated),
        Value::On(date) => entry.set_date(date),
        Value::By(publisher) => entry.set_publisher(publisher),
        Value::Url(url) => entry.set_url(url),
        Value::Number(field, number) => set_number(entry, field, number),
        Value::Count(field, count) => set_count(entry, field, count),
        Value::Pages(pages) => entry.set_page_range(pages),
        Value::Serial(field, number) => {
            return entry.set_keyed_serial_number(serial_key(field), number);
        }
        Value::Language(language) => entry.set_language(language),
    }
    Ok(())
}

fn set_text(entry: &mut Entry, field: TextField, text: FormatString)
    ensures { view entry.new ≡ with_fields (with_text field (text_view text)) (view entry.old) }
{
    match field {
        TextField::Location => entry.set_location(text),
        TextField::Organization => entry.set_organization(text),
        TextField::Archive => entry.set_archive(text),
        TextField::CallNumber => entry.set_call_number(text),
        TextField::Note => entry.set_note(text),
        TextField::Abstract => entry.set_abstract_(text),
        TextField::Genre => entry.set_genre(text),
    }
}

fn set_number(entry: &mut Entry, field: NumberField, number: MaybeTyped<Numeric>)
    ensures { view entry.new
        ≡ with_fields (with_number field (maybe_typed_view numeric_view number)) (view entry.old) }
{
    match field {
        NumberField::Volume => entry.set_volume(number),
        NumberField::Issue => entry.set_issue(number),
        NumberField::Edition => entry.set_edition(number),
        NumberField::Chapter => entry.set_chapter(number),
    }
}

fn set_count(entry: &mut Entry, field: CountField, count: Numeric)
    ensures { view entry.new
        ≡ with_fields (with_count field (numeric_view count)) (view entry.old) }
{
    match field {
        CountField::Volumes => entry.set_volume_total(count),
        CountField::Pages => entry.set_page_total(count),
    }
}

fn serial_key(field: SerialField) -> &'static str
    ensures { result.now ≡ serial_key field }
{
    match field {
        SerialField::Doi => "doi",
        SerialField::Isbn => "isbn",
        SerialField::Issn => "issn",
        SerialField::Pmid => "pmid",
        SerialField::Pmcid => "pmcid",
        SerialField::Arxiv => "arxiv",
        SerialField::Other => "serial",
    }
}
