//! The fields that the members of an item set.
ghost use Rattle.std.specs.Prelude.{◌≡◌, ◌++◌, ◌∷◌, false, [], codes, is_some, option_map, IfOk};
ghost use Rattle.json.specs.Value.{value_view};
ghost use Rattle.haya_text.specs.Chunks.{chunks};
ghost use Rattle.haya_text.specs.Texts.{text_view};
ghost use Rattle.haya_people.specs.Roles.{role_view};
ghost use Rattle.haya_values.specs.Publisher.{publisher_view};
ghost use Rattle.haya_entry.specs.Tree.{view, with_fields};
ghost use Rattle.haya_json.specs.Notes.{lost_view, losts_view};
ghost use Rattle.haya_csl.specs.Dates.{date_said};
ghost use Rattle.haya_csl.specs.Fields.{field_setter, lost_visit, location_of, name_of_publisher, role_setter};
ghost use Rattle.haya_csl.specs.Fields.{said_at, serial_setter, set_by, set_view, setter_of};
ghost use Rattle.haya_csl.specs.Fields.{url_setter, visit_date, visit_date_setter, with_authors};
ghost use Rattle.haya_csl.specs.Fields.{with_date, with_editors, with_key, with_language};
ghost use Rattle.haya_csl.specs.Fields.{with_publisher_name, with_publisher_place, with_short};
ghost use Rattle.haya_csl.specs.Fields.{with_short_title, with_text, with_title, without_url};
ghost use Rattle.haya_csl.specs.Names.{names_said};
ghost use Rattle.haya_csl.specs.Serials.{archive_number_said, keyed, serial_key, serial_text};
ghost use Rattle.haya_csl.specs.Texts.{format_said, markup_said, plain_said};
ghost use Rattle.haya_csl.specs.declared.fields.TextField.TheVariants.{CallNumber};

use crate::dates::read_date;
use crate::names::read_names;
use crate::numbers::set_number;
use crate::said::Said;
use crate::serials::{read_archive_number, serial_key, serial_text};
use crate::texts::{read_format, read_markup_text, read_plain};
use haya_entry::Entry;
use haya_json::reading::{member, text_in};
use haya_json::{Lost, Why};
use haya_people::PersonRole;
use haya_text::{ChunkedString, FormatString, OutOfMemory, TryClone};
use haya_time::Date;
use haya_values::{Publisher, QualifiedUrl};
use json::Value;
use std::alloc::Global;

/// A field that a member sets.
#[derive(Clone, Copy)]
pub(crate) enum Field {
    /// The title.
    Title,
    /// The short form of the title.
    ShortTitle,
    /// The authors.
    Authors,
    /// The editors.
    Editors,
    /// The date.
    Date,
    /// The date of a visit, which is kept with the address.
    VisitDate,
    /// The address.
    Url,
    /// The name of the publisher.
    PublisherName,
    /// The place of the publisher.
    PublisherPlace,
    /// The language.
    Language,
    /// A text without a short form.
    Text(TextField),
    /// Where an item is kept, as a call number.
    ArchiveNumber,
    /// A number, pages or a duration.
    Number(NumberField),
    /// A serial number.
    Serial(SerialField),
}

/// A field of a text without a short form.
#[derive(Clone, Copy)]
pub(crate) enum TextField {
    Location,
    Organization,
    Archive,
    ArchiveLocation,
    CallNumber,
    Note,
    Abstract,
    Genre,
}

/// A field of a number, of pages or of a duration.
#[derive(Clone, Copy)]
pub(crate) enum NumberField {
    Volume,
    Issue,
    Edition,
    Chapter,
    VolumeTotal,
    PageTotal,
    Pages,
    Runtime,
}

/// A serial number.
#[derive(Clone, Copy)]
pub(crate) enum SerialField {
    Doi,
    Pmid,
    Pmcid,
    Isbn,
    Issn,
    Arxiv,
    /// One of arXiv where it says so, and otherwise one of no known series.
    Number,
}

/// Whether a value sets anything, and what is lost of it.
#[derive(Drop)]
pub(crate) struct Set {
    pub(crate) is_set: bool,
    pub(crate) lost: Vec<Lost>,
}

/// Sets the field to what the value says, if it says anything. `name` is the name of the member.
pub(crate) fn set_field(
    alloc: Global,
    entry: &mut Entry,
    field: Field,
    name: &str,
    item: &Value<'_>,
    json: &Value<'_>,
) -> Result<Set, OutOfMemory>
    ensures { IfOk result (λ set.
        setter_of field name.now (value_view item.now) (value_view json.now) (view entry.old)
        ≡ set_view set (view entry.new)) }
{
    match field {
        Field::Title => set_title(alloc, entry, json),
        Field::ShortTitle => set_short_title(alloc, entry, json),
        Field::Authors => set_authors(alloc, entry, name, json),
        Field::Editors => set_editors(alloc, entry, name, json),
        Field::Date => set_date(alloc, entry, name, json),
        Field::VisitDate => lose_visit_date(alloc, entry, name, item, json),
        Field::Url => set_url(alloc, entry, item, json),
        Field::PublisherName => set_publisher_name(alloc, entry, json),
        Field::PublisherPlace => set_publisher_place(alloc, entry, json),
        Field::Language => set_language(alloc, entry, json),
        Field::Text(text) => set_text(alloc, entry, text, json),
        Field::ArchiveNumber => set_archive_number(alloc, entry, json),
        Field::Number(number) => set_number(alloc, entry, number, json),
        Field::Serial(serial) => set_serial(alloc, entry, serial, json),
    }
}

// ---- texts

// The title, beside a short form that may have come before it.
fn set_title(alloc: Global, entry: &mut Entry, json: &Value<'_>) -> Result<Set, OutOfMemory>
    ensures { IfOk result (λ set.
        field_setter markup_said with_title (value_view json.now) (view entry.old)
        ≡ set_view set (view entry.new)) }
{
    let Said { value, lost } = read_markup_text(alloc, json)?;
    let Some(value) = value else {
        return Ok(Set {
            is_set: false,
            lost,
        });
    };
    let short = copy_value(alloc, entry.title())?;
    entry.set_title(FormatString { value, short });
    Ok(Set { is_set: true, lost })
}

// A copy of the long form of a title, if there is one.
fn copy_value(
    alloc: Global,
    title: Option<&FormatString>,
) -> Result<Option<Box<ChunkedString>>, OutOfMemory>
    ensures { IfOk result (λ copy. option_map (λ b. chunks b.value) copy
        ≡ option_map (λ t. (text_view t.now).value) title.entry) }
{
    match title {
        Some(title) => Ok(Some(Box::new(alloc, title.value.try_clone(alloc)?)?)),
        None => Ok(None),
    }
}

// The short form of the title, which is the title itself as long as there is no other.
fn set_short_title(alloc: Global, entry: &mut Entry, json: &Value<'_>) -> Result<Set, OutOfMemory>
    ensures { IfOk result (λ set.
        field_setter markup_said with_short_title (value_view json.now) (view entry.old)
        ≡ set_view set (view entry.new)) }
{
    let Said { value, lost } = read_markup_text(alloc, json)?;
    let Some(value) = value else {
        return Ok(Set {
            is_set: false,
            lost,
        });
    };
    let title = with_short(alloc, value, entry.title())?;
    entry.set_title(title);
    Ok(Set { is_set: true, lost })
}

// A title with this short form, which is the title itself where there is no other.
fn with_short(
    alloc: Global,
    short: ChunkedString,
    title: Option<&FormatString>,
) -> Result<FormatString, OutOfMemory>
    ensures { IfOk result (λ text. text_view text
        ≡ with_short (chunks short) (option_map (λ t. text_view t.now) title.entry)) }
{
    match title {
        Some(title) => Ok(FormatString {
            value: title.value.try_clone(alloc)?,
            short: Some(Box::new(alloc, short)?),
        }),
        None => Ok(FormatString {
            value: short,
            short: None,
        }),
    }
}

// A text without a short form, as the value of this field.
fn set_text(
    alloc: Global,
    entry: &mut Entry,
    field: TextField,
    json: &Value<'_>,
) -> Result<Set, OutOfMemory>
    ensures { IfOk result (λ set.
        field_setter format_said (with_text field) (value_view json.now) (view entry.old)
        ≡ set_view set (view entry.new)) }
{
    let Said { value, lost } = read_format(alloc, json)?;
    let Some(value) = value else {
        return Ok(Set {
            is_set: false,
            lost,
        });
    };
    put_text(entry, field, value);
    Ok(Set { is_set: true, lost })
}

// Sets the field of a text.
fn put_text(entry: &mut Entry, field: TextField, text: FormatString)
    ensures { view entry.new ≡ with_fields (with_text field (text_view text)) (view entry.old) }
{
    match field {
        TextField::Location => entry.set_location(text),
        TextField::Organization => entry.set_organization(text),
        TextField::Archive => entry.set_archive(text),
        TextField::ArchiveLocation => entry.set_archive_location(text),
        TextField::CallNumber => entry.set_call_number(text),
        TextField::Note => entry.set_note(text),
        TextField::Abstract => entry.set_abstract_(text),
        TextField::Genre => entry.set_genre(text),
    }
}

fn set_archive_number(
    alloc: Global,
    entry: &mut Entry,
    json: &Value<'_>,
) -> Result<Set, OutOfMemory>
    ensures { IfOk result (λ set.
        field_setter archive_number_said (with_text CallNumber) (value_view json.now)
        (view entry.old) ≡ set_view set (view entry.new)) }
{
    let Said { value, lost } = read_archive_number(alloc, json)?;
    let Some(value) = value else {
        return Ok(Set {
            is_set: false,
            lost,
        });
    };
    entry.set_call_number(value);
    Ok(Set { is_set: true, lost })
}

fn set_language(alloc: Global, entry: &mut Entry, json: &Value<'_>) -> Result<Set, OutOfMemory>
    ensures { IfOk result (λ set.
        field_setter plain_said with_language (value_view json.now) (view entry.old)
        ≡ set_view set (view entry.new)) }
{
    let Said { value, lost } = read_plain(alloc, json)?;
    let Some(value) = value else {
        return Ok(Set {
            is_set: false,
            lost,
        });
    };
    entry.set_language(value);
    Ok(Set { is_set: true, lost })
}

// ---- people

fn set_authors(
    alloc: Global,
    entry: &mut Entry,
    name: &str,
    json: &Value<'_>,
) -> Result<Set, OutOfMemory>
    ensures { IfOk result (λ set.
        field_setter (names_said name.now) with_authors (value_view json.now) (view entry.old)
        ≡ set_view set (view entry.new)) }
{
    let Said { value, lost } = read_names(alloc, name, json)?;
    let Some(value) = value else {
        return Ok(Set {
            is_set: false,
            lost,
        });
    };
    entry.set_authors(value);
    Ok(Set { is_set: true, lost })
}

fn set_editors(
    alloc: Global,
    entry: &mut Entry,
    name: &str,
    json: &Value<'_>,
) -> Result<Set, OutOfMemory>
    ensures { IfOk result (λ set.
        field_setter (names_said name.now) with_editors (value_view json.now) (view entry.old)
        ≡ set_view set (view entry.new)) }
{
    let Said { value, lost } = read_names(alloc, name, json)?;
    let Some(value) = value else {
        return Ok(Set {
            is_set: false,
            lost,
        });
    };
    entry.set_editors(value);
    Ok(Set { is_set: true, lost })
}

/// Puts persons with this role behind those that are there.
pub(crate) fn add_persons(
    alloc: Global,
    entry: &mut Entry,
    role: PersonRole,
    name: &str,
    json: &Value<'_>,
) -> Result<Set, OutOfMemory>
    ensures { IfOk result (λ set.
        role_setter (role_view role) name.now (value_view json.now) (view entry.old)
        ≡ set_view set (view entry.new)) }
{
    let Said { value, lost } = read_names(alloc, name, json)?;
    let Some(value) = value else {
        return Ok(Set {
            is_set: false,
            lost,
        });
    };
    match entry.add_affiliated_persons((value, role)) {
        Ok(()) => Ok(Set { is_set: true, lost }),
        Err(_) => Err(OutOfMemory),
    }
}

// ---- dates and addresses

fn set_date(
    alloc: Global,
    entry: &mut Entry,
    name: &str,
    json: &Value<'_>,
) -> Result<Set, OutOfMemory>
    ensures { IfOk result (λ set.
        field_setter (date_said name.now) with_date (value_view json.now) (view entry.old)
        ≡ set_view set (view entry.new)) }
{
    let Said { value, lost } = read_date(alloc, name, json)?;
    let Some(value) = value else {
        return Ok(Set {
            is_set: false,
            lost,
        });
    };
    entry.set_date(value);
    Ok(Set { is_set: true, lost })
}

// Loses the date of a visit where the item has no address. Otherwise it is kept with that.
fn lose_visit_date(
    alloc: Global,
    entry: &mut Entry,
    name: &str,
    item: &Value<'_>,
    json: &Value<'_>,
) -> Result<Set, OutOfMemory>
    ensures { IfOk result (λ set.
        visit_date_setter name.now (value_view item.now) (value_view json.now) (view entry.old)
        ≡ set_view set (view entry.new)) }
{
    let Said { value, lost } = read_date(alloc, name, json)?;
    let lost = with_unplaced(alloc, lost, has_url(item), value)?;
    Ok(Set {
        is_set: false,
        lost,
    })
}

// What is lost, and the date of a visit where there is no address.
fn with_unplaced(
    alloc: Global,
    lost: Vec<Lost>,
    has_url: bool,
    date: Option<Date>,
) -> Result<Vec<Lost>, OutOfMemory>
    ensures { IfOk result (λ all.
        losts_view all.items ≡ losts_view lost.items ++ without_url has_url date) }
{
    match date {
        None => Ok(lost),
        Some(_) if has_url => Ok(lost),
        Some(_) => with_visit(alloc, lost),
    }
}

// What is lost, and the date of a visit.
fn with_visit(alloc: Global, mut lost: Vec<Lost>) -> Result<Vec<Lost>, OutOfMemory>
    ensures { IfOk result (λ all.
        losts_view all.items ≡ losts_view lost.items ++ lost_visit ∷ []) }
{
    lost.push(lost_visit(alloc)?)?;
    Ok(lost)
}

// The date of a visit that is lost.
fn lost_visit(alloc: Global) -> Result<Lost, OutOfMemory>
    ensures { IfOk result (λ lost. lost_view lost ≡ lost_visit) }
{
    Lost::named(alloc, "accessed without URL")
}

// Whether the item has an address.
fn has_url(item: &Value<'_>) -> bool
    ensures { result ≡ is_some (said_at (codes "URL") plain_said (value_view item.now)) }
{
    match member(item, "URL") {
        Some(url) => !text_in(url).unwrap_or("").is_empty(),
        None => false,
    }
}

fn set_url(
    alloc: Global,
    entry: &mut Entry,
    item: &Value<'_>,
    json: &Value<'_>,
) -> Result<Set, OutOfMemory>
    ensures { IfOk result (λ set.
        url_setter (value_view item.now) (value_view json.now) (view entry.old)
        ≡ set_view set (view entry.new)) }
{
    let Said { value, lost } = read_plain(alloc, json)?;
    let Some(value) = value else {
        return Ok(Set {
            is_set: false,
            lost,
        });
    };
    let visit_date = visit_date(alloc, item)?;
    entry.set_url(QualifiedUrl::new(value, visit_date));
    Ok(Set { is_set: true, lost })
}

// The date of the visit, where the item says one.
fn visit_date(alloc: Global, item: &Value<'_>) -> Result<Option<Date>, OutOfMemory>
    ensures { IfOk result (λ date. date ≡ visit_date (value_view item.now)) }
{
    match member(item, "accessed") {
        Some(accessed) => Ok(read_date(alloc, "accessed", accessed)?.value),
        None => Ok(None),
    }
}

// ---- publishers

fn set_publisher_name(
    alloc: Global,
    entry: &mut Entry,
    json: &Value<'_>,
) -> Result<Set, OutOfMemory>
    ensures { IfOk result (λ set.
        field_setter format_said with_publisher_name (value_view json.now) (view entry.old)
        ≡ set_view set (view entry.new)) }
{
    let Said { value, lost } = read_format(alloc, json)?;
    let Some(value) = value else {
        return Ok(Set {
            is_set: false,
            lost,
        });
    };
    let location = copy_location(alloc, entry.publisher())?;
    entry.set_publisher(Publisher::new(Some(value), location));
    Ok(Set { is_set: true, lost })
}

fn set_publisher_place(
    alloc: Global,
    entry: &mut Entry,
    json: &Value<'_>,
) -> Result<Set, OutOfMemory>
    ensures { IfOk result (λ set.
        field_setter format_said with_publisher_place (value_view json.now) (view entry.old)
        ≡ set_view set (view entry.new)) }
{
    let Said { value, lost } = read_format(alloc, json)?;
    let Some(value) = value else {
        return Ok(Set {
            is_set: false,
            lost,
        });
    };
    let name = copy_name(alloc, entry.publisher())?;
    entry.set_publisher(Publisher::new(name, Some(value)));
    Ok(Set { is_set: true, lost })
}

// A copy of the publisher's place, if it is known.
fn copy_location(
    alloc: Global,
    publisher: Option<&Publisher>,
) -> Result<Option<FormatString>, OutOfMemory>
    ensures { IfOk result (λ copy. option_map text_view copy
        ≡ location_of (option_map (λ p. publisher_view p.now) publisher.entry)) }
{
    match publisher {
        Some(publisher) => copy_text(alloc, publisher.location()),
        None => Ok(None),
    }
}

// A copy of the publisher's name, if it is known.
fn copy_name(
    alloc: Global,
    publisher: Option<&Publisher>,
) -> Result<Option<FormatString>, OutOfMemory>
    ensures { IfOk result (λ copy. option_map text_view copy
        ≡ name_of_publisher (option_map (λ p. publisher_view p.now) publisher.entry)) }
{
    match publisher {
        Some(publisher) => copy_text(alloc, publisher.name()),
        None => Ok(None),
    }
}

// A copy of a text, if there is one.
fn copy_text(
    alloc: Global,
    text: Option<&FormatString>,
) -> Result<Option<FormatString>, OutOfMemory>
    ensures { IfOk result (λ copy. option_map text_view copy
        ≡ option_map (λ t. text_view t.now) text.entry) }
{
    match text {
        Some(text) => Ok(Some(text.try_clone(alloc)?)),
        None => Ok(None),
    }
}

// ---- serial numbers

fn set_serial(
    alloc: Global,
    entry: &mut Entry,
    field: SerialField,
    json: &Value<'_>,
) -> Result<Set, OutOfMemory>
    ensures { IfOk result (λ set.
        serial_setter field (value_view json.now)
        (view entry.old) ≡ set_view set (view entry.new)) }
{
    match text_in(json) {
        None => {
            let lost = Lost::unread(alloc, Why::NotText, json)?;
            Ok(Set {
                is_set: false,
                lost: vec![in alloc; lost]?,
            })
        }
        Some("") => Ok(unset(alloc)),
        Some(text) => put_serial(alloc, entry, field, text),
    }
}

// Sets the serial number, but where it is empty.
fn put_serial(
    alloc: Global,
    entry: &mut Entry,
    field: SerialField,
    text: &str,
) -> Result<Set, OutOfMemory>
    ensures { IfOk result (λ set.
        set_by with_key (keyed (serial_key field text.now) (serial_text field text.now))
        (view entry.old) ≡ set_view set (view entry.new)) }
{
    let number = serial_text(field, text);
    if number.is_empty() {
        return Ok(unset(alloc));
    }
    let key = serial_key(field, text);
    entry.set_keyed_serial_number(key, String::from_str(alloc, number)?)?;
    Ok(Set {
        is_set: true,
        lost: Vec::new(alloc),
    })
}

// Nothing is set, and nothing lost.
fn unset(alloc: Global) -> Set
    ensures is_set { result.is_set ≡ false }
    ensures lost { losts_view result.lost.items ≡ [] }
{
    Set {
        is_set: false,
        lost: Vec::new(alloc),
    }
}
