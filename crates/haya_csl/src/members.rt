//! The members of an item: the field that each sets, and the entry whose field that is.
ghost use Rattle.std.specs.Prelude.{◌≡◌, Some};
ghost use Rattle.json.specs.Value.{value_view};
ghost use Rattle.haya_csl.specs.Members.{archive_location_in, beside, choice_in, is_at_arxiv};
ghost use Rattle.haya_csl.specs.Members.{conference_table};
ghost use Rattle.haya_csl.specs.Members.{event_title, exceptions, host_book, host_figure};
ghost use Rattle.haya_csl.specs.Members.{host_issue, host_newspaper, host_place};
ghost use Rattle.haya_csl.specs.Members.{host_proceedings, host_publisher, host_reference};
ghost use Rattle.haya_csl.specs.Members.{host_title, host_volume, original_table, own_numbers};
ghost use Rattle.haya_csl.specs.Members.{own_place, own_serials, own_sources, own_table};
ghost use Rattle.haya_csl.specs.Members.{own_texts, place_of, series_table, taken_by, unless};
ghost use Rattle.haya_csl.specs.Members.{venue_place, venue_table};
ghost use Rattle.haya_csl.specs.declared.kinds.Own.TheVariants.{Broadcast, Institution, Periodical};
ghost use Rattle.haya_csl.specs.declared.kinds.Takes.TheVariants.{Archive, Publisher};
ghost use Rattle.haya_csl.specs.declared.members.Choice.TheVariants.{Put};

use crate::fields::{Field, NumberField, SerialField, TextField};
use crate::kinds::{Host, Kind, Own, Takes, has, text_at};
use crate::serials::is_of_arxiv;
use haya_entry::EntryType;
use json::Value;

/// What is done with a member.
#[derive(Clone, Copy)]
pub(crate) enum Choice {
    /// It sets this field.
    Put(Field),
    /// It is passed over, as the item has another that is preferred.
    Pass,
}

/// An entry that an item makes.
#[derive(Clone, Copy)]
pub(crate) enum Level {
    /// The item's own.
    Own,
    /// What the item appears in, of this type.
    Host(EntryType),
    /// The event that it was given at, of this type.
    Venue(EntryType),
    /// The series that all of these are part of.
    Series,
    /// The work as it first appeared.
    Original,
}

/// What is done with a member, and at which entry.
#[derive(Clone, Copy)]
pub(crate) struct Place {
    pub(crate) level: Level,
    pub(crate) choice: Choice,
}

/// The place of a member, if it has one: at what the item appears in where that takes it, otherwise
/// at the event where that does, and otherwise at the item itself, its series or its original.
pub(crate) fn place_of(kind: Kind, name: &str, item: &Value<'_>) -> Option<Place>
    ensures { result ≡ place_of kind name.now (value_view item.now) }
{
    if let Some(place) = host_place(kind.host, name, item) {
        return Some(place);
    }
    if let Some(place) = venue_place(kind.venue, name, item) {
        return Some(place);
    }
    own_place(kind.own, name, item)
}

fn host_place(host: Option<Host>, name: &str, item: &Value<'_>) -> Option<Place>
    ensures { result ≡ host_place host name.now (value_view item.now) }
{
    let host = host?;
    let choice = host_choice(host.takes, name, item)?;
    Some(Place {
        level: Level::Host(host.entry),
        choice,
    })
}

fn venue_place(venue: Option<EntryType>, name: &str, item: &Value<'_>) -> Option<Place>
    ensures { result ≡ venue_place venue name.now (value_view item.now) }
{
    let venue = venue?;
    let choice = venue_choice(venue, name, item)?;
    Some(Place {
        level: Level::Venue(venue),
        choice,
    })
}

fn own_place(own: Own, name: &str, item: &Value<'_>) -> Option<Place>
    ensures { result ≡ own_place own name.now (value_view item.now) }
{
    if let Some(choice) = exception(own, name, item) {
        let level = Level::Own;
        return Some(Place { level, choice });
    }
    if let Some(choice) = series_choice(name, item) {
        let level = Level::Series;
        return Some(Place { level, choice });
    }
    if let Some(choice) = original_choice(name, item) {
        let level = Level::Original;
        return Some(Place { level, choice });
    }
    let choice = own_choice(name, item)?;
    Some(Place {
        level: Level::Own,
        choice,
    })
}

// The member sets its field in any item.
fn always(field: Field) -> Option<Choice>
    ensures { result ≡ Some (Put field) }
{
    Some(Choice::Put(field))
}

// The member is passed over where the item has another that is preferred.
fn unless(item: &Value<'_>, name: &str, field: Field) -> Option<Choice>
    ensures { result ≡ Some (unless name.now field (value_view item.now)) }
{
    if has(item, name) {
        Some(Choice::Pass)
    } else {
        Some(Choice::Put(field))
    }
}

// Members that some types have other places for.
fn exception(own: Own, name: &str, item: &Value<'_>) -> Option<Choice>
    ensures { result ≡ choice_in (exceptions own) name.now (value_view item.now) }
{
    match own {
        Own::Usual => None,
        Own::Institution => institution_choice(name, item),
        Own::Periodical => periodical_choice(name, item),
        Own::Broadcast => broadcast_choice(name, item),
    }
}

fn institution_choice(name: &str, item: &Value<'_>) -> Option<Choice>
    ensures { result ≡ choice_in (exceptions Institution) name.now (value_view item.now) }
{
    match name {
        "publisher" => always(Field::Text(TextField::Organization)),
        "authority" => unless(item, "publisher", Field::Text(TextField::Organization)),
        "publisher-place" => always(Field::Text(TextField::Location)),
        "event-place" => unless(item, "publisher-place", Field::Text(TextField::Location)),
        _ => None,
    }
}

fn periodical_choice(name: &str, item: &Value<'_>) -> Option<Choice>
    ensures { result ≡ choice_in (exceptions Periodical) name.now (value_view item.now) }
{
    match name {
        "container-title" => unless(item, "title", Field::Title),
        _ => None,
    }
}

fn broadcast_choice(name: &str, item: &Value<'_>) -> Option<Choice>
    ensures { result ≡ choice_in (exceptions Broadcast) name.now (value_view item.now) }
{
    match name {
        "number" => unless(item, "issue", Field::Number(NumberField::Issue)),
        _ => None,
    }
}

// What goes to the item's own entry.
fn own_choice(name: &str, item: &Value<'_>) -> Option<Choice>
    ensures { result ≡ choice_in own_table name.now (value_view item.now) }
{
    match name {
        "title" => always(Field::Title),
        "title-short" => always(Field::ShortTitle),
        "shortTitle" => unless(item, "title-short", Field::ShortTitle),
        "author" => always(Field::Authors),
        "editor" => always(Field::Editors),
        "issued" => always(Field::Date),
        "accessed" => always(Field::VisitDate),
        _ => own_source(name, item),
    }
}

// The same of sources and remarks, and of what follows.
fn own_source(name: &str, item: &Value<'_>) -> Option<Choice>
    ensures { result ≡ choice_in own_sources name.now (value_view item.now) }
{
    match name {
        "URL" => always(Field::Url),
        "publisher" => always(Field::PublisherName),
        "publisher-place" => always(Field::PublisherPlace),
        "language" => always(Field::Language),
        "abstract" => always(Field::Text(TextField::Abstract)),
        "note" => always(Field::Text(TextField::Note)),
        "annote" => unless(item, "note", Field::Text(TextField::Note)),
        _ => own_number(name, item),
    }
}

// The same of numbers, and of what follows.
fn own_number(name: &str, item: &Value<'_>) -> Option<Choice>
    ensures { result ≡ choice_in own_numbers name.now (value_view item.now) }
{
    match name {
        "volume" => always(Field::Number(NumberField::Volume)),
        "issue" => always(Field::Number(NumberField::Issue)),
        "edition" => always(Field::Number(NumberField::Edition)),
        "chapter-number" => always(Field::Number(NumberField::Chapter)),
        "number-of-volumes" => always(Field::Number(NumberField::VolumeTotal)),
        "number-of-pages" => always(Field::Number(NumberField::PageTotal)),
        "page" => always(Field::Number(NumberField::Pages)),
        "dimensions" => always(Field::Number(NumberField::Runtime)),
        _ => own_serial(name, item),
    }
}

// The same of serial numbers, and of what follows.
fn own_serial(name: &str, item: &Value<'_>) -> Option<Choice>
    ensures { result ≡ choice_in own_serials name.now (value_view item.now) }
{
    match name {
        "DOI" => always(Field::Serial(SerialField::Doi)),
        "PMID" => always(Field::Serial(SerialField::Pmid)),
        "PMCID" => always(Field::Serial(SerialField::Pmcid)),
        "ISBN" => always(Field::Serial(SerialField::Isbn)),
        "ISSN" => always(Field::Serial(SerialField::Issn)),
        "number" => always(Field::Serial(SerialField::Number)),
        _ => own_text(name, item),
    }
}

// The same of texts.
fn own_text(name: &str, item: &Value<'_>) -> Option<Choice>
    ensures { result ≡ choice_in own_texts name.now (value_view item.now) }
{
    match name {
        "genre" => always(Field::Text(TextField::Genre)),
        "medium" => unless(item, "genre", Field::Text(TextField::Genre)),
        "archive" => always(Field::Text(TextField::Archive)),
        "archive_location" => Some(archive_location(item)),
        "archive-place" => always(Field::Text(TextField::ArchiveLocation)),
        "call-number" => always(Field::Text(TextField::CallNumber)),
        "event-place" => always(Field::Text(TextField::Location)),
        "authority" => always(Field::Text(TextField::Organization)),
        _ => None,
    }
}

// Whether arXiv keeps an item.
fn is_at_arxiv(item: &Value<'_>) -> bool
    ensures { result ≡ is_at_arxiv (value_view item.now) }
{
    text_at(item, "archive") == "arXiv"
}

// Where an item is kept: at arXiv that is a number, where the item's own is none of arXiv, and
// otherwise a call number.
fn archive_location(item: &Value<'_>) -> Choice
    ensures { result ≡ archive_location_in (value_view item.now) }
{
    if is_at_arxiv(item) {
        return if is_of_arxiv(text_at(item, "number")) {
            Choice::Pass
        } else {
            Choice::Put(Field::Serial(SerialField::Arxiv))
        };
    }
    if has(item, "call-number") {
        Choice::Pass
    } else {
        Choice::Put(Field::ArchiveNumber)
    }
}

// The members that a host takes.
fn host_choice(takes: Takes, name: &str, item: &Value<'_>) -> Option<Choice>
    ensures { result ≡ choice_in (taken_by takes) name.now (value_view item.now) }
{
    match takes {
        Takes::Title => host_title(name, item),
        Takes::Volume => host_volume(name, item),
        Takes::Figure => host_figure(name, item),
        Takes::Issue => host_issue(name, item),
        Takes::Newspaper => host_newspaper(name, item),
        Takes::Proceedings => host_proceedings(name, item),
        Takes::Book => host_book(name, item),
        Takes::Reference => host_reference(name, item),
        Takes::Archive => host_archive(name, item),
        Takes::Publisher => host_named_publisher(name, item),
    }
}

fn host_title(name: &str, item: &Value<'_>) -> Option<Choice>
    ensures { result ≡ choice_in host_title name.now (value_view item.now) }
{
    match name {
        "container-title" => always(Field::Title),
        "container-title-short" => always(Field::ShortTitle),
        "journalAbbreviation" => unless(item, "container-title-short", Field::ShortTitle),
        _ => None,
    }
}

fn host_publisher(name: &str, item: &Value<'_>) -> Option<Choice>
    ensures { result ≡ choice_in host_publisher name.now (value_view item.now) }
{
    match name {
        "publisher" => always(Field::PublisherName),
        "publisher-place" => always(Field::PublisherPlace),
        _ => host_title(name, item),
    }
}

fn host_volume(name: &str, item: &Value<'_>) -> Option<Choice>
    ensures { result ≡ choice_in host_volume name.now (value_view item.now) }
{
    match name {
        "volume" => always(Field::Number(NumberField::Volume)),
        _ => host_title(name, item),
    }
}

fn host_figure(name: &str, item: &Value<'_>) -> Option<Choice>
    ensures { result ≡ choice_in host_figure name.now (value_view item.now) }
{
    match name {
        "volume" => always(Field::Number(NumberField::Volume)),
        _ => host_publisher(name, item),
    }
}

fn host_issue(name: &str, item: &Value<'_>) -> Option<Choice>
    ensures { result ≡ choice_in host_issue name.now (value_view item.now) }
{
    match name {
        "issue" => always(Field::Number(NumberField::Issue)),
        "ISSN" => always(Field::Serial(SerialField::Issn)),
        _ => host_figure(name, item),
    }
}

fn host_newspaper(name: &str, item: &Value<'_>) -> Option<Choice>
    ensures { result ≡ choice_in host_newspaper name.now (value_view item.now) }
{
    match name {
        "edition" => always(Field::Number(NumberField::Edition)),
        "ISSN" => always(Field::Serial(SerialField::Issn)),
        "publisher-place" => always(Field::Text(TextField::Location)),
        _ => host_title(name, item),
    }
}

fn host_proceedings(name: &str, item: &Value<'_>) -> Option<Choice>
    ensures { result ≡ choice_in host_proceedings name.now (value_view item.now) }
{
    match name {
        "editor" => always(Field::Editors),
        "ISBN" => always(Field::Serial(SerialField::Isbn)),
        _ => host_issue(name, item),
    }
}

fn host_reference(name: &str, item: &Value<'_>) -> Option<Choice>
    ensures { result ≡ choice_in host_reference name.now (value_view item.now) }
{
    match name {
        "editor" => always(Field::Editors),
        "edition" => always(Field::Number(NumberField::Edition)),
        "ISBN" => always(Field::Serial(SerialField::Isbn)),
        _ => host_figure(name, item),
    }
}

fn host_book(name: &str, item: &Value<'_>) -> Option<Choice>
    ensures { result ≡ choice_in host_book name.now (value_view item.now) }
{
    match name {
        "container-author" => always(Field::Authors),
        _ => host_reference(name, item),
    }
}

fn host_archive(name: &str, item: &Value<'_>) -> Option<Choice>
    ensures { result ≡ choice_in (taken_by Archive) name.now (value_view item.now) }
{
    match name {
        "archive" => always(Field::Title),
        _ => None,
    }
}

fn host_named_publisher(name: &str, item: &Value<'_>) -> Option<Choice>
    ensures { result ≡ choice_in (taken_by Publisher) name.now (value_view item.now) }
{
    match name {
        "publisher" => always(Field::Title),
        _ => None,
    }
}

// What goes to the event that an item was given at. An exhibition has a title alone.
fn venue_choice(venue: EntryType, name: &str, item: &Value<'_>) -> Option<Choice>
    ensures { result ≡ choice_in (venue_table venue) name.now (value_view item.now) }
{
    match venue {
        EntryType::Exhibition => event_title(name, item),
        _ => conference_choice(name, item),
    }
}

fn conference_choice(name: &str, item: &Value<'_>) -> Option<Choice>
    ensures { result ≡ choice_in conference_table name.now (value_view item.now) }
{
    match name {
        "event-place" => always(Field::Text(TextField::Location)),
        "event-date" => always(Field::Date),
        _ => event_title(name, item),
    }
}

fn event_title(name: &str, item: &Value<'_>) -> Option<Choice>
    ensures { result ≡ choice_in event_title name.now (value_view item.now) }
{
    match name {
        "event-title" => always(Field::Title),
        "event" => unless(item, "event-title", Field::Title),
        _ => None,
    }
}

fn series_choice(name: &str, item: &Value<'_>) -> Option<Choice>
    ensures { result ≡ choice_in series_table name.now (value_view item.now) }
{
    match name {
        "collection-title" => always(Field::Title),
        "collection-number" => always(Field::Number(NumberField::Volume)),
        "collection-editor" => always(Field::Editors),
        _ => None,
    }
}

fn original_choice(name: &str, item: &Value<'_>) -> Option<Choice>
    ensures { result ≡ choice_in original_table name.now (value_view item.now) }
{
    match name {
        "original-date" => always(Field::Date),
        "original-title" => always(Field::Title),
        "original-publisher" => always(Field::PublisherName),
        _ => None,
    }
}

/// What a member is counted under in whose place the item has another: both names.
pub(crate) fn beside<'n>(name: &'n str, item: &Value<'_>) -> &'n str
    ensures { result.now ≡ beside name.now (value_view item.now) }
{
    if name == "archive_location" && is_at_arxiv(item) {
        return "archive_location beside number";
    }
    match name {
        "annote" => "annote beside note",
        "archive_location" => "archive_location beside call-number",
        "authority" => "authority beside publisher",
        "container-title" => "container-title beside title",
        "event" => "event beside event-title",
        "event-place" => "event-place beside publisher-place",
        "journalAbbreviation" => "journalAbbreviation beside container-title-short",
        "medium" => "medium beside genre",
        "number" => "number beside issue",
        "shortTitle" => "shortTitle beside title-short",
        _ => name,
    }
}
