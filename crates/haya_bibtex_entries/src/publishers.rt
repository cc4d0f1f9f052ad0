//! The table of publishers, organizations and places.
ghost use Rattle.std.specs.Prelude.{◌≡◌, IfOk, OnOk, option_map};
ghost use Rattle.std.specs.Prelude.{string_bytes};
ghost use Rattle.haya_text.specs.Chunks.{chunks};
ghost use Rattle.haya_text.specs.Texts.{text_view, without_short};
ghost use Rattle.haya_values.specs.Publisher.{publisher_view};
ghost use Rattle.haya_bibtex_inherited.specs.Views.{fields_view};
ghost use Rattle.haya_bibtex_entries.specs.Drafts.{so_far, with_any_row, with_row, with_rows};
ghost use Rattle.haya_bibtex_entries.specs.Publishers.{address_unless, conference_venue_row};
ghost use Rattle.haya_bibtex_entries.specs.Publishers.{host_location_row};
ghost use Rattle.haya_bibtex_entries.specs.Publishers.{kind_publisher_row, name_by};
ghost use Rattle.haya_bibtex_entries.specs.Publishers.{organization_by, organization_text};
ghost use Rattle.haya_bibtex_entries.specs.Publishers.{original_publisher_row, own_location};
ghost use Rattle.haya_bibtex_entries.specs.Publishers.{own_place, own_venue, place_text};
ghost use Rattle.haya_bibtex_entries.specs.Publishers.{published_at, published_by};
ghost use Rattle.haya_bibtex_entries.specs.Publishers.{publisher_of, publisher_place};
ghost use Rattle.haya_bibtex_entries.specs.Publishers.{publisher_row, publisher_rows};
ghost use Rattle.haya_bibtex_entries.specs.Publishers.{publisher_text};
ghost use Rattle.haya_bibtex_entries.specs.Values.{publisher_value, value_view};

use crate::draft::{Draft, Level};
use crate::kinds::{Host, Kind, PublisherRule};
use crate::rows::{add_text, push_names, without_short};
use crate::texts::{Fields, has_field, text_of};
use crate::values::{TextField, Value};
use haya_bibtex_fields::{Reading, formatted_if_any, read_address};
use haya_text::{ChunkedString, FormatString, OutOfMemory};
use haya_values::Publisher;
use std::alloc::Global;

/// The address at which a work was published, where no other is told. The error: there was no
/// memory for it.
pub(crate) fn published_at(
    alloc: Global,
    fields: &Fields<'_>,
) -> Result<Option<String>, OutOfMemory>
    ensures { IfOk result (λ a.
        option_map string_bytes a ≡ published_at (fields_view fields.now)) }
{
    let has_url = has_field(fields, "url");
    let text = text_of(fields, "howpublished");
    address_unless(alloc, has_url, text)
}

// The address that a text is, unless there is a url.
fn address_unless(
    alloc: Global,
    has_url: bool,
    text: Option<&str>,
) -> Result<Option<String>, OutOfMemory>
    ensures { IfOk result (λ a. option_map string_bytes a
        ≡ address_unless has_url (option_map (λ s. s.now) text.entry)) }
{
    match text {
        Some(text) if !has_url => read_address(alloc, text),
        _ => Ok(None),
    }
}

// How a work was published, if that is no address of its own.
fn published_by<'a>(alloc: Global, fields: &Fields<'a>) -> Result<Option<&'a str>, OutOfMemory>
    ensures { IfOk result (λ t.
        option_map (λ s. s.now) t ≡ published_by (fields_view fields.now)) }
{
    if published_at(alloc, fields)?.is_some() {
        return Ok(None);
    }
    Ok(text_of(fields, "howpublished"))
}

fn publisher_text<'a>(alloc: Global, fields: &Fields<'a>) -> Result<Option<&'a str>, OutOfMemory>
    ensures { IfOk result (λ t.
        option_map (λ s. s.now) t ≡ publisher_text (fields_view fields.now)) }
{
    match text_of(fields, "publisher") {
        Some(text) => Ok(Some(text)),
        None => published_by(alloc, fields),
    }
}

fn place_text<'a>(fields: &Fields<'a>) -> Option<&'a str>
    ensures { option_map (λ s. s.now) result ≡ place_text (fields_view fields.now) }
{
    text_of(fields, "location").or(text_of(fields, "address"))
}

fn organization_text<'a>(fields: &Fields<'a>) -> Option<&'a str>
    ensures { option_map (λ s. s.now) result ≡ organization_text (fields_view fields.now) }
{
    text_of(fields, "institution").or(text_of(fields, "school").or(text_of(fields, "organization")))
}

// The name of the publisher, where that is no organization.
fn name_by<'a>(
    alloc: Global,
    rule: PublisherRule,
    fields: &Fields<'a>,
) -> Result<Option<&'a str>, OutOfMemory>
    ensures { IfOk result (λ t.
        option_map (λ s. s.now) t ≡ name_by rule (fields_view fields.now)) }
{
    match rule {
        PublisherRule::Usual | PublisherRule::Patent => publisher_text(alloc, fields),
        PublisherRule::Institution => Ok(None),
    }
}

// The organization, which is the publisher where a kind has that as one, and no other is named.
fn organization_by<'a>(
    alloc: Global,
    rule: PublisherRule,
    fields: &Fields<'a>,
) -> Result<Option<&'a str>, OutOfMemory>
    ensures { IfOk result (λ t.
        option_map (λ s. s.now) t ≡ organization_by rule (fields_view fields.now)) }
{
    match (rule, organization_text(fields)) {
        (PublisherRule::Institution, None) => publisher_text(alloc, fields),
        (_, text) => Ok(text),
    }
}

// The place of the publisher, where it isn't that of the host or of the entry.
fn publisher_place<'a>(rule: PublisherRule, of_host: bool, fields: &Fields<'a>) -> Option<&'a str>
    ensures { option_map (λ s. s.now) result
        ≡ publisher_place rule of_host (fields_view fields.now) }
{
    match rule {
        PublisherRule::Usual if !of_host => place_text(fields),
        _ => None,
    }
}

// The place of the publisher, where it is that of the entry.
fn own_place<'a>(rule: PublisherRule, fields: &Fields<'a>) -> Option<&'a str>
    ensures { option_map (λ s. s.now) result ≡ own_place rule (fields_view fields.now) }
{
    match rule {
        PublisherRule::Usual => None,
        _ => place_text(fields),
    }
}

// The venue, where it isn't that of a conference.
fn own_venue<'a>(is_given: bool, fields: &Fields<'a>) -> Option<&'a str>
    ensures { option_map (λ s. s.now) result ≡ own_venue is_given (fields_view fields.now) }
{
    if is_given {
        None
    } else {
        text_of(fields, "venue")
    }
}

fn own_location<'a>(kind: Kind, fields: &Fields<'a>) -> Option<&'a str>
    ensures { option_map (λ s. s.now) result ≡ own_location kind (fields_view fields.now) }
{
    own_place(kind.publisher, fields).or(own_venue(kind.is_given, fields))
}

// A publisher, if there is a name or a place.
fn publisher_of(name: Option<ChunkedString>, place: Option<ChunkedString>) -> Option<Publisher>
    ensures { option_map publisher_view result
        ≡ publisher_of (option_map chunks name) (option_map chunks place) }
{
    if name.is_none() && place.is_none() {
        return None;
    }
    Some(Publisher::new(text_if_any(name), text_if_any(place)))
}

// A text without a short form, if it is there.
fn text_if_any(text: Option<ChunkedString>) -> Option<FormatString>
    ensures { option_map text_view result ≡ option_map without_short (option_map chunks text) }
{
    match text {
        Some(text) => Some(without_short(text)),
        None => None,
    }
}

// A publisher as a value.
fn publisher_value(publisher: Option<Publisher>) -> Option<Value>
    ensures { option_map value_view result
        ≡ option_map (λ p. publisher_value p) (option_map publisher_view publisher) }
{
    match publisher {
        Some(publisher) => Some(Value::By(publisher)),
        None => None,
    }
}

fn add_publisher(
    alloc: Global,
    draft: &mut Draft,
    key: &str,
    level: Level,
    name: Option<&str>,
    place: Option<&str>,
) -> Result<(), OutOfMemory>
    ensures { OnOk result (so_far draft.new
        ≡ with_row key.now (publisher_row level (option_map (λ s. s.now) name.entry)
        (option_map (λ s. s.now) place.entry)) (so_far draft.old)) }
{
    if name.is_none() && place.is_none() {
        return Ok(());
    }
    let Reading {
        value: name,
        mut unknown,
    } = formatted_if_any(alloc, name)?;
    let Reading {
        value: place,
        unknown: more,
    } = formatted_if_any(alloc, place)?;
    push_names(&mut unknown, more)?;
    let value = publisher_value(publisher_of(name, place));
    draft.add_read(alloc, key, level, value, unknown)
}

fn add_kind_publisher(
    alloc: Global,
    draft: &mut Draft,
    key: &str,
    kind: Kind,
    fields: &Fields<'_>,
) -> Result<(), OutOfMemory>
    ensures { OnOk result (so_far draft.new
        ≡ with_row key.now (kind_publisher_row kind (fields_view fields.now))
        (so_far draft.old)) }
{
    let name = name_by(alloc, kind.publisher, fields)?;
    let place = publisher_place(kind.publisher, kind.locates_host(), fields);
    add_publisher(alloc, draft, key, kind.publisher_level(), name, place)
}

fn add_host_location(
    alloc: Global,
    draft: &mut Draft,
    key: &str,
    host: Option<Host>,
    fields: &Fields<'_>,
) -> Result<(), OutOfMemory>
    ensures { OnOk result (so_far draft.new
        ≡ with_any_row key.now (host_location_row host (fields_view fields.now))
        (so_far draft.old)) }
{
    match host {
        Some(host) if host.takes.location() => {
            let level = Level::Host(host.entry);
            add_text(
                alloc,
                draft,
                key,
                level,
                TextField::Location,
                place_text(fields),
            )
        }
        _ => Ok(()),
    }
}

fn add_conference_venue(
    alloc: Global,
    draft: &mut Draft,
    key: &str,
    is_given: bool,
    fields: &Fields<'_>,
) -> Result<(), OutOfMemory>
    ensures { OnOk result (so_far draft.new
        ≡ with_any_row key.now (conference_venue_row is_given (fields_view fields.now))
        (so_far draft.old)) }
{
    if !is_given {
        return Ok(());
    }
    let venue = text_of(fields, "venue");
    add_text(
        alloc,
        draft,
        key,
        Level::Conference,
        TextField::Location,
        venue,
    )
}

fn add_original_publisher(
    alloc: Global,
    draft: &mut Draft,
    key: &str,
    fields: &Fields<'_>,
) -> Result<(), OutOfMemory>
    ensures { OnOk result (so_far draft.new
        ≡ with_row key.now (original_publisher_row (fields_view fields.now))
        (so_far draft.old)) }
{
    let name = text_of(fields, "origpublisher");
    let place = text_of(fields, "origlocation");
    add_publisher(alloc, draft, key, Level::Original, name, place)
}

/// Puts publishers, organizations and places where they go. The error: there was no memory.
pub(crate) fn add_publishers(
    alloc: Global,
    draft: &mut Draft,
    key: &str,
    kind: Kind,
    fields: &Fields<'_>,
) -> Result<(), OutOfMemory>
    ensures { OnOk result (so_far draft.new
        ≡ with_rows key.now (publisher_rows kind (fields_view fields.now)) (so_far draft.old)) }
{
    add_kind_publisher(alloc, draft, key, kind, fields)?;
    add_host_location(alloc, draft, key, kind.host, fields)?;
    let location = own_location(kind, fields);
    add_text(alloc, draft, key, Level::Own, TextField::Location, location)?;
    let organization = organization_by(alloc, kind.publisher, fields)?;
    add_text(
        alloc,
        draft,
        key,
        Level::Own,
        TextField::Organization,
        organization,
    )?;
    add_conference_venue(alloc, draft, key, kind.is_given, fields)?;
    add_original_publisher(alloc, draft, key, fields)
}
