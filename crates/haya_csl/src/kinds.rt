//! The types of CSL: the type of an item's entry, what it appears in, and what goes there.
ghost use Rattle.std.specs.Prelude.{◌≡◌, codes, option_and_then, option_map};
ghost use Rattle.json.specs.Value.{value_view};
ghost use Rattle.haya_json.specs.Parts.{member_of, text_in};
ghost use Rattle.haya_csl.specs.Kinds.{alone, appears_in, article_in, begins_with, book_kinds};
ghost use Rattle.haya_csl.specs.Kinds.{broadcast_in, chapter_in, filled, given_at, has};
ghost use Rattle.haya_csl.specs.Kinds.{in_periodical, is_empty};
ghost use Rattle.haya_csl.specs.Kinds.{kind_among, kind_by, kind_named, kind_of, later_kinds};
ghost use Rattle.haya_csl.specs.Kinds.{law_kinds, letter_in, media_kinds, paper, says};
ghost use Rattle.haya_csl.specs.Kinds.{says_audio, text_at, with_own};

use haya_entry::EntryType;
use haya_json::reading::{member, text_in};
use json::Value;

/// What a type of CSL says of an item: the type of its entry, what it appears in, and the event
/// that it was given at.
#[derive(Clone, Copy)]
pub(crate) struct Kind {
    pub(crate) entry: EntryType,
    pub(crate) own: Own,
    pub(crate) host: Option<Host>,
    pub(crate) venue: Option<EntryType>,
}

/// What an item appears in: its type, and the members of the item that go to it.
#[derive(Clone, Copy)]
pub(crate) struct Host {
    pub(crate) entry: EntryType,
    pub(crate) takes: Takes,
}

/// Where the members of an item go that stay with its own entry.
#[derive(Clone, Copy)]
pub(crate) enum Own {
    /// To the fields that are theirs in most types.
    Usual,
    /// The publisher is an organization.
    Institution,
    /// The title may be that of a container.
    Periodical,
    /// The number is that of an issue.
    Broadcast,
}

/// The members that go to what an item appears in.
#[derive(Clone, Copy)]
pub(crate) enum Takes {
    /// The title of the container, which all below take too, but for the last two.
    Title,
    /// The volume.
    Volume,
    /// Volume and publisher.
    Figure,
    /// What an issue of a periodical has.
    Issue,
    /// What an issue of a newspaper has.
    Newspaper,
    /// What the proceedings of a conference have.
    Proceedings,
    /// What a book has, with authors of its own.
    Book,
    /// What a work of reference has.
    Reference,
    /// The archive, as a title.
    Archive,
    /// The publisher, as a title.
    Publisher,
}

/// The kind of an item. Without a type, or with one that is refused, it is a document.
pub(crate) fn kind_of(item: &Value<'_>) -> Kind
    ensures { result ≡ kind_of (value_view item.now) }
{
    kind_by(type_name(item), item)
}

// The name of an item's type.
fn type_name<'a>(item: &Value<'a>) -> Option<&'a str>
    ensures { option_map (λ t. t.now) result
        ≡ option_and_then text_in (member_of (codes "type") (value_view item.now)) }
{
    text_in(member(item, "type")?)
}

// The kind of an item by the name of its type.
fn kind_by(name: Option<&str>, item: &Value<'_>) -> Kind
    ensures { result ≡ kind_by (option_map (λ t. t.now) name.entry) (value_view item.now) }
{
    match name {
        Some(name) => kind_named(name, item).unwrap_or(alone(EntryType::Misc)),
        None => alone(EntryType::Misc),
    }
}

/// The kind of an item whose type has this name.
pub(crate) fn kind_named(name: &str, item: &Value<'_>) -> Option<Kind>
    ensures { result ≡ kind_named name.now (value_view item.now) }
{
    match name {
        "article-journal" | "article-magazine" | "review" | "review-book" => {
            Some(in_periodical(EntryType::Article))
        }
        "article" => Some(article_in(item)),
        "article-newspaper" => Some(appears_in(
            EntryType::Article,
            EntryType::Newspaper,
            Takes::Newspaper,
        )),
        "paper-conference" => Some(paper()),
        "chapter" => Some(chapter_in(item)),
        "entry" | "entry-dictionary" | "entry-encyclopedia" => Some(appears_in(
            EntryType::Entry,
            EntryType::Reference,
            Takes::Reference,
        )),
        _ => book_kind(name, item),
    }
}

// The same of what is a work of its own, and of what follows.
fn book_kind(name: &str, item: &Value<'_>) -> Option<Kind>
    ensures { result ≡ kind_among book_kinds name.now (value_view item.now) }
{
    match name {
        "book" | "classic" | "pamphlet" => Some(alone(EntryType::Book)),
        "thesis" => Some(with_own(EntryType::Thesis, Own::Institution)),
        "manuscript" => Some(alone(EntryType::Manuscript)),
        "patent" => Some(alone(EntryType::Patent)),
        "report" | "standard" => Some(with_own(EntryType::Report, Own::Institution)),
        "periodical" => Some(with_own(EntryType::Periodical, Own::Periodical)),
        "collection" => Some(alone(EntryType::Anthology)),
        _ => law_kind(name, item),
    }
}

// The same of what is law, of what is on the web, and of what follows.
fn law_kind(name: &str, item: &Value<'_>) -> Option<Kind>
    ensures { result ≡ kind_among law_kinds name.now (value_view item.now) }
{
    match name {
        "legal_case" | "hearing" => Some(appears_in(
            EntryType::Case,
            EntryType::Reference,
            Takes::Volume,
        )),
        "legislation" | "bill" | "regulation" | "treaty" => Some(appears_in(
            EntryType::Legislation,
            EntryType::Anthology,
            Takes::Volume,
        )),
        "webpage" => Some(appears_in(EntryType::Web, EntryType::Web, Takes::Title)),
        "post-weblog" => Some(appears_in(EntryType::Article, EntryType::Blog, Takes::Title)),
        "post" => Some(appears_in(EntryType::Post, EntryType::Thread, Takes::Title)),
        _ => media_kind(name, item),
    }
}

// The same of what is seen, heard or drawn, and of what follows.
fn media_kind(name: &str, item: &Value<'_>) -> Option<Kind>
    ensures { result ≡ kind_among media_kinds name.now (value_view item.now) }
{
    match name {
        "motion_picture" => Some(appears_in(EntryType::Video, EntryType::Video, Takes::Title)),
        "broadcast" => Some(broadcast_in(item)),
        "song" => Some(appears_in(EntryType::Audio, EntryType::Audio, Takes::Volume)),
        "musical_score" | "map" => Some(appears_in(
            EntryType::Artwork,
            EntryType::Anthology,
            Takes::Title,
        )),
        "figure" => Some(appears_in(EntryType::Artwork, EntryType::Book, Takes::Figure)),
        "graphic" => Some(given_at(EntryType::Artwork, EntryType::Exhibition)),
        _ => later_kind(name, item),
    }
}

// The same of what is performed, stored, kept or held.
fn later_kind(name: &str, item: &Value<'_>) -> Option<Kind>
    ensures { result ≡ kind_among later_kinds name.now (value_view item.now) }
{
    match name {
        "speech" => Some(given_at(EntryType::Performance, EntryType::Conference)),
        "performance" => Some(alone(EntryType::Performance)),
        "interview" | "personal_communication" => Some(letter_in(item)),
        "software" => Some(alone(EntryType::Repository)),
        "dataset" => Some(appears_in(EntryType::Repository, EntryType::Repository, Takes::Title)),
        "event" => Some(alone(EntryType::Conference)),
        "document" => Some(alone(EntryType::Misc)),
        _ => None,
    }
}

// An item of its own.
fn alone(entry: EntryType) -> Kind
    ensures { result ≡ alone entry }
{
    with_own(entry, Own::Usual)
}

// One of its own with other places for some members.
fn with_own(entry: EntryType, own: Own) -> Kind
    ensures { result ≡ with_own entry own }
{
    Kind {
        entry,
        own,
        host: None,
        venue: None,
    }
}

// One that appears in another, which takes these members.
fn appears_in(entry: EntryType, host: EntryType, takes: Takes) -> Kind
    ensures { result ≡ appears_in entry host takes }
{
    let host = Some(Host { entry: host, takes });
    Kind {
        host,
        ..alone(entry)
    }
}

// One that appears in a periodical.
fn in_periodical(entry: EntryType) -> Kind
    ensures { result ≡ in_periodical entry }
{
    appears_in(entry, EntryType::Periodical, Takes::Issue)
}

// One that was shown or given at an event.
fn given_at(entry: EntryType, venue: EntryType) -> Kind
    ensures { result ≡ given_at entry venue }
{
    Kind {
        venue: Some(venue),
        ..alone(entry)
    }
}

// A paper in the proceedings of a conference.
fn paper() -> Kind
    ensures { result ≡ paper }
{
    let proceedings = Host {
        entry: EntryType::Proceedings,
        takes: Takes::Proceedings,
    };
    Kind {
        host: Some(proceedings),
        ..given_at(EntryType::Article, EntryType::Conference)
    }
}

/// Whether a value is as if it weren't there: null, or an empty text, list or object.
pub(crate) fn is_empty(json: &Value<'_>) -> bool
    ensures { result ≡ is_empty (value_view json.now) }
{
    match json {
        Value::Null => true,
        Value::String(text) => text.is_empty(),
        Value::Array(items) => items.is_empty(),
        Value::Object(members) => members.is_empty(),
        _ => false,
    }
}

/// The member with this name, if there is one and it isn't empty.
pub(crate) fn filled<'v, 'a>(item: &'v Value<'a>, name: &str) -> Option<&'v Value<'a>>
    ensures { option_map (λ v. value_view v.now) result ≡ filled name.now (value_view item.now) }
{
    let value = item.get(name)?;
    if is_empty(value) { None } else { Some(value) }
}

/// Whether the item has it.
pub(crate) fn has(item: &Value<'_>, name: &str) -> bool
    ensures { result ≡ has name.now (value_view item.now) }
{
    filled(item, name).is_some()
}

// An article of a periodical, or a preprint in an archive, which may be named as a publisher.
fn article_in(item: &Value<'_>) -> Kind
    ensures { result ≡ article_in (value_view item.now) }
{
    if has(item, "container-title") {
        return in_periodical(EntryType::Article);
    }
    if has(item, "archive") {
        return appears_in(EntryType::Article, EntryType::Repository, Takes::Archive);
    }
    if has(item, "publisher") {
        return appears_in(EntryType::Article, EntryType::Repository, Takes::Publisher);
    }
    alone(EntryType::Article)
}

// A part of an anthology, which has editors, or of a book.
fn chapter_in(item: &Value<'_>) -> Kind
    ensures { result ≡ chapter_in (value_view item.now) }
{
    if has(item, "editor") {
        return appears_in(EntryType::Anthos, EntryType::Anthology, Takes::Book);
    }
    appears_in(EntryType::Chapter, EntryType::Book, Takes::Book)
}

// An article where it is published, and otherwise what somebody keeps.
fn letter_in(item: &Value<'_>) -> Kind
    ensures { result ≡ letter_in (value_view item.now) }
{
    if has(item, "container-title") {
        return appears_in(EntryType::Article, EntryType::Periodical, Takes::Title);
    }
    alone(EntryType::Manuscript)
}

// A broadcast, which is heard or seen.
fn broadcast_in(item: &Value<'_>) -> Kind
    ensures { result ≡ broadcast_in (value_view item.now) }
{
    let heard = says_audio(text_at(item, "medium")) || says_audio(text_at(item, "genre"));
    let kind = if heard {
        EntryType::Audio
    } else {
        EntryType::Video
    };
    Kind {
        own: Own::Broadcast,
        ..appears_in(kind, kind, Takes::Title)
    }
}

/// The text of a member, or an empty one.
pub(crate) fn text_at<'a>(item: &Value<'a>, name: &str) -> &'a str
    ensures { result.now ≡ text_at name.now (value_view item.now) }
{
    match member(item, name) {
        Some(value) => text_in(value).unwrap_or(""),
        None => "",
    }
}

// Whether the text says that something is heard.
fn says_audio(text: &str) -> bool
    ensures { result ≡ says_audio text.now }
{
    says(text, "radio") || says(text, "podcast") || says(text, "audio")
}

// Whether the word appears in the text, in any case.
fn says(text: &str, word: &str) -> bool
    ensures { result ≡ says word.now text.now }
{
    let mut rest = text.as_bytes();
    'starts: while !rest.is_empty() {
        if begins_with(rest, word.as_bytes()) {
            return true;
        }
        rest = &rest[1..];
    }
    false
}

// Whether the text begins with the word, in any case.
fn begins_with(text: &[u8], word: &[u8]) -> bool
    ensures { result ≡ begins_with word.now text.now }
{
    text.len() >= word.len() && text[..word.len()].eq_ignore_ascii_case(word)
}
