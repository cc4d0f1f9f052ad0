//! The types of entries: the type of the entry that is read, what it appears in, and what its
//! number is.
ghost use Rattle.std.specs.Prelude.{◌≡◌, map};
ghost use Rattle.std.specs.Map.{lookup};
ghost use Rattle.std.specs.Str.{bytes_eq};
ghost use Rattle.haya_bibtex_entries.specs.Kinds.{alone, appears_in, article_in, given, has_event};
ghost use Rattle.haya_bibtex_entries.specs.Kinds.{host_takes, in_newspaper, in_periodical};
ghost use Rattle.haya_bibtex_entries.specs.Kinds.{is_in_journal, is_subtype, kind_by, kind_named};
ghost use Rattle.haya_bibtex_entries.specs.Kinds.{kind_of, letter_in, of_institution, of_patent};
ghost use Rattle.haya_bibtex_entries.specs.Kinds.{paper, rule_view, rules};
ghost use Rattle.haya_bibtex_entries.specs.Kinds.{takes_authors, takes_edition};
ghost use Rattle.haya_bibtex_entries.specs.Kinds.{takes_editors, takes_isbn, takes_issn};
ghost use Rattle.haya_bibtex_entries.specs.Kinds.{takes_issue, takes_location, takes_publisher};
ghost use Rattle.haya_bibtex_entries.specs.Kinds.{takes_subtype, takes_volume, unpublished_in};
ghost use Rattle.haya_bibtex_entries.specs.Rows.{host_level};
ghost use Rattle.haya_bibtex_inherited.specs.Views.{fields_view};

use crate::draft::Level;
use crate::rules::{RULES, Rule};
use crate::texts::{Fields, has_field, text_of};
use haya_entry::EntryType;

/// What a type says of an entry.
#[derive(Clone, Copy)]
pub(crate) struct Kind {
    /// The type of the entry that is read.
    pub(crate) entry: EntryType,
    /// What it appears in.
    pub(crate) host: Option<Host>,
    /// Whether it was given at a conference.
    pub(crate) is_given: bool,
    /// Where its publisher goes.
    pub(crate) publisher: PublisherRule,
    /// What its number is.
    pub(crate) number: NumberRule,
}

/// What an entry appears in: its type, and the fields that go to it.
#[derive(Clone, Copy)]
pub(crate) struct Host {
    pub(crate) entry: EntryType,
    pub(crate) takes: Takes,
}

/// The fields that go to what an entry appears in, beside a title.
#[derive(Clone, Copy)]
pub(crate) enum Takes {
    /// None.
    Title,
    /// The volume.
    Volume,
    /// What a periodical has.
    Issue,
    /// What a newspaper has.
    Newspaper,
    /// What the proceedings of a conference have.
    Proceedings,
    /// What a book has, with authors of its own.
    Book,
    /// What a work of reference has.
    Reference,
}

/// Where the publisher of an entry goes.
#[derive(Clone, Copy)]
pub(crate) enum PublisherRule {
    /// To the host that takes it, otherwise to the entry, with its place.
    Usual,
    /// It is an organization, and its place that of the entry.
    Institution,
    /// To the entry, and its place is that of the entry.
    Patent,
}

/// What the number of an entry is.
#[derive(Clone, Copy)]
pub(crate) enum NumberRule {
    /// That of an issue.
    Issue,
    /// The volume of its series.
    Series,
    /// A serial number.
    Serial,
}

impl Takes {
    /// Whether the publisher goes there.
    pub(crate) fn publisher(self) -> bool
        ensures { result ≡ takes_publisher self }
    {
        match self {
            Takes::Issue | Takes::Proceedings | Takes::Book | Takes::Reference => true,
            _ => false,
        }
    }

    /// Whether the volume goes there.
    pub(crate) fn volume(self) -> bool
        ensures { result ≡ takes_volume self }
    {
        match self {
            Takes::Title | Takes::Newspaper => false,
            _ => true,
        }
    }

    /// Whether the issue goes there.
    pub(crate) fn issue(self) -> bool
        ensures { result ≡ takes_issue self }
    {
        match self {
            Takes::Issue | Takes::Proceedings => true,
            _ => false,
        }
    }

    /// Whether the edition goes there.
    pub(crate) fn edition(self) -> bool
        ensures { result ≡ takes_edition self }
    {
        match self {
            Takes::Newspaper | Takes::Book | Takes::Reference => true,
            _ => false,
        }
    }

    /// Whether the editors go there.
    pub(crate) fn editors(self) -> bool
        ensures { result ≡ takes_editors self }
    {
        match self {
            Takes::Proceedings | Takes::Book | Takes::Reference => true,
            _ => false,
        }
    }

    /// Whether it has authors of its own.
    pub(crate) fn authors(self) -> bool
        ensures { result ≡ takes_authors self }
    {
        match self {
            Takes::Book => true,
            _ => false,
        }
    }

    /// Whether the ISBN goes there.
    pub(crate) fn isbn(self) -> bool
        ensures { result ≡ takes_isbn self }
    {
        match self {
            Takes::Proceedings | Takes::Book | Takes::Reference => true,
            _ => false,
        }
    }

    /// Whether the ISSN goes there.
    pub(crate) fn issn(self) -> bool
        ensures { result ≡ takes_issn self }
    {
        match self {
            Takes::Issue | Takes::Newspaper | Takes::Proceedings => true,
            _ => false,
        }
    }

    /// Whether the place of the publisher is its location.
    pub(crate) fn location(self) -> bool
        ensures { result ≡ takes_location self }
    {
        match self {
            Takes::Newspaper => true,
            _ => false,
        }
    }

    /// Whether the subtype of an entry says what it is.
    pub(crate) fn subtype(self) -> bool
        ensures { result ≡ takes_subtype self }
    {
        match self {
            Takes::Issue | Takes::Newspaper => true,
            _ => false,
        }
    }
}

/// The kind of an entry of this type. Of one that isn't known it is anything.
pub(crate) fn kind_of(name: &str, fields: &Fields<'_>) -> Kind
    ensures { result ≡ kind_of name.now (fields_view fields.now) }
{
    kind_named(name, fields).unwrap_or(alone(EntryType::Misc, NumberRule::Serial))
}

/// The kind of an entry of this type, if that is known.
pub(crate) fn kind_named(name: &str, fields: &Fields<'_>) -> Option<Kind>
    ensures { result ≡ kind_named name.now (fields_view fields.now) }
{
    match rule_named(name) {
        Some(rule) => Some(kind_by(rule, fields)),
        None => None,
    }
}

// The rule of a type, if that is known.
fn rule_named(name: &str) -> Option<Rule>
    ensures { result ≡ lookup (bytes_eq name.now) rules }
{
    rule_in(RULES, name)
}

// The rule that a table has for a type.
fn rule_in(table: &[(&str, Rule)], name: &str) -> Option<Rule>
    ensures { result ≡ lookup (bytes_eq name.now) (map rule_view table.now) }
{
    'rows: for (key, rule) in table {
        if name == *key {
            return Some(*rule);
        }
    }
    None
}

// The kind of an entry by a rule.
fn kind_by(rule: Rule, fields: &Fields<'_>) -> Kind
    ensures { result ≡ kind_by rule (fields_view fields.now) }
{
    match rule {
        Rule::Alone(entry, number) => alone(entry, number),
        Rule::Given(entry, number) => given(alone(entry, number)),
        Rule::In(entry, host, takes, number) => appears_in(entry, host, takes, number),
        Rule::Institution(entry) => of_institution(entry),
        Rule::Patent => of_patent(),
        Rule::Paper => paper(),
        Rule::Newspaper => in_newspaper(),
        Rule::Article => article_in(fields),
        Rule::Unpublished => unpublished_in(fields),
        Rule::Letter => letter_in(fields),
    }
}

// An entry of its own.
fn alone(entry: EntryType, number: NumberRule) -> Kind
    ensures { result ≡ alone entry number }
{
    Kind {
        entry,
        host: None,
        is_given: false,
        publisher: PublisherRule::Usual,
        number,
    }
}

// One that appears in another, which takes these fields.
fn appears_in(entry: EntryType, host: EntryType, takes: Takes, number: NumberRule) -> Kind
    ensures { result ≡ appears_in entry host takes number }
{
    let host = Some(Host { entry: host, takes });
    Kind {
        host,
        ..alone(entry, number)
    }
}

// One that was given at a conference.
fn given(kind: Kind) -> Kind
    ensures { result ≡ given kind }
{
    Kind {
        is_given: true,
        ..kind
    }
}

// One of an institution.
fn of_institution(entry: EntryType) -> Kind
    ensures { result ≡ of_institution entry }
{
    Kind {
        publisher: PublisherRule::Institution,
        ..alone(entry, NumberRule::Serial)
    }
}

fn of_patent() -> Kind
    ensures { result ≡ of_patent }
{
    Kind {
        publisher: PublisherRule::Patent,
        ..alone(EntryType::Patent, NumberRule::Serial)
    }
}

// A paper in the proceedings of a conference.
fn paper() -> Kind
    ensures { result ≡ paper }
{
    given(appears_in(
        EntryType::Article,
        EntryType::Proceedings,
        Takes::Proceedings,
        NumberRule::Series,
    ))
}

fn in_newspaper() -> Kind
    ensures { result ≡ in_newspaper }
{
    appears_in(
        EntryType::Article,
        EntryType::Newspaper,
        Takes::Newspaper,
        NumberRule::Issue,
    )
}

fn in_periodical() -> Kind
    ensures { result ≡ in_periodical }
{
    appears_in(
        EntryType::Article,
        EntryType::Periodical,
        Takes::Issue,
        NumberRule::Issue,
    )
}

/// Whether the subtype of an entry is this word.
pub(crate) fn is_subtype(word: &str, fields: &Fields<'_>) -> bool
    ensures { result ≡ is_subtype word.now (fields_view fields.now) }
{
    match text_of(fields, "entrysubtype") {
        Some(text) => text.trim() == word,
        None => false,
    }
}

fn article_in(fields: &Fields<'_>) -> Kind
    ensures { result ≡ article_in (fields_view fields.now) }
{
    if is_subtype("newspaper", fields) {
        in_newspaper()
    } else {
        in_periodical()
    }
}

fn has_event(fields: &Fields<'_>) -> bool
    ensures { result ≡ has_event (fields_view fields.now) }
{
    has_field(fields, "eventtitle") || has_field(fields, "eventdate") || has_field(fields, "venue")
}

// What wasn't published may have been given at a conference.
fn unpublished_in(fields: &Fields<'_>) -> Kind
    ensures { result ≡ unpublished_in (fields_view fields.now) }
{
    if has_event(fields) {
        given(alone(EntryType::Performance, NumberRule::Serial))
    } else {
        alone(EntryType::Manuscript, NumberRule::Serial)
    }
}

fn is_in_journal(fields: &Fields<'_>) -> bool
    ensures { result ≡ is_in_journal (fields_view fields.now) }
{
    has_field(fields, "journaltitle") || has_field(fields, "journal")
}

// A letter may have been published.
fn letter_in(fields: &Fields<'_>) -> Kind
    ensures { result ≡ letter_in (fields_view fields.now) }
{
    if is_in_journal(fields) {
        article_in(fields)
    } else {
        alone(EntryType::Manuscript, NumberRule::Serial)
    }
}

impl Kind {
    /// To which entry the publisher goes.
    pub(crate) fn publisher_level(self) -> Level
        ensures { result ≡ host_level takes_publisher self }
    {
        match self.host {
            Some(host) if host.takes.publisher() => Level::Host(host.entry),
            _ => Level::Own,
        }
    }

    /// To which entry the volume goes.
    pub(crate) fn volume_level(self) -> Level
        ensures { result ≡ host_level takes_volume self }
    {
        match self.host {
            Some(host) if host.takes.volume() => Level::Host(host.entry),
            _ => Level::Own,
        }
    }

    /// To which entry the issue goes.
    pub(crate) fn issue_level(self) -> Level
        ensures { result ≡ host_level takes_issue self }
    {
        match self.host {
            Some(host) if host.takes.issue() => Level::Host(host.entry),
            _ => Level::Own,
        }
    }

    /// To which entry the edition goes.
    pub(crate) fn edition_level(self) -> Level
        ensures { result ≡ host_level takes_edition self }
    {
        match self.host {
            Some(host) if host.takes.edition() => Level::Host(host.entry),
            _ => Level::Own,
        }
    }

    /// To which entry the editors go.
    pub(crate) fn editors_level(self) -> Level
        ensures { result ≡ host_level takes_editors self }
    {
        match self.host {
            Some(host) if host.takes.editors() => Level::Host(host.entry),
            _ => Level::Own,
        }
    }

    /// To which entry the ISBN goes.
    pub(crate) fn isbn_level(self) -> Level
        ensures { result ≡ host_level takes_isbn self }
    {
        match self.host {
            Some(host) if host.takes.isbn() => Level::Host(host.entry),
            _ => Level::Own,
        }
    }

    /// To which entry the ISSN goes.
    pub(crate) fn issn_level(self) -> Level
        ensures { result ≡ host_level takes_issn self }
    {
        match self.host {
            Some(host) if host.takes.issn() => Level::Host(host.entry),
            _ => Level::Own,
        }
    }

    /// Whether the place of the publisher is the location of the host.
    pub(crate) fn locates_host(self) -> bool
        ensures { result ≡ host_takes takes_location self }
    {
        match self.host {
            Some(host) => host.takes.location(),
            None => false,
        }
    }

    /// Whether the host has authors of its own.
    pub(crate) fn has_host_authors(self) -> bool
        ensures { result ≡ host_takes takes_authors self }
    {
        match self.host {
            Some(host) => host.takes.authors(),
            None => false,
        }
    }

    /// Whether the subtype of an entry says what it appears in.
    pub(crate) fn has_subtype(self) -> bool
        ensures { result ≡ host_takes takes_subtype self }
    {
        match self.host {
            Some(host) => host.takes.subtype(),
            None => false,
        }
    }
}
