//! What decides the kinds of entries, by their types.
use crate::kinds::NumberRule::{Issue, Serial, Series};
use crate::kinds::{NumberRule, Takes};
use haya_entry::EntryType;

/// What decides the kind of an entry.
#[derive(Clone, Copy)]
pub(crate) enum Rule {
    /// It is one of its own.
    Alone(EntryType, NumberRule),
    /// It is one of its own, and was given at a conference.
    Given(EntryType, NumberRule),
    /// It appears in one of this type, to which these fields go.
    In(EntryType, EntryType, Takes, NumberRule),
    /// It is one of an institution.
    Institution(EntryType),
    /// It is a patent.
    Patent,
    /// It is a paper in the proceedings of a conference.
    Paper,
    /// It appears in a newspaper.
    Newspaper,
    /// It appears in a periodical or a newspaper, as its subtype says.
    Article,
    /// It wasn't published, and other fields say whether it was given at a conference.
    Unpublished,
    /// It is a letter, and other fields say whether it was published.
    Letter,
}

// A contribution to a collection.
const CONTRIBUTION: Rule = Rule::In(EntryType::Anthos, EntryType::Anthology, Takes::Book, Series);

// A part of a book.
const CHAPTER: Rule = Rule::In(EntryType::Chapter, EntryType::Book, Takes::Book, Series);

// An entry of a work of reference.
const REFERENCE_ENTRY: Rule = Rule::In(
    EntryType::Entry,
    EntryType::Reference,
    Takes::Reference,
    Series,
);

// Data that are stored.
const DATA_SET: Rule = Rule::In(
    EntryType::Repository,
    EntryType::Repository,
    Takes::Title,
    Serial,
);

// What is on the web.
const WEB: Rule = Rule::In(EntryType::Web, EntryType::Web, Takes::Title, Serial);

// What is seen.
const VIDEO: Rule = Rule::In(EntryType::Video, EntryType::Video, Takes::Title, Serial);

// What is heard.
const AUDIO: Rule = Rule::In(EntryType::Audio, EntryType::Audio, Takes::Volume, Serial);

// A decision of a court.
const CASE: Rule = Rule::In(EntryType::Case, EntryType::Reference, Takes::Volume, Serial);

// A law.
const LAW: Rule = Rule::In(
    EntryType::Legislation,
    EntryType::Anthology,
    Takes::Volume,
    Serial,
);

/// The rules of all types that are known.
pub(crate) const RULES: &[(&str, Rule)] = &[
    ("article", Rule::Article),
    ("suppperiodical", Rule::Article),
    ("review", Rule::Article),
    ("newspaper", Rule::Newspaper),
    ("newsarticle", Rule::Newspaper),
    ("inproceedings", Rule::Paper),
    ("conference", Rule::Paper),
    ("incollection", CONTRIBUTION),
    ("suppcollection", CONTRIBUTION),
    ("inbook", CHAPTER),
    ("suppbook", CHAPTER),
    ("bookinbook", CHAPTER),
    ("inreference", REFERENCE_ENTRY),
    ("book", Rule::Alone(EntryType::Book, Series)),
    ("mvbook", Rule::Alone(EntryType::Book, Series)),
    ("booklet", Rule::Alone(EntryType::Book, Serial)),
    ("commentary", Rule::Alone(EntryType::Book, Serial)),
    ("collection", Rule::Alone(EntryType::Anthology, Series)),
    ("mvcollection", Rule::Alone(EntryType::Anthology, Series)),
    ("reference", Rule::Alone(EntryType::Reference, Series)),
    ("mvreference", Rule::Alone(EntryType::Reference, Series)),
    ("proceedings", Rule::Given(EntryType::Proceedings, Series)),
    ("mvproceedings", Rule::Given(EntryType::Proceedings, Series)),
    ("manual", Rule::Alone(EntryType::Reference, Serial)),
    ("periodical", Rule::Alone(EntryType::Periodical, Issue)),
    ("thesis", Rule::Institution(EntryType::Thesis)),
    ("phdthesis", Rule::Institution(EntryType::Thesis)),
    ("mastersthesis", Rule::Institution(EntryType::Thesis)),
    ("report", Rule::Institution(EntryType::Report)),
    ("techreport", Rule::Institution(EntryType::Report)),
    ("standard", Rule::Institution(EntryType::Report)),
    ("unpublished", Rule::Unpublished),
    ("letter", Rule::Letter),
    ("letters", Rule::Letter),
    ("patent", Rule::Patent),
    ("misc", Rule::Alone(EntryType::Misc, Serial)),
    ("set", Rule::Alone(EntryType::Misc, Serial)),
    ("artwork", Rule::Alone(EntryType::Artwork, Serial)),
    ("image", Rule::Alone(EntryType::Artwork, Serial)),
    ("software", Rule::Alone(EntryType::Repository, Serial)),
    (
        "softwareversion",
        Rule::Alone(EntryType::Repository, Serial),
    ),
    ("softwaremodule", Rule::Alone(EntryType::Repository, Serial)),
    ("codefragment", Rule::Alone(EntryType::Repository, Serial)),
    ("dataset", DATA_SET),
    ("data", DATA_SET),
    ("online", WEB),
    ("electronic", WEB),
    ("www", WEB),
    ("video", VIDEO),
    ("movie", VIDEO),
    ("audio", AUDIO),
    ("music", AUDIO),
    ("performance", Rule::Given(EntryType::Performance, Serial)),
    ("jurisdiction", CASE),
    ("legislation", LAW),
    ("legal", LAW),
];
