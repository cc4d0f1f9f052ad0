//! The fields of an entry by their names.
ghost use Rattle.std.specs.Prelude.{◌≡◌, find};
ghost use Rattle.std.specs.Result.{result_ok};
ghost use Rattle.haya_entry.specs.FieldName.{field_name, field_named, is_field_named};

use std::str::FromStr;
use thiserror::Error;

/// A name that an entry can have: it has the name of each field that is set, and of each serial
/// number that is kept under the name, as `doi`. In texts, as those of lines and of selectors, a
/// field goes by what `as_str` answers.
///
/// ```text
/// "volume-total".parse::<FieldName>() == Ok(FieldName::VolumeTotal)
/// FieldName::VolumeTotal.as_str() == "volume-total"
/// ```
#[derive(Clone, Copy, Debug, PartialEq, Eq, Hash)]
pub enum FieldName {
    /// The title.
    Title,
    /// The place where the work was made or is kept.
    Location,
    /// The organization that the work comes from.
    Organization,
    /// The archive that keeps the work.
    Archive,
    /// The place of that archive.
    ArchiveLocation,
    /// The number that the archive or library has it under.
    CallNumber,
    /// A note on the work.
    Note,
    /// A summary of what the work says.
    Abstract,
    /// The kind of work within its type.
    Genre,
    /// The people who made the work.
    Author,
    /// The people who chose and prepared what it has.
    Editor,
    /// People with another part in the work.
    Affiliated,
    /// When the work came out, or was made.
    Date,
    /// Who published the work.
    Publisher,
    /// Where the work is found on the web.
    Url,
    /// Its place among the issues of its parent, or among the episodes of a series.
    Issue,
    /// The chapter of its parent that the work is found in.
    Chapter,
    /// Which volume, part or season of its parent the work is.
    Volume,
    /// Which edition of the work it is.
    Edition,
    /// Of how many volumes the work is.
    VolumeTotal,
    /// How many pages the work has.
    PageTotal,
    /// The pages of its parent that the work takes up.
    PageRange,
    /// From when to when in its parent the work runs.
    TimeRange,
    /// How long the work runs.
    Runtime,
    /// The numbers that catalogues know the work by, all of them.
    SerialNumber,
    /// The language of the work.
    Language,
    /// The DOI, one of the serial numbers, as are those below.
    Doi,
    /// The ISBN, the number of a book.
    Isbn,
    /// The ISSN, the number of a periodical.
    Issn,
    /// The PMID, the number in PubMed.
    Pmid,
    /// The PMCID, the number in PubMed Central.
    Pmcid,
    /// The arXiv identifier.
    Arxiv,
}

/// A text that is the name of no field.
#[derive(Clone, Copy, Debug, PartialEq, Eq, Error)]
#[error("unknown field")]
pub struct UnknownField;

impl FieldName {
    /// Each name once, in the order of the variants.
    pub const ALL: [FieldName; 32] = [
        FieldName::Title,
        FieldName::Location,
        FieldName::Organization,
        FieldName::Archive,
        FieldName::ArchiveLocation,
        FieldName::CallNumber,
        FieldName::Note,
        FieldName::Abstract,
        FieldName::Genre,
        FieldName::Author,
        FieldName::Editor,
        FieldName::Affiliated,
        FieldName::Date,
        FieldName::Publisher,
        FieldName::Url,
        FieldName::Issue,
        FieldName::Chapter,
        FieldName::Volume,
        FieldName::Edition,
        FieldName::VolumeTotal,
        FieldName::PageTotal,
        FieldName::PageRange,
        FieldName::TimeRange,
        FieldName::Runtime,
        FieldName::SerialNumber,
        FieldName::Language,
        FieldName::Doi,
        FieldName::Isbn,
        FieldName::Issn,
        FieldName::Pmid,
        FieldName::Pmcid,
        FieldName::Arxiv,
    ];

    /// The name as it is written: all in lower case, with `-` between words.
    pub fn as_str(self) -> &'static str
        ensures { result.now ≡ field_name self }
    {
        match self {
            FieldName::Title => "title",
            FieldName::Location => "location",
            FieldName::Organization => "organization",
            FieldName::Archive => "archive",
            FieldName::ArchiveLocation => "archive-location",
            FieldName::CallNumber => "call-number",
            FieldName::Note => "note",
            FieldName::Abstract => "abstract",
            FieldName::Genre => "genre",
            FieldName::Author => "author",
            FieldName::Editor => "editor",
            FieldName::Affiliated => "affiliated",
            FieldName::Date => "date",
            FieldName::Publisher => "publisher",
            FieldName::Url => "url",
            FieldName::Issue => "issue",
            FieldName::Chapter => "chapter",
            FieldName::Volume => "volume",
            FieldName::Edition => "edition",
            FieldName::VolumeTotal => "volume-total",
            FieldName::PageTotal => "page-total",
            FieldName::PageRange => "page-range",
            FieldName::TimeRange => "time-range",
            FieldName::Runtime => "runtime",
            FieldName::SerialNumber => "serial-number",
            FieldName::Language => "language",
            FieldName::Doi => "doi",
            FieldName::Isbn => "isbn",
            FieldName::Issn => "issn",
            FieldName::Pmid => "pmid",
            FieldName::Pmcid => "pmcid",
            FieldName::Arxiv => "arxiv",
        }
    }
}

impl FromStr for FieldName {
    type Err = UnknownField;

    ghost from_str_gives = { λ text read. result_ok read ≡ field_named text };

    /// The field with this name, written exactly as `as_str` answers.
    fn from_str(name: &str) -> Result<FieldName, UnknownField> {
        first_named(&FieldName::ALL, name).ok_or(UnknownField)
    }
}

// The first of the fields with this name.
fn first_named(fields: &[FieldName], name: &str) -> Option<FieldName>
    ensures { result ≡ find (is_field_named name.now) fields.now }
{
    fields.iter().copied().find(|field| field.as_str() == name)
}
