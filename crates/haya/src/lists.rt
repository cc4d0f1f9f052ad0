//! What `--list` prints: the names that a selector or an option takes, each with what it is.
use haya_command::{Form, SourceForm};
use haya_formats::Format;
use hayagriva::types::{EntryType, FieldName};
use std::alloc::{AllocError, Global};

/// What is listed.
#[derive(Clone, Copy, Debug, Drop, PartialEq, Eq)]
pub enum List {
    /// The types of entries.
    Types,
    /// The names that an entry can have.
    Fields,
    /// The formats that are read and printed.
    Formats,
}

impl List {
    /// Each once, in the order of the variants.
    pub const ALL: [List; 3] = [List::Types, List::Fields, List::Formats];

    /// The name that the command gives it.
    pub fn name(self) -> &'static str {
        match self {
            List::Types => "types",
            List::Fields => "fields",
            List::Formats => "formats",
        }
    }

    /// The list with this name.
    pub fn named(name: &str) -> Option<List> {
        List::ALL.iter().copied().find(|list| list.name() == name)
    }

    /// A line for each name.
    pub fn text(self, alloc: Global) -> Result<String, AllocError> {
        match self {
            List::Types => types_text(alloc),
            List::Fields => fields_text(alloc),
            List::Formats => formats_text(alloc),
        }
    }
}

// A line for each type.
fn types_text(alloc: Global) -> Result<String, AllocError> {
    let mut text = String::new(alloc);
    for entry_type in EntryType::ALL {
        push_row(
            &mut text,
            entry_type.lower_name(),
            12,
            type_words(entry_type),
        )?;
    }
    Ok(text)
}

// A line for each name.
fn fields_text(alloc: Global) -> Result<String, AllocError> {
    let mut text = String::new(alloc);
    for field in FieldName::ALL {
        push_row(&mut text, field.as_str(), 17, field_words(field))?;
    }
    Ok(text)
}

// A line for each format that is read, and for each other form that is printed.
fn formats_text(alloc: Global) -> Result<String, AllocError> {
    let mut text = String::new(alloc);
    for format in Format::ALL {
        let use_words = if is_printed(format) {
            "read and printed: "
        } else {
            "read: "
        };
        push_name(&mut text, format.name(), 12)?;
        text.push_str(use_words)?;
        text.push_str(format_words(format))?;
        text.push('\n')?;
    }
    for form in Form::ALL {
        if Format::named(form.name()).is_none() {
            push_name(&mut text, form.name(), 12)?;
            text.push_str("printed: ")?;
            text.push_str(form_words(form))?;
            text.push('\n')?;
        }
    }
    push_name(&mut text, SourceForm::Source.name(), 12)?;
    text.push_str("printed: the entries as the input has them, byte for byte\n")?;
    for (name, words) in TABLES {
        push_name(&mut text, name, 12)?;
        text.push_str("printed: ")?;
        text.push_str(words)?;
        text.push('\n')?;
    }
    Ok(text)
}

// Whether entries are printed in this format.
fn is_printed(format: Format) -> bool {
    Form::named(format.name()).is_some() || SourceForm::named(format.name()).is_some()
}

// The tables that are printed.
const TABLES: &[(&str, &str)] = &[
    (
        "csv",
        "a table with commas, a line a hit: --columns says of which places",
    ),
    ("tsv", "the same with tabs"),
];

// Puts a line of a name and of words behind a text.
fn push_row(text: &mut String, name: &str, width: usize, words: &str) -> Result<(), AllocError> {
    push_name(text, name, width)?;
    text.push_str(words)?;
    text.push('\n')?;
    Ok(())
}

// Puts a name behind a text, with blanks up to this width.
fn push_name(text: &mut String, name: &str, width: usize) -> Result<(), AllocError> {
    text.push_str(name)?;
    for _ in name.len()..width {
        text.push(' ')?;
    }
    Ok(())
}

// What a format is.
fn format_words(format: Format) -> &'static str {
    match format {
        Format::Hayagriva => "hayagriva's file format, written as JSON",
        Format::Yaml => "hayagriva's file format, as people write it; -f hayagriva reads both",
        Format::Bibtex => "BibTeX and BibLaTeX: .bib files, as LaTeX's users have them",
        Format::CslJson(_) => "CSL-JSON, as Zotero and pandoc write it",
        Format::JsonLines => "a line of JSON an entry: its key, and itself in hayagriva's format",
        Format::Lines => "a line an entry: a depth, a key, a type and fields, with tabs between",
    }
}

// What a form is.
fn form_words(form: Form) -> &'static str {
    match form {
        Form::Keys => "a line a hit: its key, and name=key for each name that is bound",
        Form::Lines => format_words(Format::Lines),
        Form::Hayagriva => format_words(Format::Hayagriva),
        Form::Yaml => format_words(Format::Yaml),
        Form::JsonLines => format_words(Format::JsonLines),
    }
}

// What a type is.
fn type_words(entry_type: EntryType) -> &'static str {
    match entry_type {
        EntryType::Article => "a short text that appears in a greater publication",
        EntryType::Chapter => "a section of a greater work, such as a book",
        EntryType::Entry => "a short piece on a subject, as in a work of reference",
        EntryType::Anthos => "a text that appears in an anthology",
        EntryType::Report => "a document on a matter, often by an organization",
        EntryType::Thesis => "a work for a degree of a university",
        EntryType::Web => "a piece that is native to the internet",
        EntryType::Scene => "a part of a show, a film or another performed work",
        EntryType::Artwork => "a work of art",
        EntryType::Patent => "a technical document that protects an invention",
        EntryType::Case => "a case at a court of law",
        EntryType::Newspaper => "a newspaper, or its issue of a day",
        EntryType::Legislation => "a law, or the draft of one",
        EntryType::Manuscript => "a text that is handed in for publication",
        EntryType::Post => "a short message on a network, a forum or the like",
        EntryType::Misc => "what no other type fits",
        EntryType::Performance => "a live performance",
        EntryType::Periodical => "a publication that appears in issues, such as a journal",
        EntryType::Proceedings => "the published record of a conference",
        EntryType::Book => "a long work in one binding",
        EntryType::Blog => "articles of one author or group on a web site",
        EntryType::Reference => "a work of reference, such as a dictionary or a manual",
        EntryType::Conference => "a conference, the event itself",
        EntryType::Anthology => "a collection of texts on one subject",
        EntryType::Repository => "a store of code, data or papers that is open to readers",
        EntryType::Thread => "a discussion that a post began",
        EntryType::Video => "a work of moving pictures",
        EntryType::Audio => "a work of recorded sound",
        EntryType::Exhibition => "a show of works of art",
        EntryType::Original => "the work as it first appeared",
    }
}

// What a name is.
fn field_words(field: FieldName) -> &'static str {
    match field {
        FieldName::Title => "the title",
        FieldName::Location => "where the work was made or is kept",
        FieldName::Organization => "the organization that the work comes from",
        FieldName::Archive => "the archive that keeps the work",
        FieldName::ArchiveLocation => "the place of that archive",
        FieldName::CallNumber => "the number that the archive or library has it under",
        FieldName::Note => "a note on the work",
        FieldName::Abstract => "a summary of what the work says",
        FieldName::Genre => "the kind of work within its type",
        FieldName::Author => "the people who made the work",
        FieldName::Editor => "the people who chose and prepared what it has",
        FieldName::Affiliated => "people with another part in the work",
        FieldName::Date => "when the work came out, or was made",
        FieldName::Publisher => "who published the work",
        FieldName::Url => "where the work is found on the web",
        FieldName::Issue => "its place among the issues of its parent",
        FieldName::Chapter => "the chapter of its parent that the work is found in",
        FieldName::Volume => "which volume, part or season of its parent the work is",
        FieldName::Edition => "which edition of the work it is",
        FieldName::VolumeTotal => "of how many volumes the work is",
        FieldName::PageTotal => "how many pages the work has",
        FieldName::PageRange => "the pages of its parent that the work takes up",
        FieldName::TimeRange => "from when to when in its parent the work runs",
        FieldName::Runtime => "how long the work runs",
        FieldName::SerialNumber => "the numbers that catalogues know the work by, all of them",
        FieldName::Language => "the language of the work",
        FieldName::Doi => "the DOI, one of the serial numbers, as are those below",
        FieldName::Isbn => "the ISBN, the number of a book",
        FieldName::Issn => "the ISSN, the number of a periodical",
        FieldName::Pmid => "the PMID, the number in PubMed",
        FieldName::Pmcid => "the PMCID, the number in PubMed Central",
        FieldName::Arxiv => "the arXiv identifier",
    }
}
