//! The types of entries.
ghost use Rattle.std.specs.Prelude.{◌≡◌, find};
ghost use Rattle.std.specs.Result.{result_ok};
ghost use Rattle.haya_entry.specs.ParentTypes.{default_parent};
ghost use Rattle.haya_entry.specs.EntryType.{type_name, in_lower_case, is_named, type_read};

use std::str::FromStr;
use thiserror::Error;

/// The type of an entry: what kind of work it is.
#[derive(Clone, Copy, Debug, PartialEq, Eq, Hash)]
pub enum EntryType {
    /// A short text that appears in a greater publication.
    Article,
    /// A section of a greater work, such as a book.
    Chapter,
    /// A short piece on a subject, as in a work of reference or a data set.
    Entry,
    /// A text that appears in an anthology.
    Anthos,
    /// A document on a matter, often by an organization.
    Report,
    /// A work for a degree of a university.
    Thesis,
    /// A piece that is native to the internet.
    Web,
    /// A part of a show, a film or another performed work.
    Scene,
    /// A work of art.
    Artwork,
    /// A technical document that an office keeps, so that an invention is protected.
    Patent,
    /// A case at a court of law.
    Case,
    /// A newspaper, or its issue of a day.
    Newspaper,
    /// A law, or the draft of one.
    Legislation,
    /// A text that is handed in for publication.
    Manuscript,
    /// A short message on a network, a forum or the like.
    Post,
    /// What no other type fits.
    Misc,
    /// A live performance.
    Performance,
    /// A publication that appears in issues, such as a journal.
    Periodical,
    /// The published record of a conference.
    Proceedings,
    /// A long work in one binding.
    Book,
    /// Articles of one author or group on a web site.
    Blog,
    /// A work of reference, such as a dictionary or a manual.
    Reference,
    /// A conference, the event itself.
    Conference,
    /// A collection of texts on one subject.
    Anthology,
    /// A store of code, data or papers that is open to readers.
    Repository,
    /// A discussion that a post began.
    Thread,
    /// A work of moving pictures.
    Video,
    /// A work of recorded sound.
    Audio,
    /// A show of works of art.
    Exhibition,
    /// The work as it first appeared, where the entry is a later edition of it.
    Original,
}

/// A text that is the name of no type.
#[derive(Clone, Copy, Debug, PartialEq, Eq, Error)]
#[error("unknown type")]
pub struct UnknownType;

impl EntryType {
    /// Each type once, in the order of the variants.
    pub const ALL: [EntryType; 30] = [
        EntryType::Article,
        EntryType::Chapter,
        EntryType::Entry,
        EntryType::Anthos,
        EntryType::Report,
        EntryType::Thesis,
        EntryType::Web,
        EntryType::Scene,
        EntryType::Artwork,
        EntryType::Patent,
        EntryType::Case,
        EntryType::Newspaper,
        EntryType::Legislation,
        EntryType::Manuscript,
        EntryType::Post,
        EntryType::Misc,
        EntryType::Performance,
        EntryType::Periodical,
        EntryType::Proceedings,
        EntryType::Book,
        EntryType::Blog,
        EntryType::Reference,
        EntryType::Conference,
        EntryType::Anthology,
        EntryType::Repository,
        EntryType::Thread,
        EntryType::Video,
        EntryType::Audio,
        EntryType::Exhibition,
        EntryType::Original,
    ];

    /// The type that a parent has where nothing else is known of it: a Chapter appears in a Book.
    ///
    /// | Type | Type of its parent |
    /// |---|---|
    /// | Article | Periodical |
    /// | Chapter | Book |
    /// | Entry | Reference |
    /// | Anthos, Legislation | Anthology |
    /// | Scene | Video |
    /// | Artwork | Exhibition |
    /// | Web, Post, Video, Audio | the same |
    /// | any other | Misc |
    pub fn default_parent(&self) -> EntryType
        ensures { result ≡ default_parent self.now }
    {
        match self {
            EntryType::Article => EntryType::Periodical,
            EntryType::Chapter => EntryType::Book,
            EntryType::Entry => EntryType::Reference,
            EntryType::Anthos | EntryType::Legislation => EntryType::Anthology,
            EntryType::Scene => EntryType::Video,
            EntryType::Artwork => EntryType::Exhibition,
            EntryType::Web => EntryType::Web,
            EntryType::Post => EntryType::Post,
            EntryType::Video => EntryType::Video,
            EntryType::Audio => EntryType::Audio,
            _ => EntryType::Misc,
        }
    }

    // The name as it is written here.
    fn written(self) -> &'static str
        ensures { result.now ≡ type_name self }
    {
        match self {
            EntryType::Article => "Article",
            EntryType::Chapter => "Chapter",
            EntryType::Entry => "Entry",
            EntryType::Anthos => "Anthos",
            EntryType::Report => "Report",
            EntryType::Thesis => "Thesis",
            EntryType::Web => "Web",
            EntryType::Scene => "Scene",
            EntryType::Artwork => "Artwork",
            EntryType::Patent => "Patent",
            EntryType::Case => "Case",
            EntryType::Newspaper => "Newspaper",
            EntryType::Legislation => "Legislation",
            EntryType::Manuscript => "Manuscript",
            EntryType::Post => "Post",
            EntryType::Misc => "Misc",
            EntryType::Performance => "Performance",
            EntryType::Periodical => "Periodical",
            EntryType::Proceedings => "Proceedings",
            EntryType::Book => "Book",
            EntryType::Blog => "Blog",
            EntryType::Reference => "Reference",
            EntryType::Conference => "Conference",
            EntryType::Anthology => "Anthology",
            EntryType::Repository => "Repository",
            EntryType::Thread => "Thread",
            EntryType::Video => "Video",
            EntryType::Audio => "Audio",
            EntryType::Exhibition => "Exhibition",
            EntryType::Original => "Original",
        }
    }

    /// The name in lower case, as it is written in lines and in files.
    pub fn lower_name(self) -> &'static str
        ensures { result.now ≡ in_lower_case (type_name self) }
    {
        match self {
            EntryType::Article => "article",
            EntryType::Chapter => "chapter",
            EntryType::Entry => "entry",
            EntryType::Anthos => "anthos",
            EntryType::Report => "report",
            EntryType::Thesis => "thesis",
            EntryType::Web => "web",
            EntryType::Scene => "scene",
            EntryType::Artwork => "artwork",
            EntryType::Patent => "patent",
            EntryType::Case => "case",
            EntryType::Newspaper => "newspaper",
            EntryType::Legislation => "legislation",
            EntryType::Manuscript => "manuscript",
            EntryType::Post => "post",
            EntryType::Misc => "misc",
            EntryType::Performance => "performance",
            EntryType::Periodical => "periodical",
            EntryType::Proceedings => "proceedings",
            EntryType::Book => "book",
            EntryType::Blog => "blog",
            EntryType::Reference => "reference",
            EntryType::Conference => "conference",
            EntryType::Anthology => "anthology",
            EntryType::Repository => "repository",
            EntryType::Thread => "thread",
            EntryType::Video => "video",
            EntryType::Audio => "audio",
            EntryType::Exhibition => "exhibition",
            EntryType::Original => "original",
        }
    }

    // Whether the text is the name, as it is written here or in lower case.
    fn is_named(self, text: &str) -> bool
        ensures { result ≡ is_named text.now self }
    {
        text == self.written() || text == self.lower_name()
    }
}

impl FromStr for EntryType {
    type Err = UnknownType;

    ghost from_str_gives = { λ text read. result_ok read ≡ type_read text };

    /// The type with this name: a name as it is written here, or all of it in lower case.
    fn from_str(name: &str) -> Result<EntryType, UnknownType> {
        first_named(&EntryType::ALL, name).ok_or(UnknownType)
    }
}

// The first of the types with this name.
fn first_named(types: &[EntryType], name: &str) -> Option<EntryType>
    ensures { result ≡ find (is_named name.now) types.now }
{
    types
        .iter()
        .copied()
        .find(|entry_type| entry_type.is_named(name))
}
