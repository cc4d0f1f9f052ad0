//! The names of entries' types.
ghost use Rattle.std.specs.Prelude.{◌≡◌};
ghost use Rattle.haya_entry.specs.EntryType.{type_name};

use haya_entry::EntryType;

/// The name of a type.
pub fn type_name(kind: EntryType) -> &'static str
    ensures { result.now ≡ type_name kind }
{
    match kind {
        EntryType::Article => "Article",
        EntryType::Chapter => "Chapter",
        EntryType::Entry => "Entry",
        EntryType::Anthos => "Anthos",
        EntryType::Report => "Report",
        EntryType::Thesis => "Thesis",
        EntryType::Web => "Web",
        EntryType::Scene => "Scene",
        EntryType::Artwork => "Artwork",
        EntryType::Patent => "Patent",
        EntryType::Case => "Case",
        EntryType::Newspaper => "Newspaper",
        EntryType::Legislation => "Legislation",
        EntryType::Manuscript => "Manuscript",
        EntryType::Post => "Post",
        EntryType::Misc => "Misc",
        EntryType::Performance => "Performance",
        EntryType::Periodical => "Periodical",
        EntryType::Proceedings => "Proceedings",
        EntryType::Book => "Book",
        EntryType::Blog => "Blog",
        EntryType::Reference => "Reference",
        EntryType::Conference => "Conference",
        EntryType::Anthology => "Anthology",
        EntryType::Repository => "Repository",
        EntryType::Thread => "Thread",
        EntryType::Video => "Video",
        EntryType::Audio => "Audio",
        EntryType::Exhibition => "Exhibition",
        EntryType::Original => "Original",
    }
}
