//! Which elements are asked as they come.
ghost use Rattle.std.specs.Prelude.{◌≡◌};
ghost use Rattle.haya_source_stream.specs.Kinds.{streamed};

use haya_csl::ItemKey;
use haya_source::ElementKind;

/// What elements are that are asked as they come.
#[derive(Clone, Copy, Debug, Drop, PartialEq, Eq)]
pub enum StreamedKind {
    /// Items of a list in CSL-JSON, whose entries have this member as key.
    Items(ItemKey),
    /// Members of an object: entries of hayagriva's file format, written as JSON.
    Members,
    /// Lines of JSON.
    JsonLines,
    /// Entries in lines, each with those of its parents.
    Lines,
}

impl StreamedKind {
    /// The kind that elements are of, where they are asked as they come.
    pub fn streamed(kind: ElementKind) -> Option<StreamedKind>
        ensures { result ≡ streamed kind }
    {
        match kind {
            ElementKind::Items(by) => Some(StreamedKind::Items(by)),
            ElementKind::Members => Some(StreamedKind::Members),
            ElementKind::JsonLines => Some(StreamedKind::JsonLines),
            ElementKind::Lines => Some(StreamedKind::Lines),
            _ => None,
        }
    }
}
