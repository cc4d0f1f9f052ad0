//! What the elements of a text are.
use haya_csl::ItemKey;

/// What the elements of a library's text are.
#[derive(Clone, Copy, Debug, Drop, PartialEq, Eq)]
pub enum ElementKind {
    /// Items of a list in CSL-JSON, whose entries have this member as key.
    Items(ItemKey),
    /// Members of an object: entries of hayagriva's file format, written as JSON.
    Members,
    /// Lines of JSON.
    JsonLines,
    /// Entries in lines, each with those of its parents.
    Lines,
    /// Members of a map over lines: entries of hayagriva's file format, written as YAML.
    Yaml,
}
