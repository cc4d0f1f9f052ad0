//! What is left out of the lines of an entry.
use haya_entry::FieldName;
use std::fmt;

/// A part of an entry that its lines can leave out. It displays as people say it: `title's short
/// form`, `page-range`.
#[derive(Clone, Copy, Debug, PartialEq, Eq)]
pub enum Part {
    /// The short form of the field's text.
    ShortForm(FieldName),
    /// The aliases of the people in the field.
    Alias(FieldName),
    /// The location of the publisher.
    PublisherLocation,
    /// The date on which the url was visited.
    VisitDate,
    /// The field, whose value no text in a line reads as.
    Field(FieldName),
    /// The key, which no line has: nothing of the entry and of its ancestors is printed.
    Key,
    /// The parents, whose ancestors are deeper than lines go.
    Parents,
}

impl fmt::Display for Part {
    fn fmt<W: fmt::Write>(&self, f: &mut fmt::Formatter<W>) -> fmt::Result {
        match self {
            Part::ShortForm(field) => write!(f, "{}'s short form", field.as_str()),
            Part::Alias(field) => write!(f, "{}'s alias", field.as_str()),
            Part::PublisherLocation => f.write_str("publisher's location"),
            Part::VisitDate => f.write_str("url's visit date"),
            Part::Field(field) => f.write_str(field.as_str()),
            Part::Key => f.write_str("key"),
            Part::Parents => f.write_str("parent"),
        }
    }
}

/// What is left out of an entry or of an ancestor.
#[derive(Debug, Drop, PartialEq, Eq)]
pub struct LeftOut {
    /// The key of the entry or the ancestor.
    pub key: String,
    /// What of it is left out.
    pub part: Part,
}
