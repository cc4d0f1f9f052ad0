//! What is read of a text.
use std::fmt;

/// A field of an entry.
#[derive(Drop)]
pub struct Field {
    /// Its name, in lower case.
    pub name: String,
    /// Its text, which isn't white: the texts of its pieces, joined.
    pub text: String,
}

/// An entry.
#[derive(Drop)]
pub struct Entry {
    /// Its type, in lower case.
    pub kind: String,
    /// Its key, as it is written.
    pub key: String,
    /// Its fields, in order, of which no two have one name.
    pub fields: Vec<Field>,
}

/// Something that is passed over.
#[derive(Drop)]
pub enum PassedOver {
    /// A field whose name comes again in its entry: its name, in lower case.
    Field(String),
    /// An entry whose key came before: its type, in lower case.
    Entry(String),
    /// A name of no string, which stands for itself: in lower case.
    Name(String),
    /// A sign `@` that begins no entry.
    Sign,
}

impl fmt::Display for PassedOver {
    ghost use Rattle.std.specs.Prelude.{Some};
    ghost use Rattle.haya_bibtex_text.specs.BibliographyViews.{passed_over_text};

    ghost output = { λ p. Some (passed_over_text p) };

    /// The name under which it is counted: `title`, `@misc`, `#name` or `@`.
    fn fmt<W: fmt::Write>(&self, f: &mut fmt::Formatter<W>) -> fmt::Result {
        match self {
            PassedOver::Field(name) => write!(f, "{name}"),
            PassedOver::Entry(kind) => write!(f, "@{kind}"),
            PassedOver::Name(name) => write!(f, "#{name}"),
            PassedOver::Sign => write!(f, "@"),
        }
    }
}

/// The entries of a text, and what is passed over in it.
#[derive(Drop)]
pub struct Bibliography {
    /// The entries, in order, of which no two have one key.
    pub entries: Vec<Entry>,
    /// What is passed over, in order, as often as it comes.
    pub passed_over: Vec<PassedOver>,
}
