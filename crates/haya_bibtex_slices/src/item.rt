//! An item of a text.

/// The key of an entry, and those of the entries that it inherits from.
#[derive(Debug, Drop)]
pub struct EntryKeys {
    /// Its key, as it is written.
    pub key: String,
    /// The keys in its fields `xdata` and `crossref`, in that order. They are read without the
    /// strings of the text.
    pub sources: Vec<String>,
}

/// An item of a `.bib` text, as it is in the text: from its `@` to the bracket that closes it.
#[derive(Debug, Drop)]
pub struct BibtexItem<'t> {
    /// The number of its text.
    pub number: usize,
    /// The item.
    pub text: &'t str,
    /// Of an entry its keys; none of a preamble and of the definition of strings.
    pub entry: Option<EntryKeys>,
}
