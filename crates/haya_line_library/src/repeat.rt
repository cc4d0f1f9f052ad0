//! A key that comes again.

/// A key that an entry has which isn't the first with it.
#[derive(Debug, Drop, PartialEq, Eq)]
pub struct Repeat {
    /// The key.
    pub key: String,
    /// The number of the line at which the entry begins, from 1 on.
    pub line: usize,
}
