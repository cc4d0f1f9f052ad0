//! Why a line, or the end, of a list isn't answered.

/// Why a line, or the end, of a list isn't answered. `L` is what is wrong with a line, and `E` is
/// why its answerer refuses an entry.
#[derive(Debug, Drop)]
pub enum ListError<L, E> {
    /// A line has a fault, or an allocation failed.
    Line(L),
    /// An entry is refused.
    Entry(E),
}

/// Where the answers to the entries of a list stop.
#[derive(Debug, Drop)]
pub struct Stopped<F, A, L> {
    /// Why.
    pub fault: F,
    /// What is asked of an entry, as it is left there.
    pub answerer: A,
    /// What reads an entry from a line, as it is left there: nothing where no reader is given.
    pub reader: L,
}

/// Why an entry isn't read from a line. `E` is what its reader says of the line.
#[derive(Debug, Drop)]
pub enum EntryError<E> {
    /// The line with this number, from 1 on, says no entry.
    Line(usize, E),
    /// There are more lines than can be counted.
    TooMany,
}
