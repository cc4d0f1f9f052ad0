//! A node of a compiled selector.
use crate::names::NameSet;
use haya_entry::EntryType;

// A form of a selector, with its children by their numbers, its names as a set, and a bound name by
// its slot.
#[derive(Drop)]
pub(crate) enum Node {
    Wildcard,
    Entry(EntryType),
    // As many `!` as stand on each other: what they stand before, and how many there are but one.
    Neg(usize, usize),
    Binding(usize, usize),
    Attr(usize, NameSet),
    Alt(Vec<usize>),
    Multi(Vec<usize>),
    // As many `>` as stand on the left side of each other: what stands before the first, between
    // them, and behind the last.
    Ancestrage(usize, Vec<usize>, usize),
}
