//! What is written of a text.
use json::Writer;
use std::alloc::Global;

/// The place of a key.
#[derive(Clone, Copy, Debug, Drop, PartialEq, Eq)]
pub struct Place {
    /// The number of its line among those that are read, from 1 on, or 0 in a text that has its own
    /// lines.
    pub line: usize,
    /// How many bytes are left there, of the line or of that text.
    pub left: usize,
}

/// The JSON that is written of a text, and the places of its keys.
#[derive(Drop)]
pub struct Output {
    /// Where memory comes from.
    pub alloc: Global,
    /// What is written.
    pub writer: Writer,
    /// The places of the keys that are written, in their order.
    pub keys: Vec<Place>,
}
