//! Tables that are printed of hits.
ghost use Rattle.std.specs.Prelude.{◌≡◌, IfOk, string_bytes};
ghost use Rattle.haya_asked.specs.Tables.{columns_text};

use haya_questions::{Place, Table, columns_text};
use haya_text::OutOfMemory;
use hayagriva::Hit;
use std::alloc::Global;

/// A table of hits: how it is written, the places of its columns, and whether a row of their names
/// comes before the others.
#[derive(Debug, Drop, PartialEq, Eq)]
pub struct Columns {
    /// How it is written.
    pub table: Table,
    /// The places of the columns.
    pub places: Vec<Place>,
    /// Whether the row of their names is wanted.
    pub has_header: bool,
}

impl Columns {
    /// The table of these hits. The only error is out of memory.
    pub fn text(&self, alloc: Global, hits: &[Hit]) -> Result<String, OutOfMemory>
        ensures { IfOk result (λ text. string_bytes text ≡ columns_text self.now hits.now) }
    {
        columns_text(
            alloc,
            hits,
            self.places.as_slice(),
            self.table,
            self.has_header,
        )
    }
}
