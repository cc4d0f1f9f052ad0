//! Prints pages.
ghost use Rattle.std.specs.Prelude.{Some};
ghost use Rattle.haya_numbers.specs.Pages.{part_view, parts};
ghost use Rattle.haya_numbers.specs.PagesPrinted.{shown_pages, shown_part};

use crate::{PageRanges, PageRangesPart};
use std::fmt;

impl fmt::Display for PageRangesPart {
    ghost output = { λ p. Some (shown_part (part_view p)) };

    /// The separator, the page, or both ends of the range with a hyphen between them.
    fn fmt<W: fmt::Write>(&self, f: &mut fmt::Formatter<W>) -> fmt::Result {
        match self {
            PageRangesPart::Ampersand => write!(f, "&"),
            PageRangesPart::Comma => write!(f, ", "),
            PageRangesPart::SinglePage(page) => write!(f, "{page}"),
            PageRangesPart::EscapedRange(start, end) | PageRangesPart::Range(start, end) => {
                write!(f, "{start}-{end}")
            }
        }
    }
}

impl fmt::Display for PageRanges {
    ghost output = { λ v. Some (shown_pages (parts v)) };

    /// The parts in order.
    fn fmt<W: fmt::Write>(&self, f: &mut fmt::Formatter<W>) -> fmt::Result {
        for part in &self.ranges {
            write!(f, "{part}")?;
        }
        Ok(())
    }
}
