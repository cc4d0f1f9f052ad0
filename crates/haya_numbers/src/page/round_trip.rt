//! Texts from which pages are read again.
ghost use Rattle.std.specs.Prelude.{◌≡◌, Some, IfOk, string_bytes};
ghost use Rattle.haya_numbers.specs.Pages.{part_view, parts};
ghost use Rattle.haya_numbers.specs.PagesRoundTrip.{exact_pages, exact_part, reads_as};
ghost use Rattle.haya_numbers.specs.PagesRoundTrip.{round_trip_text, same_pages};

use crate::numeric::Exact;
use crate::{PageRanges, PageRangesPart, PageRangesPartErr};
use haya_text::{OutOfMemory, ReadFault, ReadText};
use std::alloc::Global;
use std::fmt;

impl PageRanges {
    /// A text from which the pages are read again, if they were read from one: what is shown of
    /// them where that reads as them. Otherwise nothing stands behind a comma, each number has its
    /// exact text, a hyphen that was escaped is escaped again, and any other range has an en dash.
    /// The only error is out of memory.
    #[tactic(auto, using(crate::proofs::RoundTrips::pages_shown))]
    pub fn round_trip_text(&self, alloc: Global) -> Result<String, OutOfMemory>
        ensures { IfOk result (λ text. string_bytes text ≡ round_trip_text (parts self.now)) }
    {
        let shown = format!(in alloc; "{self}")?;
        if self.reads_back() {
            return Ok(shown);
        }
        if reads_as(alloc, shown.as_str(), self)? {
            return Ok(shown);
        }
        Ok(format!(in alloc; "{}", ExactPages(self))?)
    }
}

// Whether the text reads as the pages.
fn reads_as(alloc: Global, text: &str, pages: &PageRanges) -> Result<bool, OutOfMemory>
    ensures { IfOk result (λ b. b ≡ reads_as text.now (parts pages.now)) }
{
    match PageRanges::from_str(alloc, text) {
        Ok(read) => Ok(is_same(&read, pages)),
        Err(fault) if fault.is_out_of_memory() => Err(OutOfMemory),
        Err(_) => Ok(false),
    }
}

// Whether two lists of pages are equal by value.
fn is_same(a: &PageRanges, b: &PageRanges) -> bool
    ensures { result ≡ same_pages (parts a.now) (parts b.now) }
{
    a == b
}

// Pages by the text that reads as them, if any does.
#[derive(Drop)]
struct ExactPages<'a>(&'a PageRanges);

impl fmt::Display for ExactPages<'_> {
    ghost output = { λ pages. Some (exact_pages (parts pages.0.now)) };

    fn fmt<W: fmt::Write>(&self, f: &mut fmt::Formatter<W>) -> fmt::Result {
        for part in &self.0.ranges {
            write!(f, "{}", ExactPart(part))?;
        }
        Ok(())
    }
}

// A part of them.
#[derive(Drop)]
struct ExactPart<'a>(&'a PageRangesPart);

impl fmt::Display for ExactPart<'_> {
    ghost output = { λ part. Some (exact_part (part_view part.0.now)) };

    fn fmt<W: fmt::Write>(&self, f: &mut fmt::Formatter<W>) -> fmt::Result {
        match self.0 {
            PageRangesPart::Ampersand => f.write_str("&"),
            PageRangesPart::Comma => f.write_str(","),
            PageRangesPart::SinglePage(page) => write!(f, "{}", Exact(page)),
            PageRangesPart::EscapedRange(start, end) => {
                write!(f, "{}\\-{}", Exact(start), Exact(end))
            }
            PageRangesPart::Range(start, end) => write!(f, "{}–{}", Exact(start), Exact(end)),
        }
    }
}
