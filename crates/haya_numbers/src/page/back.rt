//! Which pages read back from their print.
ghost use Rattle.std.specs.Prelude.{◌≡◌};
ghost use Rattle.haya_numbers.specs.Numeric.{numeric_view};
ghost use Rattle.haya_numbers.specs.Pages.{part_view, parts};
ghost use Rattle.haya_numbers.specs.PagesBack.{are_readable, fits, is_plain_number, is_plain_part};
ghost use Rattle.haya_numbers.specs.PagesBack.{is_separator_part};

use crate::{Numeric, PageRanges, PageRangesPart};

impl PageRanges {
    /// Whether these are pages and ranges with one separator between two, of single numbers
    /// from 0 on without affixes, where no hyphen is escaped. Such pages read back from
    /// their print as themselves.
    pub fn reads_back(&self) -> bool
        ensures { result ≡ are_readable (parts self.now) }
    {
        let mut wants_page = true;
        for part in &self.ranges {
            if !part.fits(wants_page) {
                return false;
            }
            wants_page = !wants_page;
        }
        !wants_page
    }
}

impl PageRangesPart {
    // Whether this may stand where a page or a range is wanted, or a separator.
    fn fits(&self, wants_page: bool) -> bool
        ensures { result ≡ fits wants_page (part_view self.now) }
    {
        if wants_page {
            self.is_plain()
        } else {
            self.is_separator()
        }
    }

    // Whether this is a page or a range of plain numbers.
    fn is_plain(&self) -> bool
        ensures { result ≡ is_plain_part (part_view self.now) }
    {
        match self {
            PageRangesPart::SinglePage(page) => is_plain_number(page),
            PageRangesPart::Range(start, end) => is_plain_number(start) && is_plain_number(end),
            PageRangesPart::Ampersand
            | PageRangesPart::Comma
            | PageRangesPart::EscapedRange(_, _) => false,
        }
    }

    // Whether this is a comma or an ampersand.
    fn is_separator(&self) -> bool
        ensures { result ≡ is_separator_part (part_view self.now) }
    {
        matches!(self, PageRangesPart::Ampersand | PageRangesPart::Comma)
    }
}

// Whether this is one number from 0 on, without affixes.
fn is_plain_number(number: &Numeric) -> bool
    ensures { result ≡ is_plain_number (numeric_view number.now) }
{
    match number.single_number() {
        Some(number) => number >= 0,
        None => false,
    }
}
