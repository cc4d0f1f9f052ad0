//! The order of pages.
ghost use Rattle.std.specs.Prelude.{◌≡◌, map, option_map};
ghost use Rattle.std.specs.Option.{option_cmp};
ghost use Rattle.haya_numbers.specs.Numeric.{csl_order, numeric_view};
ghost use Rattle.haya_numbers.specs.Pages.{part_view, parts};
ghost use Rattle.haya_numbers.specs.PagesOrder.{kind_place, pages_order, part_order};

use crate::{Numeric, PageRanges, PageRangesPart};
use std::cmp::Ordering;

impl PageRanges {
    /// The order of the first parts that differ. Of two that begin alike the shorter is first.
    pub fn csl_cmp(&self, other: &PageRanges) -> Ordering
        ensures { result ≡ pages_order (parts self.now) (parts other.now) }
    {
        let mut left = self.ranges.as_slice();
        let mut right = other.ranges.as_slice();
        'parts: while let (Some((a, left_behind)), Some((b, right_behind))) = (
            left.split_first(),
            right.split_first(),
        ) {
            let order = a.csl_cmp(b);
            if order != Ordering::Equal {
                return order;
            }
            left = left_behind;
            right = right_behind;
        }
        left.len().cmp(&right.len())
    }
}

impl PageRangesPart {
    /// The order of kinds: `Ampersand`, `Comma`, `SinglePage`, `EscapedRange`, `Range`. Two of one
    /// kind go by their starts, and then by their ends.
    pub fn csl_cmp(&self, other: &PageRangesPart) -> Ordering
        ensures { result ≡ part_order (part_view self.now) (part_view other.now) }
    {
        self.kind_place()
            .cmp(&other.kind_place())
            .then(cmp_numbers(self.start(), other.start()))
            .then(cmp_numbers(self.end(), other.end()))
    }

    // The place of the part's kind in their order.
    fn kind_place(&self) -> u8
        ensures { result ≡ kind_place (part_view self.now) }
    {
        match self {
            PageRangesPart::Ampersand => 0,
            PageRangesPart::Comma => 1,
            PageRangesPart::SinglePage(_) => 2,
            PageRangesPart::EscapedRange(_, _) => 3,
            PageRangesPart::Range(_, _) => 4,
        }
    }
}

// The order of two numbers; a missing one is first.
fn cmp_numbers(a: Option<&Numeric>, b: Option<&Numeric>) -> Ordering
    ensures { result ≡ option_cmp csl_order
        (option_map (λ n. numeric_view n.now) a.entry)
        (option_map (λ n. numeric_view n.now) b.entry) }
{
    match (a, b) {
        (None, None) => Ordering::Equal,
        (None, Some(_)) => Ordering::Less,
        (Some(_), None) => Ordering::Greater,
        (Some(a), Some(b)) => a.csl_cmp(b),
    }
}
