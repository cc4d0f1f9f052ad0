//! Makes pages of numbers, and copies of pages.
ghost use Rattle.std.specs.Prelude.{◌≡◌, ◌↔◌, ◌<◌, ◌≤◌, ◌^◌, [], ◌∷◌, pos, Err, IfOk, IfErr};
ghost use Rattle.std.specs.Prelude.{MatchResult};
ghost use Rattle.haya_numbers.specs.Pages.{page_of, part_view, parts, FitsPage};

use crate::{Numeric, PageNumberError, PageRanges, PageRangesPart};
use haya_text::{OutOfMemory, TryClone};
use std::alloc::Global;
use std::num::TryFromIntError;

impl From<i32> for PageRangesPart {
    ghost use Rattle.std.specs.Prelude.{◌≡◌};
    ghost use Rattle.haya_numbers.specs.Pages.{page_of, part_view};

    ghost from_gives = { λ n p. part_view p ≡ page_of n };

    /// The page of that number.
    fn from(value: i32) -> PageRangesPart {
        PageRangesPart::SinglePage(Numeric::from(value))
    }
}

impl TryFrom<u32> for PageRangesPart {
    type Error = TryFromIntError;

    ghost try_from_gives = { λ n r. MatchResult r
        (λ p. (n < 2 ^ 31) × (part_view p ≡ page_of (pos n)))
        (λ _. 2 ^ 31 ≤ n) };

    /// The page of that number, unless it is greater than the greatest `i32`.
    fn try_from(value: u32) -> Result<PageRangesPart, TryFromIntError> {
        Ok(PageRangesPart::from(i32::try_from(value)?))
    }
}

impl TryFrom<i64> for PageRangesPart {
    type Error = TryFromIntError;

    ghost try_from_gives = { λ n r. MatchResult r
        (λ p. FitsPage n × (part_view p ≡ page_of n))
        (λ _. FitsPage n → ⊥) };

    /// The page of that number, unless it is no `i32`.
    fn try_from(value: i64) -> Result<PageRangesPart, TryFromIntError> {
        Ok(PageRangesPart::from(i32::try_from(value)?))
    }
}

impl TryFrom<u64> for PageRangesPart {
    type Error = TryFromIntError;

    ghost try_from_gives = { λ n r. MatchResult r
        (λ p. (n < 2 ^ 31) × (part_view p ≡ page_of (pos n)))
        (λ _. 2 ^ 31 ≤ n) };

    /// The page of that number, unless it is greater than the greatest `i32`.
    fn try_from(value: u64) -> Result<PageRangesPart, TryFromIntError> {
        Ok(PageRangesPart::from(i32::try_from(value)?))
    }
}

impl PageRanges {
    /// The page of that number. The only fault is `OutOfMemory`.
    pub fn from_i32(alloc: Global, value: i32) -> Result<PageRanges, PageNumberError>
        ensures page { IfOk result (λ v. parts v ≡ page_of value ∷ []) }
        ensures fault { IfErr result (λ e. e ≡ PageNumberError.OutOfMemory) }
    {
        PageRanges::of_part(alloc, PageRangesPart::from(value))
    }

    /// The page of that number. `OutOfRange` is a number greater than the greatest `i32`.
    pub fn try_from_u32(alloc: Global, value: u32) -> Result<PageRanges, PageNumberError>
        ensures page { IfOk result (λ v. parts v ≡ page_of (pos value) ∷ []) }
        ensures out_of_range { (result ≡ Err PageNumberError.OutOfRange) ↔ (2 ^ 31 ≤ value) }
    {
        match PageRangesPart::try_from(value) {
            Ok(part) => PageRanges::of_part(alloc, part),
            Err(_) => Err(PageNumberError::OutOfRange),
        }
    }

    /// The page of that number. `OutOfRange` is a number that is no `i32`.
    pub fn try_from_i64(alloc: Global, value: i64) -> Result<PageRanges, PageNumberError>
        ensures page { IfOk result (λ v. parts v ≡ page_of value ∷ []) }
        ensures out_of_range { (result ≡ Err PageNumberError.OutOfRange) ↔ (FitsPage value → ⊥) }
    {
        match PageRangesPart::try_from(value) {
            Ok(part) => PageRanges::of_part(alloc, part),
            Err(_) => Err(PageNumberError::OutOfRange),
        }
    }

    /// The page of that number. `OutOfRange` is a number greater than the greatest `i32`.
    pub fn try_from_u64(alloc: Global, value: u64) -> Result<PageRanges, PageNumberError>
        ensures page { IfOk result (λ v. parts v ≡ page_of (pos value) ∷ []) }
        ensures out_of_range { (result ≡ Err PageNumberError.OutOfRange) ↔ (2 ^ 31 ≤ value) }
    {
        match PageRangesPart::try_from(value) {
            Ok(part) => PageRanges::of_part(alloc, part),
            Err(_) => Err(PageNumberError::OutOfRange),
        }
    }

    // This one part.
    fn of_part(alloc: Global, part: PageRangesPart) -> Result<PageRanges, PageNumberError>
        ensures part { IfOk result (λ v. parts v ≡ part_view part ∷ []) }
        ensures fault { IfErr result (λ e. e ≡ PageNumberError.OutOfMemory) }
    {
        let mut ranges = Vec::new(alloc);
        ranges.push(part)?;
        Ok(PageRanges { ranges })
    }

    /// A copy, equal to these pages.
    pub fn try_clone(&self, alloc: Global) -> Result<PageRanges, OutOfMemory>
        ensures { IfOk result (λ copy. parts copy ≡ parts self.now) }
    {
        Ok(PageRanges {
            ranges: self.ranges.try_clone(alloc)?,
        })
    }
}

impl PageRangesPart {
    /// A copy, equal to this part.
    pub fn try_clone(&self, alloc: Global) -> Result<PageRangesPart, OutOfMemory>
        ensures { IfOk result (λ copy. part_view copy ≡ part_view self.now) }
    {
        match self {
            PageRangesPart::Ampersand => Ok(PageRangesPart::Ampersand),
            PageRangesPart::Comma => Ok(PageRangesPart::Comma),
            PageRangesPart::EscapedRange(start, end) => {
                let start = start.try_clone(alloc)?;
                Ok(PageRangesPart::EscapedRange(start, end.try_clone(alloc)?))
            }
            PageRangesPart::SinglePage(page) => {
                Ok(PageRangesPart::SinglePage(page.try_clone(alloc)?))
            }
            PageRangesPart::Range(start, end) => {
                let start = start.try_clone(alloc)?;
                Ok(PageRangesPart::Range(start, end.try_clone(alloc)?))
            }
        }
    }
}

impl TryClone for PageRanges {
    ghost use Rattle.std.specs.Prelude.{List};
    ghost use Rattle.haya_numbers.specs.Pages.{PartView, parts};

    ghost View = { List PartView };

    ghost view = { parts };

    fn try_clone(&self, alloc: Global) -> Result<PageRanges, OutOfMemory> {
        self.try_clone(alloc)
    }
}

impl TryClone for PageRangesPart {
    ghost use Rattle.haya_numbers.specs.Pages.{PartView, part_view};

    ghost View = { PartView };

    ghost view = { part_view };

    fn try_clone(&self, alloc: Global) -> Result<PageRangesPart, OutOfMemory> {
        self.try_clone(alloc)
    }
}
