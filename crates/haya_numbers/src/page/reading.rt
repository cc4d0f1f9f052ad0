//! Reads pages.
ghost use Rattle.std.specs.Prelude.{◌≡◌, ◌∷◌};
ghost use Rattle.std.specs.Str.{chars};
ghost use Rattle.haya_numbers.specs.Cuts.{dash_split, escaped_split};
ghost use Rattle.haya_numbers.specs.Numeric.{numeric_view};
ghost use Rattle.haya_numbers.specs.Pages.{part_view, parts, EscapedRange, Range};
ghost use Rattle.haya_numbers.specs.PagesReading.{both_read, cut_read, half_read, halves_read};
ghost use Rattle.haya_numbers.specs.PagesReading.{inner_read, part_read, pages_read, Reads};

use super::cuts::{split_dash, split_escaped};
use super::split_pages;
use crate::{Numeric, PageRanges, PageRangesPart, PageRangesPartErr};
use haya_text::ReadText;
use std::alloc::{AllocError, Global};

impl ReadText for PageRangesPart {
    type Fault = PageRangesPartErr;

    ghost use Rattle.std.specs.Prelude.{◌≡◌, ◌≢◌, false, None, Some, Ok, Err, IfOk, IfErr};
    ghost use Rattle.std.specs.Result.{result_ok};
    ghost use Rattle.std.specs.Str.{chars};
    ghost use Rattle.haya_numbers.specs.Pages.{PartView, part_view, is_part_memory};
    ghost use Rattle.haya_numbers.specs.PagesReading.{part_read, IsFaultIn};
    ghost use Rattle.haya_numbers.specs.declared.numeric.NumericError.TheVariants as number;
    ghost use Rattle.haya_numbers.specs.declared.page.PageRangesPartErr.TheVariants as fault;

    ghost Value = { PartView };

    ghost value = { part_view };

    ghost reads = { λ text. result_ok (part_read (chars text)) };

    /// A separator, a page, or a range with a hyphen, an en dash or an escaped hyphen. A fault
    /// other than out of memory is the one that the text has: `Empty` is nothing but white space,
    /// `NumericErr` is the first half that is no number, `Malformed` is a third
    /// half behind two numbers.
    fn from_str(alloc: Global, text: &str) -> Result<PageRangesPart, PageRangesPartErr>
        ensures ok { IfOk result (λ v. result_ok (part_read (chars text.now))
            ≡ Some (part_view v)) }
        ensures fault { IfErr result (λ e. is_part_memory e ≡ false →
            result_ok (part_read (chars text.now)) ≡ None) }
        ensures value { IfOk result (λ v. part_read (chars text.now) ≡ Ok (part_view v)) }
        ensures exact { IfErr result (IsFaultIn (part_read (chars text.now))) }
        ensures never { result ≢ Err (fault.NumericErr number.OutOfMemory) }
    {
        read_part(alloc, text)
    }
}

impl ReadText for PageRanges {
    type Fault = PageRangesPartErr;

    ghost use Rattle.std.specs.Prelude.{◌≡◌, ◌≢◌, List, false, None, Some, Ok, Err, IfOk, IfErr};
    ghost use Rattle.std.specs.Result.{result_ok};
    ghost use Rattle.std.specs.Str.{chars};
    ghost use Rattle.haya_numbers.specs.Pages.{PartView, parts, is_part_memory};
    ghost use Rattle.haya_numbers.specs.PagesReading.{pages_read, IsFaultIn};
    ghost use Rattle.haya_numbers.specs.declared.numeric.NumericError.TheVariants as number;
    ghost use Rattle.haya_numbers.specs.declared.page.PageRangesPartErr.TheVariants as fault;

    ghost Value = { List PartView };

    ghost value = { parts };

    ghost reads = { λ text. result_ok (pages_read (chars text)) };

    /// A part for each piece of the text, in order. A fault other than out of memory is that of the
    /// first piece that has one.
    fn from_str(alloc: Global, text: &str) -> Result<PageRanges, PageRangesPartErr>
        ensures ok { IfOk result (λ v. result_ok (pages_read (chars text.now)) ≡ Some (parts v)) }
        ensures fault { IfErr result (λ e. is_part_memory e ≡ false →
            result_ok (pages_read (chars text.now)) ≡ None) }
        ensures value { IfOk result (λ v. pages_read (chars text.now) ≡ Ok (parts v)) }
        ensures exact { IfErr result (IsFaultIn (pages_read (chars text.now))) }
        ensures never { result ≢ Err (fault.NumericErr number.OutOfMemory) }
    {
        read_pieces(alloc, text)
    }
}

// Reads piece by piece.
fn read_pieces(alloc: Global, text: &str) -> Result<PageRanges, PageRangesPartErr>
    ensures { Reads parts (pages_read (chars text.now)) result }
{
    let mut ranges = Vec::with_capacity(alloc, 1)?;
    'pieces: for piece in split_pages(text) {
        let part = read_part(alloc, piece)?;
        make_room(&mut ranges)?;
        ranges.push(part)?;
    }
    ranges.shrink_to_fit();
    Ok(PageRanges { ranges })
}

// Room for a part more, and where there is none yet, for half as many parts again: doubled room
// would take more than the parts themselves. Most texts have one part, and most others three: two
// and what separates them.
fn make_room(ranges: &mut Vec<PageRangesPart>) -> Result<(), AllocError>
    ensures { ranges.new.items ≡ ranges.old.items }
{
    let count = ranges.len();
    if count == ranges.capacity() {
        ranges.reserve_exact(count / 2 + 2)?;
    }
    Ok(())
}

// Reads a part.
fn read_part(alloc: Global, text: &str) -> Result<PageRangesPart, PageRangesPartErr>
    ensures { Reads part_view (part_read (chars text.now)) result }
{
    read_inner(alloc, text.trim())
}

// Reads a part that has no white space at its ends.
fn read_inner(alloc: Global, text: &str) -> Result<PageRangesPart, PageRangesPartErr>
    ensures { Reads part_view (inner_read (chars text.now)) result }
{
    match text {
        "" => Err(PageRangesPartErr::Empty),
        "&" => Ok(PageRangesPart::Ampersand),
        "," => Ok(PageRangesPart::Comma),
        _ => read_cut(alloc, text),
    }
}

// Reads a page or a range.
fn read_cut(alloc: Global, text: &str) -> Result<PageRangesPart, PageRangesPartErr>
    ensures { Reads part_view (cut_read (chars text.now)) result }
{
    if let Some((start, behind)) = split_escaped(text) {
        return read_escaped(alloc, start, behind);
    }
    if let Some((start, behind)) = split_dash(text) {
        return read_dashed(alloc, start, behind);
    }
    Ok(PageRangesPart::SinglePage(read_half(alloc, text)?))
}

// Reads a range, where `behind` is what follows its first escaped hyphen.
fn read_escaped(
    alloc: Global,
    start: &str,
    behind: &str,
) -> Result<PageRangesPart, PageRangesPartErr>
    ensures { let halves = chars start.now ∷ escaped_split (chars behind.now) in
        Reads part_view (halves_read EscapedRange halves) result }
{
    if let Some((end, _)) = split_escaped(behind) {
        read_both(alloc, start, end)?;
        return Err(PageRangesPartErr::Malformed);
    }
    let (start, end) = read_both(alloc, start, behind)?;
    Ok(PageRangesPart::EscapedRange(start, end))
}

// Reads a range, where `behind` is what follows its first dash.
fn read_dashed(
    alloc: Global,
    start: &str,
    behind: &str,
) -> Result<PageRangesPart, PageRangesPartErr>
    ensures { let halves = chars start.now ∷ dash_split (chars behind.now) in
        Reads part_view (halves_read Range halves) result }
{
    if let Some((end, _)) = split_dash(behind) {
        read_both(alloc, start, end)?;
        return Err(PageRangesPartErr::Malformed);
    }
    let (start, end) = read_both(alloc, start, behind)?;
    Ok(PageRangesPart::Range(start, end))
}

// Reads the two halves of a range.
fn read_both(alloc: Global, start: &str, end: &str) -> Result<(Numeric, Numeric), PageRangesPartErr>
    ensures { let both = both_read (chars start.now) (chars end.now) in
        Reads (λ p. (numeric_view p.0, numeric_view p.1)) both result }
{
    let start = read_half(alloc, start)?;
    let end = read_half(alloc, end)?;
    Ok((start, end))
}

// Reads the number that a half of a range, or a whole page, is.
fn read_half(alloc: Global, half: &str) -> Result<Numeric, PageRangesPartErr>
    ensures { Reads numeric_view (half_read (chars half.now)) result }
{
    Ok(Numeric::from_str(alloc, half.trim())?)
}
