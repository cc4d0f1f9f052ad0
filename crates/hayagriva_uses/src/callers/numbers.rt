//! The caller of `crates/haya_numbers/CALLING.md`.
ghost use Rattle.std.specs.Prelude.{◌≡◌, ◌↔◌, List, Ok, IfErr, IfOk, IsTrue};
ghost use Rattle.std.specs.Str.{chars};
ghost use Rattle.haya_numbers.specs.Pages.{ArePlural, PartView};
ghost use Rattle.haya_numbers.specs.PagesReading.{IsFaultIn, pages_read};

use haya_numbers::{PageRanges, PageRangesPartErr};
use haya_text::ReadText;
use std::alloc::Global;

/// Whether a text of pages tells more than one page, so that `pp.` is to stand before it.
pub fn tells_pages(alloc: Global, text: &str) -> Result<bool, PageRangesPartErr>
    ensures plural { IfOk result (λ yes. (parts : List PartView)
        × (pages_read (chars text.now) ≡ Ok parts) × (IsTrue yes ↔ ArePlural parts)) }
    ensures fault { IfErr result (IsFaultIn (pages_read (chars text.now))) }
{
    let pages = PageRanges::from_str(alloc, text)?;
    Ok(pages.is_plural())
}
