//! The caller of `crates/haya_selectors/CALLING.md`.
ghost use Rattle.std.specs.Prelude.{◌≡◌, IfOk};
ghost use Rattle.std.specs.Str.{chars};
ghost use Rattle.haya_entry.specs.Tree.{view};
ghost use Rattle.haya_selectors.specs.Holds.{holds};
ghost use Rattle.haya_selectors.specs.Reading.{TextReads};
ghost use Rattle.haya_selectors.specs.Syntax.{Syntax};

use haya_entry::Entry;
use haya_selectors::{Selector, SelectorError};
use std::alloc::Global;

/// Whether the selector that the text reads as holds at the entry.
pub fn holds_at(alloc: Global, text: &str, entry: &Entry) -> Result<bool, SelectorError>
    ensures { IfOk result (λ b. (s : Syntax) × TextReads (chars text.now) s
        × (b ≡ holds s (view entry.now))) }
{
    let selector = Selector::parse(alloc, text)?;
    Ok(selector.matches(alloc, entry)?)
}
