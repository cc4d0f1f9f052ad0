//! The entries that are picked.
ghost use Rattle.std.specs.Prelude.{◌≡◌, IfErr, IfOk, IfSome};
ghost use Rattle.std.specs.Str.{chars};
ghost use Rattle.hayagriva.specs.Fault.{fault};
ghost use Rattle.hayagriva.specs.Query.{AreHits};
ghost use Rattle.hayagriva.specs.Reading.{IfReads, TextFails, TextReads};
ghost use Rattle.hayagriva.specs.Syntax.{Neg, Syntax, syntax};
ghost use Rattle.haya_command.specs.Picks.{wanted};

use haya_text::OutOfMemory;
use hayagriva::{Hit, Library, Selector, SelectorError, Steps};
use std::alloc::Global;

/// The entries of the library where the selector of the text holds, or, where `invert` says so,
/// those where it doesn't, which bind no name; in the library's order. The error is the grammar's
/// first fault where the text is no selector, or out of memory.
pub fn picks<'l>(
    alloc: Global,
    library: &'l Library,
    text: &str,
    invert: bool,
) -> Result<Vec<Hit<'l>>, SelectorError>
    ensures picked { IfOk result (λ hits. (s : Syntax) × TextReads (chars text.now) s
        × AreHits (wanted invert s) library.now hits.items) }
    ensures hits { IfOk result (λ hits. IfReads (chars text.now)
        (λ s. AreHits (wanted invert s) library.now hits.items)) }
    ensures error { IfErr result (λ e. IfSome (fault e) (TextFails (chars text.now))) }
{
    let read = Selector::parse(alloc, text)?;
    let selector = if invert { negated(alloc, read)? } else { read };
    let hits = library.hits(alloc, &selector, &mut Steps::new())?;
    Ok(hits)
}

/// A selector that holds where this one doesn't.
pub(crate) fn negated(alloc: Global, selector: Selector) -> Result<Selector, OutOfMemory>
    ensures { IfOk result (λ s. syntax s ≡ Neg (syntax selector)) }
{
    Ok(Selector::Neg(Box::new(alloc, selector)?))
}
