//! A selector compiled once, to be asked of one entry after another.
ghost use Rattle.std.specs.Prelude.{◌≡◌, ◌+◌, ◌≤◌, IfOk, OnOk};
ghost use Rattle.haya_entry.specs.Tree.{view};
ghost use Rattle.haya_selectors.specs.Applied.{Applied};
ghost use Rattle.haya_selectors.specs.Calls.{calls};
ghost use Rattle.haya_selectors.specs.Syntax.{syntax};

use crate::Selector;
use crate::bindings::Bindings;
use crate::compiled::Compiled;
use haya_entry::{Entry, Steps};
use haya_text::OutOfMemory;
use std::alloc::Global;
use std::collections::HashMap;
use std::marker::Model;

/// A selector compiled once. It may be asked of entries of any lifetime, so that an entry can be
/// let go before the next is there. By value it is the selector.
///
/// ```
/// let selector = CompiledSelector::new(alloc, &Selector::parse(alloc, "a:book")?)?;
/// for line in lines {
///     let entry = read_entry(alloc, line)?;
///     if let Some(bindings) = selector.apply(&entry, &mut steps)? {
///         // `a` is bound to the book
///     }
/// }
/// ```
#[derive(Drop)]
pub struct CompiledSelector {
    alloc: Global,
    compiled: Compiled,
}

impl Model for CompiledSelector {
    ghost use Rattle.haya_selectors.specs.Root.{compiled_syntax};
    ghost use Rattle.haya_selectors.specs.Syntax.{Syntax};
    ghost use Rattle.haya_selectors.specs.SyntaxCode.{syntax_coded};

    ghost Value = { Syntax };

    ghost coded = { syntax_coded };

    ghost view = { λ s. compiled_syntax s.compiled };
}

impl CompiledSelector {
    /// The selector, compiled. The only error is `OutOfMemory`.
    pub fn new(alloc: Global, selector: &Selector) -> Result<CompiledSelector, OutOfMemory>
        ensures { IfOk result (λ compiled. compiled ≡ syntax selector.now) }
    {
        Ok(CompiledSelector {
            alloc,
            compiled: Compiled::new(alloc, selector)?,
        })
    }

    /// What the selector's names stand for at an entry, with a tick for each call of the evaluator,
    /// as `Selector::apply_counted` says.
    pub fn apply<'e>(
        &self,
        entry: &'e Entry,
        steps: &mut Steps,
    ) -> Result<Option<HashMap<String, &'e Entry>>, OutOfMemory>
        ensures answer { IfOk result (Applied self.now (view entry.now)) }
        ensures ticks { OnOk result (steps.new ≡ steps.old + calls self.now (view entry.now)) }
        ensures fewer { steps.new ≤ steps.old + calls self.now (view entry.now) }
    {
        self.apply_over(entry, &mut Bindings::new(self.alloc), steps)
    }

    // The same, over memory that was used before.
    fn apply_over<'e>(
        &self,
        entry: &'e Entry,
        found: &mut Bindings<'e>,
        steps: &mut Steps,
    ) -> Result<Option<HashMap<String, &'e Entry>>, OutOfMemory>
        ensures answer { IfOk result (Applied self.now (view entry.now)) }
        ensures ticks { OnOk result (steps.new ≡ steps.old + calls self.now (view entry.now)) }
        ensures fewer { steps.new ≤ steps.old + calls self.now (view entry.now) }
    {
        let holds = self.compiled.holds(self.alloc, entry, found, steps)?;
        if !holds {
            return Ok(None);
        }
        Ok(Some(found.to_map(self.alloc, &self.compiled.nodes)?))
    }
}

/// A selector compiled once, to be asked of entries that all stay: what was allocated for one is
/// used for the next. By value it is the selector.
///
/// ```
/// let mut selector = PreparedSelector::new(alloc, &Selector::parse(alloc, "a:book")?)?;
/// for entry in &entries {
///     if let Some(bindings) = selector.apply(entry, &mut steps)? {
///         // `a` is bound to the book
///     }
/// }
/// ```
#[derive(Drop)]
pub struct PreparedSelector<'e> {
    selector: CompiledSelector,
    // A buffer.
    found: Bindings<'e>,
}

impl<'e> Model for PreparedSelector<'e> {
    ghost use Rattle.haya_selectors.specs.Syntax.{Syntax};
    ghost use Rattle.haya_selectors.specs.SyntaxCode.{syntax_coded};

    ghost Value = { Syntax };

    ghost coded = { syntax_coded };

    ghost view = { λ p. p.selector };
}

impl<'e> PreparedSelector<'e> {
    /// The selector, compiled. The only error is `OutOfMemory`.
    pub fn new(alloc: Global, selector: &Selector) -> Result<PreparedSelector<'e>, OutOfMemory>
        ensures { IfOk result (λ prepared. prepared ≡ syntax selector.now) }
    {
        Ok(PreparedSelector {
            selector: CompiledSelector::new(alloc, selector)?,
            found: Bindings::new(alloc),
        })
    }

    /// What the selector's names stand for at an entry, with a tick for each call of the evaluator,
    /// as `Selector::apply_counted` says.
    pub fn apply(
        &mut self,
        entry: &'e Entry,
        steps: &mut Steps,
    ) -> Result<Option<HashMap<String, &'e Entry>>, OutOfMemory>
        ensures selector { self.new ≡ self.old }
        ensures answer { IfOk result (Applied self.old (view entry.now)) }
        ensures ticks { OnOk result (steps.new ≡ steps.old + calls self.old (view entry.now)) }
        ensures fewer { steps.new ≤ steps.old + calls self.old (view entry.now) }
    {
        self.selector.apply_over(entry, &mut self.found, steps)
    }
}
