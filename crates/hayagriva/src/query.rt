//! The entries that the selector of a text picks from a library.
ghost use Rattle.std.specs.Prelude.{◌≡◌, ◌+◌, ◌*◌, ◌≤◌, ℕ, List, IfErr, IfOk, OnOk, sum_by};
ghost use Rattle.std.specs.Str.{chars};
ghost use Rattle.haya_entry.specs.Tree.{size};
ghost use Rattle.haya_selectors.specs.declared.selector.SelectorError.TheVariants.{OutOfMemory as OutOfMemoryError};
ghost use Rattle.haya_selectors.specs.Calls.{calls};
ghost use Rattle.hayagriva.specs.Query.{AreHits, HitsAre, NameIs, QueryGives};
ghost use Rattle.hayagriva.specs.QueryIter.{QueryStarts};
ghost use Rattle.hayagriva.specs.QueryState.{query_state};
ghost use Rattle.haya_selectors.specs.Reading.{IfFails, IfReads};
ghost use Rattle.haya_selectors.specs.Syntax.{syntax, nodes};

mod iter;

use crate::Library;
use haya_entry::{Entry, Steps};
use haya_selectors::{PreparedSelector, Selector, SelectorError};
use haya_text::OutOfMemory;
pub use iter::Query;
use iter::next_hit;
use std::alloc::Global;
use std::collections::HashMap;

/// An entry that a selector picks, and the entries that its names are bound to.
#[derive(Drop)]
pub struct Hit<'s> {
    /// The entry of the library.
    pub entry: &'s Entry,
    /// For each name that the selector binds there, the entry or the ancestor that it stands for.
    pub bindings: HashMap<String, &'s Entry>,
}

impl Library {
    /// The entries that the selector of the text picks, in the library's order, each with its
    /// bindings.
    ///
    /// The error is the grammar's first fault where the text is no selector, and `OutOfMemory`
    /// else. `steps` ticks once for each call of the evaluator: at most as often as the selector
    /// has forms times the library has entries, with all their ancestors.
    pub fn query<'s>(
        &'s self,
        alloc: Global,
        text: &str,
        steps: &mut Steps,
    ) -> Result<Vec<Hit<'s>>, SelectorError>
        ensures answer { QueryGives (chars text.now) self.now result }
        ensures entries { HitsAre (chars text.now) self.now result }
        ensures bound { (name : List ℕ) → NameIs (chars text.now) name result }
        ensures error { IfErr result (λ e. IfReads (chars text.now) (λ _. e ≡ OutOfMemoryError)) }
        ensures ticks { OnOk result (IfReads (chars text.now)
            (λ s. steps.new ≡ steps.old + sum_by (calls s) self.now)) }
        ensures most { IfReads (chars text.now)
            (λ s. steps.new ≤ steps.old + nodes s * sum_by size self.now) }
        ensures refused { IfFails (chars text.now) (λ _. steps.new ≡ steps.old) }
    {
        let selector = Selector::parse(alloc, text)?;
        let hits = self.hits(alloc, &selector, steps)?;
        Ok(hits)
    }

    /// The same hits one at a time: each entry is evaluated when the hits before its place were
    /// given and another is asked for, so a caller that stops early pays for no more. The query
    /// counts its own steps.
    ///
    /// The text is read here: the error is the grammar's first fault where it is no selector, and
    /// `OutOfMemory` else. No entry is evaluated yet.
    pub fn query_iter(&self, alloc: Global, text: &str) -> Result<Query<'_>, SelectorError>
        ensures starts { QueryStarts (chars text.now) self.now result }
        ensures computed { IfOk result (λ query. IfReads (chars text.now)
            (λ s. query ≡ query_state s self.now 0)) }
        ensures error { IfErr result (λ e. IfReads (chars text.now) (λ _. e ≡ OutOfMemoryError)) }
    {
        let selector = Selector::parse(alloc, text)?;
        let prepared = PreparedSelector::new(alloc, &selector)?;
        Ok(Query::new(prepared, self.iter()))
    }

    /// The same hits, of a selector that was read before. The only error is out of memory.
    pub fn hits<'s>(
        &'s self,
        alloc: Global,
        selector: &Selector,
        steps: &mut Steps,
    ) -> Result<Vec<Hit<'s>>, OutOfMemory>
        ensures hits { IfOk result (λ hits. AreHits (syntax selector.now) self.now hits.items) }
        ensures ticks { OnOk result
            (steps.new ≡ steps.old + sum_by (calls (syntax selector.now)) self.now) }
        ensures most { steps.new ≤ steps.old + nodes (syntax selector.now) * sum_by size self.now }
    {
        let mut prepared = PreparedSelector::new(alloc, selector)?;
        let mut hits = Vec::new(alloc);
        let mut rest = self.iter();
        'hits: while let Some(hit) = next_hit(&mut prepared, &mut rest, steps)? {
            hits.push(hit)?;
        }
        Ok(hits)
    }
}
