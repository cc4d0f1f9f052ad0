//! What a selector answers at an entry.
ghost use Rattle.std.specs.Prelude.{◌≡◌, ◌+◌, ◌*◌, ◌≤◌, IfOk, OnOk};
ghost use Rattle.haya_entry.specs.Tree.{view, size};
ghost use Rattle.haya_selectors.specs.Applied.{Applied, entry_value};
ghost use Rattle.haya_selectors.specs.Binds.{bound_select};
ghost use Rattle.haya_selectors.specs.Calls.{calls};
ghost use Rattle.haya_selectors.specs.Holds.{holds as holds_for};
ghost use Rattle.haya_selectors.specs.Syntax.{syntax, nodes};

use crate::Selector;
use crate::bindings::Bindings;
use crate::compiled::Compiled;
use crate::prepared::PreparedSelector;
use haya_entry::{Entry, Steps};
use haya_text::OutOfMemory;
use std::alloc::Global;
use std::collections::HashMap;

impl Selector {
    /// What the selector's names stand for at an entry: each bound name with the entry that it was
    /// bound to last. `None` where the selector doesn't hold at the entry. The only error is
    /// `OutOfMemory`.
    pub fn apply<'e>(
        &self,
        alloc: Global,
        entry: &'e Entry,
    ) -> Result<Option<HashMap<String, &'e Entry>>, OutOfMemory>
        ensures { IfOk result (Applied (syntax self.now) (view entry.now)) }
    {
        self.apply_counted(alloc, entry, &mut Steps::new())
    }

    /// The same, with a tick for each call of the evaluator, one for a form of the selector at an
    /// entry, or a list of parents, that it is asked of: never more than the selector has forms
    /// times the entry has entries.
    #[tactic(auto, using(crate::proofs::Bounds::calls_at_most))]
    pub fn apply_counted<'e>(
        &self,
        alloc: Global,
        entry: &'e Entry,
        steps: &mut Steps,
    ) -> Result<Option<HashMap<String, &'e Entry>>, OutOfMemory>
        ensures answer { IfOk result (Applied (syntax self.now) (view entry.now)) }
        ensures ticks { OnOk result
            (steps.new ≡ steps.old + calls (syntax self.now) (view entry.now)) }
        ensures fewer { steps.new ≤ steps.old + calls (syntax self.now) (view entry.now) }
        ensures most { steps.new ≤ steps.old + nodes (syntax self.now) * size (view entry.now) }
    {
        PreparedSelector::new(alloc, self)?.apply(entry, steps)
    }

    /// Whether the selector holds at an entry. The only error is `OutOfMemory`.
    pub fn matches(&self, alloc: Global, entry: &Entry) -> Result<bool, OutOfMemory>
        ensures { IfOk result (λ b. b ≡ holds_for (syntax self.now) (view entry.now)) }
    {
        let compiled = Compiled::new(alloc, self)?;
        compiled.holds(alloc, entry, &mut Bindings::new(alloc), &mut Steps::new())
    }

    /// The entry that a name was bound to last at an entry. `None` where the selector doesn't hold
    /// at the entry, or doesn't bind the name. The only error is `OutOfMemory`.
    pub fn bound<'e>(
        &self,
        alloc: Global,
        entry: &'e Entry,
        name: &str,
    ) -> Result<Option<&'e Entry>, OutOfMemory>
        ensures { IfOk result (λ o.
            entry_value o ≡ bound_select (syntax self.now) (view entry.now) name.now) }
    {
        let compiled = Compiled::new(alloc, self)?;
        compiled.bound(alloc, entry, name)
    }
}
