//! A compiled selector, asked of entries.
ghost use Rattle.std.specs.Prelude.{◌≡◌, ◌<◌, [], IfOk, if◌then◌else◌};
ghost use Rattle.haya_entry.specs.Tree.{at, view};
ghost use Rattle.haya_selectors.specs.Applied.{entry_value};
ghost use Rattle.haya_selectors.specs.Binds.{binds, bound_select};
ghost use Rattle.haya_selectors.specs.BoundNames.{bound_names, distinct_names};
ghost use Rattle.haya_selectors.specs.Calls.{calls};
ghost use Rattle.haya_selectors.specs.Evaluation.{Ticks, pair_entries, pairs_view};
ghost use Rattle.haya_selectors.specs.Holds.{holds};
ghost use Rattle.haya_selectors.specs.Nodes.{node_count, slot_names};
ghost use Rattle.haya_selectors.specs.Syntax.{syntax};

use crate::Selector;
use crate::bindings::Bindings;
use crate::evaluate::holds_at;
use crate::names::Asked;
use crate::nodes::{Nodes, Slots};
use haya_entry::{Entry, Steps};
use haya_text::OutOfMemory;
use std::alloc::Global;

// A selector as nodes, of which the root stands for the whole.
#[derive(Drop)]
pub(crate) struct Compiled {
    pub(crate) nodes: Nodes,
    root: usize,
    ghost inside: { root < node_count nodes },
}

impl Compiled {
    ghost use Rattle.haya_selectors.specs.Root.{compiled_syntax};

    // The compiled form of a selector: it has one slot for each name that is bound.
    pub(crate) fn new(alloc: Global, selector: &Selector) -> Result<Compiled, OutOfMemory>
        ensures stands { IfOk result (λ compiled. compiled_syntax compiled ≡ syntax selector.now) }
        ensures names { IfOk result (λ compiled. slot_names compiled.nodes ≡
            distinct_names (bound_names (syntax selector.now))) }
    {
        let mut nodes = Nodes::new(alloc);
        let root = nodes.add(alloc, &mut Slots::new(alloc), selector)?;
        nodes.mark_simple(alloc)?;
        Ok(Compiled { nodes, root })
    }

    // Whether it holds at an entry. What it binds there is in `found` then, in place of what was
    // there.
    pub(crate) fn holds<'e>(
        &self,
        alloc: Global,
        entry: &'e Entry,
        found: &mut Bindings<'e>,
        steps: &mut Steps,
    ) -> Result<bool, OutOfMemory>
        ensures answer { IfOk result
            (λ b. b ≡ holds (compiled_syntax self.now) (view entry.now)) }
        ensures bound { IfOk result (λ b. pairs_view (slot_names self.now.nodes) found.new ≡
            pair_entries (at (view entry.now))
            (if b then binds (compiled_syntax self.now) (view entry.now) else [])) }
        ensures ticks { Ticks result steps.old steps.new
            (calls (compiled_syntax self.now) (view entry.now)) }
    {
        found.truncate(0);
        let asked = Asked::new(entry, self.nodes.asked_again());
        holds_at(&self.nodes, self.root, alloc, &asked, found, steps)
    }

    // The entry that a name was bound to last at an entry, as `Selector::bound` says.
    pub(crate) fn bound<'e>(
        &self,
        alloc: Global,
        entry: &'e Entry,
        name: &str,
    ) -> Result<Option<&'e Entry>, OutOfMemory>
        ensures { IfOk result (λ o. entry_value o ≡
            bound_select (compiled_syntax self.now) (view entry.now) name.now) }
    {
        let mut found = Bindings::new(alloc);
        if self.holds(alloc, entry, &mut found, &mut Steps::new())? {
            Ok(found.last(&self.nodes, name))
        } else {
            Ok(None)
        }
    }
}
