//! What the names of a selector stand for, asked of an entry.
ghost use Rattle.std.specs.Prelude.{◌≡◌, IfOk};
ghost use Rattle.haya_entry.specs.Tree.{Tree, view};
ghost use Rattle.haya_selectors.specs.Applied.{entry_value};
ghost use Rattle.haya_selectors.specs.Binds.{bound_select};
ghost use Rattle.haya_selectors.specs.Syntax.{syntax};

use crate::Selector;
use haya_entry::Entry;
use haya_text::OutOfMemory;
use std::alloc::Global;

/// What a selector's names can be asked of.
pub trait BoundSelect {
    // The entry, by value.
    ghost asked: { Self → Tree };

    /// The entry that the selector bound the name to last here. `None` where the selector doesn't
    /// hold here, or doesn't bind the name. The only error is `OutOfMemory`.
    fn bound_select(
        &self,
        alloc: Global,
        selector: &Selector,
        name: &str,
    ) -> Result<Option<&Entry>, OutOfMemory>
        ensures { IfOk result (λ o.
            entry_value o ≡ bound_select (syntax selector.now) (asked self.now) name.now) };
}

impl BoundSelect for Entry {
    ghost asked = { view };

    fn bound_select(
        &self,
        alloc: Global,
        selector: &Selector,
        name: &str,
    ) -> Result<Option<&Entry>, OutOfMemory> {
        selector.bound(alloc, self, name)
    }
}
