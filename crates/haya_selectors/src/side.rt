//! The first side of a selector: the selector, the part that comes first in it, and so on. A text
//! without parentheses grows on this side alone, so what goes along it is a loop.
ghost use Rattle.std.specs.Prelude.{◌≡◌, ◌<◌, IfNone, IfOk, IfSome, false, true};
ghost use Rattle.haya_selectors.specs.declared.selector.Selector.{size-Selector};
ghost use Rattle.haya_selectors.specs.Side.{IsFirstSide, is_end, with_first};
ghost use Rattle.haya_selectors.specs.Syntax.{syntax};

use crate::Selector;
use haya_text::OutOfMemory;
use std::alloc::Global;

impl Selector {
    // The part that comes first.
    fn first(&self) -> Option<&Selector>
        ensures deep { IfSome result (λ first. size-Selector first.now < size-Selector self.now) }
        ensures syntax { IfSome result (λ first.
            with_first (syntax self.now) (syntax first.now) ≡ syntax self.now) }
        ensures has { IfSome result (λ _. is_end (syntax self.now) ≡ false) }
        ensures end { IfNone result (is_end (syntax self.now) ≡ true) }
    {
        match self {
            Selector::Wildcard | Selector::Entry(_) => None,
            Selector::Neg(inner) | Selector::Binding(_, inner) | Selector::Attr(inner, _) => {
                Some(inner)
            }
            Selector::Alt(members) | Selector::Multi(members) => members.first(),
            Selector::Ancestrage(child, _) => Some(child),
        }
    }

    // The selectors of the first side, from the whole down, and behind them the one at its end.
    pub(crate) fn first_side(
        &self,
        alloc: Global,
    ) -> Result<(Vec<&Selector>, &Selector), OutOfMemory>
        ensures { IfOk result (λ side. IsFirstSide self.now side.0.items side.1.now) }
    {
        let mut above = Vec::new(alloc);
        let mut at = self;
        'down: while let Some(first) = at.first() {
            above.push(at)?;
            at = first;
        }
        Ok((above, at))
    }
}
