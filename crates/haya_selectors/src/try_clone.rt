//! Copies of selectors, made from the end of the first side up, and of the reasons why a text is
//! none.
ghost use Rattle.std.specs.Prelude.{◌≡◌, IfOk, true};
ghost use Rattle.haya_selectors.specs.Fault.{fault};
ghost use Rattle.haya_selectors.specs.Side.{is_end, with_first, with_first_of};
ghost use Rattle.haya_selectors.specs.Syntax.{members_of, syntax};

use crate::{Selector, SelectorError};
use haya_text::{OutOfMemory, TryClone};
use std::alloc::Global;

impl Selector {
    /// A copy, equal to this selector. The only error is out of memory.
    #[cycle(copies)]
    pub fn try_clone(&self, alloc: Global) -> Result<Selector, OutOfMemory>
        ensures { IfOk result (λ copy. syntax copy ≡ syntax self.now) }
    {
        let (mut above, end) = self.first_side(alloc)?;
        let mut copy = end.end_copy(alloc);
        'up: while let Some(selector) = above.pop() {
            copy = selector.copy_over(alloc, copy)?;
        }
        Ok(copy)
    }

    // A copy of a selector that has no first part.
    fn end_copy(&self, alloc: Global) -> Selector
        requires { is_end (syntax self.now) ≡ true }
        ensures { syntax result ≡ syntax self.now }
    {
        match self {
            Selector::Wildcard => Selector::Wildcard,
            Selector::Entry(kind) => Selector::Entry(*kind),
            Selector::Alt(_) => Selector::Alt(Vec::new(alloc)),
            Selector::Multi(_) => Selector::Multi(Vec::new(alloc)),
            Selector::Neg(_)
            | Selector::Binding(_, _)
            | Selector::Attr(_, _)
            | Selector::Ancestrage(_, _) => unreachable!(),
        }
    }

    // A copy that has another first part, where it has one.
    #[cycle(copies)]
    fn copy_over(&self, alloc: Global, first: Selector) -> Result<Selector, OutOfMemory>
        ensures { IfOk result
            (λ copy. syntax copy ≡ with_first (syntax self.now) (syntax first)) }
    {
        match self {
            Selector::Wildcard => Ok(Selector::Wildcard),
            Selector::Entry(kind) => Ok(Selector::Entry(*kind)),
            Selector::Neg(_) => Ok(Selector::Neg(Box::new(alloc, first)?)),
            Selector::Binding(name, _) => {
                let name = name.try_clone(alloc)?;
                Ok(Selector::Binding(name, Box::new(alloc, first)?))
            }
            Selector::Attr(_, names) => {
                let names = names.try_clone(alloc)?;
                Ok(Selector::Attr(Box::new(alloc, first)?, names))
            }
            Selector::Alt(members) => Ok(Selector::Alt(copies(alloc, first, members)?)),
            Selector::Multi(members) => Ok(Selector::Multi(copies(alloc, first, members)?)),
            Selector::Ancestrage(_, parent) => {
                let parent = parent.try_clone(alloc)?;
                let child = Box::new(alloc, first)?;
                Ok(Selector::Ancestrage(child, Box::new(alloc, parent)?))
            }
        }
    }
}

// Copies of selectors behind another first one, where there is a first one.
#[cycle(copies)]
fn copies(
    alloc: Global,
    first: Selector,
    selectors: &[Selector],
) -> Result<Vec<Selector>, OutOfMemory>
    ensures { IfOk result (λ copies. members_of copies.items ≡
        with_first_of (members_of selectors.now) (syntax first)) }
{
    let mut copies = Vec::new(alloc);
    let Some((_, rest)) = selectors.split_first() else {
        return Ok(copies);
    };
    copies.push(first)?;
    'rest: for selector in rest {
        copies.push(selector.try_clone(alloc)?)?;
    }
    Ok(copies)
}

impl SelectorError {
    /// A copy, equal to this error. The only error is out of memory.
    pub fn try_clone(&self, alloc: Global) -> Result<SelectorError, OutOfMemory>
        ensures { IfOk result (λ copy. fault copy ≡ fault self.now) }
    {
        match self {
            SelectorError::MissingValue => Ok(SelectorError::MissingValue),
            SelectorError::MalformedAttribute => Ok(SelectorError::MalformedAttribute),
            SelectorError::MissingComma => Ok(SelectorError::MissingComma),
            SelectorError::UnbalancedParens => Ok(SelectorError::UnbalancedParens),
            SelectorError::UnknownEntryType(name) => {
                Ok(SelectorError::UnknownEntryType(name.try_clone(alloc)?))
            }
            SelectorError::OutOfMemory => Ok(SelectorError::OutOfMemory),
        }
    }
}
