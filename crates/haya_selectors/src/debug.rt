//! `Debug` of selectors: along the first side by two loops, down and up. It writes what a derive
//! writes.
ghost use Rattle.std.specs.Prelude.{◌<◌, All, IfOk, IfSome};
ghost use Rattle.haya_selectors.specs.declared.selector.Selector.{size-Selector};
ghost use Rattle.haya_selectors.specs.Side.{IsFirstSide};

use crate::Selector;
use haya_text::OutOfMemory;
use std::alloc::Global;
use std::fmt::{self, Debug};
use std::slice;

impl Debug for Selector {
    fn fmt<W: fmt::Write>(&self, f: &mut fmt::Formatter<W>) -> fmt::Result {
        // With a line for each part it goes down by calls.
        let Some(side) = self.printed_side(f.alternate()) else {
            return match self {
                Selector::Wildcard => f.write_str("Wildcard"),
                Selector::Entry(kind) => f.debug_tuple("Entry").field(kind).finish(),
                Selector::Neg(inner) => f.debug_tuple("Neg").field(inner).finish(),
                Selector::Binding(name, inner) => {
                    f.debug_tuple("Binding").field(name).field(inner).finish()
                }
                Selector::Attr(inner, names) => {
                    f.debug_tuple("Attr").field(inner).field(names).finish()
                }
                Selector::Alt(members) => f.debug_tuple("Alt").field(members).finish(),
                Selector::Multi(members) => f.debug_tuple("Multi").field(members).finish(),
                Selector::Ancestrage(child, parent) => {
                    f.debug_tuple("Ancestrage")
                        .field(child)
                        .field(parent)
                        .finish()
                }
            };
        };
        let (mut above, end) = side?;
        'down: for selector in &above {
            selector.fmt_open(f)?;
        }
        end.fmt_end(f)?;
        'up: while let Some(selector) = above.pop() {
            'rest: for other in selector.rest() {
                f.write_str(", ")?;
                other.fmt(f)?;
            }
            selector.fmt_close(f)?;
        }
        Ok(())
    }
}

impl Selector {
    // The first side, where it isn't printed with a line for each part. A wildcard and a type have
    // no allocator, and need none.
    fn printed_side(
        &self,
        in_lines: bool,
    ) -> Option<Result<(Vec<&Selector>, &Selector), fmt::Error>>
        ensures { IfSome result (λ r. IfOk r
            (λ side. IsFirstSide self.now side.0.items side.1.now)) }
    {
        if in_lines {
            return None;
        }
        let alloc = self.allocator()?;
        match self.first_side(alloc) {
            Ok(side) => Some(Ok(side)),
            Err(OutOfMemory) => Some(Err(fmt::Error)),
        }
    }

    // The allocator of what it owns.
    fn allocator(&self) -> Option<Global> {
        match self {
            Selector::Wildcard | Selector::Entry(_) => None,
            Selector::Alt(members) | Selector::Multi(members) => Some(*members.allocator()),
            Selector::Neg(inner)
            | Selector::Binding(_, inner)
            | Selector::Attr(inner, _)
            | Selector::Ancestrage(inner, _) => Some(*Box::allocator(inner)),
        }
    }

    // The selectors behind its first part.
    fn rest(&self) -> &[Selector]
        ensures { All (λ s. size-Selector s < size-Selector self.now) result.now }
    {
        match self {
            Selector::Alt(members) | Selector::Multi(members) => match members.split_first() {
                Some((_, rest)) => rest,
                None => members,
            },
            Selector::Ancestrage(_, parent) => slice::from_ref(&**parent),
            _ => &[],
        }
    }

    // What is written before its first part.
    fn fmt_open<W: fmt::Write>(&self, f: &mut fmt::Formatter<W>) -> fmt::Result {
        match self {
            Selector::Wildcard | Selector::Entry(_) => Ok(()),
            Selector::Neg(_) => f.write_str("Neg("),
            Selector::Binding(name, _) => {
                f.write_str("Binding(")?;
                Debug::fmt(name, f)?;
                f.write_str(", ")
            }
            Selector::Attr(_, _) => f.write_str("Attr("),
            Selector::Alt(_) => f.write_str("Alt(["),
            Selector::Multi(_) => f.write_str("Multi(["),
            Selector::Ancestrage(_, _) => f.write_str("Ancestrage("),
        }
    }

    // A selector that has no first part.
    fn fmt_end<W: fmt::Write>(&self, f: &mut fmt::Formatter<W>) -> fmt::Result {
        match self {
            Selector::Wildcard => f.write_str("Wildcard"),
            Selector::Entry(kind) => {
                f.write_str("Entry(")?;
                Debug::fmt(kind, f)?;
                f.write_str(")")
            }
            Selector::Alt(_) => f.write_str("Alt([])"),
            _ => f.write_str("Multi([])"),
        }
    }

    // What is written behind its parts.
    fn fmt_close<W: fmt::Write>(&self, f: &mut fmt::Formatter<W>) -> fmt::Result {
        match self {
            Selector::Attr(_, names) => {
                f.write_str(", ")?;
                Debug::fmt(names, f)?;
                f.write_str(")")
            }
            Selector::Alt(_) | Selector::Multi(_) => f.write_str("])"),
            _ => f.write_str(")"),
        }
    }
}
