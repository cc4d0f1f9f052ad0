//! The names that a selector binds.
ghost use Rattle.std.specs.Prelude.{◌≡◌, ◌++◌, IfOk, OnOk, map, string_bytes};
ghost use Rattle.haya_selectors.specs.BoundNames.{all_bound_names, bound_names};
ghost use Rattle.haya_selectors.specs.Syntax.{members_of, syntax};

use haya_selectors::Selector;
use haya_text::OutOfMemory;
use std::alloc::Global;

/// The names that a selector binds, each as often as it does, from left to right, and the name of a
/// part behind those inside the part. The only error is out of memory.
pub fn names_of(alloc: Global, selector: &Selector) -> Result<Vec<String>, OutOfMemory>
    ensures { IfOk result (λ names.
        map string_bytes names.items ≡ bound_names (syntax selector.now)) }
{
    let mut names = Vec::new(alloc);
    push_names(alloc, selector, &mut names)?;
    Ok(names)
}

#[cycle(named)]
fn push_names(
    alloc: Global,
    selector: &Selector,
    names: &mut Vec<String>,
) -> Result<(), OutOfMemory>
    ensures { OnOk result (map string_bytes names.new.items
        ≡ map string_bytes names.old.items ++ bound_names (syntax selector.now)) }
{
    match selector {
        Selector::Wildcard | Selector::Entry(_) => Ok(()),
        Selector::Neg(inner) | Selector::Attr(inner, _) => push_names(alloc, inner, names),
        Selector::Binding(name, inner) => {
            push_names(alloc, inner, names)?;
            names.push(String::from_str(alloc, name.as_str())?)?;
            Ok(())
        }
        Selector::Alt(members) | Selector::Multi(members) => {
            push_all_names(alloc, members, names)
        }
        Selector::Ancestrage(child, parent) => {
            push_names(alloc, child, names)?;
            push_names(alloc, parent, names)
        }
    }
}

#[cycle(named)]
fn push_all_names(
    alloc: Global,
    members: &[Selector],
    names: &mut Vec<String>,
) -> Result<(), OutOfMemory>
    ensures { OnOk result (map string_bytes names.new.items
        ≡ map string_bytes names.old.items ++ all_bound_names (members_of members.now)) }
{
    'members: for member in members {
        push_names(alloc, member, names)?;
    }
    Ok(())
}
