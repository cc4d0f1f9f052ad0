//! Selectors that have no other inside, asked outside the evaluator's cycle of calls: what every
//! walk comes down to.
ghost use Rattle.std.specs.Prelude.{◌≡◌, ◌+◌, ◌<◌, ◌≤◌, [], IfOk, IfSome, MatchOption};
ghost use Rattle.std.specs.Prelude.{false, if◌then◌else◌, position, sum_by};
ghost use Rattle.haya_entry.specs.Names.{is_of_type};
ghost use Rattle.haya_entry.specs.Tree.{view};
ghost use Rattle.haya_selectors.specs.Binds.{binds};
ghost use Rattle.haya_selectors.specs.Calls.{calls};
ghost use Rattle.haya_selectors.specs.Candidates.{AreCandidates};
ghost use Rattle.haya_selectors.specs.Evaluation.{AddsAtIf, views};
ghost use Rattle.haya_selectors.specs.Holds.{first_place, holds};
ghost use Rattle.haya_selectors.specs.Nodes.{node_count, syntax_at};
ghost use Rattle.haya_selectors.specs.Places.{items_up_to};

use crate::bindings::Bindings;
use crate::names::Asked;
use crate::node::Node;
use crate::nodes::Nodes;
use crate::places::Candidates;
use haya_entry::{Entry, EntryType, Steps};
use haya_text::OutOfMemory;

// Whether a wildcard or a type holds at an entry. `None` of any other selector.
#[inline(always)]
fn plain_holds_at(nodes: &Nodes, number: usize, asked: &Asked) -> Option<bool>
    requires { number < node_count nodes.now }
    ensures answer { IfSome result
        (λ b. b ≡ holds (syntax_at nodes.now number) (view asked.now)) }
    ensures bound { IfSome result (λ _. binds (syntax_at nodes.now number) (view asked.now) ≡ []) }
    ensures ticks { IfSome result (λ _. calls (syntax_at nodes.now number) (view asked.now) ≡ 1) }
{
    match nodes.at(number) {
        Node::Wildcard => Some(true),
        Node::Entry(entry_type) => Some(asked.entry().entry_type() == *entry_type),
        _ => None,
    }
}

// `false` where a wildcard or a type doesn't hold at an entry, of a selector that then doesn't hold
// either. `None` elsewhere, and then there is no tick.
#[inline(always)]
fn fails_with(nodes: &Nodes, number: usize, asked: &Asked, steps: &mut Steps) -> Option<bool>
    requires { number < node_count nodes.now }
    ensures answer { IfSome result (λ b. (b ≡ false)
        × (holds (syntax_at nodes.now number) (view asked.now) ≡ false)) }
    ensures ticks { MatchOption result (steps.new ≡ steps.old) (λ _.
        steps.new ≡ steps.old + 1 + calls (syntax_at nodes.now number) (view asked.now)) }
{
    if plain_holds_at(nodes, number, asked)? {
        return None;
    }
    steps.tick();
    steps.tick();
    Some(false)
}

// Whether a selector holds at an entry, where a wildcard or a type alone decides it: by itself, in
// a bracket list, in a negation, or as what has a name or is a child, and doesn't hold. `None`
// elsewhere, and then there is no tick.
#[inline(always)]
pub(crate) fn leaf_holds_at(
    nodes: &Nodes,
    number: usize,
    asked: &Asked,
    steps: &mut Steps,
) -> Option<bool>
    requires { number < node_count nodes.now }
    ensures answer { IfSome result
        (λ b. b ≡ holds (syntax_at nodes.now number) (view asked.now)) }
    ensures bound { IfSome result
        (λ b. (if b then binds (syntax_at nodes.now number) (view asked.now) else []) ≡ []) }
    ensures ticks { MatchOption result (steps.new ≡ steps.old) (λ _.
        steps.new ≡ steps.old + calls (syntax_at nodes.now number) (view asked.now)) }
{
    if let Some(holds) = plain_holds_at(nodes, number, asked) {
        steps.tick();
        return Some(holds);
    }
    match nodes.at(number) {
        Node::Attr(inner, names) => {
            let holds = plain_holds_at(nodes, *inner, asked)?;
            steps.tick();
            steps.tick();
            Some(holds && asked.has(names))
        }
        Node::Neg(inner, 0) => {
            let holds = plain_holds_at(nodes, *inner, asked)?;
            steps.tick();
            steps.tick();
            Some(!holds)
        }
        Node::Binding(_, inner) => fails_with(nodes, *inner, asked, steps),
        Node::Ancestrage(child, between, _) if between.is_empty() => {
            fails_with(nodes, *child, asked, steps)
        }
        _ => None,
    }
}

// The same, and also of a wildcard or a type that has a name, where it holds: its binding is added
// to `found`. Where there is no answer, nothing is added.
#[inline(always)]
pub(crate) fn named_leaf_holds_at<'e>(
    nodes: &Nodes,
    number: usize,
    asked: &Asked<'e>,
    found: &mut Bindings<'e>,
    steps: &mut Steps,
) -> Result<Option<bool>, OutOfMemory>
    requires { number < node_count nodes.now }
    ensures answer { IfOk result (λ o. IfSome o
        (λ b. b ≡ holds (syntax_at nodes.now number) (view asked.now))) }
    ensures bound { IfOk result (λ o. MatchOption o (found.new ≡ found.old)
        (AddsAtIf nodes.now (view asked.now) found.old found.new
        (binds (syntax_at nodes.now number)))) }
    ensures ticks { IfOk result (λ o. MatchOption o (steps.new ≡ steps.old) (λ _.
        steps.new ≡ steps.old + calls (syntax_at nodes.now number) (view asked.now))) }
    ensures most { steps.new ≤ steps.old + calls (syntax_at nodes.now number) (view asked.now) }
{
    if let Node::Binding(slot, inner) = nodes.at(number) {
        let Some(holds) = plain_holds_at(nodes, *inner, asked) else {
            return Ok(None);
        };
        steps.tick();
        steps.tick();
        if holds {
            found.bind(*slot, asked.entry())?;
        }
        return Ok(Some(holds));
    }
    Ok(leaf_holds_at(nodes, number, asked, steps))
}

// The first place of an entry of this type, with a tick for each entry up to it.
pub(crate) fn place_of_type(
    entry_type: EntryType,
    parents: &[Entry],
    steps: &mut Steps,
) -> Option<usize>
    ensures answer { result ≡ position (is_of_type entry_type) (views parents.now) }
    ensures ticks { steps.new ≡ steps.old
        + sum_by (λ _. 1) (items_up_to (is_of_type entry_type) (views parents.now)) }
{
    for (place, parent) in parents.iter().enumerate() {
        steps.tick();
        if parent.entry_type() == entry_type {
            return Some(place);
        }
    }
    None
}

// The same as the one candidate.
pub(crate) fn first_of_type(
    entry_type: EntryType,
    parents: &[Entry],
    steps: &mut Steps,
) -> Option<Candidates>
    ensures answer { AreCandidates (views parents.now) result
        (first_place (is_of_type entry_type) (views parents.now)) }
    ensures ticks { steps.new ≡ steps.old
        + sum_by (λ _. 1) (items_up_to (is_of_type entry_type) (views parents.now)) }
{
    match place_of_type(entry_type, parents, steps) {
        Some(place) => Some(Candidates::One(place)),
        None => None,
    }
}
