//! Selectors that bind no name and keep no list of candidates: the evaluator's answers without
//! bindings, without memory.
ghost use Rattle.std.specs.Prelude.{◌≡◌, ◌+◌, ◌<◌, ◌≤◌, IsTrue, is_some};
ghost use Rattle.std.specs.Prelude.{◌∷◌, [], option_and_then, option_map, position, sum_by};
ghost use Rattle.haya_entry.specs.Tree.{view};
ghost use Rattle.haya_selectors.specs.Calls.{calls, calls_on, first_calls, first_calls_on};
ghost use Rattle.haya_selectors.specs.Compiled.{above};
ghost use Rattle.haya_selectors.specs.Evaluation.{turned, views};
ghost use Rattle.haya_selectors.specs.Holds.{candidates, first_candidates, holds, kept_places};
ghost use Rattle.haya_selectors.specs.Holds.{some_holds};
ghost use Rattle.haya_selectors.specs.Nodes.{chain_at, members_at, node_count, syntax_at};
ghost use Rattle.haya_selectors.specs.Places.{items_up_to};
ghost use Rattle.haya_selectors.specs.Simple.{all_simple, has_plain_candidates, is_simple};

use crate::leaves::{leaf_holds_at, place_of_type};
use crate::names::{Asked, NameSet};
use crate::node::Node;
use crate::nodes::Nodes;
use crate::places::{any_has, has_all_at};
use haya_entry::{Entry, Steps};

// Whether a simple selector holds at an entry. One that has no other inside is asked in the
// caller's own code.
#[cycle(simple)]
#[inline(always)]
pub(crate) fn simple_holds_at(
    nodes: &Nodes,
    number: usize,
    asked: &Asked,
    steps: &mut Steps,
) -> bool
    requires inside { number < node_count nodes.now }
    requires simple { IsTrue (is_simple (syntax_at nodes.now number)) }
    ensures answer { result ≡ holds (syntax_at nodes.now number) (view asked.now) }
    ensures ticks { steps.new ≡ steps.old + calls (syntax_at nodes.now number) (view asked.now) }
{
    match leaf_holds_at(nodes, number, asked, steps) {
        Some(holds) => holds,
        None => whole_simple_holds_at(nodes, number, asked, steps),
    }
}

// The same of any simple selector.
#[cycle(simple)]
fn whole_simple_holds_at(nodes: &Nodes, number: usize, asked: &Asked, steps: &mut Steps) -> bool
    requires inside { number < node_count nodes.now }
    requires simple { IsTrue (is_simple (syntax_at nodes.now number)) }
    ensures answer { result ≡ holds (syntax_at nodes.now number) (view asked.now) }
    ensures ticks { steps.new ≡ steps.old + calls (syntax_at nodes.now number) (view asked.now) }
{
    steps.tick();
    match nodes.at(number) {
        Node::Wildcard => true,
        Node::Entry(entry_type) => asked.entry().entry_type() == *entry_type,
        Node::Neg(inner, others) => {
            !turned(simple_holds_at(nodes, *inner, asked, steps), *others, steps)
        }
        Node::Attr(inner, names) => {
            simple_holds_at(nodes, *inner, asked, steps) && asked.has(names)
        }
        Node::Alt(members) => any_simple_holds_at(nodes, members, asked, steps),
        Node::Ancestrage(child, between, parent) => {
            simple_chain_holds_at(nodes, *child, between, asked, steps)
                && simple_holds_on(nodes, *parent, asked.entry().parents(), steps)
        }
        Node::Binding(_, _) | Node::Multi(_) => false,
    }
}

// Whether a member holds at an entry, up to the first that does.
#[cycle(simple)]
fn any_simple_holds_at(nodes: &Nodes, members: &[usize], asked: &Asked, steps: &mut Steps) -> bool
    requires inside { above members.now ≤ node_count nodes.now }
    requires simple { IsTrue (all_simple (members_at nodes.now members.now)) }
    ensures answer { result ≡ some_holds (members_at nodes.now members.now) (view asked.now) }
    ensures ticks { steps.new ≡
        steps.old + first_calls (members_at nodes.now members.now) (view asked.now) }
{
    for member in members {
        if simple_holds_at(nodes, *member, asked, steps) {
            return true;
        }
    }
    false
}

// Whether a simple selector with others behind it, each after a `>`, holds at an entry.
#[cycle(simple)]
fn simple_chain_holds_at(
    nodes: &Nodes,
    first: usize,
    others: &[usize],
    asked: &Asked,
    steps: &mut Steps,
) -> bool
    requires first { first < node_count nodes.now }
    requires others { above others.now ≤ node_count nodes.now }
    requires simple { IsTrue (is_simple (chain_at nodes.now first others.now)) }
    ensures answer { result ≡ holds (chain_at nodes.now first others.now) (view asked.now) }
    ensures ticks { steps.new ≡
        steps.old + calls (chain_at nodes.now first others.now) (view asked.now) }
{
    let mut holds = simple_holds_at(nodes, first, asked, steps);
    let parents = asked.entry().parents();
    'others: for other in others {
        steps.tick();
        if !holds {
            continue;
        }
        holds = simple_holds_on(nodes, *other, parents, steps);
    }
    holds
}

// Whether a simple selector holds on a list of parents.
#[cycle(simple)]
pub(crate) fn simple_holds_on(
    nodes: &Nodes,
    number: usize,
    parents: &[Entry],
    steps: &mut Steps,
) -> bool
    requires inside { number < node_count nodes.now }
    requires simple { IsTrue (is_simple (syntax_at nodes.now number)) }
    ensures answer { result ≡
        is_some (candidates (syntax_at nodes.now number) (views parents.now)) }
    ensures ticks { steps.new ≡
        steps.old + calls_on (syntax_at nodes.now number) (views parents.now) }
{
    steps.tick();
    match nodes.at(number) {
        Node::Wildcard => !parents.is_empty(),
        Node::Entry(entry_type) => place_of_type(*entry_type, parents, steps).is_some(),
        Node::Neg(inner, others) => {
            !turned(
                simple_holds_on(nodes, *inner, parents, steps),
                *others,
                steps,
            )
        }
        Node::Attr(inner, names) => simple_has_on(nodes, *inner, names, parents, steps),
        Node::Alt(members) => any_simple_holds_on(nodes, members, parents, steps),
        Node::Ancestrage(_, _, _) => first_simple(nodes, number, parents, steps).is_some(),
        Node::Binding(_, _) | Node::Multi(_) => false,
    }
}

// Whether a member holds on a list of parents, up to the first that does.
#[cycle(simple)]
fn any_simple_holds_on(
    nodes: &Nodes,
    members: &[usize],
    parents: &[Entry],
    steps: &mut Steps,
) -> bool
    requires inside { above members.now ≤ node_count nodes.now }
    requires simple { IsTrue (all_simple (members_at nodes.now members.now)) }
    ensures answer { result ≡
        is_some (first_candidates (members_at nodes.now members.now) (views parents.now)) }
    ensures ticks { steps.new ≡
        steps.old + first_calls_on (members_at nodes.now members.now) (views parents.now) }
{
    for member in members {
        if simple_holds_on(nodes, *member, parents, steps) {
            return true;
        }
    }
    false
}

// Whether a simple selector holds on a list of parents, and a candidate has every name; where there
// are no candidates, nothing is tested.
#[cycle(simple)]
fn simple_has_on(
    nodes: &Nodes,
    number: usize,
    names: &NameSet,
    parents: &[Entry],
    steps: &mut Steps,
) -> bool
    requires inside { number < node_count nodes.now }
    requires plain { IsTrue (has_plain_candidates (syntax_at nodes.now number)) }
    requires simple { IsTrue (is_simple (syntax_at nodes.now number)) }
    ensures answer { result ≡ is_some (option_and_then (kept_places names.now (views parents.now))
        (candidates (syntax_at nodes.now number) (views parents.now))) }
    ensures ticks { steps.new ≡
        steps.old + calls_on (syntax_at nodes.now number) (views parents.now) }
{
    match nodes.at(number) {
        Node::Wildcard => {
            steps.tick();
            any_has(names, parents)
        }
        Node::Entry(entry_type) => {
            steps.tick();
            has_all_there(names, parents, place_of_type(*entry_type, parents, steps))
        }
        Node::Ancestrage(_, _, _) => {
            steps.tick();
            has_all_there(names, parents, first_simple(nodes, number, parents, steps))
        }
        _ => simple_holds_on(nodes, number, parents, steps),
    }
}

// The first place where a simple selector holds.
#[cycle(simple)]
fn first_simple(nodes: &Nodes, number: usize, parents: &[Entry], steps: &mut Steps) -> Option<usize>
    requires inside { number < node_count nodes.now }
    requires simple { IsTrue (is_simple (syntax_at nodes.now number)) }
    ensures answer { result ≡ position (holds (syntax_at nodes.now number)) (views parents.now) }
    ensures ticks { steps.new ≡ steps.old + sum_by (calls (syntax_at nodes.now number))
        (items_up_to (holds (syntax_at nodes.now number)) (views parents.now)) }
{
    for (place, parent) in parents.iter().enumerate() {
        let asked = Asked::new(parent, 0);
        if simple_holds_at(nodes, number, &asked, steps) {
            return Some(place);
        }
    }
    None
}

// A truth value behind so many `!`, of which each is a step.
pub(crate) fn turned(value: bool, signs: usize, steps: &mut Steps) -> bool
    ensures answer { result ≡ turned signs value }
    ensures ticks { steps.new ≡ steps.old + signs }
{
    let mut result = value;
    let mut left = signs;
    'signs: while left > 0 {
        steps.tick();
        result = !result;
        left -= 1;
    }
    result
}

// Whether there is a parent at the place, if there is one, with every name.
fn has_all_there(names: &NameSet, parents: &[Entry], place: Option<usize>) -> bool
    ensures { result ≡ is_some (option_and_then (kept_places names.now (views parents.now))
        (option_map (λ i. i ∷ []) place)) }
{
    match place {
        Some(place) => has_all_at(names, parents, place),
        None => false,
    }
}
