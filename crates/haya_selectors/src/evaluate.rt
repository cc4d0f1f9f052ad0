//! The evaluator: one function at an entry, one on a list of parents, and what they share. Each
//! goes by the number of a node, and from a node to its children alone, whose numbers are smaller.
ghost use Rattle.std.specs.Prelude.{◌≡◌, ◌<◌, ◌≤◌, [], ◌∷◌, ◌++◌, IfOk, OnSome, is_some, map};
ghost use Rattle.std.specs.Prelude.{if◌then◌else◌, sum_by};
ghost use Rattle.std.specs.Bool.{OnTrue};
ghost use Rattle.std.specs.List.{list_any};
ghost use Rattle.haya_entry.specs.Tree.{parents, view};
ghost use Rattle.haya_selectors.specs.Compiled.{above, name_of};
ghost use Rattle.haya_selectors.specs.Binds.{binds, binds_on, each_binds, first_binds};
ghost use Rattle.haya_selectors.specs.Binds.{first_binds_on, pairs_at_first};
ghost use Rattle.haya_selectors.specs.Calls.{all_calls, calls, calls_on, first_calls};
ghost use Rattle.haya_selectors.specs.Calls.{first_calls_on};
ghost use Rattle.haya_selectors.specs.Candidates.{GivesCandidates, candidate_places};
ghost use Rattle.haya_selectors.specs.Evaluation.{AddsAt, AddsAtIf, AddsOn, AddsOnFor, AddsOnIf};
ghost use Rattle.haya_selectors.specs.Evaluation.{KeepsFound, Ticks, pairs_view, views};
ghost use Rattle.haya_selectors.specs.Holds.{holds, some_holds, candidates, first_candidates};
ghost use Rattle.haya_selectors.specs.Holds.{first_place as alone, table_of};
ghost use Rattle.haya_selectors.specs.Places.{items_up_to};
ghost use Rattle.haya_selectors.specs.Nodes.{chain_at, members_at, node_count, slot_names};
ghost use Rattle.haya_selectors.specs.Nodes.{syntax_at};
ghost use Rattle.haya_selectors.specs.Syntax.{Binding, Neg, negations};
ghost use Rattle.haya_selectors.specs.Tries.{all_found, all_held, joined, lengths, tried};
ghost use Rattle.haya_assignment.specs.Assignment.{least};

use crate::bindings::Bindings;
use crate::leaves::{first_of_type, leaf_holds_at, named_leaf_holds_at};
use crate::names::Asked;
use crate::node::Node;
use crate::nodes::Nodes;
use crate::places::{Candidates, all_places, kept_places};
use crate::simple::{simple_holds_at, simple_holds_on, turned};
use crate::tries::Tries;
use haya_entry::{Entry, Steps};
use haya_text::OutOfMemory;
use std::alloc::Global;

// Whether the selector holds at an entry. Where it does, its bindings are added to `found`.
// A selector that has no other inside is asked in the caller's own code.
#[cycle(evaluate)]
#[inline(always)]
pub(crate) fn holds_at<'e>(
    nodes: &Nodes,
    number: usize,
    alloc: Global,
    asked: &Asked<'e>,
    found: &mut Bindings<'e>,
    steps: &mut Steps,
) -> Result<bool, OutOfMemory>
    requires { number < node_count nodes.now }
    ensures answer { IfOk result (λ b. b ≡ holds (syntax_at nodes.now number) (view asked.now)) }
    ensures bound { IfOk result (AddsAtIf nodes.now (view asked.now) found.old found.new
        (binds (syntax_at nodes.now number))) }
    ensures ticks { Ticks result steps.old steps.new
        (calls (syntax_at nodes.now number) (view asked.now)) }
{
    match leaf_holds_at(nodes, number, asked, steps) {
        Some(holds) => Ok(holds),
        None => whole_holds_at(nodes, number, alloc, asked, found, steps),
    }
}

// The same of any selector.
#[cycle(evaluate)]
fn whole_holds_at<'e>(
    nodes: &Nodes,
    number: usize,
    alloc: Global,
    asked: &Asked<'e>,
    found: &mut Bindings<'e>,
    steps: &mut Steps,
) -> Result<bool, OutOfMemory>
    requires { number < node_count nodes.now }
    ensures answer { IfOk result (λ b. b ≡ holds (syntax_at nodes.now number) (view asked.now)) }
    ensures bound { IfOk result (AddsAtIf nodes.now (view asked.now) found.old found.new
        (binds (syntax_at nodes.now number))) }
    ensures ticks { Ticks result steps.old steps.new
        (calls (syntax_at nodes.now number) (view asked.now)) }
{
    if nodes.is_simple(number) {
        return Ok(simple_holds_at(nodes, number, asked, steps));
    }
    let before = found.len();
    if form_holds_at(nodes, number, alloc, asked, found, steps)? {
        return Ok(true);
    }
    found.truncate(before);
    Ok(false)
}

// The same, but where it doesn't hold, what its parts have bound may be left in `found`.
#[cycle(evaluate)]
fn form_holds_at<'e>(
    nodes: &Nodes,
    number: usize,
    alloc: Global,
    asked: &Asked<'e>,
    found: &mut Bindings<'e>,
    steps: &mut Steps,
) -> Result<bool, OutOfMemory>
    requires { number < node_count nodes.now }
    ensures answer { IfOk result (λ b. b ≡ holds (syntax_at nodes.now number) (view asked.now)) }
    ensures bound { IfOk result (λ b. OnTrue b (AddsAt (slot_names nodes.now) (view asked.now)
        found.old found.new (binds (syntax_at nodes.now number) (view asked.now)))) }
    ensures kept { IfOk result (λ _. KeepsFound nodes.now found.old found.new) }
    ensures ticks { Ticks result steps.old steps.new
        (calls (syntax_at nodes.now number) (view asked.now)) }
{
    steps.tick();
    match nodes.at(number) {
        Node::Wildcard => Ok(true),
        Node::Entry(entry_type) => Ok(asked.entry().entry_type() == *entry_type),
        Node::Neg(inner, others) => {
            Ok(!negated_holds_at(nodes, *inner, *others, alloc, asked, found, steps)?)
        }
        Node::Binding(slot, inner) => {
            named_holds_at(nodes, *slot, *inner, alloc, asked, found, steps)
        }
        Node::Attr(inner, names) => {
            Ok(holds_at(nodes, *inner, alloc, asked, found, steps)? && asked.has(names))
        }
        Node::Alt(members) => any_holds(nodes, members, alloc, asked, found, steps),
        Node::Multi(_) => Ok(false),
        Node::Ancestrage(child, between, parent) => {
            let holds = chain_holds_at(nodes, *child, between, alloc, asked, found, steps)?;
            Ok(holds && holds_above(nodes, *parent, alloc, asked, found, steps)?)
        }
    }
}

// Whether the selector, called by the name of a slot, holds at an entry. Where it does, its
// bindings and its own are added to `found`.
#[cycle(evaluate)]
fn named_holds_at<'e>(
    nodes: &Nodes,
    slot: usize,
    number: usize,
    alloc: Global,
    asked: &Asked<'e>,
    found: &mut Bindings<'e>,
    steps: &mut Steps,
) -> Result<bool, OutOfMemory>
    requires { number < node_count nodes.now }
    ensures answer { IfOk result (λ b. b ≡ holds (syntax_at nodes.now number) (view asked.now)) }
    ensures bound { IfOk result (λ b. AddsAtIf nodes.now (view asked.now) found.old found.new
        (binds (Binding (name_of (slot_names nodes.now) slot) (syntax_at nodes.now number))) b) }
    ensures ticks { Ticks result steps.old steps.new
        (calls (syntax_at nodes.now number) (view asked.now)) }
{
    if !holds_at(nodes, number, alloc, asked, found, steps)? {
        return Ok(false);
    }
    found.bind(slot, asked.entry())?;
    Ok(true)
}

// Whether the selector behind so many `!` holds at an entry. Nothing is added to `found`.
#[cycle(evaluate)]
fn negated_holds_at<'e>(
    nodes: &Nodes,
    number: usize,
    others: usize,
    alloc: Global,
    asked: &Asked<'e>,
    found: &mut Bindings<'e>,
    steps: &mut Steps,
) -> Result<bool, OutOfMemory>
    requires { number < node_count nodes.now }
    ensures answer { IfOk result (λ b. b ≡
        holds (negations others (syntax_at nodes.now number)) (view asked.now)) }
    ensures bound { IfOk result (λ _. AddsAt (slot_names nodes.now) (view asked.now)
        found.old found.new []) }
    ensures ticks { Ticks result steps.old steps.new
        (calls (negations others (syntax_at nodes.now number)) (view asked.now)) }
{
    let before = found.len();
    let holds = holds_at(nodes, number, alloc, asked, found, steps)?;
    found.truncate(before);
    Ok(turned(holds, others, steps))
}

// Whether the selector holds on the parents of an entry. Where it does, its bindings are added to
// `found`.
#[cycle(evaluate)]
#[inline(always)]
fn holds_above<'e>(
    nodes: &Nodes,
    number: usize,
    alloc: Global,
    asked: &Asked<'e>,
    found: &mut Bindings<'e>,
    steps: &mut Steps,
) -> Result<bool, OutOfMemory>
    requires { number < node_count nodes.now }
    ensures answer { IfOk result
        (λ b. b ≡ is_some (candidates (syntax_at nodes.now number) (parents (view asked.now)))) }
    ensures bound { IfOk result (λ b. AddsOn (slot_names nodes.now) (parents (view asked.now))
        found.old found.new
        (if b then binds_on (syntax_at nodes.now number) (parents (view asked.now)) else [])) }
    ensures ticks { Ticks result steps.old steps.new
        (calls_on (syntax_at nodes.now number) (parents (view asked.now))) }
{
    let parents = asked.entry().parents();
    if nodes.is_simple(number) {
        return Ok(simple_holds_on(nodes, number, parents, steps));
    }
    Ok(candidates_on(nodes, number, alloc, parents, found, steps)?.is_some())
}

// Whether the selector with others behind it, each after a `>`, holds at an entry. Where it
// doesn't, what its parts have bound may be left in `found`.
#[cycle(evaluate)]
fn chain_holds_at<'e>(
    nodes: &Nodes,
    first: usize,
    others: &[usize],
    alloc: Global,
    asked: &Asked<'e>,
    found: &mut Bindings<'e>,
    steps: &mut Steps,
) -> Result<bool, OutOfMemory>
    requires first { first < node_count nodes.now }
    requires others { above others.now ≤ node_count nodes.now }
    ensures answer { IfOk result
        (λ b. b ≡ holds (chain_at nodes.now first others.now) (view asked.now)) }
    ensures bound { IfOk result (λ b. OnTrue b (AddsAt (slot_names nodes.now) (view asked.now)
        found.old found.new (binds (chain_at nodes.now first others.now) (view asked.now)))) }
    ensures kept { IfOk result (λ _. KeepsFound nodes.now found.old found.new) }
    ensures ticks { Ticks result steps.old steps.new
        (calls (chain_at nodes.now first others.now) (view asked.now)) }
{
    let mut holds = holds_at(nodes, first, alloc, asked, found, steps)?;
    'others: for other in others {
        steps.tick();
        if !holds {
            continue;
        }
        holds = holds_above(nodes, *other, alloc, asked, found, steps)?;
    }
    Ok(holds)
}

// Whether a member holds at an entry. The bindings of the first that does are added to `found`.
#[cycle(evaluate)]
fn any_holds<'e>(
    nodes: &Nodes,
    members: &[usize],
    alloc: Global,
    asked: &Asked<'e>,
    found: &mut Bindings<'e>,
    steps: &mut Steps,
) -> Result<bool, OutOfMemory>
    requires { above members.now ≤ node_count nodes.now }
    ensures answer { IfOk result
        (λ b. b ≡ some_holds (members_at nodes.now members.now) (view asked.now)) }
    ensures bound { IfOk result (AddsAtIf nodes.now (view asked.now) found.old found.new
        (first_binds (members_at nodes.now members.now))) }
    ensures ticks { Ticks result steps.old steps.new
        (first_calls (members_at nodes.now members.now) (view asked.now)) }
{
    for member in members {
        if holds_at(nodes, *member, alloc, asked, found, steps)? {
            return Ok(true);
        }
    }
    Ok(false)
}

// The places of the parents that the selector stands for, or none where it doesn't hold on them.
// Where it does, its bindings are added to `found`.
#[cycle(evaluate)]
fn candidates_on<'e>(
    nodes: &Nodes,
    number: usize,
    alloc: Global,
    parents: &'e [Entry],
    found: &mut Bindings<'e>,
    steps: &mut Steps,
) -> Result<Option<Candidates>, OutOfMemory>
    requires { number < node_count nodes.now }
    ensures answer { GivesCandidates (views parents.now) result
        (candidates (syntax_at nodes.now number) (views parents.now)) }
    ensures bound { IfOk result (AddsOnIf nodes.now (views parents.now) found.old found.new
        (binds_on (syntax_at nodes.now number))) }
    ensures ticks { Ticks result steps.old steps.new
        (calls_on (syntax_at nodes.now number) (views parents.now)) }
{
    let before = found.len();
    let candidates = form_candidates_on(nodes, number, alloc, parents, found, steps)?;
    if candidates.is_some() {
        return Ok(candidates);
    }
    found.truncate(before);
    Ok(None)
}

// The same, but where it doesn't hold, what its parts have bound may be left in `found`.
#[cycle(evaluate)]
fn form_candidates_on<'e>(
    nodes: &Nodes,
    number: usize,
    alloc: Global,
    parents: &'e [Entry],
    found: &mut Bindings<'e>,
    steps: &mut Steps,
) -> Result<Option<Candidates>, OutOfMemory>
    requires { number < node_count nodes.now }
    ensures answer { GivesCandidates (views parents.now) result
        (candidates (syntax_at nodes.now number) (views parents.now)) }
    ensures bound { IfOk result (λ o. OnSome o (AddsOn (slot_names nodes.now)
        (views parents.now) found.old found.new
        (binds_on (syntax_at nodes.now number) (views parents.now)))) }
    ensures kept { IfOk result (λ _. KeepsFound nodes.now found.old found.new) }
    ensures ticks { Ticks result steps.old steps.new
        (calls_on (syntax_at nodes.now number) (views parents.now)) }
{
    steps.tick();
    match nodes.at(number) {
        Node::Wildcard => Ok(all_places(parents)),
        Node::Entry(entry_type) => Ok(first_of_type(*entry_type, parents, steps)),
        Node::Ancestrage(_, _, _) => first_alone(nodes, number, alloc, parents, found, steps),
        Node::Neg(inner, others) => {
            negated_on(nodes, *inner, *others, alloc, parents, found, steps)
        }
        Node::Binding(slot, inner) => {
            named_on(nodes, *slot, *inner, alloc, parents, found, steps)
        }
        Node::Attr(inner, names) => {
            let Some(candidates) = candidates_on(nodes, *inner, alloc, parents, found, steps)?
            else {
                return Ok(None);
            };
            kept_places(alloc, names, parents, candidates)
        }
        Node::Alt(members) => first_candidates_on(nodes, members, alloc, parents, found, steps),
        Node::Multi(members) => each_takes_one(nodes, members, alloc, parents, found, steps),
    }
}

// The places of the selector, called by the name of a slot, where it holds on the parents: none.
// Its bindings and its own are added to `found` then.
#[cycle(evaluate)]
fn named_on<'e>(
    nodes: &Nodes,
    slot: usize,
    number: usize,
    alloc: Global,
    parents: &'e [Entry],
    found: &mut Bindings<'e>,
    steps: &mut Steps,
) -> Result<Option<Candidates>, OutOfMemory>
    requires { number < node_count nodes.now }
    ensures answer { GivesCandidates (views parents.now) result (candidates
        (Binding (name_of (slot_names nodes.now) slot) (syntax_at nodes.now number))
        (views parents.now)) }
    ensures bound { IfOk result (AddsOnIf nodes.now (views parents.now) found.old found.new
        (binds_on (Binding (name_of (slot_names nodes.now) slot)
        (syntax_at nodes.now number)))) }
    ensures ticks { Ticks result steps.old steps.new
        (calls_on (syntax_at nodes.now number) (views parents.now)) }
{
    let Some(candidates) = candidates_on(nodes, number, alloc, parents, found, steps)? else {
        return Ok(None);
    };
    found.bind_first(slot, parents, &candidates)?;
    Ok(Some(Candidates::Nothing))
}

// The places of the selector behind so many `!` and one more, where it holds on the parents: none.
// Nothing is added to `found`.
#[cycle(evaluate)]
fn negated_on<'e>(
    nodes: &Nodes,
    number: usize,
    others: usize,
    alloc: Global,
    parents: &'e [Entry],
    found: &mut Bindings<'e>,
    steps: &mut Steps,
) -> Result<Option<Candidates>, OutOfMemory>
    requires { number < node_count nodes.now }
    ensures answer { GivesCandidates (views parents.now) result (candidates
        (Neg (negations others (syntax_at nodes.now number))) (views parents.now)) }
    ensures bound { IfOk result (λ _. AddsOn (slot_names nodes.now) (views parents.now)
        found.old found.new []) }
    ensures ticks { Ticks result steps.old steps.new
        (calls_on (negations others (syntax_at nodes.now number)) (views parents.now)) }
{
    let before = found.len();
    let candidates = candidates_on(nodes, number, alloc, parents, found, steps)?;
    found.truncate(before);
    if !turned(candidates.is_some(), others, steps) {
        return Ok(Some(Candidates::Nothing));
    }
    Ok(None)
}

// The places of the first member that holds on the parents, whose bindings are added to `found`.
#[cycle(evaluate)]
fn first_candidates_on<'e>(
    nodes: &Nodes,
    members: &[usize],
    alloc: Global,
    parents: &'e [Entry],
    found: &mut Bindings<'e>,
    steps: &mut Steps,
) -> Result<Option<Candidates>, OutOfMemory>
    requires { above members.now ≤ node_count nodes.now }
    ensures answer { GivesCandidates (views parents.now) result
        (first_candidates (members_at nodes.now members.now) (views parents.now)) }
    ensures bound { IfOk result (AddsOnIf nodes.now (views parents.now) found.old found.new
        (first_binds_on (members_at nodes.now members.now))) }
    ensures ticks { Ticks result steps.old steps.new
        (first_calls_on (members_at nodes.now members.now) (views parents.now)) }
{
    for member in members {
        let candidates = candidates_on(nodes, *member, alloc, parents, found, steps)?;
        if candidates.is_some() {
            return Ok(candidates);
        }
    }
    Ok(None)
}

// The least assignment of the members to the parents, or none where there is none. Where there is
// one, the bindings of each member at its place are added to `found`.
#[cycle(evaluate)]
fn each_takes_one<'e>(
    nodes: &Nodes,
    members: &[usize],
    alloc: Global,
    parents: &'e [Entry],
    found: &mut Bindings<'e>,
    steps: &mut Steps,
) -> Result<Option<Candidates>, OutOfMemory>
    requires { above members.now ≤ node_count nodes.now }
    ensures answer { GivesCandidates (views parents.now) result
        (least (table_of (members_at nodes.now members.now) (views parents.now))) }
    ensures bound { IfOk result (AddsOnFor nodes.now (views parents.now) found.old found.new
        (λ taken. each_binds (members_at nodes.now members.now) (views parents.now)
        (candidate_places (views parents.now) taken))) }
    ensures ticks { Ticks result steps.old steps.new
        (all_calls (members_at nodes.now members.now) (views parents.now)) }
{
    let before = found.len();
    let mut tries = found.take_tries(alloc);
    let mut each_holds = true;
    for member in members {
        each_holds &= try_at_each(nodes, *member, alloc, parents, &mut tries, found, steps)?;
    }
    let candidates = found.settle(
        alloc,
        &tries,
        each_holds,
        parents.len(),
        members.len(),
        before,
    )?;
    found.give_back(tries);
    Ok(candidates)
}

// Tries the selector at each parent: whether it holds at one. Its bindings where it holds are added
// to `found`.
#[cycle(evaluate)]
fn try_at_each<'e>(
    nodes: &Nodes,
    number: usize,
    alloc: Global,
    parents: &'e [Entry],
    tries: &mut Tries,
    found: &mut Bindings<'e>,
    steps: &mut Steps,
) -> Result<bool, OutOfMemory>
    requires { number < node_count nodes.now }
    ensures answer { IfOk result
        (λ b. b ≡ list_any (holds (syntax_at nodes.now number)) (views parents.now)) }
    ensures held { IfOk result (λ _. all_held tries.new ≡ all_held tries.old
        ++ map (holds (syntax_at nodes.now number)) (views parents.now)) }
    ensures lengths { IfOk result (λ _. all_found tries.new ≡ all_found tries.old
        ++ lengths (map (tried (syntax_at nodes.now number)) (views parents.now))) }
    ensures bound { IfOk result (λ _. pairs_view (slot_names nodes.now) found.new
        ≡ pairs_view (slot_names nodes.now) found.old
        ++ joined (map (tried (syntax_at nodes.now number)) (views parents.now))) }
    ensures ticks { Ticks result steps.old steps.new
        (sum_by (calls (syntax_at nodes.now number)) (views parents.now)) }
{
    let mut somewhere = false;
    for parent in parents {
        let before = found.len();
        let asked = Asked::new(parent, 0);
        let held = tried_at(nodes, number, alloc, &asked, found, steps)?;
        tries.push(held, found.len() - before)?;
        somewhere |= held;
    }
    Ok(somewhere)
}

// As `holds_at`, with fewer calls for a wildcard or a type that has a name.
#[cycle(evaluate)]
#[inline(always)]
fn tried_at<'e>(
    nodes: &Nodes,
    number: usize,
    alloc: Global,
    asked: &Asked<'e>,
    found: &mut Bindings<'e>,
    steps: &mut Steps,
) -> Result<bool, OutOfMemory>
    requires { number < node_count nodes.now }
    ensures answer { IfOk result (λ b. b ≡ holds (syntax_at nodes.now number) (view asked.now)) }
    ensures bound { IfOk result (AddsAtIf nodes.now (view asked.now) found.old found.new
        (binds (syntax_at nodes.now number))) }
    ensures ticks { Ticks result steps.old steps.new
        (calls (syntax_at nodes.now number) (view asked.now)) }
{
    match named_leaf_holds_at(nodes, number, asked, found, steps)? {
        Some(holds) => Ok(holds),
        None => whole_holds_at(nodes, number, alloc, asked, found, steps),
    }
}

// The first place where the selector holds, as the one candidate. The bindings at that parent are
// added to `found`.
#[cycle(evaluate)]
fn first_alone<'e>(
    nodes: &Nodes,
    number: usize,
    alloc: Global,
    parents: &'e [Entry],
    found: &mut Bindings<'e>,
    steps: &mut Steps,
) -> Result<Option<Candidates>, OutOfMemory>
    requires { number < node_count nodes.now }
    ensures answer { GivesCandidates (views parents.now) result
        (alone (holds (syntax_at nodes.now number)) (views parents.now)) }
    ensures bound { IfOk result (AddsOnIf nodes.now (views parents.now) found.old found.new
        (pairs_at_first (holds (syntax_at nodes.now number))
        (binds (syntax_at nodes.now number)))) }
    ensures ticks { Ticks result steps.old steps.new
        (sum_by (calls (syntax_at nodes.now number))
        (items_up_to (holds (syntax_at nodes.now number)) (views parents.now))) }
{
    for (place, parent) in parents.iter().enumerate() {
        let asked = Asked::new(parent, 0);
        if holds_at(nodes, number, alloc, &asked, found, steps)? {
            return Ok(Some(Candidates::One(place)));
        }
    }
    Ok(None)
}
