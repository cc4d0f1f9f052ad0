//! A search along arrows, which puts the nodes of a graph in order: targets first.
ghost use Rattle.std.specs.Prelude.{◌≡◌, ℕ, ◌<◌, ◌≤◌, ◌++◌, ◌∷◌, [], IfOk, OnOk};
ghost use Rattle.std.specs.Prelude.{drop, get_or, length};
ghost use Rattle.std.specs.Prelude.{List, MatchOption, Contains, replicate, reverse, set, take};
ghost use Rattle.haya_bibtex_inherited.specs.Graphs.{IsWhole, targets};
ghost use Rattle.haya_bibtex_inherited.specs.Search.{IsCutBack, IsRising, Knows, KnowsBut};
ghost use Rattle.haya_bibtex_inherited.specs.Search.{KeepsReached, arrows_from, last_arrow, work};
ghost use Rattle.haya_bibtex_inherited.specs.Search.{graph_of, place_at, settled_place};
ghost use Rattle.haya_bibtex_inherited.specs.declared.search.Place.TheVariants.{New, Open};

use std::alloc::{AllocError, Global};

/// Where a node is in the search.
#[derive(Clone, Copy)]
pub(crate) enum Place {
    /// It wasn't reached yet.
    New,
    /// It is on the way, behind so many others.
    Open(usize),
    /// The search has left it, with this rank.
    Ranked(usize),
}

/// An arrow that wasn't followed yet.
#[derive(Clone, Copy)]
pub(crate) struct Arrow {
    /// The place on the way of the node that has it.
    pub(crate) from: usize,
    /// The node to which it leads.
    pub(crate) to: usize,
}

/// What a search knows between two steps.
#[derive(Drop)]
pub(crate) struct Search {
    /// Of each node its place.
    pub(crate) places: Vec<Place>,
    /// The open nodes, in the order in which they were reached. From each one those behind it can
    /// be reached, and those before it back to the beginning of its group.
    pub(crate) way: Vec<usize>,
    /// Where on the way the groups begin.
    pub(crate) starts: Vec<usize>,
    /// The arrows of open nodes that weren't followed yet, in the order of the nodes.
    pub(crate) arrows: Vec<Arrow>,
    /// The nodes that the search has left, in this order.
    pub(crate) order: Vec<usize>,
}

/// The search before its first step. The error: there was no memory for it.
pub(crate) fn first_search(alloc: Global, count: usize) -> Result<Search, AllocError>
    ensures places { IfOk result (λ s. s.places.items ≡ replicate count New) }
    ensures way { IfOk result (λ s. s.way.items ≡ []) }
    ensures starts { IfOk result (λ s. s.starts.items ≡ []) }
    ensures arrows { IfOk result (λ s. s.arrows.items ≡ []) }
    ensures order { IfOk result (λ s. s.order.items ≡ []) }
{
    let places = vec![in alloc; Place::New; count]?;
    Ok(Search {
        places,
        way: Vec::new(alloc),
        starts: Vec::new(alloc),
        arrows: Vec::new(alloc),
        order: Vec::new(alloc),
    })
}

/// Adds an arrow to each of the targets. The error: there was no memory for them.
fn push_arrows(arrows: &mut Vec<Arrow>, from: usize, targets: &[usize]) -> Result<(), AllocError>
    ensures { OnOk result
        (arrows.new.items ≡ arrows.old.items ++ arrows_from from targets.now) }
{
    'targets: for to in targets {
        arrows.push(Arrow { from, to: *to })?;
    }
    Ok(())
}

/// A new node is the next on the way, and a group of its own. The error: there was no memory.
pub(crate) fn open(graph: &[Vec<usize>], search: &mut Search, node: usize) -> Result<(), AllocError>
    requires known { node < length graph.now }
    requires as_many { length search.old.places.items ≡ length graph.now }
    ensures places { OnOk result (search.new.places.items
        ≡ set search.old.places.items node (Open (length search.old.way.items))) }
    ensures way { OnOk result (search.new.way.items ≡ search.old.way.items ++ node ∷ []) }
    ensures starts { OnOk result (search.new.starts.items
        ≡ search.old.starts.items ++ length search.old.way.items ∷ []) }
    ensures arrows { OnOk result (search.new.arrows.items ≡ search.old.arrows.items
        ++ arrows_from (length search.old.way.items) (targets (graph_of graph.now) node)) }
    ensures order { OnOk result (search.new.order.items ≡ search.old.order.items) }
{
    let at = search.way.len();
    search.way.push(node)?;
    search.starts.push(at)?;
    search.places[node] = Place::Open(at);
    push_arrows(&mut search.arrows, at, graph[node].as_slice())
}

/// The groups behind the place become one with its own.
fn join(starts: &mut Vec<usize>, at: usize)
    requires { IsRising starts.old.items }
    ensures back { IsCutBack starts.old.items at starts.new.items }
    ensures shorter { length starts.new.items ≤ length starts.old.items }
{
    'starts: while let Some(start) = starts.last() {
        if *start <= at {
            return;
        }
        starts.pop();
    }
}

// Takes the last of the nodes, if it is at the place or behind it.
fn pop_from(nodes: &mut Vec<usize>, place: usize) -> Option<usize>
    ensures { MatchOption result
        ((length nodes.old.items ≤ place) × (nodes.new.items ≡ nodes.old.items))
        (λ v. (place < length nodes.old.items) × (nodes.old.items ≡ nodes.new.items ++ v ∷ [])) }
{
    if nodes.len() <= place {
        return None;
    }
    nodes.pop()
}

/// Leaves the open nodes from a start on. The error: there was no memory for their order.
fn leave(search: &mut Search, start: usize) -> Result<(), AllocError>
    requires start { start ≤ length search.old.way.items }
    requires on_way { (i : ℕ) → i < length search.old.way.items →
        place_at search.old.places.items (get_or search.old.way.items i 0) ≡ Open i }
    requires opened { (v i : ℕ) → place_at search.old.places.items v ≡ Open i →
        (i < length search.old.way.items) × (get_or search.old.way.items i 0 ≡ v) }
    ensures as_many { length search.new.places.items ≡ length search.old.places.items }
    ensures places { OnOk result ((v : ℕ) → place_at search.new.places.items v
        ≡ settled_place start (length search.old.order.items)
        (place_at search.old.places.items v)) }
    ensures way { OnOk result (search.new.way.items ≡ take start search.old.way.items) }
    ensures starts { search.new.starts.items ≡ search.old.starts.items }
    ensures arrows { search.new.arrows.items ≡ search.old.arrows.items }
    ensures order { OnOk result (search.new.order.items ≡ search.old.order.items
        ++ reverse (drop start search.old.way.items)) }
{
    let rank = search.order.len();
    'way: while let Some(node) = pop_from(&mut search.way, start) {
        search.places[node] = Place::Ranked(rank);
        search.order.push(node)?;
    }
    Ok(())
}

// Takes the last of the arrows, if it is from the place or behind it.
fn pop_arrow(arrows: &mut Vec<Arrow>, place: usize) -> Option<Arrow>
    ensures { MatchOption result ((arrows.new.items ≡ arrows.old.items)
        × (0 < length arrows.old.items →
        (last_arrow arrows.old.items).from < place))
        (λ a. (place ≤ a.from) × (arrows.old.items ≡ arrows.new.items ++ a ∷ [])) }
{
    let last = arrows.last()?;
    if last.from < place {
        return None;
    }
    arrows.pop()
}

// Goes on with an arrow of the last group. The error: there was no memory for it.
fn follow(graph: &[Vec<usize>], search: &mut Search, arrow: Arrow) -> Result<(), AllocError>
    requires whole { IsWhole (graph_of graph.now) }
    requires knows { KnowsBut (graph_of graph.now) (arrow ∷ []) search.old }
    requires last { (b : ℕ) → Contains search.old.starts.items b → b ≤ arrow.from }
    ensures knows { OnOk result (Knows (graph_of graph.now) search.new) }
    ensures reached { OnOk result (KeepsReached search.old search.new) }
    ensures work { OnOk result (work (graph_of graph.now) search.new
        ≤ work (graph_of graph.now) search.old) }
{
    match search.places[arrow.to] {
        Place::New => {
            open(graph, search, arrow.to)?;
            Ok(())
        }
        Place::Open(at) => {
            join(&mut search.starts, at);
            Ok(())
        }
        Place::Ranked(_) => Ok(()),
    }
}

/// Goes on with the last group, which begins at the start. The error: there was no memory for it.
pub(crate) fn step(
    graph: &[Vec<usize>],
    search: &mut Search,
    start: usize,
) -> Result<(), AllocError>
    requires whole { IsWhole (graph_of graph.now) }
    requires knows { Knows (graph_of graph.now) search.old }
    requires last { (front : List ℕ) × (search.old.starts.items ≡ front ++ start ∷ []) }
    ensures knows { OnOk result (Knows (graph_of graph.now) search.new) }
    ensures reached { OnOk result (KeepsReached search.old search.new) }
    ensures work { OnOk result (work (graph_of graph.now) search.new
        < work (graph_of graph.now) search.old) }
{
    match pop_arrow(&mut search.arrows, start) {
        Some(arrow) => follow(graph, search, arrow),
        None => {
            search.starts.pop();
            leave(search, start)?;
            Ok(())
        }
    }
}
