//! The order of the nodes of a graph.
ghost use Rattle.std.specs.Prelude.{◌≡◌, ◌<◌, [], IfOk, OnOk, length, map};
ghost use Rattle.haya_bibtex_inherited.specs.Graphs.{IsInOrder, IsWhole};
ghost use Rattle.haya_bibtex_inherited.specs.Search.{IsReached, KeepsReached, Knows};
ghost use Rattle.haya_bibtex_inherited.specs.Search.{graph_of, rank_of};

use crate::search::{Place, Search, first_search, open, step};
use std::alloc::{AllocError, Global};

/// The nodes of a graph in an order in which each comes behind the targets of its arrows.
#[derive(Drop)]
pub(crate) struct Order {
    /// The nodes.
    pub(crate) nodes: Vec<usize>,
    /// Of each node a number, which it has in common with those that it leads to and that lead
    /// back to it.
    pub(crate) ranks: Vec<usize>,
}

// Goes on until no node is open. The error: there was no memory for it.
fn follow_all(graph: &[Vec<usize>], search: &mut Search) -> Result<(), AllocError>
    requires whole { IsWhole (graph_of graph.now) }
    requires knows { Knows (graph_of graph.now) search.old }
    ensures knows { OnOk result (Knows (graph_of graph.now) search.new) }
    ensures reached { OnOk result (KeepsReached search.old search.new) }
    ensures ended { OnOk result (search.new.starts.items ≡ []) }
{
    'groups: while let Some(last) = search.starts.last() {
        let start = *last;
        step(graph, search, start)?;
    }
    Ok(())
}

// Comes to a node, and to all that it leads to. The error: there was no memory for it.
fn reach(graph: &[Vec<usize>], search: &mut Search, node: usize) -> Result<(), AllocError>
    requires whole { IsWhole (graph_of graph.now) }
    requires known { node < length graph.now }
    requires knows { Knows (graph_of graph.now) search.old }
    requires ended { search.old.starts.items ≡ [] }
    ensures knows { OnOk result (Knows (graph_of graph.now) search.new) }
    ensures reached { OnOk result (KeepsReached search.old search.new) }
    ensures ended { OnOk result (search.new.starts.items ≡ []) }
    ensures here { OnOk result (IsReached search.new node) }
{
    if let Place::New = search.places[node] {
        open(graph, search, node)?;
        follow_all(graph, search)?;
    }
    Ok(())
}

// The ranks of nodes that the search has left. The error: there was no memory for them.
fn ranks_of(alloc: Global, places: &[Place]) -> Result<Vec<usize>, AllocError>
    ensures { IfOk result (λ v. v.items ≡ map rank_of places.now) }
{
    let mut ranks = Vec::with_capacity(alloc, places.len())?;
    'places: for place in places {
        let rank = match place {
            Place::Ranked(rank) => *rank,
            _ => 0,
        };
        ranks.push(rank)?;
    }
    Ok(ranks)
}

/// The order of the nodes of a graph. The error: there was no memory for it.
pub(crate) fn in_order(alloc: Global, graph: &[Vec<usize>]) -> Result<Order, AllocError>
    requires whole { IsWhole (graph_of graph.now) }
    ensures order { IfOk result (λ o.
        IsInOrder (graph_of graph.now) o.ranks.items o.nodes.items) }
    ensures many { IfOk result (λ o. length o.ranks.items ≡ length graph.now) }
{
    let mut search = first_search(alloc, graph.len())?;
    'nodes: for node in 0..graph.len() {
        reach(graph, &mut search, node)?;
    }
    let ranks = ranks_of(alloc, search.places.as_slice())?;
    Ok(Order {
        nodes: search.order,
        ranks,
    })
}
