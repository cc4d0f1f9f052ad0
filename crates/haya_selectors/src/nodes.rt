//! The nodes of a compiled selector, and how a selector is compiled.
ghost use Rattle.std.specs.Prelude.{◌≡◌, ◌<◌, ◌≤◌, [], IfOk, IsTrue, OnOk, false, get_or, length};
ghost use Rattle.std.specs.Prelude.{map, string_bytes, true};
ghost use Rattle.std.specs.List.{list_all};
ghost use Rattle.haya_selectors.specs.BoundNames.{bound_names, later_names, later_of};
ghost use Rattle.haya_selectors.specs.Compiled.{above, all_fit, fits, name_of, node_syntax};
ghost use Rattle.haya_selectors.specs.Marks.{AreMarked};
ghost use Rattle.haya_selectors.specs.Side.{is_end, is_over, with_first, with_first_of};
ghost use Rattle.haya_selectors.specs.Simple.{has_plain_candidates, is_simple};
ghost use Rattle.haya_selectors.specs.Syntax.{Attr, Neg, members_of, syntax, syntaxes};

use crate::Selector;
use crate::names::NameSet;
use crate::node::Node;
use haya_text::OutOfMemory;
use std::alloc::Global;
use std::collections::BTreeMap;

// The slot of each name that has one. Names that are made to collide cost no more than others.
pub(crate) type Slots<'s> = BTreeMap<&'s str, usize>;

// Nodes, children before parents, the names of their slots, and the numbers of the names that they
// ask for: all, and those that more than one asks for.
#[derive(Drop)]
pub(crate) struct Nodes {
    nodes: Vec<Node>,
    names: Vec<String>,
    asked: u32,
    asked_again: u32,
    // Of the first nodes, whether each stands for a simple selector.
    simple: Vec<bool>,
    ghost fit: { IsTrue (all_fit (length names.items) 0 nodes.items) },
    ghost marked: { AreMarked (map string_bytes names.items) nodes.items simple.items },
}

impl Nodes {
    ghost use Rattle.haya_selectors.specs.Nodes.{Adds, AddsNames, AreSlots, Keeps, NamesSlot};
    ghost use Rattle.haya_selectors.specs.Nodes.{chain_at, node_count, slot_names, syntax_at};

    // No nodes.
    pub(crate) fn new(alloc: Global) -> Nodes
        ensures nodes { node_count result ≡ 0 }
        ensures names { slot_names result ≡ [] }
    {
        Nodes {
            nodes: Vec::new(alloc),
            names: Vec::new(alloc),
            asked: 0,
            asked_again: 0,
            simple: Vec::new(alloc),
        }
    }

    // The node of the number.
    pub(crate) fn at(&self, number: usize) -> &Node
        requires { number < node_count self.now }
        ensures stands { syntax_at self.now number ≡
            node_syntax (name_of (slot_names self.now)) (syntax_at self.now) result.now }
        ensures fits { IsTrue (fits (length (slot_names self.now)) number result.now) }
    {
        &self.nodes[number]
    }

    // The name of the slot.
    pub(crate) fn name(&self, slot: usize) -> &str
        ensures { result.now ≡ name_of (slot_names self.now) slot }
    {
        match self.names.get(slot) {
            Some(name) => name.as_str(),
            None => "",
        }
    }

    // Whether the node of the number is known to stand for a simple selector.
    pub(crate) fn is_simple(&self, number: usize) -> bool
        requires { number < node_count self.now }
        ensures { IsTrue result → IsTrue (is_simple (syntax_at self.now number)) }
    {
        is_marked(&self.simple, number)
    }

    // Marks the nodes that stand for simple selectors.
    pub(crate) fn mark_simple(&mut self, alloc: Global) -> Result<(), OutOfMemory>
        ensures nodes { self.new.nodes.items ≡ self.old.nodes.items }
        ensures names { self.new.names.items ≡ self.old.names.items }
    {
        let mut simple = Vec::with_capacity(alloc, self.nodes.len())?;
        'nodes: for number in 0..self.nodes.len() {
            let is_simple = self.stands_for_simple(&simple, number);
            simple.push(is_simple)?;
        }
        self.simple = simple;
        Ok(())
    }

    // Whether the node of the number stands for a simple selector, where the same is known of the
    // nodes before it.
    fn stands_for_simple(&self, known: &[bool], number: usize) -> bool
        requires inside { number < node_count self.now }
        requires count { length known.now ≡ number }
        requires known { AreMarked (slot_names self.now) self.now.nodes.items known.now }
        ensures { result ≡ is_simple (syntax_at self.now number) }
    {
        match self.at(number) {
            Node::Wildcard | Node::Entry(_) => true,
            Node::Neg(inner, _) => is_marked(known, *inner),
            Node::Attr(inner, _) => self.has_plain_candidates(*inner) && is_marked(known, *inner),
            Node::Alt(members) => all_marked(known, members),
            Node::Ancestrage(child, between, parent) => {
                is_marked(known, *child)
                    && (all_marked(known, between) && is_marked(known, *parent))
            }
            Node::Binding(_, _) | Node::Multi(_) => false,
        }
    }

    // Whether the candidates of the node's selector are all parents, one of them or none.
    fn has_plain_candidates(&self, number: usize) -> bool
        requires { number < node_count self.now }
        ensures { result ≡ has_plain_candidates (syntax_at self.now number) }
    {
        match self.at(number) {
            Node::Binding(_, _) | Node::Attr(_, _) | Node::Alt(_) | Node::Multi(_) => false,
            _ => true,
        }
    }

    // The numbers of the names that more than one node asks for.
    pub(crate) fn asked_again(&self) -> u32 {
        self.asked_again
    }

    // Adds a node, and answers its number.
    fn push(&mut self, node: Node) -> Result<usize, OutOfMemory>
        requires { IsTrue (fits (length (slot_names self.old)) (node_count self.old) node) }
        ensures stands { IfOk result (Adds self.old self.new
            (node_syntax (name_of (slot_names self.old)) (syntax_at self.old) node)) }
        ensures names { slot_names self.new ≡ slot_names self.old }
    {
        let number = self.nodes.len();
        self.nodes.push(node)?;
        Ok(number)
    }

    // The slot of the name, which is added where it has none.
    fn slot_of<'s>(
        &mut self,
        alloc: Global,
        slots: &mut Slots<'s>,
        name: &'s str,
    ) -> Result<usize, OutOfMemory>
        requires { AreSlots slots.old (slot_names self.old) }
        ensures slot { IfOk result (NamesSlot self.old self.new name.now) }
        ensures slots { OnOk result (AreSlots slots.new (slot_names self.new)) }
    {
        if let Some(slot) = slots.get(name) {
            return Ok(*slot);
        }
        let slot = self.names.len();
        self.names.push(String::from_str(alloc, name)?)?;
        slots.insert(name, slot)?;
        Ok(slot)
    }

    // Adds the nodes of a selector, and answers the number of the last, which stands for it: from
    // the end of the first side up.
    #[cycle(compile)]
    pub(crate) fn add<'s>(
        &mut self,
        alloc: Global,
        slots: &mut Slots<'s>,
        selector: &'s Selector,
    ) -> Result<usize, OutOfMemory>
        requires { AreSlots slots.old (slot_names self.old) }
        ensures stands { IfOk result (Adds self.old self.new (syntax selector.now)) }
        ensures names { IfOk result (λ _.
            AddsNames self.old self.new (bound_names (syntax selector.now))) }
        ensures slots { OnOk result (AreSlots slots.new (slot_names self.new)) }
    {
        let (mut above, end) = selector.first_side(alloc)?;
        let mut first = self.add_end(alloc, end)?;
        let mut others = Vec::new(alloc);
        'up: while let Some(form) = above.pop() {
            if let Selector::Ancestrage(_, parent) = form {
                others.push(self.add(alloc, slots, parent)?)?;
                continue;
            }
            first = self.add_chain(first, others)?;
            others = Vec::new(alloc);
            first = self.add_over(alloc, slots, form, first)?;
        }
        self.add_chain(first, others)
    }

    // Adds the node of a selector with others behind it, each after a `>`, where there are others.
    fn add_chain(&mut self, first: usize, mut others: Vec<usize>) -> Result<usize, OutOfMemory>
        requires first { first < node_count self.old }
        requires others { above others.items ≤ node_count self.old }
        ensures stands { IfOk result
            (Adds self.old self.new (chain_at self.old first others.items)) }
        ensures names { slot_names self.new ≡ slot_names self.old }
    {
        let Some(last) = others.pop() else {
            return Ok(first);
        };
        self.push(Node::Ancestrage(first, others, last))
    }

    // A `!` before the selector of the node.
    fn negation(&self, inner: usize) -> Result<Node, OutOfMemory>
        requires { inner < node_count self.now }
        ensures stands { IfOk result (λ node. Neg (syntax_at self.now inner) ≡
            node_syntax (name_of (slot_names self.now)) (syntax_at self.now) node) }
        ensures fits { IfOk result
            (λ node. IsTrue (fits (length (slot_names self.now)) (node_count self.now) node)) }
    {
        match self.at(inner) {
            Node::Neg(innermost, others) => {
                let others = others.checked_add(1).ok_or(OutOfMemory)?;
                Ok(Node::Neg(*innermost, others))
            }
            _ => Ok(Node::Neg(inner, 0)),
        }
    }

    // Adds the node of a selector that has no first part.
    fn add_end(&mut self, alloc: Global, end: &Selector) -> Result<usize, OutOfMemory>
        requires { is_end (syntax end.now) ≡ true }
        ensures stands { IfOk result (Adds self.old self.new (syntax end.now)) }
        ensures names { slot_names self.new ≡ slot_names self.old }
    {
        match end {
            Selector::Wildcard => self.push(Node::Wildcard),
            Selector::Entry(entry_type) => self.push(Node::Entry(*entry_type)),
            Selector::Alt(_) => self.push(Node::Alt(Vec::new(alloc))),
            Selector::Multi(_) => self.push(Node::Multi(Vec::new(alloc))),
            Selector::Neg(_)
            | Selector::Binding(_, _)
            | Selector::Attr(_, _)
            | Selector::Ancestrage(_, _) => unreachable!(),
        }
    }

    // Adds the node of a bracket list behind the selector of the node.
    fn add_attr(&mut self, first: usize, names: &Vec<String>) -> Result<usize, OutOfMemory>
        requires { first < node_count self.old }
        ensures stands { IfOk result (Adds self.old self.new
            (Attr (syntax_at self.old first) (map string_bytes names.now.items))) }
        ensures names { slot_names self.new ≡ slot_names self.old }
    {
        let names = NameSet::new(names);
        self.asked_again |= self.asked & names.numbers();
        self.asked |= names.numbers();
        self.push(Node::Attr(first, names))
    }

    // Adds the nodes of a selector that is no `>`, and whose first part is there: the node of that
    // number.
    #[cycle(compile)]
    fn add_over<'s>(
        &mut self,
        alloc: Global,
        slots: &mut Slots<'s>,
        selector: &'s Selector,
        first: usize,
    ) -> Result<usize, OutOfMemory>
        requires inside { first < node_count self.old }
        requires form { is_over (syntax selector.now) ≡ true }
        requires slots { AreSlots slots.old (slot_names self.old) }
        ensures stands { IfOk result (Adds self.old self.new
            (with_first (syntax selector.now) (syntax_at self.old first))) }
        ensures names { IfOk result (λ _.
            AddsNames self.old self.new (later_names (syntax selector.now))) }
        ensures slots { OnOk result (AreSlots slots.new (slot_names self.new)) }
    {
        match selector {
            Selector::Neg(_) => {
                let node = self.negation(first)?;
                self.push(node)
            }
            Selector::Binding(name, _) => {
                let slot = self.slot_of(alloc, slots, name.as_str())?;
                self.push(Node::Binding(slot, first))
            }
            Selector::Attr(_, names) => self.add_attr(first, names),
            Selector::Alt(members) => {
                let members = self.add_all(alloc, slots, first, members)?;
                self.push(Node::Alt(members))
            }
            Selector::Multi(members) => {
                let members = self.add_all(alloc, slots, first, members)?;
                self.push(Node::Multi(members))
            }
            Selector::Wildcard | Selector::Entry(_) | Selector::Ancestrage(_, _) => unreachable!(),
        }
    }

    // Adds the nodes of selectors, of which the first is there, and answers the numbers of those
    // that stand for them.
    #[cycle(compile)]
    fn add_all<'s>(
        &mut self,
        alloc: Global,
        slots: &mut Slots<'s>,
        first: usize,
        members: &'s [Selector],
    ) -> Result<Vec<usize>, OutOfMemory>
        requires inside { first < node_count self.old }
        requires slots { AreSlots slots.old (slot_names self.old) }
        ensures keeps { IfOk result (λ _. Keeps self.old self.new) }
        ensures inside { IfOk result (λ numbers. above numbers.items ≤ node_count self.new) }
        ensures stand { IfOk result (λ numbers.
            syntaxes (map (syntax_at self.new) numbers.items) ≡
            with_first_of (members_of members.now) (syntax_at self.old first)) }
        ensures names { IfOk result (λ _.
            AddsNames self.old self.new (later_of (members_of members.now))) }
        ensures slots { OnOk result (AreSlots slots.new (slot_names self.new)) }
    {
        let mut numbers = Vec::with_capacity(alloc, members.len())?;
        let Some((_, rest)) = members.split_first() else {
            return Ok(numbers);
        };
        numbers.push(first)?;
        'rest: for member in rest {
            numbers.push(self.add(alloc, slots, member)?)?;
        }
        Ok(numbers)
    }
}

// Whether the number is marked.
fn is_marked(marks: &[bool], number: usize) -> bool
    ensures { result ≡ get_or marks.now number false }
{
    match marks.get(number) {
        Some(mark) => *mark,
        None => false,
    }
}

// Whether each of the numbers is marked.
fn all_marked(marks: &[bool], numbers: &[usize]) -> bool
    ensures { result ≡ list_all (λ n. get_or marks.now n false) numbers.now }
{
    numbers.iter().all(|number| is_marked(marks, *number))
}
