//! The names that an evaluation has bound so far.
ghost use Rattle.std.specs.Prelude.{◌≡◌, ◌+◌, ◌*◌, ◌<◌, ◌≤◌, ℕ, All, List, [], ◌∷◌, ◌++◌, Some};
ghost use Rattle.std.specs.Prelude.{IfOk, OnOk, length, map, option_map, sum, sum_by, take};
ghost use Rattle.std.specs.Coded.{codes};
ghost use Rattle.std.specs.HashMap.{get_by_text};
ghost use Rattle.std.specs.Option.{option_map_or};
ghost use Rattle.haya_assignment.specs.Assignment.{least};
ghost use Rattle.haya_entry.specs.contracts.entry.Entry as the_entry;
ghost use Rattle.haya_entry.specs.Tree.{Tree, view};
ghost use Rattle.haya_selectors.specs.Binds.{last_of, pair_of_first};
ghost use Rattle.haya_selectors.specs.Candidates.{GivesCandidates, candidate_places};
ghost use Rattle.haya_selectors.specs.Compiled.{name_of};
ghost use Rattle.haya_selectors.specs.Evaluation.{AddsOn, EntryPairs, named_pairs, pairs_view};
ghost use Rattle.haya_selectors.specs.Nodes.{slot_names};
ghost use Rattle.haya_selectors.specs.Tries.{Piece, all_found, all_held, all_joined, all_lengths};
ghost use Rattle.haya_selectors.specs.Tries.{each_holds as table_holds, found_rows, held_rows};
ghost use Rattle.haya_selectors.specs.Tries.{joined_at};

use crate::nodes::Nodes;
use crate::places::{Candidates, first_place};
use crate::tries::Tries;
use haya_assignment::{Assignment, least_assignment};
use haya_entry::{Entry, Steps};
use haya_text::OutOfMemory;
use std::alloc::Global;
use std::collections::HashMap;
use std::marker::Model;

// The slots that were bound so far, in order, each beside its entry.
#[derive(Drop)]
pub(crate) struct Bindings<'e> {
    pairs: Vec<(usize, &'e Entry)>,
    // Tries that are done with: the next `&` uses their memory again.
    spare: Vec<Tries>,
    // Memory for where the members of a `&` hold.
    table: Vec<Vec<bool>>,
}

impl<'e> Model for Bindings<'e> {
    ghost Value = { EntryPairs };

    ghost view = { λ b. map (λ p. (p.0, p.1.now)) b.pairs.items };

    ghost coded = { Prim.hlevel (codes, the_entry.the_row.coded) };
}

impl<'e> Bindings<'e> {
    // No bindings.
    pub(crate) fn new(alloc: Global) -> Bindings<'e>
        ensures { result ≡ [] }
    {
        Bindings {
            pairs: Vec::new(alloc),
            spare: Vec::new(alloc),
            table: Vec::new(alloc),
        }
    }

    // How many there are.
    pub(crate) fn len(&self) -> usize
        ensures { result ≡ length self.now }
    {
        self.pairs.len()
    }

    // Adds one.
    pub(crate) fn bind(&mut self, slot: usize, entry: &'e Entry) -> Result<(), OutOfMemory>
        ensures { OnOk result (self.new ≡ self.old ++ (slot, entry.now) ∷ []) }
    {
        self.pairs.push((slot, entry))?;
        Ok(())
    }

    // Adds one of the slot to the first candidate, where there is one.
    pub(crate) fn bind_first(
        &mut self,
        slot: usize,
        parents: &'e [Entry],
        candidates: &Candidates,
    ) -> Result<(), OutOfMemory>
        requires { All (λ i. i < length parents.now)
            (candidate_places (map view parents.now) candidates.now) }
        ensures { OnOk result ((names : List (List ℕ)) →
            AddsOn names (map view parents.now) self.old self.new
            (pair_of_first (name_of names slot)
            (Some (candidate_places (map view parents.now) candidates.now)))) }
    {
        if let Some(first) = first_place(candidates, parents) {
            self.bind(slot, &parents[first])?;
        }
        Ok(())
    }

    // Leaves the first `len` alone.
    pub(crate) fn truncate(&mut self, len: usize)
        requires { len ≤ length self.old }
        ensures { self.new ≡ take len self.old }
    {
        self.pairs.truncate(len);
    }

    // The least assignment of the members to the parents, if there is one, where each holds at some
    // parent or one at none. Of the bindings from `before` on, which the tries have found, those of
    // each member at its place are left, or none.
    pub(crate) fn settle(
        &mut self,
        alloc: Global,
        tries: &Tries,
        each_holds: bool,
        parents: usize,
        members: usize,
        before: usize,
    ) -> Result<Option<Candidates>, OutOfMemory>
        requires count { length (all_held tries.now) ≡ members * parents }
        requires each { each_holds ≡ table_holds (held_rows parents members tries.now) }
        requires within { before + sum_by sum (found_rows parents members tries.now)
            ≡ length self.old }
        ensures answer { (xs : List Tree) →
            GivesCandidates xs result (least (held_rows parents members tries.now)) }
        ensures left { (names : List (List ℕ)) (front : Piece) (pieces : List (List Piece)) →
            length front ≡ before → all_lengths pieces ≡ found_rows parents members tries.now →
            pairs_view names self.old ≡ front ++ all_joined pieces →
            IfOk result (λ _. pairs_view names self.new ≡ front ++ option_map_or
            (joined_at pieces) (least (held_rows parents members tries.now)) []) }
    {
        if !each_holds {
            self.truncate(before);
            return Ok(None);
        }
        self.assign(alloc, tries, parents, members, before)
    }

    // The same in every case.
    #[inline(never)]
    fn assign(
        &mut self,
        alloc: Global,
        tries: &Tries,
        parents: usize,
        members: usize,
        before: usize,
    ) -> Result<Option<Candidates>, OutOfMemory>
        requires count { length (all_held tries.now) ≡ members * parents }
        requires within { before + sum_by sum (found_rows parents members tries.now)
            ≡ length self.old }
        ensures answer { (xs : List Tree) →
            GivesCandidates xs result (least (held_rows parents members tries.now)) }
        ensures left { (names : List (List ℕ)) (front : Piece) (pieces : List (List Piece)) →
            length front ≡ before → all_lengths pieces ≡ found_rows parents members tries.now →
            pairs_view names self.old ≡ front ++ all_joined pieces →
            IfOk result (λ _. pairs_view names self.new ≡ front ++ option_map_or
            (joined_at pieces) (least (held_rows parents members tries.now)) []) }
    {
        tries.write_table(alloc, parents, members, &mut self.table)?;
        let table = &self.table[..members];
        match least_assignment(alloc, table, parents, &mut Steps::new())? {
            Assignment::Found(places) => {
                self.keep(before, tries, parents, &places);
                Ok(Some(Candidates::Kept(places)))
            }
            Assignment::Short(_) => {
                self.truncate(before);
                Ok(None)
            }
        }
    }

    // Of the pieces that the tries have found, which stand from `before` on, leaves of each member
    // the one at its place.
    fn keep(&mut self, before: usize, tries: &Tries, parents: usize, places: &[usize])
        requires count { length (all_found tries.now) ≡ length places.now * parents }
        requires within { before + sum_by sum (found_rows parents (length places.now) tries.now)
            ≡ length self.old }
        requires inside { All (λ place. place < parents) places.now }
        ensures { (names : List (List ℕ)) (front : Piece) (pieces : List (List Piece)) →
            length front ≡ before →
            all_lengths pieces ≡ found_rows parents (length places.now) tries.now →
            pairs_view names self.old ≡ front ++ all_joined pieces →
            pairs_view names self.new ≡ front ++ joined_at pieces places.now }
    {
        let mut to = before;
        let mut start = before;
        'members: for member in 0..places.len() {
            let place = places[member];
            let at = start + tries.found_before(parents, member, place);
            let len = tries.found_at(parents, member, place);
            self.pairs.copy_within(at..at + len, to);
            to += len;
            start += tries.found_before(parents, member, parents);
        }
        self.pairs.truncate(to);
    }

    // No tries, in memory that was used before if there is some.
    pub(crate) fn take_tries(&mut self, alloc: Global) -> Tries
        ensures kept { self.new ≡ self.old }
        ensures held { all_held result ≡ [] }
        ensures found { all_found result ≡ [] }
    {
        match self.spare.pop() {
            Some(mut tries) => {
                tries.clear();
                tries
            }
            None => Tries::new(alloc),
        }
    }

    // Takes back tries that are done with.
    pub(crate) fn give_back(&mut self, tries: Tries)
        ensures { self.new ≡ self.old }
    {
        let _ = self.spare.push(tries);
    }

    // The entry that the name was bound to last.
    pub(crate) fn last(&self, nodes: &Nodes, name: &str) -> Option<&'e Entry>
        ensures { option_map (λ e. e.now) result ≡
            last_of name.now (named_pairs (slot_names nodes.now) self.now) }
    {
        let mut last_first = self.pairs.iter().rev();
        let pair = last_first.find(|pair| nodes.name(pair.0) == name);
        pair.map(|pair| pair.1)
    }

    // Each name with the entry that it was bound to last.
    pub(crate) fn to_map(
        &self,
        alloc: Global,
        nodes: &Nodes,
    ) -> Result<HashMap<String, &'e Entry>, OutOfMemory>
        ensures { IfOk result (λ m. (q : List ℕ) → option_map (λ e. e.now) (get_by_text m q) ≡
            last_of q (named_pairs (slot_names nodes.now) self.now)) }
    {
        let mut map = HashMap::new(alloc);
        for (slot, entry) in &self.pairs {
            map.insert(String::from_str(alloc, nodes.name(*slot))?, *entry)?;
        }
        Ok(map)
    }
}
