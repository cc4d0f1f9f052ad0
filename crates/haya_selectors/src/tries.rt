//! What trying each member of `&` at each parent has found.
ghost use Rattle.std.specs.Prelude.{◌≡◌, ◌+◌, ◌*◌, ◌<◌, ◌≤◌, ◌^◌, [], ◌∷◌, ◌++◌, OnOk};
ghost use Rattle.std.specs.Prelude.{drop, get_or, length, map, sum, sum_by, take};
ghost use Rattle.haya_assignment.specs.Assignment.{rows};
ghost use Rattle.haya_selectors.specs.Tries.{all_found, all_held, held_rows};

use haya_text::OutOfMemory;
use std::alloc::Global;

// What trying a member at a parent has found.
#[derive(Drop)]
struct Try {
    // Whether it holds there.
    held: bool,
    // How many bindings were found there.
    found: usize,
}

// The tries of the members: those of the first at each parent in turn, then those of the next.
#[derive(Drop)]
pub(crate) struct Tries {
    tries: Vec<Try>,
}

impl Tries {
    // No tries.
    pub(crate) fn new(alloc: Global) -> Tries
        ensures held { all_held result ≡ [] }
        ensures found { all_found result ≡ [] }
    {
        Tries {
            tries: Vec::new(alloc),
        }
    }

    // Takes the tries away, and keeps their memory.
    pub(crate) fn clear(&mut self)
        ensures held { all_held self.new ≡ [] }
        ensures found { all_found self.new ≡ [] }
    {
        self.tries.clear();
    }

    // Adds a try.
    pub(crate) fn push(&mut self, held: bool, found: usize) -> Result<(), OutOfMemory>
        ensures held { OnOk result (all_held self.new ≡ all_held self.old ++ held ∷ []) }
        ensures found { OnOk result (all_found self.new ≡ all_found self.old ++ found ∷ []) }
    {
        self.tries.push(Try { held, found })?;
        Ok(())
    }

    // How many bindings were found where the member was tried at the place.
    pub(crate) fn found_at(&self, parents: usize, member: usize, place: usize) -> usize
        requires inside { place < parents }
        requires within { member * parents + parents ≤ length (all_found self.now) }
        ensures { result ≡
            get_or (take parents (drop (member * parents) (all_found self.now))) place 0 }
    {
        self.tries[member * parents + place].found
    }

    // How many bindings were found where the member was tried at the first places.
    pub(crate) fn found_before(&self, parents: usize, member: usize, place: usize) -> usize
        requires inside { place ≤ parents }
        requires within { member * parents + parents ≤ length (all_found self.now) }
        requires fits { sum (take parents (drop (member * parents) (all_found self.now))) < 2 ^ 64 }
        ensures { result ≡
            sum (take place (take parents (drop (member * parents) (all_found self.now)))) }
    {
        let start = member * parents;
        total(&self.tries[start..start + place])
    }

    // Writes for each member a row, which says of each parent whether it holds there. The memory of
    // the rows is used again.
    pub(crate) fn write_table(
        &self,
        alloc: Global,
        parents: usize,
        members: usize,
        table: &mut Vec<Vec<bool>>,
    ) -> Result<(), OutOfMemory>
        requires count { length (all_held self.now) ≡ members * parents }
        ensures enough { OnOk result (members ≤ length table.new.items) }
        ensures rows { OnOk result
            (rows (take members table.new.items) ≡ held_rows parents members self.now) }
    {
        'room: while table.len() < members {
            table.push(Vec::new(alloc))?;
        }
        'members: for member in 0..members {
            let start = member * parents;
            write_row(&self.tries[start..start + parents], &mut table[member])?;
        }
        Ok(())
    }
}

// Writes whether the member holds at each parent.
fn write_row(tries: &[Try], row: &mut Vec<bool>) -> Result<(), OutOfMemory>
    ensures { OnOk result (row.new.items ≡ map (λ t. t.held) tries.now) }
{
    row.clear();
    'tries: for at in 0..tries.len() {
        row.push(tries[at].held)?;
    }
    Ok(())
}

// How many bindings the tries have found.
fn total(tries: &[Try]) -> usize
    requires { sum (map (λ t. t.found) tries.now) < 2 ^ 64 }
    ensures { result ≡ sum (map (λ t. t.found) tries.now) }
{
    let mut total = 0;
    'tries: for at in 0..tries.len() {
        total += tries[at].found;
    }
    total
}
