//! The call, and its answers.
ghost use Rattle.std.specs.Prelude.{◌≡◌, ◌⊎◌, ℕ, List, ◌+◌, ◌*◌, ◌≤◌, All, IfOk, OnOk};
ghost use Rattle.std.specs.Prelude.{length, vec_len};
ghost use Rattle.haya_assignment.specs.Answer.{IsAnswer, IsCompleted, OnFound};
ghost use Rattle.haya_assignment.specs.Assignment.{rows, true_positions};
ghost use Rattle.haya_assignment.specs.Placed.{accepts, IsLeastBelow, IsPlaced};
ghost use Rattle.haya_assignment.specs.Search.{AreAlike};

use crate::alike::all_alike;
use crate::greedy::{Order, take_in_turn};
use crate::order::rarest_first;
use crate::place::{place, place_least};
use crate::ranks::Ranks;
use haya_entry::Steps;
use haya_text::OutOfMemory;
use std::alloc::Global;

/// The least assignment, or members that are accepted at fewer positions than they are.
#[derive(PartialEq, Eq, Debug, Drop)]
pub enum Assignment {
    /// For each member in turn its position.
    Found(Vec<usize>),
    /// The members, in ascending order.
    Short(Vec<usize>),
}

/// The places of the flags that are set, in ascending order.
fn set_places(alloc: Global, flags: &[bool]) -> Result<Vec<usize>, OutOfMemory>
    ensures { IfOk result (λ v. v.items ≡ true_positions flags.now) }
{
    let mut places = Vec::new(alloc);
    'flags: for place in 0..flags.len() {
        if flags[place] {
            places.push(place)?;
        }
    }
    Ok(places)
}

/// The longer of the two.
fn longer(first: Vec<usize>, last: Vec<usize>) -> Vec<usize>
    ensures either { (result.items ≡ first.items) ⊎ (result.items ≡ last.items) }
    ensures long { length last.items ≤ length result.items }
    ensures within { length result.items ≤ length first.items + length last.items }
{
    if first.len() < last.len() {
        last
    } else {
        first
    }
}

/// Some assignment, or members that are accepted at fewer positions than they are, where those
/// before some member have positions.
fn complete(
    alloc: Global,
    table: &[Vec<bool>],
    parents: usize,
    alike: &[usize],
    start: Vec<usize>,
    steps: &mut Steps,
) -> Result<Assignment, OutOfMemory>
    requires width { All (λ row. vec_len row ≡ parents) table.now }
    requires likes { length alike.now ≡ length table.now }
    requires alike { AreAlike (accepts (rows table.now)) alike.now }
    requires fewer { length start.items ≤ length table.now }
    requires placed { IsPlaced (accepts (rows table.now)) start.items }
    ensures answer { IfOk result (IsCompleted (rows table.now) parents) }
    ensures at_least { IfOk result (λ a. OnFound a
        (steps.old + length table.now ≤ steps.new + length start.items)) }
    ensures onward { steps.old ≤ steps.new }
    ensures at_most { steps.new + length start.items * (length table.now * parents)
        ≤ steps.old + length table.now * (length table.now * parents) }
{
    let mut positions = start;
    'members: for member in positions.len()..table.len() {
        positions.push(0)?;
        if let Some(reached) = place(alloc, table, parents, alike, member, &mut positions, steps)? {
            return Ok(Assignment::Short(set_places(alloc, &reached)?));
        }
    }
    Ok(Assignment::Found(positions))
}

/// Makes the assignment the least: each member in turn has the least position that it can have
/// beside those before it.
fn lower(
    alloc: Global,
    table: &[Vec<bool>],
    parents: usize,
    alike: &[usize],
    positions: &mut [usize],
    steps: &mut Steps,
) -> Result<(), OutOfMemory>
    requires width { All (λ row. vec_len row ≡ parents) table.now }
    requires likes { length alike.now ≡ length table.now }
    requires alike { AreAlike (accepts (rows table.now)) alike.now }
    requires one_each { length positions.old ≡ length table.now }
    requires placed { IsPlaced (accepts (rows table.now)) positions.old }
    ensures one_each { length positions.new ≡ length table.now }
    ensures placed { OnOk result (IsPlaced (accepts (rows table.now)) positions.new) }
    ensures least { OnOk result (IsLeastBelow (accepts (rows table.now)) (length table.now)
        positions.new) }
    ensures onward { steps.old ≤ steps.new }
    ensures at_most { steps.new ≤ steps.old + length table.now * (length table.now * parents) }
{
    let mut ranks = Ranks::new(alloc, table.len())?;
    'members: for member in 0..table.len() {
        place_least(
            alloc, table, parents, alike, member, positions, &mut ranks, steps,
        )?;
    }
    Ok(())
}

/// The least assignment of the members to positions, each to one of its own: `table[i][j]` says
/// whether the member `i` is accepted at the position `j`, of which there are `parents`. Of two
/// assignments the less is the one that gives the first member they place differently the lesser
/// position. Where there is none, members that are accepted at fewer positions than they are.
///
/// A tick is a look into the table. Beside these, each row is gone through once, and compared with
/// at most 16 others.
///
/// # Errors
///
/// [`OutOfMemory`] where an allocation failed.
///
/// # Examples
///
/// ```
/// let table = vec![in alloc; vec![in alloc; true, true]?, vec![in alloc; true, false]?]?;
/// let answer = least_assignment(alloc, &table, 2, &mut Steps::new())?;
/// // `Found` with the positions 1 and 0.
/// ```
pub fn least_assignment(
    alloc: Global,
    table: &[Vec<bool>],
    parents: usize,
    steps: &mut Steps,
) -> Result<Assignment, OutOfMemory>
    requires width { All (λ row. vec_len row ≡ parents) table.now }
    ensures answer { IfOk result (IsAnswer (rows table.now) parents) }
    ensures onward { steps.old ≤ steps.new }
    ensures at_least { IfOk result (λ a. OnFound a (steps.old + length table.now ≤ steps.new)) }
    ensures at_most { steps.new ≤ steps.old
        + (length table.now * parents + 1) * (length table.now + parents + 1) }
{
    let first = take_in_turn(alloc, table, parents, &Order::Ascending, steps)?;
    if first.len() == table.len() {
        return Ok(Assignment::Found(first));
    }
    let rarest = Order::Listed(rarest_first(alloc, table, parents)?);
    let other = take_in_turn(alloc, table, parents, &rarest, steps)?;
    let alike = all_alike(alloc, table)?;
    match complete(alloc, table, parents, &alike, longer(other, first), steps)? {
        Assignment::Found(mut positions) => {
            lower(alloc, table, parents, &alike, &mut positions, steps)?;
            Ok(Assignment::Found(positions))
        }
        Assignment::Short(members) => Ok(Assignment::Short(members)),
    }
}
