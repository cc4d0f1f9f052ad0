//! The members in turn, each at the first position of an order that is left.
ghost use Rattle.std.specs.Prelude.{◌≡◌, ℕ, ◌+◌, ◌*◌, ◌<◌, ◌≤◌, false, true, get_or, length};
ghost use Rattle.std.specs.Prelude.{vec_len, All, IfNone, IfOk, IfSome, Some};
ghost use Rattle.haya_assignment.specs.Assignment.{greedy, rows};
ghost use Rattle.haya_assignment.specs.Orders.{AreListed};
ghost use Rattle.haya_assignment.specs.Placed.{accepts, IsPlaced};

use crate::search::look;
use haya_entry::Steps;
use haya_text::OutOfMemory;
use std::alloc::Global;

/// The order in which positions are looked at.
#[derive(Drop)]
pub enum Order {
    Ascending,
    /// That of the list.
    Listed(Vec<usize>),
}

/// Where the order has come, behind so many of the positions.
fn position_in(order: &Order, looked: usize, parents: usize) -> usize
    requires looked { looked < parents }
    requires order { AreListed parents order.now }
    ensures within { result < parents }
    ensures ascending { order.now ≡ Order.Ascending → result ≡ looked }
{
    match order {
        Order::Ascending => looked,
        Order::Listed(positions) => positions[looked],
    }
}

/// The first position in the order where the member is accepted, of those that aren't taken.
fn first_left(
    table: &[Vec<bool>],
    parents: usize,
    member: usize,
    taken: &[bool],
    order: &Order,
    steps: &mut Steps,
) -> Option<usize>
    requires width { All (λ row. vec_len row ≡ parents) table.now }
    requires member_in { member < length table.now }
    requires as_many { length taken.now ≡ parents }
    requires order { AreListed parents order.now }
    ensures within { IfSome result (λ position. position < parents) }
    ensures accepted { IfSome result
        (λ position. accepts (rows table.now) member position ≡ true) }
    ensures left { IfSome result (λ position. get_or taken.now position false ≡ false) }
    ensures first { order.now ≡ Order.Ascending → IfSome result (λ position. (other : ℕ) →
        other < position → accepts (rows table.now) member other ≡ true →
        get_or taken.now other false ≡ true) }
    ensures none { order.now ≡ Order.Ascending → IfNone result ((other : ℕ) →
        other < parents → accepts (rows table.now) member other ≡ true →
        get_or taken.now other false ≡ true) }
    ensures at_least { IfSome result (λ _. steps.old + 1 ≤ steps.new) }
    ensures onward { steps.old ≤ steps.new }
    ensures at_most { steps.new ≤ steps.old + parents }
{
    'positions: for looked in 0..parents {
        let position = position_in(order, looked, parents);
        if !taken[position] && look(table, parents, member, position, steps) {
            return Some(position);
        }
    }
    None
}

/// Each member in turn takes the first position in the order where it is accepted, of those that
/// are left, up to one that finds none.
pub fn take_in_turn(
    alloc: Global,
    table: &[Vec<bool>],
    parents: usize,
    order: &Order,
    steps: &mut Steps,
) -> Result<Vec<usize>, OutOfMemory>
    requires width { All (λ row. vec_len row ≡ parents) table.now }
    requires order { AreListed parents order.now }
    ensures fewer { IfOk result (λ v. length v.items ≤ length table.now) }
    ensures placed { IfOk result (λ v. IsPlaced (accepts (rows table.now)) v.items) }
    ensures answer { IfOk result (λ v. order.now ≡ Order.Ascending →
        length v.items ≡ length table.now → greedy (rows table.now) ≡ Some v.items) }
    ensures first { order.now ≡ Order.Ascending → IfOk result (λ v. length v.items ≡ 0 →
        0 < length table.now → (j : ℕ) → accepts (rows table.now) 0 j ≡ false) }
    ensures at_least { IfOk result (λ v. steps.old + length v.items ≤ steps.new) }
    ensures onward { steps.old ≤ steps.new }
    ensures at_most { steps.new ≤ steps.old + length table.now * parents }
{
    let mut taken = vec![in alloc; false; parents]?;
    let mut positions = Vec::with_capacity(alloc, table.len())?;
    'members: for member in 0..table.len() {
        let Some(position) = first_left(table, parents, member, &taken, order, steps) else {
            return Ok(positions);
        };
        taken[position] = true;
        positions.push(position)?;
    }
    Ok(positions)
}
