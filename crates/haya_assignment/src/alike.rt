//! Members that are accepted at the same positions.
ghost use Rattle.std.specs.Prelude.{◌≡◌, ℕ, ◌<◌, ◌≤◌, length, All, IfOk};
ghost use Rattle.haya_assignment.specs.Assignment.{rows};
ghost use Rattle.haya_assignment.specs.Placed.{accepts};
ghost use Rattle.haya_assignment.specs.Search.{AreAlike};

use haya_text::OutOfMemory;
use std::alloc::Global;

/// How many different rows with as many positions each is compared with.
const COMPARED: usize = 16;

/// Of each member at how many positions it is accepted.
fn counts_of(alloc: Global, table: &[Vec<bool>]) -> Result<Vec<usize>, OutOfMemory>
    ensures as_many { IfOk result (λ v. length v.items ≡ length table.now) }
{
    let mut counts = Vec::with_capacity(alloc, table.len())?;
    'members: for member in 0..table.len() {
        let accepted = table[member].iter().filter(|is_accepted| **is_accepted);
        counts.push(accepted.count())?;
    }
    Ok(counts)
}

/// One of these members that has the same row as the member, which may be the member itself.
fn one_alike(table: &[Vec<bool>], counts: &[usize], others: &[usize], member: usize) -> usize
    requires member_in { member < length table.now }
    requires counts { length counts.now ≡ length table.now }
    requires known { All (λ u. u < member) others.now }
    ensures known { result ≤ member }
    ensures same { (j : ℕ) → accepts (rows table.now) result j ≡ accepts (rows table.now) member j }
{
    let mut left = COMPARED;
    'others: for other in others {
        if counts[*other] == counts[member] {
            let Some(fewer) = left.checked_sub(1) else {
                return member;
            };
            left = fewer;
            if table[*other] == table[member] {
                return *other;
            }
        }
    }
    member
}

/// Of each member the first with the same row; but a row is taken for a different one behind many
/// that differ from it with as many positions.
pub fn all_alike(alloc: Global, table: &[Vec<bool>]) -> Result<Vec<usize>, OutOfMemory>
    ensures as_many { IfOk result (λ v. length v.items ≡ length table.now) }
    ensures alike { IfOk result (λ v. AreAlike (accepts (rows table.now)) v.items) }
{
    let counts = counts_of(alloc, table)?;
    let mut firsts = Vec::new(alloc);
    let mut alike = Vec::with_capacity(alloc, table.len())?;
    'members: for member in 0..table.len() {
        let first = one_alike(table, &counts, &firsts, member);
        if first == member {
            firsts.push(member)?;
        }
        alike.push(first)?;
    }
    Ok(alike)
}
