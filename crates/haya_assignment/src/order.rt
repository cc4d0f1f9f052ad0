//! The order in which positions are best looked at.
ghost use Rattle.std.specs.Prelude.{◌≡◌, ◌<◌, length, vec_len, All, IfOk};

use haya_text::OutOfMemory;
use std::alloc::Global;

/// Of each position how many members are accepted there.
fn members_at(alloc: Global, table: &[Vec<bool>], parents: usize) -> Result<Vec<usize>, OutOfMemory>
    requires width { All (λ row. vec_len row ≡ parents) table.now }
    ensures as_many { IfOk result (λ v. length v.items ≡ parents) }
{
    let mut counts = vec![in alloc; 0usize; parents]?;
    'members: for member in 0..table.len() {
        'positions: for position in 0..parents {
            if table[member][position] {
                counts[position] = counts[position].saturating_add(1);
            }
        }
    }
    Ok(counts)
}

/// The positions, those before others where fewer members are accepted.
pub fn rarest_first(
    alloc: Global,
    table: &[Vec<bool>],
    parents: usize,
) -> Result<Vec<usize>, OutOfMemory>
    requires width { All (λ row. vec_len row ≡ parents) table.now }
    ensures as_many { IfOk result (λ v. length v.items ≡ parents) }
    ensures known { IfOk result (λ v. All (λ j. j < parents) v.items) }
{
    let counts = members_at(alloc, table, parents)?;
    let mut order = Vec::with_capacity(alloc, parents)?;
    'positions: for position in 0..parents {
        order.push(position)?;
    }
    order.sort_by_key(|position| counts.get(*position).copied())?;
    Ok(order)
}
