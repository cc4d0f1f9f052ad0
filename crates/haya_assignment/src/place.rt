//! A position for one member, where others make room.
ghost use Rattle.std.specs.Prelude.{◌≡◌, ◌≢◌, ℕ, Bool, false, List, [], ◌∷◌, ◌+◌, ◌*◌, ◌<◌, ◌≤◌};
ghost use Rattle.std.specs.Prelude.{get_or, length, slice_index, vec_len, All, IfNone, IfOk};
ghost use Rattle.std.specs.Prelude.{IfSome, IsSome, OnOk};
ghost use Rattle.haya_assignment.specs.Assignment.{rows};
ghost use Rattle.haya_assignment.specs.Placed.{accepts, Grows, IsPlaced, IsPlacedBut, SameBelow};
ghost use Rattle.haya_assignment.specs.Ranked.{AreRanked};
ghost use Rattle.haya_assignment.specs.Search.{AreAlike, AreHolders, AreLayers, HasFound};
ghost use Rattle.haya_assignment.specs.Search.{IsSearchedBelow, Reaches};
ghost use Rattle.haya_assignment.specs.Shift.{AreKept, IsChain, IsReady, IsStuck};

use crate::ranks::Ranks;
use crate::search::{Reached, Setting, search};
use haya_entry::Steps;
use haya_text::OutOfMemory;
use std::alloc::Global;

/// Of each position its holder, if one of the members but `other` has it.
fn holders_of(
    alloc: Global,
    positions: &[usize],
    other: usize,
    parents: usize,
) -> Result<Vec<Option<usize>>, OutOfMemory>
    requires within { (u : ℕ) → u < length positions.now → u ≢ other →
        slice_index positions.now u < parents }
    ensures { IfOk result (λ v. AreHolders other parents positions.now v.items) }
{
    let mut holders = vec![in alloc; None; parents]?;
    'members: for member in 0..positions.len() {
        if member != other {
            holders[positions[member]] = Some(member);
        }
    }
    Ok(holders)
}

/// Gives the member reached at the place `at` the position, and each before it, back to the
/// first, the position of the one that it led to.
fn shift(positions: &mut [usize], reached: &Reached, member: usize, at: usize, position: usize)
    requires at_in { at < length reached.now.members.items }
    requires chain { IsChain member (length positions.old) reached.now }
    ensures as_long { length positions.new ≡ length positions.old }
    ensures kept { (stays : List Bool) → get_or stays member false ≡ false →
        ((t : ℕ) → 0 < t → t < length reached.now.members.items →
        get_or stays (slice_index reached.now.members.items t) false ≡ false) →
        AreKept stays positions.old positions.new }
    ensures placed { (A : ℕ → ℕ → Bool) (bound : ℕ) →
        IsReady A bound member positions.old reached.now at position →
        IsPlaced A positions.new × (slice_index positions.new member < bound) }
{
    let mut at = at;
    let mut position = position;
    'back: while at > 0 {
        let moved = reached.members[at];
        let left = positions[moved];
        positions[moved] = position;
        position = left;
        at = reached.from[at];
    }
    positions[member] = position;
}

/// What a search for a position of a member came to.
#[derive(Drop)]
struct Sought {
    // Of each position the other member that had it when the search began.
    holders: Vec<Option<usize>>,
    reached: Reached,
    // Of each member reached, up to some, its layer.
    layers: Vec<usize>,
    // The place of the member reached that is accepted at a free position, and the position.
    end: Option<(usize, usize)>,
}

/// Searches for a position of the member, where the others move but for those that stay.
fn seek(
    alloc: Global,
    table: &[Vec<bool>],
    parents: usize,
    alike: &[usize],
    member: usize,
    stays: &[bool],
    positions: &[usize],
    steps: &mut Steps,
) -> Result<Sought, OutOfMemory>
    requires width { All (λ row. vec_len row ≡ parents) table.now }
    requires likes { length alike.now ≡ length table.now }
    requires alike { AreAlike (accepts (rows table.now)) alike.now }
    requires rows { length positions.now ≤ length table.now }
    requires member_in { member < length positions.now }
    requires flags { length stays.now ≡ length positions.now }
    requires placed { IsPlacedBut (accepts (rows table.now)) member positions.now }
    ensures holders { IfOk result (λ s. AreHolders member parents positions.now s.holders.items) }
    ensures reaches { IfOk result (λ s.
        Reaches (accepts (rows table.now)) stays.now s.holders.items s.reached) }
    ensures first { IfOk result (λ s. Grows (member ∷ []) s.reached.members.items) }
    ensures as_long { IfOk result (λ s. length s.reached.seen.items ≡ length positions.now) }
    ensures found { IfOk result (λ s. IfSome s.end (λ end. HasFound (accepts (rows table.now))
        stays.now s.holders.items s.reached end.0 end.1)) }
    ensures searched { IfOk result (λ s. IfNone s.end (IsSearchedBelow (accepts (rows table.now))
        stays.now parents s.holders.items s.reached.members.items)) }
    ensures layered { IfOk result (λ s. AreLayers (accepts (rows table.now)) stays.now
        s.holders.items s.reached.members.items s.layers.items) }
    ensures low { IfOk result (λ s. (t : ℕ) → t < length s.layers.items →
        slice_index s.layers.items t < parents) }
    ensures at_least { IfOk result (λ s. IsSome s.end → steps.old + 1 ≤ steps.new) }
    ensures onward { steps.old ≤ steps.new }
    ensures at_most { steps.new ≤ steps.old + length table.now * parents }
{
    let holders = holders_of(alloc, positions, member, parents)?;
    let mut reached = Reached::new(alloc, member, positions.len())?;
    let mut layers = Vec::new(alloc);
    let by = Setting {
        table,
        parents,
        alike,
        holders: &holders,
        stays,
    };
    let end = search(&by, &mut reached, &mut layers, steps)?;
    Ok(Sought {
        holders,
        reached,
        layers,
        end,
    })
}

/// Gives the member a position, where the others move. `None`: it has one. `Some`: of each member
/// whether it was reached, of members that are too many for their positions.
pub fn place(
    alloc: Global,
    table: &[Vec<bool>],
    parents: usize,
    alike: &[usize],
    member: usize,
    positions: &mut [usize],
    steps: &mut Steps,
) -> Result<Option<Vec<bool>>, OutOfMemory>
    requires width { All (λ row. vec_len row ≡ parents) table.now }
    requires likes { length alike.now ≡ length table.now }
    requires alike { AreAlike (accepts (rows table.now)) alike.now }
    requires rows { length positions.old ≤ length table.now }
    requires member_in { member < length positions.old }
    requires placed { IsPlacedBut (accepts (rows table.now)) member positions.old }
    ensures as_long { length positions.new ≡ length positions.old }
    ensures placed { IfOk result (λ o. IfNone o
        (IsPlaced (accepts (rows table.now)) positions.new)) }
    ensures stuck { IfOk result (λ o. IfSome o (λ flags. IsStuck (accepts (rows table.now))
        member positions.old flags.items)) }
    ensures at_least { IfOk result (λ o. IfNone o (steps.old + 1 ≤ steps.new)) }
    ensures onward { steps.old ≤ steps.new }
    ensures at_most { steps.new ≤ steps.old + length table.now * parents }
{
    let stays = vec![in alloc; false; positions.len()]?;
    let sought = seek(
        alloc, table, parents, alike, member, &stays, positions, steps,
    )?;
    let reached = sought.reached;
    match sought.end {
        Some((at, position)) => {
            shift(positions, &reached, member, at, position);
            Ok(None)
        }
        None => Ok(Some(reached.seen)),
    }
}

/// Gives the member the least position that it can have beside those before it, where those that
/// have no lesser rank move. Members that turn out to be of no use to it have a rank then.
pub fn place_least(
    alloc: Global,
    table: &[Vec<bool>],
    parents: usize,
    alike: &[usize],
    member: usize,
    positions: &mut [usize],
    ranks: &mut Ranks,
    steps: &mut Steps,
) -> Result<(), OutOfMemory>
    requires width { All (λ row. vec_len row ≡ parents) table.now }
    requires likes { length alike.now ≡ length table.now }
    requires alike { AreAlike (accepts (rows table.now)) alike.now }
    requires rows { length positions.old ≤ length table.now }
    requires member_in { member < length positions.old }
    requires placed { IsPlaced (accepts (rows table.now)) positions.old }
    requires ranked { AreRanked (accepts (rows table.now)) member ranks.old positions.old }
    ensures as_long { length positions.new ≡ length positions.old }
    ensures placed { OnOk result (IsPlaced (accepts (rows table.now)) positions.new) }
    ensures fixed { OnOk result (SameBelow member positions.old positions.new) }
    ensures least { OnOk result ((others : List ℕ) →
        IsPlaced (accepts (rows table.now)) others → length positions.old ≤ length others →
        SameBelow member positions.old others →
        slice_index positions.new member ≤ slice_index others member) }
    ensures ranked { OnOk result
        (AreRanked (accepts (rows table.now)) (member + 1) ranks.new positions.new) }
    ensures onward { steps.old ≤ steps.new }
    ensures at_most { steps.new ≤ steps.old + length table.now * parents }
{
    let stays = ranks.below(alloc, member)?;
    let sought = seek(
        alloc, table, parents, alike, member, &stays, positions, steps,
    )?;
    ranks.rank(member, &sought.reached.members, &sought.layers, parents);
    ranks.ranks[member] = 0;
    if let Some((at, position)) = sought.end {
        shift(positions, &sought.reached, member, at, position);
    }
    Ok(())
}
