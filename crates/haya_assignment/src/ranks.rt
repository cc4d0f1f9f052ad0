//! Ranks of members.
ghost use Rattle.std.specs.Prelude.{◌≡◌, ◌≢◌, ℕ, ◌+◌, ◌<◌, ◌≤◌, true, false, get_or, length};
ghost use Rattle.std.specs.Prelude.{slice_index, Bool, IfOk, List, Option};
ghost use Rattle.haya_assignment.specs.Placed.{IsApart};
ghost use Rattle.haya_assignment.specs.Ranked.{AreRanked, IsLayered};

use haya_text::OutOfMemory;
use std::alloc::Global;

/// Of each member its rank: members are out of reach for those of greater ranks.
#[derive(Drop)]
pub struct Ranks {
    pub ranks: Vec<usize>,
    // The least rank that was not given yet.
    pub next: usize,
    // The rank of those that were given none.
    pub top: usize,
}

impl Ranks {
    ghost use Rattle.std.specs.Prelude.{replicate};

    /// So many members that were given no rank.
    pub fn new(alloc: Global, count: usize) -> Result<Ranks, OutOfMemory>
        ensures ranks { IfOk result (λ r. r.ranks.items ≡ replicate count r.top) }
        ensures next { IfOk result (λ r. r.next ≡ 1) }
        ensures top { IfOk result (λ r. 1 < r.top) }
    {
        let top = usize::MAX;
        let ranks = vec![in alloc; top; count]?;
        Ok(Ranks {
            ranks,
            next: 1,
            top,
        })
    }

    /// Flags of the members whose rank is less than the member's.
    pub fn below(&self, alloc: Global, member: usize) -> Result<Vec<bool>, OutOfMemory>
        requires member_in { member < length self.now.ranks.items }
        ensures as_many { IfOk result (λ v. length v.items ≡ length self.now.ranks.items) }
        ensures set { IfOk result (λ v. (u : ℕ) → get_or v.items u false ≡ true →
            slice_index self.now.ranks.items u < slice_index self.now.ranks.items member) }
        ensures unset { IfOk result (λ v. (u : ℕ) → get_or v.items u false ≡ false →
            u < length self.now.ranks.items →
            slice_index self.now.ranks.items member ≤ slice_index self.now.ranks.items u) }
    {
        let rank = self.ranks[member];
        let mut flags = Vec::with_capacity(alloc, self.ranks.len())?;
        'members: for other in 0..self.ranks.len() {
            flags.push(self.ranks[other] < rank)?;
        }
        Ok(flags)
    }

    /// Gives the members of the layers ranks from the next on, as far apart as the layers.
    fn give(&mut self, members: &[usize], layers: &[usize], count: usize)
        requires as_many { length layers.now ≤ length members.now }
        requires known { (t : ℕ) → t < length members.now →
            slice_index members.now t < length self.old.ranks.items }
        requires apart { IsApart members.now }
        requires low { (t : ℕ) → t < length layers.now → slice_index layers.now t < count }
        requires room { self.old.next + count < self.old.top }
        ensures as_long { length self.new.ranks.items ≡ length self.old.ranks.items }
        ensures top { self.new.top ≡ self.old.top }
        ensures next { self.new.next ≡ self.old.next + count }
        ensures others { (u : ℕ) → ((t : ℕ) → 0 < t → t < length layers.now →
            slice_index members.now t ≢ u) →
            slice_index self.new.ranks.items u ≡ slice_index self.old.ranks.items u }
        ensures given { (t : ℕ) → 0 < t → t < length layers.now →
            slice_index self.new.ranks.items (slice_index members.now t)
            ≡ self.old.next + slice_index layers.now t }
    {
        let next = self.next;
        'places: for place in 1..layers.len() {
            self.ranks[members[place]] = next + layers[place];
        }
        self.next = next + count;
    }

    /// Gives the members of the layers ranks, of which there are fewer than `count`, if the member
    /// has none.
    pub fn rank(&mut self, member: usize, members: &[usize], layers: &[usize], count: usize)
        requires member_in { member < length self.old.ranks.items }
        requires as_many { length layers.now ≤ length members.now }
        requires known { (t : ℕ) → t < length members.now →
            slice_index members.now t < length self.old.ranks.items }
        requires apart { IsApart members.now }
        requires low { (t : ℕ) → t < length layers.now → slice_index layers.now t < count }
        requires below_top { self.old.next ≤ self.old.top }
        ensures as_long { length self.new.ranks.items ≡ length self.old.ranks.items }
        ensures ranked { (A : ℕ → ℕ → Bool) (positions : List ℕ) (stays : List Bool)
            (holders : List (Option ℕ)) → AreRanked A member self.old positions →
            IsLayered A member positions stays holders self.old members.now layers.now →
            AreRanked A member self.new positions }
    {
        if self.ranks[member] == self.top && count < self.top - self.next {
            self.give(members, layers, count);
        }
    }
}
