//! The search for a position that a member can have, where others move to make room.
ghost use Rattle.std.specs.Prelude.{◌≡◌, ◌⊎◌, ℕ, ◌+◌, ◌*◌, ◌<◌, ◌≤◌, true, false, length};
ghost use Rattle.std.specs.Prelude.{get_or, slice_index, vec_len, All, IfNone, IfOk};
ghost use Rattle.std.specs.Prelude.{IfSome, OnOk, IsSome, Some, None};
ghost use Rattle.haya_assignment.specs.Assignment.{rows};
ghost use Rattle.haya_assignment.specs.Placed.{accepts, Grows};
ghost use Rattle.haya_assignment.specs.Search.{acceptance, AreLayers, AreScanned, Fits};
ghost use Rattle.haya_assignment.specs.Search.{HasFound, IsClosed, IsEarly, IsFree, IsSearched};
ghost use Rattle.haya_assignment.specs.Search.{IsSearchedBelow, Reaches};

use haya_entry::Steps;
use haya_text::OutOfMemory;
use std::alloc::Global;

/// Whether the member is accepted at the position: one look into the table.
pub fn look(
    table: &[Vec<bool>],
    parents: usize,
    member: usize,
    position: usize,
    steps: &mut Steps,
) -> bool
    requires width { All (λ row. vec_len row ≡ parents) table.now }
    requires member_in { member < length table.now }
    requires position_in { position < parents }
    ensures seen { result ≡ accepts (rows table.now) member position }
    ensures ticks { steps.new ≡ steps.old + 1 }
{
    steps.tick();
    table[member][position]
}

/// What a search goes by.
#[derive(Clone, Copy)]
pub struct Setting<'a> {
    // Whether each member is accepted at each position, of which there are `parents`.
    pub table: &'a [Vec<bool>],
    pub parents: usize,
    // Of each member one that has the same row.
    pub alike: &'a [usize],
    // Of each position the member that has it.
    pub holders: &'a [Option<usize>],
    // Flags of the members that can't move.
    pub stays: &'a [bool],
}

/// The members that a search has reached, each but the first by way of one before it.
#[derive(Drop)]
pub struct Reached {
    pub members: Vec<usize>,
    // For each of them the place of the one by way of which it was reached.
    pub from: Vec<usize>,
    // For each member of the table whether it was reached.
    pub seen: Vec<bool>,
    // For each whether the positions were gone through for it, or for one like it.
    pub scanned: Vec<bool>,
}

impl Reached {
    ghost use Rattle.std.specs.Prelude.{◌≡◌, ◌<◌, ◌∷◌, [], ◌++◌, IfOk, OnOk, length, replicate};
    ghost use Rattle.std.specs.Prelude.{set, true, false};

    /// The first member, of so many in the table.
    pub fn new(alloc: Global, member: usize, count: usize) -> Result<Reached, OutOfMemory>
        requires { member < count }
        ensures members { IfOk result (λ r. r.members.items ≡ member ∷ []) }
        ensures from { IfOk result (λ r. r.from.items ≡ 0 ∷ []) }
        ensures seen { IfOk result (λ r. r.seen.items ≡ set (replicate count false) member true) }
        ensures scanned { IfOk result (λ r. r.scanned.items ≡ replicate count false) }
    {
        let mut members = Vec::new(alloc);
        members.push(member)?;
        let mut from = Vec::new(alloc);
        from.push(0)?;
        let mut seen = vec![in alloc; false; count]?;
        seen[member] = true;
        Ok(Reached {
            members,
            from,
            seen,
            scanned: vec![in alloc; false; count]?,
        })
    }

    /// One more member, by way of the one at the place `from`.
    fn push(&mut self, member: usize, from: usize) -> Result<(), OutOfMemory>
        requires { member < length self.old.seen.items }
        ensures members { OnOk result
            (self.new.members.items ≡ self.old.members.items ++ member ∷ []) }
        ensures from { OnOk result (self.new.from.items ≡ self.old.from.items ++ from ∷ []) }
        ensures seen { OnOk result
            (self.new.seen.items ≡ set self.old.seen.items member true) }
        ensures scanned { self.new.scanned.items ≡ self.old.scanned.items }
    {
        self.members.push(member)?;
        self.from.push(from)?;
        self.seen[member] = true;
        Ok(())
    }
}

/// Whether the member can move, and wasn't reached yet.
fn is_open(stays: &[bool], reached: &Reached, member: usize) -> bool
    requires flag { member < length stays.now }
    requires known { member < length reached.now.seen.items }
    ensures moves { result ≡ true → get_or stays.now member false ≡ false }
    ensures new { result ≡ true → get_or reached.now.seen.items member false ≡ false }
    ensures which { result ≡ false → (get_or stays.now member false ≡ true)
        ⊎ (get_or reached.now.seen.items member false ≡ true) }
{
    !stays[member] && !reached.seen[member]
}

/// Whether the position is free, and the member reached at the place `at` accepted there. Where
/// another member has it that can move, that one is reached too.
fn try_position(
    by: &Setting<'_>,
    reached: &mut Reached,
    at: usize,
    position: usize,
    steps: &mut Steps,
) -> Result<bool, OutOfMemory>
    requires fits { Fits by.now }
    requires position_in { position < by.now.parents }
    requires flags { length by.now.stays.now ≡ length reached.old.seen.items }
    requires at_in { at < length reached.old.members.items }
    requires reaches { Reaches (acceptance by.now) by.now.stays.now by.now.holders.now reached.old }
    ensures reaches { OnOk result
        (Reaches (acceptance by.now) by.now.stays.now by.now.holders.now reached.new) }
    ensures grows { OnOk result (Grows reached.old.members.items reached.new.members.items) }
    ensures as_long { OnOk result (length reached.new.seen.items ≡ length reached.old.seen.items) }
    ensures scanned { reached.new.scanned.items ≡ reached.old.scanned.items }
    ensures early { (bound : ℕ) → (at ≡ 0 → position < bound) →
        IsEarly bound by.now.holders.now reached.old →
        OnOk result (IsEarly bound by.now.holders.now reached.new) }
    ensures free { IfOk result (λ found. found ≡ true → IsFree (acceptance by.now)
        by.now.holders.now (slice_index reached.old.members.items at) position) }
    ensures closed { IfOk result (λ found. found ≡ false →
        acceptance by.now (slice_index reached.old.members.items at) position ≡ true →
        IsClosed by.now.stays.now by.now.holders.now reached.new.members.items position) }
    ensures at_least { IfOk result (λ found. found ≡ true → steps.old + 1 ≤ steps.new) }
    ensures onward { steps.old ≤ steps.new }
    ensures at_most { steps.new ≤ steps.old + 1 }
{
    let member = reached.members[at];
    let Some(other) = by.holders[position] else {
        return Ok(look(by.table, by.parents, member, position, steps));
    };
    if is_open(by.stays, reached, other) && look(by.table, by.parents, member, position, steps) {
        reached.push(other, at)?;
    }
    Ok(false)
}

/// Goes through the positions for the member reached at the place `at`, up to one that is free
/// and accepts it.
fn scan(
    by: &Setting<'_>,
    reached: &mut Reached,
    at: usize,
    steps: &mut Steps,
) -> Result<Option<usize>, OutOfMemory>
    requires fits { Fits by.now }
    requires flags { length by.now.stays.now ≡ length reached.old.seen.items }
    requires at_in { at < length reached.old.members.items }
    requires later { 0 < at }
    requires reaches { Reaches (acceptance by.now) by.now.stays.now by.now.holders.now reached.old }
    ensures reaches { OnOk result
        (Reaches (acceptance by.now) by.now.stays.now by.now.holders.now reached.new) }
    ensures grows { OnOk result (Grows reached.old.members.items reached.new.members.items) }
    ensures as_long { OnOk result (length reached.new.seen.items ≡ length reached.old.seen.items) }
    ensures scanned { reached.new.scanned.items ≡ reached.old.scanned.items }
    ensures early { (bound : ℕ) → IsEarly bound by.now.holders.now reached.old →
        OnOk result (IsEarly bound by.now.holders.now reached.new) }
    ensures free { IfOk result (λ o. IfSome o (λ position. IsFree (acceptance by.now)
        by.now.holders.now (slice_index reached.old.members.items at) position)) }
    ensures closed { IfOk result (λ o. IfNone o ((position : ℕ) →
        acceptance by.now (slice_index reached.old.members.items at) position ≡ true →
        IsClosed by.now.stays.now by.now.holders.now reached.new.members.items position)) }
    ensures at_least { IfOk result (λ o. IsSome o → steps.old + 1 ≤ steps.new) }
    ensures onward { steps.old ≤ steps.new }
    ensures at_most { steps.new ≤ steps.old + by.now.parents }
{
    'positions: for position in 0..by.parents {
        if try_position(by, reached, at, position, steps)? {
            return Ok(Some(position));
        }
    }
    Ok(None)
}

/// The same, unless the positions were gone through for a member like it.
fn scan_once(
    by: &Setting<'_>,
    reached: &mut Reached,
    at: usize,
    steps: &mut Steps,
) -> Result<Option<usize>, OutOfMemory>
    requires fits { Fits by.now }
    requires flags { length by.now.stays.now ≡ length reached.old.seen.items }
    requires at_in { at < length reached.old.members.items }
    requires later { 0 < at }
    requires reaches { Reaches (acceptance by.now) by.now.stays.now by.now.holders.now reached.old }
    requires scanned { AreScanned (acceptance by.now) by.now.stays.now by.now.holders.now
        by.now.alike.now reached.old }
    ensures reaches { OnOk result
        (Reaches (acceptance by.now) by.now.stays.now by.now.holders.now reached.new) }
    ensures grows { OnOk result (Grows reached.old.members.items reached.new.members.items) }
    ensures as_long { OnOk result (length reached.new.seen.items ≡ length reached.old.seen.items) }
    ensures scanned { OnOk result (AreScanned (acceptance by.now) by.now.stays.now
        by.now.holders.now by.now.alike.now reached.new) }
    ensures early { (bound : ℕ) → IsEarly bound by.now.holders.now reached.old →
        OnOk result (IsEarly bound by.now.holders.now reached.new) }
    ensures free { IfOk result (λ o. IfSome o (λ position. IsFree (acceptance by.now)
        by.now.holders.now (slice_index reached.old.members.items at) position)) }
    ensures closed { IfOk result (λ o. IfNone o ((position : ℕ) →
        acceptance by.now (slice_index reached.old.members.items at) position ≡ true →
        IsClosed by.now.stays.now by.now.holders.now reached.new.members.items position)) }
    ensures at_least { IfOk result (λ o. IsSome o → steps.old + 1 ≤ steps.new) }
    ensures onward { steps.old ≤ steps.new }
    ensures at_most { steps.new ≤ steps.old + by.now.parents }
{
    let like = by.alike[reached.members[at]];
    if reached.scanned[like] {
        return Ok(None);
    }
    if let Some(position) = scan(by, reached, at, steps)? {
        return Ok(Some(position));
    }
    reached.scanned[like] = true;
    Ok(None)
}

/// Goes through the members reached from the place `start` on, in the order in which they were
/// reached, up to one that is accepted at a free position: its place, and the position.
fn follow(
    by: &Setting<'_>,
    reached: &mut Reached,
    start: usize,
    steps: &mut Steps,
) -> Result<Option<(usize, usize)>, OutOfMemory>
    requires fits { Fits by.now }
    requires flags { length by.now.stays.now ≡ length reached.old.seen.items }
    requires later { 0 < start }
    requires start_in { start ≤ length reached.old.members.items }
    requires reaches { Reaches (acceptance by.now) by.now.stays.now by.now.holders.now reached.old }
    requires searched { IsSearched (acceptance by.now) by.now.stays.now start by.now.holders.now
        reached.old.members.items }
    requires scanned { AreScanned (acceptance by.now) by.now.stays.now by.now.holders.now
        by.now.alike.now reached.old }
    ensures reaches { OnOk result
        (Reaches (acceptance by.now) by.now.stays.now by.now.holders.now reached.new) }
    ensures grows { OnOk result (Grows reached.old.members.items reached.new.members.items) }
    ensures as_long { OnOk result (length reached.new.seen.items ≡ length reached.old.seen.items) }
    ensures scanned { OnOk result (AreScanned (acceptance by.now) by.now.stays.now
        by.now.holders.now by.now.alike.now reached.new) }
    ensures early { (bound : ℕ) → IsEarly bound by.now.holders.now reached.old →
        OnOk result (IsEarly bound by.now.holders.now reached.new) }
    ensures free { IfOk result (λ o. IfSome o (λ end. (0 < end.0)
        × (end.0 < length reached.new.members.items)
        × IsFree (acceptance by.now) by.now.holders.now
        (slice_index reached.new.members.items end.0) end.1)) }
    ensures searched { IfOk result (λ o. IfNone o (IsSearched (acceptance by.now) by.now.stays.now
        (length reached.new.members.items) by.now.holders.now reached.new.members.items)) }
    ensures at_least { IfOk result (λ o. IsSome o → steps.old + 1 ≤ steps.new) }
    ensures onward { steps.old ≤ steps.new }
    ensures none_at_most { IfOk result (λ o. IfNone o (steps.new + start * by.now.parents
        ≤ steps.old + length reached.new.members.items * by.now.parents)) }
    ensures at_most { steps.new + start * by.now.parents
        ≤ steps.old + length by.now.table.now * by.now.parents }
{
    let mut at = start;
    'members: while at < reached.members.len() {
        if let Some(position) = scan_once(by, reached, at, steps)? {
            return Ok(Some((at, position)));
        }
        at += 1;
    }
    Ok(None)
}

/// Gives the members that have none the layer, up to so many.
fn fill(layers: &mut Vec<usize>, count: usize, layer: usize) -> Result<(), OutOfMemory>
    requires fewer { length layers.old.items ≤ count }
    ensures as_many { OnOk result (length layers.new.items ≡ count) }
    ensures grows { OnOk result (Grows layers.old.items layers.new.items) }
    ensures filled { OnOk result ((t : ℕ) → length layers.old.items ≤ t → t < count →
        slice_index layers.new.items t ≡ layer) }
{
    'members: for _member in layers.len()..count {
        layers.push(layer)?;
    }
    Ok(())
}

/// Goes through the positions for the member that was reached first. Each is left only when all
/// members that can be reached by way of it were gone through: they are a layer. Ends at a member
/// that is accepted at a free position: its place, and the position.
pub fn search(
    by: &Setting<'_>,
    reached: &mut Reached,
    layers: &mut Vec<usize>,
    steps: &mut Steps,
) -> Result<Option<(usize, usize)>, OutOfMemory>
    requires fits { Fits by.now }
    requires flags { length by.now.stays.now ≡ length reached.old.seen.items }
    requires one { length reached.old.members.items ≡ 1 }
    requires no_layer { length layers.old.items ≡ 0 }
    requires reaches { Reaches (acceptance by.now) by.now.stays.now by.now.holders.now reached.old }
    requires scanned { AreScanned (acceptance by.now) by.now.stays.now by.now.holders.now
        by.now.alike.now reached.old }
    ensures reaches { OnOk result
        (Reaches (acceptance by.now) by.now.stays.now by.now.holders.now reached.new) }
    ensures grows { OnOk result (Grows reached.old.members.items reached.new.members.items) }
    ensures as_long { OnOk result (length reached.new.seen.items ≡ length reached.old.seen.items) }
    ensures found { IfOk result (λ o. IfSome o (λ end. HasFound (acceptance by.now)
        by.now.stays.now by.now.holders.now reached.new end.0 end.1)) }
    ensures searched { IfOk result (λ o. IfNone o (IsSearchedBelow (acceptance by.now)
        by.now.stays.now by.now.parents by.now.holders.now reached.new.members.items)) }
    ensures layered { OnOk result (AreLayers (acceptance by.now) by.now.stays.now by.now.holders.now
        reached.new.members.items layers.new.items) }
    ensures low { OnOk result ((t : ℕ) → t < length layers.new.items →
        slice_index layers.new.items t < by.now.parents) }
    ensures at_least { IfOk result (λ o. IsSome o → steps.old + 1 ≤ steps.new) }
    ensures onward { steps.old ≤ steps.new }
    ensures at_most { steps.new ≤ steps.old + length by.now.table.now * by.now.parents }
{
    'positions: for position in 0..by.parents {
        let start = reached.members.len();
        if try_position(by, reached, 0, position, steps)? {
            return Ok(Some((0, position)));
        }
        if let Some(end) = follow(by, reached, start, steps)? {
            return Ok(Some(end));
        }
        fill(layers, reached.members.len(), position)?;
    }
    Ok(None)
}
