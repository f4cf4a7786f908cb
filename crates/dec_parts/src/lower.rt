// Listed bounds taken by minimum.
ghost use Rattle.std.specs.Prelude.{◌≡◌, ◌*◌, ◌<◌, ◌≤◌, ◌⊎◌, ◌∷◌, [], IfOk, IfSome, IsSome, OnOk, length, true, false};
ghost use Rattle.std.specs.List.{All};
ghost use Rattle.interval_form.specs.Listed.{IsPlaced};
ghost use Rattle.block_partition.specs.Partition.{IsBlock, SameBlock, IsPartition};
ghost use Rattle.block_partition.specs.Changes.{IsMergedBy};
ghost use Rattle.dec_oct.specs.Value.{blocks_of};
ghost use Rattle.dec_parts.specs.Lower.{Touches, TouchesOne, IsLowered};
ghost use Rattle.dec_parts.specs.Joined.{IsJoinedBy, with_taken, with_all_taken, IsLoweredPart, AreLoweredParts};

use crate::part::{Part, kept_part};
use block_partition::{Partition, place_of};
use dec_oct::{DecOct, Parts};
use half_matrix::{HalfBuf, HalfMatrix};
use interval_form::OctBound;
use memory::NoMemory;
use oct_def::least_word;
use std::alloc::Global;

// Whether two variables are in one block.
fn are_together(partition: &Partition, u: u32, w: u32) -> bool
    ensures yes { result ≡ true → SameBlock partition.now u w }
    ensures no { result ≡ false → SameBlock partition.now u w → ⊥ }
{
    match partition.block_of(u) {
        Some(b) => partition.block_of(w) == Some(b),
        None => false,
    }
}

// Two variables come into one block.
fn join_variables(partition: &mut Partition, u: u32, w: u32) -> Result<(), NoMemory>
    requires first { u < 512 }
    requires second { w < 512 }
    ensures { OnOk result (SameBlock partition.new u w × ((partition.new ≡ partition.old) ⊎ IsMergedBy partition.old (u ∷ w ∷ []) partition.new)) }
{
    if !are_together(partition, u, w) {
        partition.merge(&[u, w])?;
    }
    Ok(())
}

// The blocks of a partition, merged where a bound joins them.
fn joined_by(
    alloc: Global,
    partition: &Partition,
    dims: u32,
    bounds: &[OctBound],
) -> Result<Partition, NoMemory>
    requires few { dims ≤ 512 }
    requires partition { IsPartition dims partition.now }
    requires placed { All (IsPlaced dims) bounds.now }
    ensures { IfOk result (λ p. IsJoinedBy dims partition.now bounds.now (length bounds.now) p) }
{
    let mut joined = partition.copy(alloc)?;
    for k in 0..bounds.len() {
        let bound = bounds[k];
        join_variables(&mut joined, bound.row / 2, bound.column / 2)?;
        joined.known();
    }
    Ok(joined)
}

// Whether a bound speaks of a member.
fn touches(bound: OctBound, members: &[u32]) -> bool
    requires block { IsBlock 512 members.now }
    ensures yes { result ≡ true → TouchesOne bound members.now }
    ensures no { result ≡ false → TouchesOne bound members.now → ⊥ }
{
    if place_of(members, bound.row / 2) < members.len() {
        return true;
    }
    place_of(members, bound.column / 2) < members.len()
}

// Whether some bound speaks of a member.
fn are_touched(bounds: &[OctBound], members: &[u32]) -> bool
    requires block { IsBlock 512 members.now }
    ensures yes { result ≡ true → Touches bounds.now members.now }
    ensures no { result ≡ false → Touches bounds.now members.now → ⊥ }
{
    for k in 0..bounds.len() {
        if touches(bounds[k], members) {
            return true;
        }
    }
    false
}

// Takes a bound by minimum, if it is one between members.
fn take(m: &mut HalfBuf, members: &[u32], bound: OctBound)
    requires block { IsBlock 512 members.now }
    requires rows { length m.old ≡ 2 * length members.now }
    ensures { m.new ≡ with_taken members.now m.old bound }
{
    let count = m.vars() as usize;
    let row = place_of(members, bound.row / 2);
    if row >= count {
        return;
    }
    let column = place_of(members, bound.column / 2);
    if column >= count {
        return;
    }
    let i = 2 * row as u32 + bound.row % 2;
    let j = 2 * column as u32 + bound.column % 2;
    let old = m.get(i, j);
    m.set(i, j, least_word(old, bound.word));
}

// Takes each bound between members by minimum.
fn take_all(m: &mut HalfBuf, members: &[u32], bounds: &[OctBound])
    requires block { IsBlock 512 members.now }
    requires rows { length m.old ≡ 2 * length members.now }
    ensures { m.new ≡ with_all_taken members.now m.old bounds.now }
{
    for k in 0..bounds.len() {
        take(m, members, bounds[k]);
    }
}

// The part over some members with the bounds taken. A part that no bound touches is shared and keeps its mark.
fn lowered_part(
    alloc: Global,
    v: &DecOct,
    members: &[u32],
    bounds: &[OctBound],
) -> Result<Part, NoMemory>
    requires not_bottom { IsSome v.now.blocks }
    requires members { IsBlock v.now.dims members.now }
    requires filled { 0 < length members.now }
    ensures { IfOk result (λ p. IfSome v.now.blocks (λ b. IsLoweredPart v.now.dims b bounds.now members.now p.matrix p.settled)) }
{
    v.known();
    if !are_touched(bounds, members) {
        let part = kept_part(alloc, v, members)?;
        return Ok(part);
    }
    let mut matrix = v.part(alloc, members)?;
    take_all(matrix.writing(alloc)?, members, bounds);
    Ok(Part {
        matrix,
        settled: false,
    })
}

// The parts over all blocks.
fn lowered_parts(
    alloc: Global,
    v: &DecOct,
    partition: Partition,
    bounds: &[OctBound],
) -> Result<Parts, NoMemory>
    requires not_bottom { IsSome v.now.blocks }
    requires partition { IsPartition v.now.dims partition }
    ensures dims { IfOk result (λ p. p.dims ≡ v.now.dims) }
    ensures partition { IfOk result (λ p. p.partition ≡ partition) }
    ensures parts { IfOk result (λ p. IfSome v.now.blocks (λ b. AreLoweredParts v.now.dims b bounds.now partition p.matrices.items p.settled.items)) }
{
    partition.known();
    let mut matrices = Vec::new(alloc);
    let mut settled = Vec::new(alloc);
    for c in 0..partition.len() {
        let part = lowered_part(alloc, v, partition.block(c), bounds)?;
        matrices.push(part.matrix)?;
        settled.push(part.settled)?;
    }
    Ok(Parts {
        dims: v.dims(),
        partition,
        matrices,
        settled,
    })
}

/// The parts of a value with bounds taken by minimum, each at its place and at its twin's. Blocks that a bound joins are
/// merged; a block that none touches is shared and keeps its mark. Each touched block looks at each bound once.
pub fn lowered(alloc: Global, v: &DecOct, bounds: &[OctBound]) -> Result<Parts, NoMemory>
    requires not_bottom { IsSome v.now.blocks }
    requires placed { All (IsPlaced v.now.dims) bounds.now }
    ensures dims { IfOk result (λ p. p.dims ≡ v.now.dims) }
    ensures parts { IfOk result (λ p. IfSome v.now.blocks (λ a. IsLowered v.now.dims a bounds.now (blocks_of p.partition p.matrices.items p.settled.items))) }
{
    v.known();
    match v.partition() {
        None => unreachable!(),
        Some(p) => {
            let joined = joined_by(alloc, p, v.dims(), bounds)?;
            let parts = lowered_parts(alloc, v, joined, bounds)?;
            Ok(parts)
        }
    }
}
