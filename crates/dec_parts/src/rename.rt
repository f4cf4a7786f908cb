// Values whose variables are those of another one under other numbers. A variable may be new, or the same as another.
ghost use Rattle.std.specs.Prelude.{◌≡◌, ◌*◌, ◌<◌, ◌≤◌, IfOk, IfSome, IsSome, length, true, false};
ghost use Rattle.oct_def.specs.Bound.{bound_of};
ghost use Rattle.block_partition.specs.Partition.{IsBlock, IsPartition};
ghost use Rattle.dec_oct.specs.Value.{octagon, whole};
ghost use Rattle.dec_parts.specs.Rename.{origin_dimension as origin_dimension_of, renamed_entry, renamed_value, AreOrigins, KeepNumbers, KeepsOwnMarksOf, IsAlone, IsNumber, AreRenamedBlocks, IsRenamedPart, AreRenamedParts};

use crate::part::{Part, kept_part};
use block_partition::Partition;
use dec_oct::{DecOct, Parts, outer_of, tabulated};
use memory::NoMemory;
use oct_def::NONE;
use std::alloc::Global;

// The old signed dimension that a signed dimension is, if it is one.
fn origin_dimension(origins: &[Option<u32>], i: u32) -> Option<u32>
    requires row { i < 2 * length origins.now }
    requires origins { AreOrigins 512 origins.now }
    ensures { result ≡ origin_dimension_of origins.now i }
{
    match origins[i as usize / 2] {
        Some(u) => Some(2 * u + i % 2),
        None => None,
    }
}

// The word at (i, j) under the new numbers.
fn renamed_word(v: &DecOct, origins: &[Option<u32>], i: u32, j: u32) -> i64
    requires not_bottom { IsSome v.now.blocks }
    requires origins { AreOrigins v.now.dims origins.now }
    requires row { i < 2 * length origins.now }
    requires column { j < 2 * length origins.now }
    ensures { IfSome v.now.blocks (λ b. bound_of result ≡ renamed_entry origins.now (whole v.now.dims b) i j) }
{
    v.known();
    if i == j {
        return 0;
    }
    match origin_dimension(origins, i) {
        Some(p) => match origin_dimension(origins, j) {
            Some(q) => v.entry(p, q),
            None => NONE,
        },
        None => NONE,
    }
}

// Whether another variable than v is the old one.
fn is_repeated(origins: &[Option<u32>], v: usize, old: u32) -> bool
    ensures { result ≡ false → IsAlone origins.now v old }
{
    for w in 0..origins.len() {
        if w != v {
            if origins[w] == Some(old) {
                return true;
            }
        }
    }
    false
}

// The number by which a variable finds its block: that of its old variable's block, or one above all blocks for an old
// variable in no block that several variables are.
fn number_of(partition: &Partition, origins: &[Option<u32>], v: usize) -> Option<u32>
    requires place { v < length origins.now }
    requires origins { AreOrigins 512 origins.now }
    ensures { IsNumber partition.now origins.now v result }
{
    match origins[v] {
        None => None,
        Some(old) => match partition.block_of(old) {
            Some(b) => Some(b),
            None => {
                if is_repeated(origins, v, old) {
                    Some(512 + old)
                } else {
                    None
                }
            }
        },
    }
}

// The blocks of the variables under their new numbers.
fn renamed_partition(
    alloc: Global,
    partition: &Partition,
    origins: &[Option<u32>],
) -> Result<Partition, NoMemory>
    requires few { length origins.now ≤ 512 }
    requires origins { AreOrigins 512 origins.now }
    ensures { IfOk result (λ p. AreRenamedBlocks partition.now origins.now p) }
{
    let mut numbers = Vec::with_capacity(alloc, origins.len())?;
    for v in 0..origins.len() {
        numbers.push(number_of(partition, origins, v))?;
    }
    let made = Partition::by_labels(alloc, &numbers)?;
    Ok(made)
}

// Whether each of some variables keeps its number.
fn keep_numbers(origins: &[Option<u32>], members: &[u32]) -> bool
    requires members { IsBlock (length origins.now) members.now }
    ensures yes { result ≡ true → KeepNumbers origins.now members.now }
    ensures no { result ≡ false → KeepNumbers origins.now members.now → ⊥ }
{
    for i in 0..members.len() {
        if origins[members[i] as usize] != Some(members[i]) {
            return false;
        }
    }
    true
}

// The part over some members. Where they keep their numbers it is that of the old value.
fn renamed_part(
    alloc: Global,
    v: &DecOct,
    origins: &[Option<u32>],
    members: &[u32],
) -> Result<Part, NoMemory>
    requires not_bottom { IsSome v.now.blocks }
    requires origins { AreOrigins v.now.dims origins.now }
    requires few { length origins.now ≤ 512 }
    requires members { IsBlock (length origins.now) members.now }
    requires filled { 0 < length members.now }
    ensures { IfOk result (λ p. IfSome v.now.blocks (λ b. IsRenamedPart v.now.dims origins.now b members.now p.matrix p.settled)) }
{
    v.known();
    if keep_numbers(origins, members) {
        let part = kept_part(alloc, v, members)?;
        return Ok(part);
    }
    let matrix = tabulated(alloc, members.len() as u32, |i, j| {
        renamed_word(v, origins, outer_of(members, i), outer_of(members, j))
    })?;
    Ok(Part {
        matrix,
        settled: false,
    })
}

// The parts over all blocks.
fn renamed_parts(
    alloc: Global,
    v: &DecOct,
    origins: &[Option<u32>],
    partition: Partition,
) -> Result<Parts, NoMemory>
    requires not_bottom { IsSome v.now.blocks }
    requires origins { AreOrigins v.now.dims origins.now }
    requires few { length origins.now ≤ 512 }
    requires partition { IsPartition (length origins.now) partition }
    ensures dims { IfOk result (λ p. p.dims ≡ length origins.now) }
    ensures partition { IfOk result (λ p. p.partition ≡ partition) }
    ensures parts { IfOk result (λ p. IfSome v.now.blocks (λ b. AreRenamedParts v.now.dims origins.now b partition p.matrices.items p.settled.items)) }
{
    partition.known();
    let mut matrices = Vec::new(alloc);
    let mut settled = Vec::new(alloc);
    for c in 0..partition.len() {
        let part = renamed_part(alloc, v, origins, partition.block(c))?;
        matrices.push(part.matrix)?;
        settled.push(part.settled)?;
    }
    Ok(Parts {
        dims: origins.len() as u32,
        partition,
        matrices,
        settled,
    })
}

/// The value over as many variables as `origins` has places, each of which is the old variable that stands there, or new and
/// without bounds. A block whose variables keep their numbers is shared and keeps its mark. It closes nothing, and takes time
/// quadratic in the size of each block.
pub fn renamed(alloc: Global, v: &DecOct, origins: &[Option<u32>]) -> Result<DecOct, NoMemory>
    requires origins { AreOrigins v.now.dims origins.now }
    requires few { length origins.now ≤ 512 }
    ensures value { IfOk result (λ r. octagon r ≡ renamed_value origins.now (octagon v.now)) }
    ensures marks { IfOk result (λ r. KeepsOwnMarksOf origins.now v.now.blocks r.blocks) }
{
    v.known();
    match v.partition() {
        None => Ok(DecOct::bottom(origins.len() as u32)),
        Some(p) => {
            let made = renamed_partition(alloc, p, origins)?;
            made.known();
            let parts = renamed_parts(alloc, v, origins, made)?;
            let r = DecOct::from_parts(alloc, parts)?;
            r.known();
            Ok(r)
        }
    }
}
