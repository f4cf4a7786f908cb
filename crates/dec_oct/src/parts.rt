// Parts of an assembly over the blocks of another partition.
ghost use Rattle.std.specs.Prelude.{◌≡◌, ℕ, ◌*◌, ◌/◌, ◌<◌, ◌≤◌, IfOk, MatchOption, length, true, false, None};
ghost use Rattle.oct_def.specs.Bound.{bound_of};
ghost use Rattle.oct_def.specs.Tight.{strengthening};
ghost use Rattle.oct_def.specs.Matrix.{IsCoherent};
ghost use Rattle.block_partition.specs.Partition.{member, block, IsBlock, IsPartition};
ghost use Rattle.block_laws.specs.Assembly.{outer, matrix, restrict, assembly, IsParts};
ghost use Rattle.dec_oct.specs.Cut.{strong_assembly_entry};

use crate::assembly::entry_of;
use crate::same::same_members;
use crate::tabulate::tabulated;
use block_partition::Partition;
use half_matrix::HalfMatrix;
use memory::NoMemory;
use oct_def::{least_word, opposite, sum_of_halves};
use std::alloc::Global;

/// The signed dimension of all variables that one of a block's matrix is.
pub fn outer_of(members: &[u32], i: u32) -> u32
    requires place { i < 2 * length members.now }
    requires block { IsBlock 512 members.now }
    ensures { result ≡ outer members.now i }
{
    2 * members[i as usize / 2] + i % 2
}

/// The block that has just these members.
pub(crate) fn block_with(partition: &Partition, members: &[u32]) -> Option<u32>
    requires filled { 0 < length members.now }
    ensures { MatchOption result ((p : ℕ) → p < length partition.now → block partition.now p ≡ members.now → ⊥) (λ b. (b < length partition.now) × (block partition.now b ≡ members.now)) }
{
    partition.known();
    match partition.block_of(members[0]) {
        Some(b) => {
            if same_members(partition.block(b), members) {
                Some(b)
            } else {
                None
            }
        }
        None => None,
    }
}

/// The part over some members of an assembly. The matrix of a block that has just these members is shared.
pub(crate) fn part(
    alloc: Global,
    partition: &Partition,
    matrices: &[HalfMatrix],
    dims: u32,
    members: &[u32],
) -> Result<HalfMatrix, NoMemory>
    requires few { dims ≤ 512 }
    requires parts { IsParts dims partition.now matrices.now }
    requires coherent { IsCoherent (assembly dims partition.now matrices.now) }
    requires members { IsBlock dims members.now }
    requires few_members { length members.now ≤ dims }
    requires filled { 0 < length members.now }
    ensures { IfOk result (λ m. m ≡ restrict members.now (assembly dims partition.now matrices.now)) }
{
    match block_with(partition, members) {
        Some(b) => {
            let m = matrices[b as usize].share()?;
            Ok(m)
        }
        None => {
            let m = tabulated(alloc, members.len() as u32, |i, j| {
                entry_of(
                    partition,
                    matrices,
                    outer_of(members, i),
                    outer_of(members, j),
                )
            })?;
            Ok(m)
        }
    }
}

// The word at (i, j) of the strengthened assembly.
fn strong_word(partition: &Partition, matrices: &[HalfMatrix], i: u32, j: u32) -> i64
    requires count { length matrices.now ≡ length partition.now }
    requires size { (b : ℕ) → b < length partition.now → length (matrix matrices.now b) ≡ 2 * length (block partition.now b) }
    ensures { bound_of result ≡ strong_assembly_entry partition.now matrices.now i j }
{
    let above = entry_of(partition, matrices, i, opposite(i as usize) as u32);
    let below = entry_of(partition, matrices, opposite(j as usize) as u32, j);
    least_word(
        entry_of(partition, matrices, i, j),
        sum_of_halves(above, below),
    )
}

// The part over some members of the strengthened assembly, where the blocks are strengthened already. The matrix of a block
// that has just these members is shared.
fn strong_part(
    alloc: Global,
    partition: &Partition,
    matrices: &[HalfMatrix],
    dims: u32,
    members: &[u32],
) -> Result<HalfMatrix, NoMemory>
    requires few { dims ≤ 512 }
    requires parts { IsParts dims partition.now matrices.now }
    requires coherent { IsCoherent (assembly dims partition.now matrices.now) }
    requires strong { (b : ℕ) → b < length partition.now → strengthening (matrix matrices.now b) ≡ matrix matrices.now b }
    requires members { IsBlock dims members.now }
    requires few_members { length members.now ≤ dims }
    requires filled { 0 < length members.now }
    ensures { IfOk result (λ m. m ≡ restrict members.now (strengthening (assembly dims partition.now matrices.now))) }
{
    match block_with(partition, members) {
        Some(b) => {
            let m = matrices[b as usize].share()?;
            Ok(m)
        }
        None => {
            let m = tabulated(alloc, members.len() as u32, |i, j| {
                strong_word(
                    partition,
                    matrices,
                    outer_of(members, i),
                    outer_of(members, j),
                )
            })?;
            Ok(m)
        }
    }
}

/// The parts over the blocks of another partition.
pub(crate) fn parts_over(
    alloc: Global,
    partition: &Partition,
    matrices: &[HalfMatrix],
    dims: u32,
    others: &Partition,
) -> Result<Vec<HalfMatrix>, NoMemory>
    requires few { dims ≤ 512 }
    requires parts { IsParts dims partition.now matrices.now }
    requires coherent { IsCoherent (assembly dims partition.now matrices.now) }
    requires others { IsPartition dims others.now }
    ensures count { IfOk result (λ v. length v.items ≡ length others.now) }
    ensures each { IfOk result (λ v. (c : ℕ) → c < length others.now → matrix v.items c ≡ restrict (block others.now c) (assembly dims partition.now matrices.now)) }
{
    others.known();
    let mut made = Vec::new(alloc);
    for c in 0..others.len() {
        let m = part(alloc, partition, matrices, dims, others.block(c))?;
        made.push(m)?;
    }
    Ok(made)
}

/// The strengthened parts over the blocks of another partition.
pub(crate) fn strong_parts_over(
    alloc: Global,
    partition: &Partition,
    matrices: &[HalfMatrix],
    dims: u32,
    others: &Partition,
) -> Result<Vec<HalfMatrix>, NoMemory>
    requires few { dims ≤ 512 }
    requires parts { IsParts dims partition.now matrices.now }
    requires coherent { IsCoherent (assembly dims partition.now matrices.now) }
    requires strong { (b : ℕ) → b < length partition.now → strengthening (matrix matrices.now b) ≡ matrix matrices.now b }
    requires others { IsPartition dims others.now }
    ensures count { IfOk result (λ v. length v.items ≡ length others.now) }
    ensures each { IfOk result (λ v. (c : ℕ) → c < length others.now → matrix v.items c ≡ restrict (block others.now c) (strengthening (assembly dims partition.now matrices.now))) }
{
    others.known();
    let mut made = Vec::new(alloc);
    for c in 0..others.len() {
        let m = strong_part(alloc, partition, matrices, dims, others.block(c))?;
        made.push(m)?;
    }
    Ok(made)
}
