// Values that are made of blocks: their components, or those of their tight closure.
ghost use Rattle.std.specs.Prelude.{◌≡◌, ℕ, ◌<◌, ◌≤◌, IfOk, length, Some, None};
ghost use Rattle.oct_def.specs.Tight.{tight};
ghost use Rattle.oct_def.specs.Matrix.{IsSquare, IsCoherent};
ghost use Rattle.block_laws.specs.Assembly.{matrix, assembly, IsParts};
ghost use Rattle.dec_oct.specs.Value.{blocks_of, octagon, octagon_of};
ghost use Rattle.dec_oct.specs.Cost.{CostsAtMost, ClosesEach, TellsAgainOf};
ghost use Rattle.dec_oct.specs.Given.{IsEvenGiven, IsLooseGiven, KeepsMarksOf};
ghost use Rattle.dec_oct.specs.Closed.{AreSure, IsClosedValue};

use crate::closing::{close_unmarked, second_marks};
use crate::cut::cut_components;
use crate::marks::kept_marks;
use crate::merge::merged_parts;
use crate::value::{DecOct, Held, of_blocks};
use half_matrix::HalfMatrix;
use memory::NoMemory;
use minplus_lanes::RowCount;
use std::alloc::Global;
use tight_closure::Scratch;

// Law: the matrices are square and coherent.
fn know_shapes(matrices: &[HalfMatrix])
    ensures { (b : ℕ) → b < length matrices.now → IsSquare (matrix matrices.now b) × IsCoherent (matrix matrices.now b) }
{
    for b in 0..matrices.len() {
        matrices[b].buf().shape();
    }
}

/// The value that is an assembly; a block that splits loses its mark.
pub(crate) fn assembled(alloc: Global, dims: u32, given: &Held) -> Result<DecOct, NoMemory>
    requires few { dims ≤ 512 }
    requires given { IsEvenGiven dims (blocks_of given.now.partition given.now.matrices.items given.now.settled.items) }
    ensures value { IfOk result (λ v. octagon v ≡ octagon_of dims (Some (assembly dims given.now.partition given.now.matrices.items))) }
    ensures marks { IfOk result (λ v. KeepsMarksOf (blocks_of given.now.partition given.now.matrices.items given.now.settled.items) v.blocks) }
{
    know_shapes(&given.matrices);
    let made = cut_components(alloc, &given.partition, &given.matrices, dims)?;
    let kept = kept_marks(
        alloc,
        &given.partition,
        &given.matrices,
        &given.settled,
        &made,
    )?;
    let v = of_blocks(alloc, dims, made.partition, made.matrices, kept)?;
    Ok(v)
}

// The tight closure, from the closed blocks.
fn closed_value(
    alloc: Global,
    dims: u32,
    given: &Held,
    closed: &[HalfMatrix],
    sure: &[bool],
    scratch: &mut Scratch,
    count: &mut RowCount,
) -> Result<DecOct, NoMemory>
    requires few { dims ≤ 512 }
    requires room { dims ≤ scratch.old }
    requires given { IsLooseGiven dims (blocks_of given.now.partition given.now.matrices.items given.now.settled.items) }
    requires shapes { (b : ℕ) → b < length given.now.matrices.items → IsSquare (matrix given.now.matrices.items b) × IsCoherent (matrix given.now.matrices.items b) }
    requires closed { ClosesEach given.now.matrices.items (Some closed.now) }
    requires sure { AreSure given.now.settled.items closed.now sure.now }
    ensures dims { IfOk result (λ v. v.dims ≡ dims) }
    ensures rises { count.old ≤ count.new }
    ensures value { IfOk result (λ v. IsClosedValue dims (blocks_of given.now.partition given.now.matrices.items given.now.settled.items) v.blocks count.old count.new) }
{
    know_shapes(closed);
    let joint = merged_parts(alloc, &given.partition, closed, dims)?;
    let made = cut_components(alloc, &joint.partition, &joint.matrices, dims)?;
    let known = kept_marks(alloc, &given.partition, closed, sure, &made)?;
    let again = second_marks(alloc, &made.matrices, &known, scratch, count)?;
    let v = of_blocks(alloc, dims, made.partition, made.matrices, again)?;
    Ok(v)
}

/// The tight closure of an assembly.
pub(crate) fn closed_parts(
    alloc: Global,
    dims: u32,
    given: &Held,
    count: &mut RowCount,
) -> Result<DecOct, NoMemory>
    requires few { dims ≤ 512 }
    requires given { IsLooseGiven dims (blocks_of given.now.partition given.now.matrices.items given.now.settled.items) }
    ensures value { IfOk result (λ v. octagon v ≡ octagon_of dims (tight (assembly dims given.now.partition given.now.matrices.items))) }
    ensures marks { IfOk result (λ v. TellsAgainOf v.blocks) }
    ensures rises { count.old ≤ count.new }
    ensures count { IfOk result (λ v. CostsAtMost (blocks_of given.now.partition given.now.matrices.items given.now.settled.items) v.blocks count.old count.new) }
{
    know_shapes(&given.matrices);
    let mut scratch = Scratch::reserve(alloc, dims)?;
    match close_unmarked(alloc, &given.matrices, &given.settled, &mut scratch, count)? {
        None => Ok(DecOct::bottom(dims)),
        Some(closed) => {
            let v = closed_value(
                alloc,
                dims,
                given,
                &closed.matrices,
                &closed.settled,
                &mut scratch,
                count,
            )?;
            Ok(v)
        }
    }
}
