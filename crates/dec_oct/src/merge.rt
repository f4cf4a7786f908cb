// The strengthening of an assembly: the blocks of all variables that have a bound become one.
ghost use Rattle.std.specs.Prelude.{◌≡◌, ℕ, ◌*◌, ◌<◌, ◌≤◌, IfOk, length, true, false};
ghost use Rattle.oct_def.specs.Tight.{strengthening};
ghost use Rattle.oct_def.specs.Matrix.{IsCoherent};
ghost use Rattle.block_laws.specs.Assembly.{matrix, assembly, IsParts};
ghost use Rattle.block_laws.specs.Components.{HasBound};
ghost use Rattle.dec_oct.specs.Cut.{IsBounded};

use crate::assembly::entry_of;
use crate::cut::Cut;
use crate::parts::strong_parts_over;
use crate::walk::is_finite;
use block_partition::Partition;
use half_matrix::HalfMatrix;
use memory::NoMemory;
use std::alloc::Global;

// Whether a variable has a finite unary entry in the assembly.
fn has_bound(partition: &Partition, matrices: &[HalfMatrix], dims: u32, v: u32) -> bool
    requires few { dims ≤ 512 }
    requires variable { v < dims }
    requires parts { IsParts dims partition.now matrices.now }
    ensures yes { result ≡ true → HasBound (assembly dims partition.now matrices.now) v }
    ensures no { result ≡ false → HasBound (assembly dims partition.now matrices.now) v → ⊥ }
{
    let p = 2 * v;
    let q = 2 * v + 1;
    let above = entry_of(partition, matrices, p, q);
    if is_finite(above) {
        return true;
    }
    let below = entry_of(partition, matrices, q, p);
    is_finite(below)
}

// The variables that have a bound.
fn bounded(
    alloc: Global,
    partition: &Partition,
    matrices: &[HalfMatrix],
    dims: u32,
) -> Result<Vec<u32>, NoMemory>
    requires few { dims ≤ 512 }
    requires parts { IsParts dims partition.now matrices.now }
    ensures { IfOk result (λ v. IsBounded dims (assembly dims partition.now matrices.now) v.items) }
{
    let mut vars = Vec::new(alloc);
    for v in 0..dims {
        if has_bound(partition, matrices, dims, v) {
            vars.push(v)?;
        }
    }
    Ok(vars)
}

/// The strengthened assembly of closed blocks, in the blocks that the variables with a bound merge.
pub(crate) fn merged_parts(
    alloc: Global,
    partition: &Partition,
    matrices: &[HalfMatrix],
    dims: u32,
) -> Result<Cut, NoMemory>
    requires few { dims ≤ 512 }
    requires parts { IsParts dims partition.now matrices.now }
    requires coherent { IsCoherent (assembly dims partition.now matrices.now) }
    requires strong { (b : ℕ) → b < length partition.now → strengthening (matrix matrices.now b) ≡ matrix matrices.now b }
    ensures parts { IfOk result (λ r. IsParts dims r.partition r.matrices.items) }
    ensures same { IfOk result (λ r. assembly dims r.partition r.matrices.items ≡ strengthening (assembly dims partition.now matrices.now)) }
{
    let vars = bounded(alloc, partition, matrices, dims)?;
    let mut merged = partition.copy(alloc)?;
    merged.merge(&vars)?;
    merged.known();
    let matrices = strong_parts_over(alloc, partition, matrices, dims, &merged)?;
    Ok(Cut {
        partition: merged,
        matrices,
    })
}
