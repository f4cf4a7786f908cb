// The components of an assembly of blocks: each block is walked by itself.
ghost use Rattle.std.specs.Prelude.{◌≡◌, ℕ, ◌*◌, ◌<◌, ◌≤◌, IfOk, OnOk, length};
ghost use Rattle.oct_def.specs.Matrix.{IsEvenMatrix};
ghost use Rattle.block_partition.specs.Partition.{member, block, home, IsOrdered};
ghost use Rattle.block_partition.specs.Changes.{IsSplitBy};
ghost use Rattle.block_laws.specs.Assembly.{matrix, assembly, IsParts};
ghost use Rattle.dec_oct.specs.Cut.{IsCut, IsCutUpTo};

use crate::parts::parts_over;
use crate::walk::{is_whole, link_labels};
use block_partition::Partition;
use half_matrix::HalfMatrix;
use memory::NoMemory;
use std::alloc::Global;

/// A partition with a matrix for each block.
#[derive(Drop)]
pub(crate) struct Cut {
    pub(crate) partition: Partition,
    pub(crate) matrices: Vec<HalfMatrix>,
}

// The block of a variable is split by labels of its members.
fn split_at(cut: &mut Partition, v: u32, labels: &[u32]) -> Result<(), NoMemory>
    requires block { home cut.old v < length cut.old }
    requires size { length labels.now ≡ length (block cut.old (home cut.old v)) }
    ensures { OnOk result (IsSplitBy cut.old (home cut.old v) labels.now cut.new) }
{
    match cut.block_of(v) {
        None => unreachable!(),
        Some(b) => {
            cut.split_by(b, labels)?;
            Ok(())
        }
    }
}

// The partition into the components, which lie within the blocks.
fn cut_partition(
    alloc: Global,
    partition: &Partition,
    matrices: &[HalfMatrix],
    dims: u32,
) -> Result<Partition, NoMemory>
    requires few { dims ≤ 512 }
    requires parts { IsParts dims partition.now matrices.now }
    ensures { IfOk result (λ p. IsCutUpTo dims partition.now (assembly dims partition.now matrices.now) (length partition.now) p) }
{
    partition.known();
    let mut cut = partition.copy(alloc)?;
    for b in 0..partition.len() {
        cut.known();
        let members = partition.block(b);
        let labels = link_labels(alloc, matrices[b as usize].buf())?;
        if !is_whole(&labels) {
            let first = members[0];
            split_at(&mut cut, first, &labels)?;
        }
    }
    Ok(cut)
}

/// The components of an assembly that is a value, with their matrices. Each block is walked in time quadratic in the number
/// of its members. The matrix of a block that doesn't split is shared.
pub(crate) fn cut_components(
    alloc: Global,
    partition: &Partition,
    matrices: &[HalfMatrix],
    dims: u32,
) -> Result<Cut, NoMemory>
    requires few { dims ≤ 512 }
    requires parts { IsParts dims partition.now matrices.now }
    requires value { IsEvenMatrix dims (assembly dims partition.now matrices.now) }
    ensures { IfOk result (λ r. IsCut dims (assembly dims partition.now matrices.now) r.partition r.matrices.items) }
{
    let cut = cut_partition(alloc, partition, matrices, dims)?;
    cut.known();
    let matrices = parts_over(alloc, partition, matrices, dims, &cut)?;
    Ok(Cut {
        partition: cut,
        matrices,
    })
}
