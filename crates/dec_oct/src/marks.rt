// Marks that blocks keep.
ghost use Rattle.std.specs.Prelude.{◌≡◌, ℕ, ◌<◌, IfOk, length, true, false};
ghost use Rattle.dec_oct.specs.Value.{blocks_of};
ghost use Rattle.dec_oct.specs.Cost.{IsMarkedBlock, TellsMarks};

use crate::cut::Cut;
use crate::parts::block_with;
use crate::same::same_matrix;
use block_partition::Partition;
use half_matrix::HalfMatrix;
use memory::NoMemory;
use std::alloc::Global;

/// Whether a block with its matrix is a marked one of some blocks.
pub(crate) fn is_marked_block(
    partition: &Partition,
    matrices: &[HalfMatrix],
    settled: &[bool],
    members: &[u32],
    m: &HalfMatrix,
) -> bool
    requires count { length matrices.now ≡ length partition.now }
    requires marks { length settled.now ≡ length partition.now }
    requires filled { 0 < length members.now }
    ensures yes { result ≡ true → IsMarkedBlock (blocks_of partition.now matrices.now settled.now) members.now m.now }
    ensures no { result ≡ false → IsMarkedBlock (blocks_of partition.now matrices.now settled.now) members.now m.now → ⊥ }
{
    partition.known();
    match block_with(partition, members) {
        Some(b) => {
            let at = b as usize;
            if settled[at] {
                same_matrix(matrices[at].buf(), m.buf())
            } else {
                false
            }
        }
        None => false,
    }
}

/// Which blocks of a cut are marked blocks of given ones.
pub(crate) fn kept_marks(
    alloc: Global,
    partition: &Partition,
    matrices: &[HalfMatrix],
    settled: &[bool],
    made: &Cut,
) -> Result<Vec<bool>, NoMemory>
    requires count { length matrices.now ≡ length partition.now }
    requires marks { length settled.now ≡ length partition.now }
    requires made { length made.now.matrices.items ≡ length made.now.partition }
    ensures { IfOk result (λ v. TellsMarks (blocks_of partition.now matrices.now settled.now) made.now.partition made.now.matrices.items v.items) }
{
    made.partition.known();
    let mut kept = Vec::new(alloc);
    for c in 0..made.partition.len() {
        let members = made.partition.block(c);
        let m = &made.matrices[c as usize];
        let yes = is_marked_block(partition, matrices, settled, members, m);
        kept.push(yes)?;
    }
    Ok(kept)
}
