// A block's matrix with its mark.
ghost use Rattle.std.specs.Prelude.{◌≡◌, ◌<◌, IfOk, IfSome, IsSome, length, true, false};
ghost use Rattle.block_partition.specs.Partition.{IsBlock};
ghost use Rattle.block_laws.specs.Assembly.{restrict};
ghost use Rattle.dec_oct.specs.Value.{whole};
ghost use Rattle.dec_oct.specs.Cost.{IsMarkedBlock};

use dec_oct::DecOct;
use half_matrix::HalfMatrix;
use memory::NoMemory;
use std::alloc::Global;

/// A matrix over the members of a block, and whether the tight closure is known to give it again.
#[derive(Drop)]
pub(crate) struct Part {
    pub(crate) matrix: HalfMatrix,
    pub(crate) settled: bool,
}

/// The part of a value over some members, with the mark of the block that has just these members, if there is one.
pub(crate) fn kept_part(alloc: Global, v: &DecOct, members: &[u32]) -> Result<Part, NoMemory>
    requires not_bottom { IsSome v.now.blocks }
    requires members { IsBlock v.now.dims members.now }
    requires filled { 0 < length members.now }
    ensures matrix { IfOk result (λ p. IfSome v.now.blocks (λ b. p.matrix ≡ restrict members.now (whole v.now.dims b))) }
    ensures yes { IfOk result (λ p. p.settled ≡ true → IfSome v.now.blocks (λ b. IsMarkedBlock b members.now p.matrix)) }
    ensures no { IfOk result (λ p. p.settled ≡ false → IfSome v.now.blocks (λ b. IsMarkedBlock b members.now p.matrix → ⊥)) }
{
    let matrix = v.part(alloc, members)?;
    let settled = v.has_settled(members, &matrix);
    Ok(Part { matrix, settled })
}
