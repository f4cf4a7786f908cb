// What the operations of the crates above read of a value, block by block.
ghost use Rattle.std.specs.Prelude.{◌≡◌, ◌<◌, IfOk, IfSome, IsSome, length, true, false};
ghost use Rattle.block_partition.specs.Partition.{IsBlock};
ghost use Rattle.block_laws.specs.Assembly.{restrict};
ghost use Rattle.dec_oct.specs.Value.{whole};
ghost use Rattle.dec_oct.specs.Cost.{IsMarkedBlock};

use crate::marks::is_marked_block;
use crate::parts::part;
use crate::value::DecOct;
use half_matrix::HalfMatrix;
use memory::NoMemory;
use std::alloc::Global;

impl DecOct {
    /// The part over some members. The matrix of a block that has just these members is shared; else each entry is found in
    /// time of the logarithm of its block's size.
    pub fn part(&self, alloc: Global, members: &[u32]) -> Result<HalfMatrix, NoMemory>
        requires not_bottom { IsSome self.now.blocks }
        requires members { IsBlock self.now.dims members.now }
        requires filled { 0 < length members.now }
        ensures { IfOk result (λ m. IfSome self.now.blocks (λ b. m ≡ restrict members.now (whole self.now.dims b))) }
    {
        self.known();
        match &self.held {
            None => unreachable!(),
            Some(h) => {
                let m = part(alloc, &h.partition, &h.matrices, self.dims, members)?;
                Ok(m)
            }
        }
    }

    /// Whether these members with this matrix are a marked block; never in Bottom. Each word is compared once, up to the
    /// first that differs.
    pub fn has_settled(&self, members: &[u32], m: &HalfMatrix) -> bool
        requires filled { 0 < length members.now }
        ensures yes { result ≡ true → IfSome self.now.blocks (λ b. IsMarkedBlock b members.now m.now) }
        ensures no { result ≡ false → IfSome self.now.blocks (λ b. IsMarkedBlock b members.now m.now → ⊥) }
    {
        self.known();
        match &self.held {
            None => false,
            Some(h) => is_marked_block(&h.partition, &h.matrices, &h.settled, members, m),
        }
    }
}
