// The finest partition that is coarser than two.
ghost use Rattle.std.specs.Prelude.{◌≡◌, ℕ, ◌+◌, ◌<◌, ◌≤◌, IfOk, length, true, false};
ghost use Rattle.block_partition.specs.Partition.{member, home, IsPartition};
ghost use Rattle.dec_lattice.specs.Coarser.{IsCoarser, AreTogether};

use block_partition::Partition;
use memory::NoMemory;
use std::alloc::Global;

// Whether a variable is in a block.
fn is_at(partition: &Partition, v: u32, b: u32) -> bool
    ensures { result ≡ true → home partition.now v ≡ b }
{
    match partition.block_of(v) {
        Some(c) => b == c,
        None => false,
    }
}

// Whether some variables are all in a block.
fn are_at(partition: &Partition, members: &[u32], b: u32) -> bool
    ensures { result ≡ true → (i : ℕ) → i < length members.now → home partition.now (member members.now i) ≡ b }
{
    for i in 0..members.len() {
        if !is_at(partition, members[i], b) {
            return false;
        }
    }
    true
}

// Whether some variables are all in one block.
fn are_together(partition: &Partition, members: &[u32]) -> bool
    requires filled { 0 < length members.now }
    ensures { result ≡ true → AreTogether partition.now members.now }
{
    match partition.block_of(members[0]) {
        Some(b) => are_at(partition, members, b),
        None => false,
    }
}

/// The blocks of two partitions, merged where they share a variable. Each block of the second that no block holds takes the
/// time of a merge.
pub(crate) fn coarser(
    alloc: Global,
    a: &Partition,
    b: &Partition,
    dims: u32,
) -> Result<Partition, NoMemory>
    requires few { dims ≤ 512 }
    requires first { IsPartition dims a.now }
    requires second { IsPartition dims b.now }
    ensures { IfOk result (λ p. IsCoarser dims a.now b.now (length b.now) p) }
{
    b.known();
    let mut made = a.copy(alloc)?;
    for c in 0..b.len() {
        let members = b.block(c);
        if !are_together(&made, members) {
            made.merge(members)?;
        }
        made.known();
    }
    Ok(made)
}
