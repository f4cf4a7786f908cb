// Entries of the assembly of blocks.
ghost use Rattle.std.specs.Prelude.{◌≡◌, ℕ, ◌*◌, ◌/◌, ◌<◌, ◌≤◌, MatchOption, length, false};
ghost use Rattle.oct_def.specs.Bound.{bound_of};
ghost use Rattle.oct_def.specs.Octagon.{top_entry};
ghost use Rattle.block_partition.specs.Partition.{place, home, block, IsBlock};
ghost use Rattle.block_laws.specs.Assembly.{inner, is_joint, matrix, assembly_entry};

use block_partition::{Partition, place_of};
use half_matrix::HalfMatrix;
use oct_def::NONE;

/// The place in a block's matrix of a signed dimension of a member.
pub fn inner_of(members: &[u32], i: u32) -> u32
    requires block { IsBlock 512 members.now }
    requires small { length members.now ≤ 512 }
    requires member { place members.now (i / 2) < length members.now }
    ensures { result ≡ inner members.now i }
{
    let at = place_of(members, i / 2);
    2 * at as u32 + i % 2
}

// The block that has the variables of two signed dimensions.
fn joint_block(partition: &Partition, i: u32, j: u32) -> Option<u32>
    ensures { MatchOption result (is_joint partition.now i j ≡ false) (λ b. (home partition.now (i / 2) ≡ b) × (home partition.now (j / 2) ≡ b) × (b < length partition.now)) }
{
    match partition.block_of(i / 2) {
        Some(b) => match partition.block_of(j / 2) {
            Some(c) => if b == c { Some(b) } else { None },
            None => None,
        },
        None => None,
    }
}

// The word of top at (i, j).
fn top_word(i: u32, j: u32) -> i64
    ensures { bound_of result ≡ top_entry i j }
{
    if i == j { 0 } else { NONE }
}

/// The word at (i, j) of the assembly of blocks, found in time of the logarithm of the block's size.
pub(crate) fn entry_of(partition: &Partition, matrices: &[HalfMatrix], i: u32, j: u32) -> i64
    requires count { length matrices.now ≡ length partition.now }
    requires size { (b : ℕ) → b < length partition.now → length (matrix matrices.now b) ≡ 2 * length (block partition.now b) }
    ensures { bound_of result ≡ assembly_entry partition.now matrices.now i j }
{
    partition.known();
    match joint_block(partition, i, j) {
        Some(b) => {
            let members = partition.block(b);
            let row = inner_of(members, i);
            let column = inner_of(members, j);
            matrices[b as usize].buf().get(row, column)
        }
        None => top_word(i, j),
    }
}
