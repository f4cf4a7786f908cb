// The calls.
ghost use Rattle.std.specs.Prelude.{◌≡◌, IfOk};
ghost use Rattle.oct_def.specs.Octagon.{join_value, widen_value, narrow_value};
ghost use Rattle.dec_oct.specs.Value.{octagon};
ghost use Rattle.dec_lattice.specs.Operation.{either_value};
ghost use Rattle.dec_lattice.specs.Marks.{JoinsMarks, NarrowsMarks};

use crate::coarser::coarser;
use crate::operation::Operation;
use crate::over::combined_over;
use block_partition::Partition;
use dec_oct::DecOct;
use memory::NoMemory;
use minplus_lanes::RowCount;
use std::alloc::Global;

// The join or the widening, over the intersections of blocks.
fn combined_in_both(
    alloc: Global,
    op: Operation,
    a: &DecOct,
    b: &DecOct,
) -> Result<DecOct, NoMemory>
    requires dims { a.now.dims ≡ b.now.dims }
    requires loses { op ≡ Operation.Narrowing → ⊥ }
    ensures value { IfOk result (λ v. octagon v ≡ either_value op (octagon a.now) (octagon b.now)) }
    ensures marks { IfOk result (λ v. JoinsMarks a.now.blocks b.now.blocks v.blocks) }
{
    a.known();
    b.known();
    match a.partition() {
        None => {
            let v = b.share()?;
            Ok(v)
        }
        Some(p) => match b.partition() {
            None => {
                let v = a.share()?;
                Ok(v)
            }
            Some(q) => {
                let meet = Partition::meet_of(alloc, p, q)?;
                meet.known();
                let v = combined_over(alloc, op, a, b, meet)?;
                Ok(v)
            }
        },
    }
}

/// The join: the greater entry at each place, and the other value where one is Bottom. It closes nothing, and takes time
/// quadratic in the size of each intersection of blocks; a Bottom takes none.
pub fn join(alloc: Global, a: &DecOct, b: &DecOct, count: &mut RowCount) -> Result<DecOct, NoMemory>
    requires { a.now.dims ≡ b.now.dims }
    ensures value { IfOk result (λ v. octagon v ≡ join_value (octagon a.now) (octagon b.now)) }
    ensures marks { IfOk result (λ v. JoinsMarks a.now.blocks b.now.blocks v.blocks) }
    ensures count { count.new ≡ count.old }
{
    let _ = count;
    let v = combined_in_both(alloc, Operation::Join, a, b)?;
    Ok(v)
}

/// The widening of the first value by the second: the first one's entry where the second one's isn't above it, else none, and
/// the other value where one is Bottom. It closes nothing, and takes time quadratic in the size of each intersection of
/// blocks; a Bottom takes none.
pub fn widen(
    alloc: Global,
    a: &DecOct,
    b: &DecOct,
    count: &mut RowCount,
) -> Result<DecOct, NoMemory>
    requires { a.now.dims ≡ b.now.dims }
    ensures value { IfOk result (λ v. octagon v ≡ widen_value (octagon a.now) (octagon b.now)) }
    ensures marks { IfOk result (λ v. JoinsMarks a.now.blocks b.now.blocks v.blocks) }
    ensures count { count.new ≡ count.old }
{
    let _ = count;
    let v = combined_in_both(alloc, Operation::Widening, a, b)?;
    Ok(v)
}

/// The narrowing of the first value by the second: the second one's entry where the first one has none, else the first
/// one's, and Bottom where one is Bottom. It closes nothing, and takes time quadratic in the size of each block of the two
/// partitions merged, beside a merge for each block of the second that no block of the first holds.
pub fn narrow(
    alloc: Global,
    a: &DecOct,
    b: &DecOct,
    count: &mut RowCount,
) -> Result<DecOct, NoMemory>
    requires { a.now.dims ≡ b.now.dims }
    ensures value { IfOk result (λ v. octagon v ≡ narrow_value (octagon a.now) (octagon b.now)) }
    ensures marks { IfOk result (λ v. NarrowsMarks a.now.blocks b.now.blocks v.blocks) }
    ensures count { count.new ≡ count.old }
{
    let _ = count;
    a.known();
    b.known();
    match a.partition() {
        None => Ok(DecOct::bottom(a.dims())),
        Some(p) => match b.partition() {
            None => Ok(DecOct::bottom(a.dims())),
            Some(q) => {
                let both = coarser(alloc, p, q, a.dims())?;
                both.known();
                let v = combined_over(alloc, Operation::Narrowing, a, b, both)?;
                Ok(v)
            }
        },
    }
}
