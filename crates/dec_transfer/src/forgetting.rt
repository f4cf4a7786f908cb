// Random assignments.
ghost use Rattle.std.specs.Prelude.{◌≡◌, ℕ, ◌<◌, ◌≤◌, IfOk, length};
ghost use Rattle.transfer_def.specs.Forget.{forget_value};
ghost use Rattle.dec_oct.specs.Value.{octagon};
ghost use Rattle.dec_transfer.specs.Forgotten.{AreOthers, KeepsUntouchedOf};

use dec_oct::DecOct;
use dec_parts::renamed;
use memory::NoMemory;
use minplus_lanes::RowCount;
use std::alloc::Global;

// All variables but the target, each at its place.
fn others(alloc: Global, dims: u32, target: u32) -> Result<Vec<Option<u32>>, NoMemory>
    requires small { dims ≤ 512 }
    ensures { IfOk result (λ o. AreOthers dims target o.items) }
{
    let mut origins = Vec::with_capacity(alloc, dims as usize)?;
    for v in 0..dims {
        if v == target {
            origins.push(None)?;
        } else {
            origins.push(Some(v))?;
        }
    }
    Ok(origins)
}

/// The value after the target became any integer. It closes nothing: what was implied through the target stands in a closed
/// value already. Blocks without the target are shared and keep their marks.
pub fn havoc(
    alloc: Global,
    v: &DecOct,
    target: u32,
    count: &mut RowCount,
) -> Result<DecOct, NoMemory>
    requires target { target < v.now.dims }
    ensures value { IfOk result (λ r. octagon r ≡ forget_value target (octagon v.now)) }
    ensures marks { IfOk result (λ r. KeepsUntouchedOf target v.now.blocks r.blocks) }
    ensures count { count.new ≡ count.old }
{
    let _ = count;
    v.known();
    let origins = others(alloc, v.dims(), target)?;
    let after = renamed(alloc, v, &origins)?;
    after.known();
    Ok(after)
}
