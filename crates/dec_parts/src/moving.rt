// Added variables, the last ones, that take the places of others.
ghost use Rattle.std.specs.Prelude.{◌≡◌, ◌+◌, ◌<◌, ◌≤◌, IfOk, length};
ghost use Rattle.std.specs.List.{All};
ghost use Rattle.spl_core.specs.Facts.{AreDistinct};
ghost use Rattle.dec_oct.specs.Value.{octagon};
ghost use Rattle.dec_oct.specs.Cost.{TellsAgainOf};
ghost use Rattle.transfer_def.specs.Dimensions.{moved_variable as moved_variable_of};
ghost use Rattle.dec_parts.specs.Moving.{AreMovedOrigins, moved_value, KeepsOtherMarksOf, MarksAllButTargetsOf};

use crate::rename::renamed;
use dec_oct::DecOct;
use memory::NoMemory;
use std::alloc::Global;

// The variable that takes the place of v: of the first target the first added one, and so on.
fn moved_variable(first: u32, targets: &[u32], v: u32) -> u32
    requires small { first ≤ 512 }
    requires few { length targets.now ≤ 512 }
    ensures { result ≡ moved_variable_of first targets.now v }
{
    for k in 0..targets.len() {
        if targets[k] == v {
            return first + k as u32;
        }
    }
    v
}

// The old variables that take the places of the first ones.
fn moved_origins(alloc: Global, dims: u32, targets: &[u32]) -> Result<Vec<Option<u32>>, NoMemory>
    requires small { dims ≤ 512 }
    requires few { length targets.now ≤ 512 }
    ensures { IfOk result (λ o. AreMovedOrigins dims targets.now o.items) }
{
    let mut origins = Vec::with_capacity(alloc, dims as usize)?;
    for v in 0..dims {
        origins.push(Some(moved_variable(dims, targets, v)))?;
    }
    Ok(origins)
}

/// The first variables, with each target's place taken by an added variable, the last ones in order. A block without a
/// target and without an added variable is shared and keeps its mark. It closes nothing.
pub fn moved(alloc: Global, v: &DecOct, dims: u32, targets: &[u32]) -> Result<DecOct, NoMemory>
    requires small { dims + length targets.now ≤ 512 }
    requires dims { v.now.dims ≡ dims + length targets.now }
    ensures value { IfOk result (λ r. octagon r ≡ moved_value dims targets.now (octagon v.now)) }
    ensures marks { IfOk result (λ r. KeepsOtherMarksOf targets.now v.now.blocks r.blocks) }
    ensures missing { IfOk result (λ r. AreDistinct targets.now → All (λ x. x < dims) targets.now → TellsAgainOf v.now.blocks → MarksAllButTargetsOf dims targets.now (octagon v.now) r.blocks) }
{
    v.known();
    let origins = moved_origins(alloc, dims, targets)?;
    let r = renamed(alloc, v, &origins)?;
    r.known();
    Ok(r)
}
